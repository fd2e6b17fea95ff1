//! Inboxes of parts. `NAME: IDS | IDS ..; LETTERS | LETTERS ..` prints the inboxes of each part, and the number of dropped
//! letters. If an id comes twice, or two letters of one source have the same number, it prints `not in order`.

ghost use Rattle.std.specs.Prelude.{IfOk, IsTrue, nat_eq};
ghost use Rattle.std.specs.List.{IsDistinct};
ghost use Rattle.inbox.specs.Merging.{all_of, are_one};

use super::{are_distinct, are_rising, ids_in, letters_in, tell_inboxes};
use conformance_cases::{Line, halves};
use inbox::{Inbox, Letter, merge_parts};
use std::alloc::{AllocError, Global};
use std::thread::Threads;

/// Writes the inboxes of a case's parts.
pub fn answer(rt: &(impl Threads + Sync), alloc: Global, case: &str, line: &mut Line) {
    let (ids, letters) = halves(case, ";");
    let mut unread = false;
    match ids_by_part(alloc, ids, &mut unread) {
        Ok(ids) => deliver(rt, alloc, letters, ids.as_slice(), unread, line),
        Err(_) => line.cut(),
    }
}

fn deliver(
    rt: &(impl Threads + Sync),
    alloc: Global,
    letters: &str,
    ids: &[Vec<u64>],
    unread_id: bool,
    line: &mut Line,
) {
    let mut unread = unread_id;
    match lists_of_letters(alloc, letters, &mut unread) {
        Ok(_) if unread => line.put("no number"),
        Ok(lists) => tell_delivered(rt, alloc, lists.as_slice(), ids, line),
        Err(_) => line.cut(),
    }
}

fn ids_by_part(alloc: Global, text: &str, unread: &mut bool) -> Result<Vec<Vec<u64>>, AllocError> {
    let mut parts = Vec::new(alloc);
    for part in text.split('|') {
        parts.push(ids_in(alloc, part, unread)?)?;
    }
    Ok(parts)
}

fn lists_of_letters(
    alloc: Global,
    text: &str,
    unread: &mut bool,
) -> Result<Vec<Vec<Letter>>, AllocError> {
    let mut lists = Vec::new(alloc);
    for list in text.split('|') {
        lists.push(letters_in(alloc, list, unread)?)?;
    }
    Ok(lists)
}

fn tell_delivered(
    rt: &(impl Threads + Sync),
    alloc: Global,
    lists: &[Vec<Letter>],
    ids: &[Vec<u64>],
    line: &mut Line,
) {
    match are_in_order(alloc, lists, ids) {
        Ok(true) => tell_merged(rt, alloc, lists, ids, line),
        Ok(false) => line.put("not in order"),
        Err(_) => line.cut(),
    }
}

fn tell_merged(
    rt: &(impl Threads + Sync),
    alloc: Global,
    lists: &[Vec<Letter>],
    ids: &[Vec<u64>],
    line: &mut Line,
)
    requires ids { IsDistinct nat_eq (all_of ids.now) }
    requires letters { IsDistinct are_one (all_of lists.now) }
{
    match merge_parts(rt, alloc, lists, ids) {
        Ok((parts, dropped)) => {
            tell_parts(&parts, line);
            line.add("dropped ", &dropped);
        }
        Err(_) => line.cut(),
    }
}

fn are_in_order(alloc: Global, lists: &[Vec<Letter>], ids: &[Vec<u64>]) -> Result<bool, AllocError>
    ensures ids { IfOk result (λ holds. IsTrue holds → IsDistinct nat_eq (all_of ids.now)) }
    ensures letters { IfOk result (λ holds. IsTrue holds → IsDistinct are_one (all_of lists.now)) }
{
    Ok(are_distinct_ids(alloc, ids)? && are_distinct_together(alloc, lists)?)
}

// Returns whether no id comes twice, in one part or in two.
fn are_distinct_ids(alloc: Global, ids: &[Vec<u64>]) -> Result<bool, AllocError>
    ensures { IfOk result (λ distinct. IsTrue distinct → IsDistinct nat_eq (all_of ids.now)) }
{
    let mut all = ids.concat(alloc)?;
    all.sort_unstable();
    Ok(are_rising(&all))
}

// Returns whether no two letters of all lists have the same source and number.
fn are_distinct_together(alloc: Global, lists: &[Vec<Letter>]) -> Result<bool, AllocError>
    ensures { IfOk result (λ distinct. IsTrue distinct → IsDistinct are_one (all_of lists.now)) }
{
    let all = lists.concat(alloc)?;
    Ok(are_distinct(&all))
}

// Writes the inboxes of each part, with a bar between parts.
fn tell_parts(parts: &[Vec<Inbox>], line: &mut Line) {
    for index in 0..parts.len() {
        if index > 0 {
            line.put("| ");
        }
        tell_inboxes(&parts[index], line);
    }
}
