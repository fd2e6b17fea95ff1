ghost use Rattle.std.specs.Prelude.{◌≡◌, ◌∷◌, ◌++◌, [], ◌<◌, List, map, length, pos, false, slice_index, replicate, IfOk, OnOk, IfSome, IfNone};
ghost use Rattle.std.specs.List.{IsDistinct, list_any};
ghost use Rattle.std.specs.Ordering.{int_eq};
ghost use Rattle.std.specs.List.Sorted.{IsStrictlyIncreasing};
ghost use Rattle.inbox.specs.declared.letters.Letter.{Letter as AnyLetter};
ghost use Rattle.inbox.specs.Merging.{are_one, goes_to, IsBySource, inbox_of, dropped_of};

use crate::inboxes::Inbox;
use crate::letters::Letter;
use std::alloc::{AllocError, Global};

/// Makes an inbox for each of these ids, and counts the letters that go to none of them.
///
/// An inbox has the values of the letters to its id, by source and in the order of sending. The order of `letters` makes no
/// difference. It takes O(n log n) time, and fails only where memory runs out.
pub fn merge(
    alloc: Global,
    letters: &[Letter],
    ids: &[u64],
) -> Result<(Vec<Inbox>, u64), AllocError>
    requires rising { IsStrictlyIncreasing ids.now }
    requires distinct { IsDistinct are_one letters.now }
    ensures inboxes { IfOk result (λ merged. (ordered : List AnyLetter)
        × IsBySource letters.now ordered
        × (merged.0.items ≡ map (inbox_of ordered) ids.now)) }
    ensures dropped { IfOk result (λ merged. merged.1 ≡ dropped_of letters.now ids.now) }
{
    let ordered = by_source(alloc, letters)?;
    let mut inboxes = empty_inboxes(alloc, ids.len())?;
    let mut dropped = 0;
    for letter in &ordered {
        if !deliver(letter, ids, &mut inboxes)? {
            dropped += 1;
        }
    }
    Ok((inboxes, dropped))
}

// Sorts the letters by source, and those of one source in the order of sending.
fn by_source(alloc: Global, letters: &[Letter]) -> Result<Vec<&Letter>, AllocError>
    requires { IsDistinct are_one letters.now }
    ensures { IfOk result (λ ordered.
        IsBySource letters.now (map (λ letter. letter.now) ordered.items)) }
{
    let mut ordered: Vec<&Letter> = letters.iter().collect(alloc)?;
    ordered.sort_unstable_by_key(|letter| (letter.from, letter.seq));
    Ok(ordered)
}

fn empty_inboxes(alloc: Global, count: usize) -> Result<Vec<Inbox>, AllocError>
    ensures { IfOk result (λ inboxes. inboxes.items ≡ replicate count []) }
{
    let mut inboxes = Vec::with_capacity(alloc, count)?;
    for _ in 0..count {
        inboxes.push_reserved(Inbox::empty(alloc));
    }
    Ok(inboxes)
}

// Puts the letter's value into the inbox of its target, and returns whether there is one.
fn deliver(letter: &Letter, ids: &[u64], inboxes: &mut [Inbox]) -> Result<bool, AllocError>
    requires rising { IsStrictlyIncreasing ids.now }
    requires one_each { length inboxes.old ≡ length ids.now }
    ensures delivered { OnOk result ((sent : List AnyLetter)
        → inboxes.old ≡ map (inbox_of sent) ids.now
        → inboxes.new ≡ map (inbox_of (sent ++ letter.now ∷ [])) ids.now) }
    ensures found { IfOk result (λ found. found ≡ list_any (goes_to letter.now) ids.now) }
{
    match place_of(ids, letter.to) {
        Some(place) => {
            inboxes[place].push(letter.value)?;
            Ok(true)
        }
        None => Ok(false),
    }
}

// Finds the place of an id among ids that rise.
pub fn place_of(ids: &[u64], id: i64) -> Option<usize>
    requires { IsStrictlyIncreasing ids.now }
    ensures inside { IfSome result (λ place. place < length ids.now) }
    ensures found { IfSome result (λ place. id ≡ pos (slice_index ids.now place)) }
    ensures none { IfNone result (list_any (λ other. int_eq id (pos other)) ids.now ≡ false) }
{
    match u64::try_from(id) {
        Ok(id) => ids.binary_search(&id).ok(),
        Err(_) => None,
    }
}
