ghost use Rattle.std.specs.Prelude.{◌≡◌, ◌≢◌, ◌≤◌, ◌<◌, ◌++◌, ◌^◌, ℕ, All, List, length, map, nat_eq, pos, false, slice_index, slice_index_or, sum_by, vec_items, IfNone, IfOk, IfSome, OnOk};
ghost use Rattle.std.specs.List.{IsDistinct, list_any};
ghost use Rattle.std.specs.List.Sorted.{IsStrictlyIncreasing, IsStrictlySortedBy};
ghost use Rattle.inbox.specs.declared.letters.Letter.{Letter as AnyLetter};
ghost use Rattle.inbox.specs.Arrivals.{arrivals_from};
ghost use Rattle.inbox.specs.Merging.{all_of, sent_in, are_one, dropped_of, goes_to, inboxes_of, IsBySource};
ghost use Rattle.inbox.specs.inside.Runs.{IsRunAfter};
ghost use Rattle.inbox.specs.inside.Targets.{target_cmp};

use crate::all_parts::{by_target, inbox_with};
use crate::inboxes::Inbox;
use crate::letters::Letter;
use crate::mail::Mail;
use crate::merging::place_of;
use crate::outbox::Outbox;
use crate::shares::TargetSet;
use std::alloc::{AllocError, Global};

/// An inbox that is not empty, and its row: the place of its id among the ids of its part, counted from 0.
#[derive(Drop)]
pub struct Arrival {
    pub row: usize,
    pub inbox: Inbox,
}

/// Makes only the inboxes that get messages, and counts the letters that go to no id. It is for few letters to many ids. For
/// each part there is a list of those inboxes, by rising row.
///
/// There may be any number of outboxes. The inboxes are those of [`merge_own_parts`](crate::merge_own_parts) that are not empty.
///
/// The letters are sorted by target, and each target is looked up among the ids of each part. For n letters, and p parts of m
/// ids each, it takes O(n log n + p n log m) time: no step goes over all ids. It fails only where memory runs out.
pub fn merge_few(
    alloc: Global,
    outboxes: &[Outbox],
    ids: &[Vec<u64>],
) -> Result<(Vec<Vec<Arrival>>, u128), AllocError>
    requires rising { All (λ part. IsStrictlyIncreasing part.items) ids.now }
    requires apart { IsDistinct nat_eq (all_of ids.now) }
    requires distinct { IsDistinct are_one (sent_in outboxes.now) }
    ensures arrivals { IfOk result (λ merged. (ordered : List AnyLetter)
        → IsBySource (sent_in outboxes.now) ordered
        → map vec_items merged.0.items
        ≡ map (λ part. arrivals_from 0 (inboxes_of ordered part.items)) ids.now) }
    ensures dropped { IfOk result (λ merged.
        merged.1 ≡ dropped_of (sent_in outboxes.now) (all_of ids.now)) }
{
    let mail = Mail::Sent(outboxes);
    let letters = by_target(alloc, mail, TargetSet::all(), mail.len())?;
    let parts = arrivals_in_all(alloc, &letters, ids)?;
    let dropped = mail.count() - message_count(&parts);
    Ok((parts, dropped))
}

// Makes the inboxes that get messages in each part. The letters are sorted by target.
fn arrivals_in_all(
    alloc: Global,
    letters: &[Letter],
    ids: &[Vec<u64>],
) -> Result<Vec<Vec<Arrival>>, AllocError>
    requires sorted { IsStrictlySortedBy target_cmp letters.now }
    requires rising { All (λ part. IsStrictlyIncreasing part.items) ids.now }
    ensures { IfOk result (λ parts. map vec_items parts.items
        ≡ map (λ part. arrivals_from 0 (inboxes_of letters.now part.items)) ids.now) }
{
    let mut parts = Vec::with_capacity(alloc, ids.len())?;
    for part in ids {
        let arrivals = arrivals_in(alloc, letters, part)?;
        parts.push_reserved(arrivals);
    }
    Ok(parts)
}

// Makes the inboxes that get messages in one part, a target after another.
fn arrivals_in(alloc: Global, letters: &[Letter], ids: &[u64]) -> Result<Vec<Arrival>, AllocError>
    requires sorted { IsStrictlySortedBy target_cmp letters.now }
    requires rising { IsStrictlyIncreasing ids.now }
    ensures { IfOk result (λ arrivals.
        arrivals.items ≡ arrivals_from 0 (inboxes_of letters.now ids.now)) }
{
    let mut arrivals = Vec::new(alloc);
    let mut rest = letters;
    while !rest.is_empty() {
        let (run, others) = rest.split_at(run_length(rest));
        arrive(alloc, run, ids, &mut arrivals)?;
        rest = others;
    }
    Ok(arrivals)
}

// Returns the number of letters at the start that go to the first one's target.
fn run_length(letters: &[Letter]) -> usize
    requires { 0 < length letters.now }
    ensures some { 0 < result }
    ensures bound { result ≤ length letters.now }
    ensures one { (k : ℕ) (d : AnyLetter) → k < result
        → (slice_index_or letters.now k d).to ≡ (slice_index_or letters.now 0 d).to }
    ensures next { (d : AnyLetter) → result < length letters.now
        → (slice_index_or letters.now result d).to ≢ (slice_index_or letters.now 0 d).to }
{
    for index in 1..letters.len() {
        if letters[index].to != letters[0].to {
            return index;
        }
    }
    letters.len()
}

// Adds the inbox of the id to which all of these letters go, if there is one.
fn arrive(
    alloc: Global,
    run: &[Letter],
    ids: &[u64],
    arrivals: &mut Vec<Arrival>,
) -> Result<(), AllocError>
    requires some { 0 < length run.now }
    requires rising { IsStrictlyIncreasing ids.now }
    ensures { OnOk result ((sent : List AnyLetter) → IsRunAfter sent run.now
        → arrivals.old.items ≡ arrivals_from 0 (inboxes_of sent ids.now)
        → arrivals.new.items ≡ arrivals_from 0 (inboxes_of (sent ++ run.now) ids.now)) }
{
    if let Some(row) = row_of(ids, &run[0]) {
        let inbox = inbox_with(alloc, run)?;
        arrivals.push(Arrival { row, inbox })?;
    }
    Ok(())
}

// Finds the row of the id to which the letter goes.
fn row_of(ids: &[u64], letter: &Letter) -> Option<usize>
    requires { IsStrictlyIncreasing ids.now }
    ensures inside { IfSome result (λ row. row < length ids.now) }
    ensures found { IfSome result (λ row. letter.now.to ≡ pos (slice_index ids.now row)) }
    ensures none { IfNone result (list_any (goes_to letter.now) ids.now ≡ false) }
{
    place_of(ids, letter.to)
}

// Counts the messages to all parts.
fn message_count(parts: &[Vec<Arrival>]) -> u128
    requires { sum_by (λ part. sum_by (λ arrival. length arrival.inbox) part.items) parts.now
        < 2 ^ 128 }
    ensures { result
        ≡ sum_by (λ part. sum_by (λ arrival. length arrival.inbox) part.items) parts.now }
{
    let mut count = 0u128;
    for part in parts {
        count += messages_in(part);
    }
    count
}

// Counts the messages to one part.
fn messages_in(arrivals: &[Arrival]) -> u128
    ensures { result ≡ sum_by (λ arrival. length arrival.inbox) arrivals.now }
{
    let mut count = 0u128;
    for arrival in arrivals {
        count += arrival.inbox.as_slice().len() as u128;
    }
    count
}
