ghost use Rattle.std.specs.Prelude.{◌≡◌, ◌++◌, filter, length, sum_by, vec_len, IfOk, OnOk};
ghost use Rattle.inbox.specs.Merging.{all_of, sent_in};
ghost use Rattle.inbox.specs.inside.Mail.{letters_in};
ghost use Rattle.inbox.specs.inside.Shares.{goes_into};

use crate::letters::Letter;
use crate::outbox::Outbox;
use crate::shares::TargetSet;
use std::alloc::{AllocError, Global};

// The letters of a superstep: in lists, in any order, or in outboxes.
#[derive(Clone, Copy)]
pub enum Mail<'a> {
    Loose(&'a [Vec<Letter>]),
    Sent(&'a [Outbox]),
}

// The greatest number of lists or outboxes that are read side by side.
const MOST_STREAMS: usize = 16;

// The greatest number of parts for each of which all outboxes are read.
const MOST_PARTS: usize = 4;

impl<'a> Mail<'a> {
    // Counts the letters.
    pub fn count(self) -> u128
        ensures { result ≡ length (letters_in self.entry) }
    {
        match self {
            Mail::Loose(lists) => item_count(lists),
            Mail::Sent(outboxes) => letter_count(outboxes),
        }
    }

    // Returns the number of letters. It stops at the greatest number.
    pub fn len(self) -> usize {
        usize::try_from(self.count()).unwrap_or(usize::MAX)
    }

    // Checks that reading all letters for each of so many parts costs less than copying and sorting those that go to the parts.
    pub fn are_streams(self, parts: usize) -> bool {
        match self {
            Mail::Loose(lists) => {
                lists.len() == 1 || (parts == 1 && lists.len() <= MOST_STREAMS)
            }
            Mail::Sent(outboxes) => parts <= MOST_PARTS && outboxes.len() <= MOST_STREAMS,
        }
    }

    // Copies the letters to these targets, in their order. Room for `room` letters is made at the start.
    pub fn letters_to(
        self,
        alloc: Global,
        targets: TargetSet,
        room: usize,
    ) -> Result<Vec<Letter>, AllocError>
        ensures { IfOk result (λ letters.
            letters.items ≡ filter (goes_into targets) (letters_in self.entry)) }
    {
        match self {
            Mail::Loose(lists) => letters_of_lists(alloc, lists, targets, room),
            Mail::Sent(outboxes) => letters_of_outboxes(alloc, outboxes, targets, room),
        }
    }
}

/// Counts the letters of all outboxes.
pub fn letter_count(outboxes: &[Outbox]) -> u128
    ensures { result ≡ sum_by length outboxes.now }
{
    let mut count = 0u128;
    for outbox in outboxes {
        count += outbox.len() as u128;
    }
    count
}

// Counts the items of all lists.
pub fn item_count<T>(lists: &[Vec<T>]) -> u128
    ensures { result ≡ sum_by (λ list. vec_len list) lists.now }
{
    let mut count = 0u128;
    for list in lists {
        count += list.len() as u128;
    }
    count
}

fn letters_of_lists(
    alloc: Global,
    lists: &[Vec<Letter>],
    targets: TargetSet,
    room: usize,
) -> Result<Vec<Letter>, AllocError>
    ensures { IfOk result (λ letters.
        letters.items ≡ filter (goes_into targets) (all_of lists.now)) }
{
    let mut letters = Vec::with_capacity(alloc, room)?;
    for list in lists {
        copy_list(list, targets, &mut letters)?;
    }
    Ok(letters)
}

// Appends those of a list's letters that go to these targets.
fn copy_list(
    list: &[Letter],
    targets: TargetSet,
    letters: &mut Vec<Letter>,
) -> Result<(), AllocError>
    ensures { OnOk result (letters.new.items
        ≡ letters.old.items ++ filter (goes_into targets) list.now) }
{
    for letter in list {
        if targets.takes(letter) {
            letters.push(*letter)?;
        }
    }
    Ok(())
}

fn letters_of_outboxes(
    alloc: Global,
    outboxes: &[Outbox],
    targets: TargetSet,
    room: usize,
) -> Result<Vec<Letter>, AllocError>
    ensures { IfOk result (λ letters.
        letters.items ≡ filter (goes_into targets) (sent_in outboxes.now)) }
{
    let mut letters = Vec::with_capacity(alloc, room)?;
    for outbox in outboxes {
        outbox.copy_to(targets, &mut letters)?;
    }
    Ok(letters)
}
