ghost use Rattle.std.specs.Prelude.{◌≡◌, ◌↔◌, ℕ, true, IfOk, IsTrue};
ghost use Rattle.std.specs.List.{AllByRecursion, flat_map};
ghost use Rattle.inbox.specs.inside.Shares.{goes_into, has, key_of, parts_of};

use crate::letters::Letter;
use std::alloc::{AllocError, Global};

// The greatest number of shares. Each share reads all letters, so more shares would cost more than they save.
const MOST_SHARES: usize = 16;

// The key of a target, by which parts differ.
#[derive(Clone, Copy)]
pub enum Key {
    // The bits of a target that are in this mask. Where the mask is one less than a power of two, it is the remainder by that.
    Bits(u64),
    // A target's remainder by this number, or by 1 where it is 0. It takes a division.
    Remainder(u64),
}

impl Key {
    // Returns the key of a job's parts, given their number.
    fn by(parts: u64) -> Key {
        if parts.is_power_of_two() {
            Key::Bits(parts - 1)
        } else {
            Key::Remainder(parts)
        }
    }

    fn of(self, target: u64) -> u64
        ensures { result ≡ key_of self target }
    {
        match self {
            Key::Bits(mask) => target & mask,
            Key::Remainder(parts) => target % parts.max(1),
        }
    }
}

// A set of targets: those whose keys are from `start` to `last`.
#[derive(Clone, Copy)]
pub struct TargetSet {
    key: Key,
    start: u64,
    last: u64,
}

impl TargetSet {
    // Returns the set of all targets.
    pub fn all() -> TargetSet
        ensures { (target : ℕ) → has result target ≡ true }
    {
        TargetSet {
            key: Key::Remainder(1),
            start: 0,
            last: 0,
        }
    }

    fn has(self, target: u64) -> bool
        ensures { result ≡ has self target }
    {
        let key = self.key.of(target);
        self.start <= key && key <= self.last
    }

    // Checks whether the letter goes to one of the targets.
    pub fn takes(self, letter: &Letter) -> bool
        ensures { result ≡ goes_into self letter.now }
    {
        match u64::try_from(letter.to) {
            Ok(target) => self.has(target),
            Err(_) => false,
        }
    }

    // Checks that all ids of these parts are among the targets.
    fn has_all(self, parts: &[Vec<u64>]) -> bool
        ensures { IsTrue result ↔ AllByRecursion
            (λ ids. AllByRecursion (λ id. has self id ≡ true) ids.items) parts.now }
    {
        for ids in parts {
            if !self.has_each(ids) {
                return false;
            }
        }
        true
    }

    fn has_each(self, ids: &[u64]) -> bool
        ensures { IsTrue result ↔ AllByRecursion (λ id. has self id ≡ true) ids.now }
    {
        for id in ids {
            if !self.has(*id) {
                return false;
            }
        }
        true
    }
}

// Consecutive parts, whose inboxes one thread makes. The target set has their ids if each part has the ids of its own
// remainder, as in a job.
#[derive(Clone, Copy)]
pub struct Share<'a> {
    pub parts: &'a [Vec<u64>],
    target_set: TargetSet,
}

impl<'a> Share<'a> {
    // Returns a set of targets that has all ids of the parts: the share's own, or all targets if that lacks one.
    pub fn targets(&self) -> TargetSet
        ensures { AllByRecursion (λ ids. AllByRecursion (λ id. has result id ≡ true) ids.items)
            self.now.parts.now }
    {
        if self.target_set.has_all(self.parts) {
            self.target_set
        } else {
            TargetSet::all()
        }
    }
}

// Splits the parts into shares: one for each part, but at most `most`, and at most 16.
pub fn shares<'a>(
    alloc: Global,
    ids: &'a [Vec<u64>],
    most: usize,
) -> Result<Vec<Share<'a>>, AllocError>
    ensures { IfOk result (λ shares. flat_map parts_of shares.items ≡ ids.now) }
{
    let mut left = ids.len().min(most).min(MOST_SHARES);
    let mut shares = Vec::with_capacity(alloc, left)?;
    let key = Key::by(ids.len() as u64);
    let mut start = 0u64;
    let mut rest = ids;
    while !rest.is_empty() {
        let size = (rest.len() / left.max(1)).max(1).min(rest.len());
        let (parts, others) = rest.split_at(size);
        let next = start.saturating_add(parts.len() as u64);
        let target_set = TargetSet {
            key,
            start,
            last: next.saturating_sub(1),
        };
        shares.push(Share { parts, target_set })?;
        start = next;
        rest = others;
        left = left.saturating_sub(1);
    }
    Ok(shares)
}
