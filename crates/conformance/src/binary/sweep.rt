//! The bytes of a module, damaged: each proper front, and each byte changed to others.

use super::damage::{Fates, change, fate_of};
use conformance_cases::Line;
use std::alloc::Global;

/// The other bytes that are tried at a place: their number, and the distance between them. The first differs in the last
/// bit only.
#[derive(Clone, Copy)]
pub struct Others {
    count: u8,
    stride: u8,
}

/// All of them.
pub const ALL: Others = Others {
    count: 255,
    stride: 1,
};

/// Every 16th of them.
pub const SOME: Others = Others {
    count: 16,
    stride: 16,
};

/// Places from a first one on, at equal distances.
#[derive(Clone, Copy)]
pub struct Places {
    pub first: usize,
    pub step: usize,
}

/// All places.
pub const EVERYWHERE: Places = Places { first: 0, step: 1 };

impl Places {
    /// Returns whether this place is one of them.
    fn has(self, place: usize) -> bool {
        place.checked_rem(self.step) == Some(self.first)
    }
}

/// Tries the fronts that end at these places and the changes there. Writes their numbers, and how many are lost.
pub fn swept(alloc: Global, bytes: &mut [u8], places: Places, others: Others, line: &mut Line) {
    let fronts = fronts(alloc, bytes, places);
    let changes = changes(alloc, bytes, places, others);
    let lost = fronts.lost.saturating_add(changes.lost);
    let (fronts, changes) = (fronts.count(), changes.count());
    line.show(&fronts);
    line.add(" fronts and ", &changes);
    line.add(" changes, ", &lost);
    line.put(" lost");
}

fn fronts(alloc: Global, bytes: &[u8], places: Places) -> Fates {
    let mut fates = Fates::new();
    for length in 0..bytes.len() {
        if places.has(length) {
            fates.take(fate_of(alloc, &bytes[..length]));
        }
    }
    fates
}

/// Tries the changes at these places. In the end the bytes are what they were.
pub fn changes(alloc: Global, bytes: &mut [u8], places: Places, others: Others) -> Fates {
    let mut fates = Fates::new();
    for place in 0..bytes.len() {
        if places.has(place) {
            change_at(alloc, bytes, place, others, &mut fates);
        }
    }
    fates
}

fn change_at(alloc: Global, bytes: &mut [u8], place: usize, others: Others, fates: &mut Fates) {
    let mut difference = 1u8;
    for _ in 0..others.count {
        change(bytes, place, difference);
        fates.take(fate_of(alloc, bytes));
        change(bytes, place, difference);
        difference = difference.wrapping_add(others.stride);
    }
}
