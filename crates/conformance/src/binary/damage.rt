//! Damaged bytes: proper fronts, and each change of one byte to another.

use super::bounded::is_bounded;
use super::sweep::{ALL, EVERYWHERE, changes};
use crate::modules::{boxed, decoded, spelling};
use conformance_cases::Line;
use std::alloc::Global;
use wasm_ast::Module;
use wasm_decode::{DecodeFault, DecodeRule, decode};

/// Writes what becomes of the bytes, damaged in each way.
pub fn tell_damaged(alloc: Global, bytes: &[u8], line: &mut Line) {
    line.show(&bytes.len());
    line.put(" bytes; fronts: ");
    Fronts::of(alloc, bytes).tell(line);
    match Vec::from_slice(alloc, bytes) {
        Ok(mut bytes) => changes(alloc, &mut bytes, EVERYWHERE, ALL).tell(line),
        Err(_) => line.cut(),
    }
}

// The answers to the proper fronts.
#[derive(Drop)]
struct Fronts {
    // the lengths of those that are modules, and whose shortest spelling is a spelling of the same module
    modules: Line,
    // the lengths of those that lack the bodies of their functions
    without_bodies: Line,
    // how many end within a part, and are reported as truncated
    truncated: usize,
}

impl Fronts {
    fn of(alloc: Global, bytes: &[u8]) -> Fronts {
        let mut fronts = Fronts {
            modules: Line::new(alloc),
            without_bodies: Line::new(alloc),
            truncated: 0,
        };
        for length in 0..bytes.len() {
            fronts.take(length, fate_of(alloc, &bytes[..length]));
        }
        fronts
    }

    // Counts the fate of the front of this length.
    fn take(&mut self, length: usize, fate: Fate) {
        match fate {
            Fate::Kept => list(length, &mut self.modules),
            Fate::Refused(DecodeFault::Refused(rule, place)) if place == length => {
                self.take_refused(length, rule);
            }
            _ => {}
        }
    }

    // Counts a front that is refused at its end.
    fn take_refused(&mut self, length: usize, rule: DecodeRule) {
        match rule {
            DecodeRule::CountMismatch => list(length, &mut self.without_bodies),
            DecodeRule::Truncated => self.truncated = self.truncated.saturating_add(1),
            _ => {}
        }
    }

    fn tell(&self, line: &mut Line) {
        line.put("[");
        line.append(&self.modules);
        line.put("] decode, [");
        line.append(&self.without_bodies);
        line.add("] CountMismatch, ", &self.truncated);
        line.put(" Truncated");
    }
}

// Appends a length to a list of them.
fn list(length: usize, lengths: &mut Line) {
    let gap = if lengths.is_empty() { "" } else { ", " };
    lengths.add(gap, &length);
}

/// The fate of bytes.
#[derive(Clone, Copy)]
pub enum Fate {
    Refused(DecodeFault),
    /// They are a module that its shortest spelling gives back, and whose calls are bounded if it is in the profile.
    Kept,
    /// They are another module, or memory runs out.
    Lost,
}

/// How many damaged bytes have which fate.
#[derive(Clone, Copy)]
pub struct Fates {
    refused: u64,
    kept: u64,
    pub lost: u64,
}

impl Fates {
    pub fn new() -> Fates {
        Fates {
            refused: 0,
            kept: 0,
            lost: 0,
        }
    }

    pub fn take(&mut self, fate: Fate) {
        match fate {
            Fate::Refused(_) => self.refused = self.refused.saturating_add(1),
            Fate::Kept => self.kept = self.kept.saturating_add(1),
            Fate::Lost => self.lost = self.lost.saturating_add(1),
        }
    }

    fn tell(self, line: &mut Line) {
        line.add("; changes: ", &self.refused);
        line.add(" refused, ", &self.kept);
        line.add(" kept, ", &self.lost);
        line.put(" lost");
    }

    pub fn count(self) -> u64 {
        self.refused
            .saturating_add(self.kept)
            .saturating_add(self.lost)
    }
}

/// Changes the byte at this place, if there is one. The same change a second time undoes it.
pub fn change(bytes: &mut [u8], place: usize, difference: u8) {
    if let Some(byte) = bytes.get_mut(place) {
        *byte ^= difference;
    }
}

/// Returns the fate of these bytes.
pub fn fate_of(alloc: Global, bytes: &[u8]) -> Fate {
    match decode(alloc, bytes) {
        Ok(module) => match boxed(alloc, module) {
            Ok(module) => fate_of_module(alloc, module),
            Err(_) => Fate::Lost,
        },
        Err(DecodeFault::OutOfMemory) => Fate::Lost,
        Err(fault) => Fate::Refused(fault),
    }
}

fn fate_of_module(alloc: Global, module: Box<Module>) -> Fate {
    if comes_back(alloc, &module) && is_bounded(alloc, Box::into_inner(module)) {
        Fate::Kept
    } else {
        Fate::Lost
    }
}

// Returns whether the shortest spelling of the module spells it.
fn comes_back(alloc: Global, module: &Module) -> bool {
    match spelling(alloc, module) {
        Ok(bytes) => is_spelled(alloc, module, &bytes),
        Err(_) => false,
    }
}

fn is_spelled(alloc: Global, module: &Module, bytes: &[u8]) -> bool {
    match decoded(alloc, bytes) {
        Ok(spelled) => *spelled == *module,
        Err(_) => false,
    }
}
