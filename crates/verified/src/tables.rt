//! The tables of a module in the bounded profile.

ghost use Rattle.std.specs.Prelude.{◌≡◌, IfOk};

use crate::HostCall;
use crate::cells::Cells;
use crate::extents::Extent;
use crate::facts::Facts;
use std::alloc::{AllocError, Global};

/// The tables of a module that keeps all rules, found once.
#[derive(Drop)]
pub struct Tables {
    pub facts: Facts,
    /// The host's function of each imported function, in order.
    pub calls: Vec<HostCall>,
    /// The cells that a frame needs, of each function that the module defines.
    pub cells: Vec<Cells>,
    /// The extents of the bytes that loads and stores reach.
    pub extents: Vec<Extent>,
}

impl Tables {
    /// Copies the tables. The only error is that an allocation fails.
    pub fn copy(&self, alloc: Global) -> Result<Tables, AllocError>
        ensures facts { IfOk result (λ copy. copy.facts ≡ self.now.facts) }
        ensures calls { IfOk result (λ copy. copy.calls.items ≡ self.now.calls.items) }
        ensures cells { IfOk result (λ copy. copy.cells.items ≡ self.now.cells.items) }
        ensures extents { IfOk result (λ copy. copy.extents.items ≡ self.now.extents.items) }
    {
        let mut calls = Vec::new(alloc);
        calls.extend_from_slice(self.calls.as_slice())?;
        let mut cells = Vec::new(alloc);
        cells.extend_from_slice(self.cells.as_slice())?;
        let mut extents = Vec::new(alloc);
        extents.extend_from_slice(self.extents.as_slice())?;
        Ok(Tables {
            facts: self.facts,
            calls,
            cells,
            extents,
        })
    }
}
