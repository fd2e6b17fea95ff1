//! A Keep in memory.

ghost use Rattle.std.specs.Prelude.{◌≡◌, None};

use crate::device::Device;
use crate::keep::{Keep, KeepFault};
use std::alloc::Global;

// The last save: its superstep and its bytes.
#[derive(Drop)]
struct Saved {
    superstep: u32,
    bytes: Vec<u8>,
}

/// A Keep in memory, which has no device that fails.
pub struct MemoryKeep {
    alloc: Global,
    last: Option<Saved>,
}

impl Drop for MemoryKeep {
    fn drop(self) {
        let MemoryKeep { alloc: _, last: _ } = self;
    }
}

impl MemoryKeep {
    ghost use Rattle.checkpoint.specs.Memory.{superstep_in};

    /// Makes a Keep without a save. It allocates nothing.
    pub fn new(alloc: Global) -> MemoryKeep
        ensures { superstep_in result ≡ None }
    {
        MemoryKeep { alloc, last: None }
    }
}

impl Keep for MemoryKeep {
    ghost use Rattle.std.specs.Prelude.{true, ℕ, List, Some, OnErr, OnOk};
    ghost use Rattle.checkpoint.specs.Keep.{HasCause, IsKeptOrNone, Only};
    ghost use Rattle.checkpoint.specs.Memory.{IsHeld, superstep_in};

    ghost saved = { superstep_in };

    ghost may_load = { IsHeld };

    ghost honest = { λ _. true };

    ghost faults = { λ _. 0 };

    fn save<R: Device + AllocGlobal>(
        &mut self,
        _rt: &R,
        superstep: u32,
        bytes: &[u8],
    ) -> Result<(), KeepFault>
        ensures saved { OnOk result (superstep_in self.new ≡ Some superstep) }
        ensures bytes { OnOk result (Only bytes.now (IsHeld self.new)) }
        ensures held { OnOk result (IsHeld self.new bytes.now) }
        // A failed save leaves the last good one, also if that one has the same superstep.
        ensures left { OnErr result (self.new ≡ self.old) }
        ensures kept { OnErr result
            (IsKeptOrNone superstep (superstep_in self.old) (superstep_in self.new)) }
        ensures kept_bytes { OnErr result ((other : List ℕ)
            → IsHeld self.new other → IsHeld self.old other) }
        ensures cause { HasCause 0 0 result }
    {
        match bytes.to_vec(self.alloc) {
            Ok(bytes) => {
                self.last = Some(Saved { superstep, bytes });
                Ok(())
            }
            Err(_) => Err(KeepFault::OutOfMemory),
        }
    }

    fn load<R: Device + AllocGlobal>(
        &mut self,
        _rt: &R,
        _superstep: u32,
    ) -> Result<Vec<u8>, KeepFault> {
        match &self.last {
            Some(saved) => match saved.bytes.as_slice().to_vec(self.alloc) {
                Ok(bytes) => Ok(bytes),
                Err(_) => Err(KeepFault::OutOfMemory),
            },
            None => unreachable!(),
        }
    }

    fn failures(&self) -> u64 {
        0
    }
}
