//! A Keep that is not honest.

ghost use Rattle.std.specs.Prelude.{◌≡◌, ◌≤◌, true};
ghost use Rattle.checkpoint.specs.Keep.{HasFailed};

use checkpoint::{Device, Keep, KeepFault, MemoryKeep};
use std::alloc::{AllocError, Global};

/// What is wrong with a Keep.
#[derive(Drop)]
pub enum Wrong {
    Nothing,
    /// The device fails at this call, from 1. Saves and loads are counted together.
    Fails(u64),
    /// This byte of what is loaded is another.
    Changes(usize),
    /// These bytes are loaded, whatever was saved.
    Loads(Vec<u8>),
}

/// A Keep in memory with which something is wrong.
#[derive(Drop)]
pub struct FaultyKeep {
    alloc: Global,
    memory: MemoryKeep,
    wrong: Wrong,
    calls: u64,
    failures: u64,
    last: Vec<u8>,
}

impl FaultyKeep {
    pub fn new(alloc: Global, wrong: Wrong) -> FaultyKeep {
        FaultyKeep {
            alloc,
            memory: MemoryKeep::new(alloc),
            wrong,
            calls: 0,
            failures: 0,
            last: Vec::new(alloc),
        }
    }

    /// Returns the bytes of the last good save.
    pub fn last(&self) -> &[u8] {
        self.last.as_slice()
    }

    // Returns whether the device fails at this call.
    fn fails(&mut self) -> bool
        ensures memory { self.new.memory ≡ self.old.memory }
        ensures later { self.old.failures ≤ self.new.failures }
        ensures failed { result ≡ true → HasFailed self.old.failures self.new.failures }
    {
        self.calls = self.calls.saturating_add(1);
        if !self.is_last_call() {
            return false;
        }
        self.failures = self.failures.saturating_add(1);
        true
    }

    fn is_last_call(&self) -> bool {
        match &self.wrong {
            Wrong::Fails(call) => *call == self.calls,
            _ => false,
        }
    }

    // Returns the bytes to load in place of the saved ones.
    fn loaded(&self, mut saved: Vec<u8>) -> Result<Vec<u8>, AllocError> {
        match &self.wrong {
            Wrong::Loads(bytes) => Vec::from_slice(self.alloc, bytes.as_slice()),
            Wrong::Changes(place) => {
                if let Some(byte) = saved.get_mut(*place) {
                    *byte ^= 1;
                }
                Ok(saved)
            }
            _ => Ok(saved),
        }
    }
}

impl Keep for FaultyKeep {
    ghost use Rattle.std.specs.Prelude.{false};
    ghost use Rattle.checkpoint.specs.Memory.{superstep_in};

    ghost saved = { λ keep. superstep_in keep.memory };

    ghost may_load = { λ _ _. Unit {0} };

    ghost honest = { λ _. false };

    ghost faults = { λ keep. keep.failures };

    fn save<R: Device + AllocGlobal>(
        &mut self,
        rt: &R,
        superstep: u32,
        bytes: &[u8],
    ) -> Result<(), KeepFault> {
        if self.fails() {
            return Err(KeepFault::Device);
        }
        let Ok(last) = Vec::from_slice(self.alloc, bytes) else {
            return Err(KeepFault::OutOfMemory);
        };
        self.last = last;
        match self.memory.save(rt, superstep, bytes) {
            Ok(()) => Ok(()),
            Err(_) => Err(KeepFault::OutOfMemory),
        }
    }

    fn load<R: Device + AllocGlobal>(
        &mut self,
        rt: &R,
        superstep: u32,
    ) -> Result<Vec<u8>, KeepFault> {
        if self.fails() {
            return Err(KeepFault::Device);
        }
        let Ok(saved) = self.memory.load(rt, superstep) else {
            return Err(KeepFault::OutOfMemory);
        };
        match self.loaded(saved) {
            Ok(bytes) => Ok(bytes),
            Err(_) => Err(KeepFault::OutOfMemory),
        }
    }

    fn failures(&self) -> u64 {
        self.failures
    }
}
