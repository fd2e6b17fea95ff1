//! What is counted of a job while it runs.

use crate::tally::{Tallied, Tally};
use std::alloc::Global;
use std::sync::atomic::{AtomicBool, Ordering};
use std::sync::{Mutex, MutexGuard, Wait};

/// What the workers of a job did so far, superstep by superstep.
#[derive(Drop)]
pub struct Watch {
    tally: Mutex<Tally>,
    // Whether there was no memory for a count.
    is_short: AtomicBool,
}

impl Watch {
    /// That of a job with so many parts, before it begins.
    pub fn new(alloc: Global, parts: u32) -> Watch {
        Watch {
            tally: Mutex::new(Tally::new(alloc, parts)),
            is_short: AtomicBool::new(false),
        }
    }

    /// Counts a task that a worker did in this superstep.
    pub fn add<R: Wait>(&self, rt: &R, superstep: u32, task: Tallied) {
        let added = self.tally.lock(rt).add(superstep, task);
        if added.is_err() {
            self.is_short.store(true, Ordering::SeqCst);
        }
    }

    /// All that was counted.
    pub fn tally<R: Wait>(&self, rt: &R) -> MutexGuard<'_, Tally> {
        self.tally.lock(rt)
    }

    /// Whether there was no memory for a count.
    pub fn is_short(&self) -> bool {
        self.is_short.load(Ordering::SeqCst)
    }
}
