//! The worker that a run loses on purpose.

ghost use Rattle.std.specs.Prelude.{◌≡◌};
ghost use Rattle.run_views.specs.Loss.{is_due, loss_of};

use call_lines::u32_of;
use run_report::{Tallied, Watch, capped};
use std::sync::Wait;
use std::sync::atomic::{AtomicBool, Ordering};
use worker_loops::{Gate, Turn, Worked};

/// A worker that is lost once, with the first task that it begins in this superstep or a later one.
#[derive(Clone, Copy)]
pub struct Loss {
    /// The worker, numbered from 0.
    pub worker: u32,
    /// The first superstep whose task it may be lost with, numbered from 0.
    pub superstep: u32,
}

impl Loss {
    /// Reads a loss `W:S`. Both are numbers of 32 bits, in decimal digits.
    pub fn read(text: &str) -> Option<Loss>
        ensures { result ≡ loss_of text.now }
    {
        let (worker, superstep) = text.split_once(':')?;
        let worker = u32_of(worker.as_bytes())?;
        let superstep = u32_of(superstep.as_bytes())?;
        Some(Loss { worker, superstep })
    }

    /// Returns whether the worker is lost with a task of this superstep, if it was not lost before.
    pub fn is_due(self, worker: u32, superstep: u32) -> bool
        ensures { result ≡ is_due self worker superstep }
    {
        self.worker == worker && self.superstep <= superstep
    }
}

/// The gate of a run: one worker is lost, once, or none is, and no tick comes. Nobody but the worker that was lost joins again.
#[derive(Drop)]
pub struct LossGate {
    pub loss: Option<Loss>,
    /// Whether the worker that is lost joins again.
    pub again: bool,
    /// What is counted of the job, where it is watched.
    pub watch: Option<Watch>,
    // Whether it was lost.
    is_over: AtomicBool,
}

impl LossGate {
    /// The gate of a run in which nobody was lost yet: this worker is to be, or none, and joins again where `again` says so. The
    /// job is not watched.
    pub fn new(loss: Option<Loss>, again: bool) -> LossGate
        ensures loss { result.loss ≡ loss }
        ensures again { result.again ≡ again }
    {
        LossGate {
            loss,
            again,
            watch: None,
            is_over: AtomicBool::new(false),
        }
    }
}

impl Gate for LossGate {
    ghost use Rattle.std.specs.Prelude.{◌≡◌, IsSomeAnd, false, is_some, true};
    ghost use Rattle.run_views.specs.Loss.{is_due};
    ghost use Rattle.worker_loops.specs.declared.gate.Turn.TheVariants.{Go, Lose};

    ghost loses = { λ gate. is_some gate.loss };

    fn may_lose(&self) -> bool
        ensures { result ≡ is_some self.now.loss }
    {
        self.loss.is_some()
    }

    fn before(&self, worker: u32, superstep: u32, _part: u32) -> Turn
        ensures goes { is_some self.now.loss ≡ false → result ≡ Go }
        // A worker is lost only with a task of the loss.
        ensures loses { result ≡ Lose
            → IsSomeAnd self.now.loss (λ loss. is_due loss worker superstep ≡ true) }
    {
        let Some(loss) = self.loss else {
            return Turn::Go;
        };
        if !loss.is_due(worker, superstep) || self.is_over.swap(true, Ordering::SeqCst) {
            return Turn::Go;
        }
        Turn::Lose
    }

    fn again(&self, _worker: u32) -> bool
        ensures { result ≡ self.now.again }
    {
        self.again
    }

    fn tick(&self, _n: u64) -> bool
        ensures { result ≡ false }
    {
        false
    }

    fn counts(&self) -> bool
        ensures { result ≡ is_some self.now.watch }
    {
        self.watch.is_some()
    }

    fn worked<R: Wait>(&self, rt: &R, _worker: u32, work: Worked) {
        if let Some(watch) = &self.watch {
            count(rt, work, watch);
        }
    }
}

// Counts what a worker did.
fn count<R: Wait>(rt: &R, work: Worked, watch: &Watch) {
    let Some(found) = work.found else {
        return;
    };
    let task = Tallied {
        epoch: work.epoch,
        tasks: 1,
        units: capped(work.units),
        called: found.called,
        received: found.received,
        sent: work.sent as u64,
    };
    watch.add(rt, work.superstep, task);
}
