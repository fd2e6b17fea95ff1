//! Gates, which decide which workers are lost and how time passes, and may watch a job.

use std::sync::Wait;
use superstep::Found;

/// The fate of a worker and its task.
#[derive(Clone, Copy)]
pub enum Turn {
    /// It works on it.
    Go,
    /// It is lost, and the task with it.
    Lose,
}

/// The work of a worker for a task.
#[derive(Clone, Copy)]
pub struct Worked {
    /// The epoch of the task. A superstep that is run again has a greater one.
    pub epoch: u64,
    pub superstep: u32,
    /// From 0 on.
    pub part: u32,
    /// The units of the part's calls. They stop at the greatest number of 128 bits.
    pub units: u128,
    /// How many messages the part's vertices sent.
    pub sent: usize,
    /// What the task found in its part, where `Gate::counts` asks for it.
    pub found: Option<Found>,
}

/// The judge of which workers are lost and when the ticker ticks, which may also watch the job. Of its answers it is claimed alone
/// that a gate that loses nobody lets each worker go on, and no tick come. The answer of a job does not depend on what it is shown.
///
/// A gate that shows progress, or reports what a job did, implements `worked`, and `counts` if it needs more than units.
pub trait Gate {
    ghost use Rattle.std.specs.Prelude.{◌≡◌, Bool, false};
    ghost use Rattle.worker_loops.specs.declared.gate.Turn.TheVariants.{Go};

    /// Whether a worker may be lost or a tick come.
    ghost loses: { Self → Bool };

    /// Returns whether a worker may be lost or a tick come.
    fn may_lose(&self) -> bool
        ensures { result ≡ loses self.now };

    /// Returns what the worker does with the task of this part. It is called before each task.
    fn before(&self, worker: u32, superstep: u32, part: u32) -> Turn
        ensures goes { loses self.now ≡ false → result ≡ Go };

    /// Returns whether a lost worker joins again. It is called right after each `Lose`. A worker that its lease has lost before does
    /// not join.
    fn again(&self, worker: u32) -> bool;

    /// Returns whether the tick of this number comes. Ticks are numbered from 1. It is called before each tick.
    fn tick(&self, n: u64) -> bool
        ensures never { loses self.now ≡ false → result ≡ false };

    /// Returns whether `worked` is shown what each task found in its part. To count that takes a look at each vertex. By default
    /// nothing is counted.
    fn counts(&self) -> bool {
        false
    }

    /// Receives what a worker did for a task, before the result is sent. Each worker calls it in its own thread, so several calls
    /// may be made at once. A task that ran out of memory is not shown. A superstep that is run again, after a worker was lost, is
    /// shown again in a greater epoch.
    fn worked<R: Wait>(&self, _rt: &R, _worker: u32, _work: Worked) {}
}

/// The gate by which nobody is lost and no tick comes.
pub struct NoLoss;

impl Gate for NoLoss {
    ghost use Rattle.std.specs.Prelude.{◌≡◌, false};
    ghost use Rattle.worker_loops.specs.declared.gate.Turn.TheVariants.{Go};

    ghost loses = { λ _. false };

    fn may_lose(&self) -> bool
        ensures { result ≡ false }
    {
        false
    }

    fn before(&self, _worker: u32, _superstep: u32, _part: u32) -> Turn
        ensures { result ≡ Go }
    {
        Turn::Go
    }

    fn again(&self, _worker: u32) -> bool
        ensures { result ≡ false }
    {
        false
    }

    fn tick(&self, _n: u64) -> bool
        ensures { result ≡ false }
    {
        false
    }

    fn counts(&self) -> bool
        ensures { result ≡ false }
    {
        false
    }
}
