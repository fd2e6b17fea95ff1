//! What a run shows while it goes on, beside its answer.

ghost use Rattle.std.specs.Prelude.{◌≡◌, is_some};

use crate::loss::LossGate;
use run_report::Watch;
use std::sync::Wait;
use superstep::JobEnd;
use worker_loops::{Gate, Turn, Worked};

/// Where it is shown how far a run has come. Nothing is claimed of what it shows.
pub trait View {
    /// Whether somebody looks at it, as at a terminal.
    fn is_watched(&self) -> bool;

    /// A worker begins a task of this superstep. Workers tell so at the same time.
    fn show(&self, superstep: u32);

    /// Counts the units of a task that a worker did. Several workers call it at the same time. A superstep that is run again after a
    /// loss counts again.
    fn add(&self, units: u128);

    /// The run is over, and this is what it ended with, where it has an answer.
    fn finish(&self, ended: Option<&JobEnd>);
}

/// A view at which nobody looks.
pub struct NoView;

impl View for NoView {
    fn is_watched(&self) -> bool {
        false
    }

    fn show(&self, _superstep: u32) {}

    fn add(&self, _units: u128) {}

    fn finish(&self, _ended: Option<&JobEnd>) {}
}

/// The gate of a run that shows how far it has come, where there is a view.
#[derive(Drop)]
pub struct RunGate<'a, V> {
    pub loss: LossGate,
    view: Option<&'a V>,
}

impl<'a, V: View> RunGate<'a, V> {
    /// A gate that loses workers as the other does.
    pub fn new(loss: LossGate, view: Option<&'a V>) -> RunGate<'a, V>
        ensures { result.loss ≡ loss }
    {
        RunGate { loss, view }
    }

    /// The run is over, and this is what it ended with, where it has an answer.
    pub fn finish(&self, ended: Option<&JobEnd>) {
        if let Some(view) = self.view {
            view.finish(ended);
        }
    }
}

impl<V> RunGate<'_, V> {
    /// What is counted of the job, where it is watched.
    pub fn watch(&self) -> Option<&Watch>
        ensures { is_some result ≡ is_some self.now.loss.watch }
    {
        self.loss.watch.as_ref()
    }
}

impl<V: View> Gate for RunGate<'_, V> {
    ghost use Rattle.std.specs.Prelude.{◌≡◌, false};
    ghost use Rattle.worker_loops.specs.declared.gate.Turn.TheVariants.{Go};

    ghost loses = { λ gate. is_some gate.loss.loss };

    fn may_lose(&self) -> bool
        ensures { result ≡ is_some self.now.loss.loss }
    {
        self.loss.may_lose()
    }

    fn before(&self, worker: u32, superstep: u32, part: u32) -> Turn
        ensures { is_some self.now.loss.loss ≡ false → result ≡ Go }
    {
        if let Some(view) = self.view {
            view.show(superstep);
        }
        self.loss.before(worker, superstep, part)
    }

    fn again(&self, worker: u32) -> bool {
        self.loss.again(worker)
    }

    fn tick(&self, n: u64) -> bool
        ensures { result ≡ false }
    {
        self.loss.tick(n)
    }

    fn counts(&self) -> bool {
        self.loss.counts()
    }

    fn worked<R: Wait>(&self, rt: &R, worker: u32, work: Worked) {
        if let Some(view) = self.view {
            view.add(work.units);
        }
        self.loss.worked(rt, worker, work);
    }
}
