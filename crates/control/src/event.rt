//! The events of a running job: what workers and the ticker tell its coordinator. `Control` has them in numbers.

use superstep::{Done, Origin, Place};

/// An event of a job. Workers are numbered from 0.
#[derive(Drop)]
pub enum Event<J: Origin> {
    /// The worker returns this result of its task.
    Done(u32, Done<J>),
    /// Memory ran out in the worker's task, at this place.
    Failed(u32, Place),
    /// The worker is lost, and its task with it.
    Lost(u32),
    /// The worker is back, and has no task.
    Joined(u32),
    /// One tick passes. Leases are counted in ticks.
    Tick,
}
