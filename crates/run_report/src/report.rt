//! What is reported of a run.

use crate::counts::SuperstepCounts;

/// How the job was run.
#[derive(Clone, Copy)]
pub struct RunSettings {
    /// How many parts the graph has.
    pub parts: u32,
    /// How many workers there are.
    pub workers: u32,
    /// A state is saved before each superstep whose number is a multiple of it.
    pub every: u32,
    /// The superstep at which the job ends where it has not finished.
    pub limit: u32,
    /// How many ticks a worker may take for a task.
    pub lease: u32,
}

/// How the job ended. A number is missing where it is not known.
#[derive(Clone, Copy)]
pub struct Outcome {
    /// `finished`, `limit` or `fault`.
    pub how: &'static str,
    /// What a job without an answer ended with.
    pub fault: Option<&'static str>,
    /// The superstep that would come next.
    pub superstep: Option<u64>,
    /// The units of all calls.
    pub units: Option<u64>,
    /// How many messages went to no vertex.
    pub dropped: Option<u64>,
    /// It grew with each loss, and where workers that joined began.
    pub epoch: Option<u64>,
    /// How many states the device failed to save.
    pub missed: Option<u64>,
    /// How often all began again with superstep 0.
    pub restarts: Option<u64>,
}

/// The files of a job, by their names.
#[derive(Clone, Copy)]
pub struct JobFiles<'a> {
    pub module: &'a str,
    pub graph: &'a str,
}

/// What a run was, and what it did.
#[derive(Drop)]
pub struct RunReport {
    pub settings: RunSettings,
    /// The size of the module's `compute`. A call takes at most `size` times one more than its messages and edges in units.
    pub size: u64,
    pub vertices: u64,
    pub edges: u64,
    pub outcome: Outcome,
    /// The units of each worker; none where that is not known.
    pub spent: Vec<u64>,
    /// By rising number.
    pub supersteps: Vec<SuperstepCounts>,
}
