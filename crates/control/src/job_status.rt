//! The status of a job, and the results of its saves and loads.

use job_state::JobFault;

/// The status of a job: it goes on, or has ended in one of three ways.
#[derive(Clone, Copy)]
pub enum JobStatus {
    Running,
    /// No vertex was active and no inbox held anything.
    Finished,
    /// The limit of supersteps was reached first.
    Limit,
    /// The job ended by this fault, and has no answer.
    Fault(JobFault),
}

/// The result of a save or a load.
#[derive(Clone, Copy)]
pub enum DeviceResult {
    Good,
    /// The device failed, or the loaded bytes are not a state of this job at this superstep.
    Failed,
    NoMemory,
}
