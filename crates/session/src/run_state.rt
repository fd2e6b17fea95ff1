//! The states of the jobs of a session.

use book::Report;
use superstep::JobFault;

/// The state of a job: it waits, or its run has ended.
#[derive(Drop)]
pub enum RunState {
    /// It did not run.
    Waiting,
    /// It ended with this report.
    Ended(Report),
    /// It ended with a fault, and has no values.
    Failed(JobFault),
}
