//! The control of a running job: its events, which part each worker has, which results count, and when states are saved and
//! loaded. `Control` has the numbers of workers, epochs and supersteps, without data.
#![tactic(auto)]

mod answer;
mod control;
mod event;
mod flags;
mod job_status;
mod leases;

pub use answer::Answer;
pub use control::{Control, Out};
pub use event::Event;
pub use job_status::{DeviceResult, JobStatus};
