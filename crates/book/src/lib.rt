//! The book of a running job: assigned tasks and their results, saved states and rollbacks.
#![tactic(auto)]

mod book;
mod job_data;
mod part_slots;
mod parts;
mod recovery;
mod replies;
mod report;
mod saving;

pub use book::Book;
pub use control::{Answer, Event, JobStatus};
pub use report::{Report, Status};
