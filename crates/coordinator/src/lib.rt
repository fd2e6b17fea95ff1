//! The coordinator of a job: its hub of channels, the calls by which it sends tasks and receives messages, and its loop. The loop assigns
//! tasks to workers, passes what they report to the book, and tells workers which of their losses were counted.
#![tactic(auto)]

mod coordinator;
mod event_loop;
mod hub;

pub use coordinator::Coordinator;
pub use event_loop::drive;
pub use hub::Hub;
