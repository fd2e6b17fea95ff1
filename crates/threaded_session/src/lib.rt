//! The session of crate `session`, whose jobs run in threads.
#![tactic(auto)]

mod in_threads;

pub use in_threads::{JobRunner, serve_in_threads};
