//! Runs a task: one call of `compute` for each vertex of a part that is due (Pregel 2010, 2).
#![tactic(auto)]

mod part_output;
mod tasks;

pub use tasks::run_task;
