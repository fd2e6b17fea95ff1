//! The plain run of a job, by its definition on one machine (Pregel 2010, 2). All other runs are compared with it.
#![tactic(auto)]

mod machine;

pub use machine::one_machine;
