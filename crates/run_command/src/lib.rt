//! The command `run`: a job in threads, from the files of its module and graph to printed lines.
#![tactic(auto)]

mod jobs;
mod running;

pub use running::run_files;
