//! The session that `pregel console` serves: it reads commands, one a line, and writes a reply to each. It holds modules,
//! graphs and jobs by name.
#![tactic(auto)]

mod command;
mod held_job;
mod laws;
mod lines;
mod maps;
mod reading;
mod refusals;
mod reply;
mod run_state;
mod runner;
mod serving;
mod sessions;
mod status;
mod texts;
mod word;

pub use laws::same_values;
pub use runner::Runner;
pub use serving::{ServeFault, serve};
