//! What the commands over files do without a job in threads: calls, replays, bounds. Also the folder of a run, and its notes, report
//! and chart. Crate `conversions` makes files of others. Crate `run_command` runs jobs, and `pregel` chooses the command.
#![tactic(auto)]

mod bounds;
mod compute_call;
mod ended;
mod keeping;
mod laws;
mod noting;
mod opening;
mod printing;
mod replay;
mod sheets;
mod sizes;
mod step_line;
mod steps;

pub use bounds::verify_file;
pub use compute_call::{call, call_files};
pub use ended::ended_text;
pub use keeping::keep_in;
pub use laws::one_answer;
pub use noting::RunNotes;
pub use opening::job_of;
pub use printing::{refuse, tell};
pub use replay::{replay_files, trace_text};
pub use sheets::write_sheets;
pub use steps::steps_of;
