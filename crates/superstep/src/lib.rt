//! Jobs over graphs, superstep after superstep (Pregel 2010, 2).
//!
//! Crate `plain_run` runs a job by its definition. A job also runs part by part:
//!
//! * `take_apart` makes a `Slice` of each part of a `State`.
//! * `run_task` of crate `compute` runs the `Task` of each slice, which yields a `Done`.
//! * `barrier` makes the next `State` of all `Done`s.
#![tactic(auto)]

mod aggregation;
mod barrier_step;
mod ending;
mod job;
mod slice;
mod states;
mod task;

pub use aggregation::give_all;
pub use barrier_step::barrier;
pub use ending::{EndReason, JobEnd, tell_end};
pub use job::Job;
pub use job_state::{Found, JobFault, Place, Setting, Settings, State, Totals, VertexState};
pub use slice::{Apart, Origin, Slice, slices, take_apart};
pub use states::{first_state, totals_of};
pub use task::{Done, Shared, Task, TaskLost};
