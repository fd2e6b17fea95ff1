//! A run while it goes on: what it shows, the worker that it loses on purpose, and what it warns of.
#![tactic(auto)]

mod loss;
mod progress_line;
mod view;
mod warnings;

pub use loss::{Loss, LossGate};
pub use progress_line::ProgressLine;
pub use view::{NoView, RunGate, View};
pub use warnings::{warn_of_missed, warn_of_run};
