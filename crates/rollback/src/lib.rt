//! Whole runs of a job over lists of steps, in which workers are lost and join again.
#![tactic(auto)]

mod simulation;

pub use simulation::{Outcome, Step, StepAnswer, Trace, simulate};
