//! The settings of a job, its state between two supersteps (Pregel 2010, 2) and its faults. A state has the vertices in parts, which
//! of them are due, and totals. Crate `superstep` says which states a job has.
#![tactic(auto)]

mod fault;
mod found;
mod part_states;
mod settings;
mod state;
mod totals;

pub use fault::{JobFault, Place};
pub use found::Found;
pub use part_states::PartStates;
pub use settings::{Setting, Settings};
pub use state::{State, VertexState};
pub use totals::Totals;
