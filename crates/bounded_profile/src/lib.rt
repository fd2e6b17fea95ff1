//! The bounded profile: the valid modules whose every call ends within a bound that is known before the call.
#![tactic(auto)]

mod calls;
mod cells;
mod extents;
mod footprint;
mod heights;
mod memory_rules;
mod module_rules;
mod rules;
mod tables;
mod verification;

pub use profile_rules::{ProfileFault, ProfileRule};
pub use verification::verify;
pub use verified::{Cells, Premise, Requirement, Verified};
