//! Validation: which modules are valid (Core 1.0, section 3).
#![tactic(auto)]

mod bodies;
mod constants;
mod context;
mod exports;
mod fault;
mod functions;
mod instructions;
mod labels;
mod operands;
mod segments;
mod spaces;
mod types;
mod validation;

pub use fault::{Place, Rule, ValidFault};
pub use labels::Labels;
pub use operands::first_of;
pub use validation::validate;
pub use verified::Valid;
