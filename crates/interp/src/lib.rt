//! Compute calls: runs modules in the bounded profile as crate `semantics` says (Core 1.0, section 4).
#![tactic(auto)]

mod call_globals;
mod cell;
mod control_entry;
mod flat;
mod found;
mod globals;
mod host;
mod laws;
mod locals;
mod memory;
mod numeric;
mod operand_stack;
mod operands;
mod plain;
mod program;
mod runs;
mod scratch;
mod start;
mod straight;
mod walk;

pub use laws::{
    calls_keep_own_operands, calls_stay_within, calls_touch_reached_bytes, sequences_count,
};
pub use runs::{has_ids, run};
pub use scratch::Scratch;
pub use verified::{CallInput, CallOutcome};
