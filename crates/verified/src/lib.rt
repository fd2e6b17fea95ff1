//! Modules that the verifier has accepted, and what is known of them.
//!
//! * Valid modules keep the rules of validity (Core 1.0, section 3).
//! * The host functions of vertex programs, which a program imports from module `pregel`, read and change the state of a compute call
//!   (Pregel 2010, section 2).
//! * Units are what each instruction counts, by a table of weights.
//! * In flat code a walk distinguishes the frequent instructions by one match.
//! * Verified modules keep the rules of the bounded profile, too.
#![tactic(auto)]

mod aggregators;
mod arity;
mod body;
mod call;
mod cells;
mod extents;
mod facts;
mod flatten;
mod imports;
mod laws;
mod memory;
mod operand;
mod plains;
mod requirements;
mod shape;
mod state;
mod tables;
mod valid;
mod verified;
mod weights;

pub use aggregators::aggregator_starts;
pub use arity::Arity;
pub use body::{FlatBody, FlatInstr};
pub use call::{AGGREGATORS, CallInput, CallOutcome};
pub use cells::Cells;
pub use extents::Extent;
pub use facts::Facts;
pub use flatten::flat_bodies;
pub use imports::{CallType, HostCall};
pub use laws::{calls_fit_their_types, each_import_is_one_call};
pub use memory::memory_bytes;
pub use operand::Operand;
pub use requirements::{Premise, Requirement};
pub use shape::Shape;
pub use state::CallState;
pub use tables::Tables;
pub use valid::Valid;
pub use verified::Verified;
pub use weights::{branch_units, host_units, plain_units};
