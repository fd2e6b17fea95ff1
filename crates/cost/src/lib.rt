//! The cost of functions: the call graph, in which no function may call itself, and the size of each function with
//! calls inlined. Units measure sizes, by a table of weights.
#![tactic(auto)]

mod cycle;
mod fault;
mod laws;
mod order;
mod outline;
mod size;
mod table;
mod walk;
mod weights;

pub use fault::CostFault;
pub use laws::{has_one_sizing, ranks_exclude_cycles, units_are_counted};
pub use order::ranks;
pub use size::{MAX_SIZE, inlined_size};
pub use table::Ranks;
pub use verified::{branch_units, host_units, plain_units};
