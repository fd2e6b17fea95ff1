//! The rules of the bounded profile on code: its shapes, the constants that it needs, and the height of its stack.
#![tactic(auto)]

mod arity;
mod constants;
mod fault;
mod height_table;
mod hosts;
mod loops;
mod shapes;
mod stack_height;
mod values;

pub use arity::{TEST, arity_at, arity_table, branch_arity, plain_arity, result_count};
pub use constants::{Asks, ConstantsFault, Operands, check_constants};
pub use fault::{ProfileFault, ProfileRule};
pub use height_table::HeightTable;
pub use hosts::{host_calls, host_table};
pub use shapes::check_shape;
pub use stack_height::{Callees, StackHeight};
pub use values::number_of;
