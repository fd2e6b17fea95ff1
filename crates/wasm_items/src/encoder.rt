//! The writers: items to the binary format (Core 1.0, section 5), in the fewest bytes.

mod instructions;
mod items;
mod opcodes;
mod parts;
mod types;

pub use instructions::write_expression;
pub use opcodes::val_type_byte;
pub use parts::{Part, write_byte, write_count, write_sized, write_vector};
pub use types::write_table_type;
