//! The items of the sections in the binary format, read and written (Core 1.0, section 5).
#![tactic(auto)]

mod body;
mod encoder;
mod exports;
mod fault;
mod imports;
mod instructions;
mod item;
mod memory;
mod names;
mod numeric;
mod reader;
mod segments;
mod types;

pub use body::expression;
pub use encoder::{
    Part, val_type_byte, write_byte, write_count, write_expression, write_sized, write_table_type,
    write_vector,
};
pub use fault::{DecodeFault, DecodeRule};
pub use item::{Item, vector};
pub use names::text;
pub use reader::Reader;
pub use types::{TableType, val_type};
