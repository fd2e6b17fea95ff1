//! Integers in LEB128, seven bits a byte with the lowest first, as in WebAssembly (Core 1.0, 5.2.2).
//!
//! A spelling may have more bytes than the number needs: up to 5 bytes for 32 bits, and up to 10 for 64.
//! Readers accept every such spelling. Writers write the shortest.
#![tactic(auto)]

mod fault;
mod laws;
mod read;
mod write;

pub use fault::LebFault;
pub use laws::{
    no_signed_begins_another, no_unsigned_begins_another, shortest_signed_is_read_back,
    shortest_unsigned_is_read_back,
};
pub use read::{read_s32, read_s64, read_u32};
pub use write::{write_s32, write_s64, write_u32};
