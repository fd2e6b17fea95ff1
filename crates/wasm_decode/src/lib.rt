//! The decoder and the encoder of the binary format (Core 1.0, section 5).
#![tactic(auto)]

mod code;
mod encoder;
mod imports;
mod laws;
mod modules;
mod sections;

pub use encoder::{EncodeFault, canonical_is_shortest, canonical_spells_its_module, encode};
pub use laws::spells_one_module;
pub use modules::decode;
pub use wasm_items::{DecodeFault, DecodeRule};
