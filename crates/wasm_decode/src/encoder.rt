//! The encoder: modules to the binary format (Core 1.0, section 5), in the fewest bytes.

mod fault;
mod functions;
mod laws;
mod modules;
mod sections;

pub use fault::EncodeFault;
pub use laws::{canonical_is_shortest, canonical_spells_its_module};
pub use modules::encode;
