//! The assembler and the printer of the text format (Core 1.0, section 6).
#![tactic(auto)]

mod assembling;
mod paths;
mod printing;

pub use assembling::assemble;
pub use paths::is_text_path;
pub use printing::print;
pub use wat_syntax::{Keyword, Position, TextFault};
