//! The syntax of the text format (Core 1.0, section 6): keywords, the lexer and the parser, and the printers of each field.
//!
//! `wat_asm` assembles and prints whole modules with these. What writes puts pieces behind a text, which notes where an allocation
//! failed.
#![tactic(auto)]

mod fault;
mod fields;
mod instructions;
mod keyword;
mod lexer;
mod parser;
mod pieces;

pub use fault::{Failure, FaultKind, Position, TextFault};
pub use fields::{Memory, Table, write_start};
pub use keyword::Keyword;
pub use lexer::{Tokens, lex};
pub use parser::parse;
pub use pieces::{Gap, write_closing_line, write_each, write_opening};
