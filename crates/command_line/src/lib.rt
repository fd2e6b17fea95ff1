//! The program's command line: reads its words, returns the request in them, and reports what is wrong with them.
#![tactic(auto)]

mod after_help;
mod argument_help;
mod arguments;
mod command_line;
mod commands;

pub use arguments::{refuse_arguments, refuse_words, words};
pub use command_line::options;
