//! The lines of texts: of the input of a call, of its outcome, and of a job's end.
#![tactic(auto)]

mod input;
mod input_line;
mod laws;
mod output_lines;

pub use input::{Input, InputFault};
pub use input_line::u32_of;
pub use laws::means_what_lines_say;
pub use output_lines::{end_word, outcome_text, push_values};
