//! The cases of the conformance programs: how a file of `data/` spells them, and the line that each prints.
#![tactic(auto)]

mod case_files;
mod line;
mod showing;
mod spelling;

pub use case_files::CaseFiles;
pub use line::Line;
pub use showing::{Answers, show_texts};
pub use spelling::{bytes, halves, is_case, named, push_digits, spelled};
