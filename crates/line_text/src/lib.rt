//! Lines of text: the fields of a line, the numbers in them, writers of bytes, streams that record their failures, and texts
//! of pieces.
#![tactic(auto)]

mod failure_recorder;
mod fields;
mod number;
mod output;
mod text_builder;

pub use failure_recorder::FailureRecorder;
pub use fields::Fields;
pub use number::{id_of, number_of};
pub use output::{Output, WriteFailure, write_all};
pub use text_builder::TextBuilder;
