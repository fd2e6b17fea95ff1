//! The explanation of each kind of error that a module is refused with.
#![tactic(auto)]

mod advice;
mod choosing;
mod explaining;
mod listing;
mod module_place;
mod places;
mod refusals;

pub use choosing::{explanation, is_explained};
pub use refusals::explain_refusal;
