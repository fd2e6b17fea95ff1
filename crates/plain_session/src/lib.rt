//! The session of crate `session`, whose jobs run on one machine, superstep after superstep.
#![tactic(auto)]

mod on_one_machine;

pub use on_one_machine::{PlainRunner, serve_on_one_machine};
