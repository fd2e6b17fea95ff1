//! Rewrites a valid module nearer to the bounded profile.
#![tactic(auto)]

mod building;
mod code;
mod fitting;
mod items;
mod labels;
mod loops;
mod moving;
mod rewriting;

pub use fitting::fit;
