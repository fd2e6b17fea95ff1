//! The start of a compute call (Core 1.0, 4.5.4 and 4.5.5).

pub mod image;
mod initial;
