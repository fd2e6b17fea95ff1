//! How many operands an instruction takes and gives (Core 1.0, 3.3).

/// The number of operands that an instruction takes, and of those that it then gives.
#[derive(Clone, Copy)]
pub struct Arity {
    pub takes: usize,
    pub gives: usize,
}
