//! What is known of an operand.

/// What is known of one operand.
#[derive(Clone, Copy)]
pub enum Operand {
    Unknown,
    /// This constant, read unsigned.
    Known(u64),
}
