//! How many cells the frame of a function needs.

/// The cells that the frame of a function needs.
#[derive(Clone, Copy)]
pub struct Cells {
    /// The parameters and the locals.
    pub locals: u32,
    /// The greatest height of the function's own operand stack.
    pub operands: u32,
}
