//! What is known of a module in the bounded profile besides the module.

/// The bounds on a call of `compute`.
#[derive(Clone, Copy)]
pub struct Facts {
    /// The number of `compute`.
    pub compute: u32,
    /// The size of `compute` with calls inlined, in units.
    pub size: u32,
    /// The greatest height of the operand stack, all active functions together.
    pub max_operands: u32,
    /// The most functions that are active at once.
    pub max_frames: u32,
}
