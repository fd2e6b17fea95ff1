//! The requirements of instructions on their operands.

use wasm_ast::ValType;

/// A condition that a constant has to meet.
#[derive(Clone, Copy)]
pub enum Premise {
    /// An address that is in the memory with this offset, for this many bytes.
    Reaches(u32, u32),
    /// A divisor that is not 0.
    Divides,
    /// A divisor that is neither 0 nor -1.
    DividesSigned,
    /// The number of an aggregator, from 0 to 7.
    IsSlot,
}

/// The requirement of an instruction on one operand.
#[derive(Clone, Copy)]
pub enum Requirement {
    /// Any value of the type.
    Value(ValType),
    /// A known constant of the type that meets the premise.
    Constant(ValType, Premise),
}
