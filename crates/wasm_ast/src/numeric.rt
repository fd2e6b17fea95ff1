//! Numeric instructions (Core 1.0, 2.4.1), grouped by their operands and results.

use crate::types::ValType;

/// A unary operator: one operand, and a result of the same type.
#[derive(Clone, Copy, PartialEq, Eq)]
pub enum Unary {
    Clz,
    Ctz,
    Popcnt,
}

/// A binary operator that never traps: two operands of a type, and a result of the same type.
#[derive(Clone, Copy, PartialEq, Eq)]
pub enum Binary {
    Add,
    Sub,
    Mul,
    And,
    Or,
    Xor,
    Shl,
    ShrS,
    ShrU,
    Rotl,
    Rotr,
}

/// A binary operator that traps on some operands: two operands of a type, and a result of the same type.
#[derive(Clone, Copy, PartialEq, Eq)]
pub enum Division {
    DivS,
    DivU,
    RemS,
    RemU,
}

/// A comparison: two operands of a type, and an i32 result of 1 where it holds, else 0.
#[derive(Clone, Copy, PartialEq, Eq)]
pub enum Comparison {
    Eq,
    Ne,
    LtS,
    LtU,
    GtS,
    GtU,
    LeS,
    LeU,
    GeS,
    GeU,
}

/// A conversion from one integer type to the other.
#[derive(Clone, Copy, PartialEq, Eq)]
pub enum Conversion {
    /// `i32.wrap_i64`
    Wrap,
    /// `i64.extend_i32_s`
    ExtendS,
    /// `i64.extend_i32_u`
    ExtendU,
}

/// A numeric instruction other than a constant.
#[derive(Clone, Copy, PartialEq, Eq)]
pub enum Numeric {
    /// `eqz`: one operand, and an i32 result of 1 where the operand is 0, else 0.
    Eqz(ValType),
    Comparison(ValType, Comparison),
    Unary(ValType, Unary),
    Binary(ValType, Binary),
    Division(ValType, Division),
    Conversion(Conversion),
}
