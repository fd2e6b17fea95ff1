//! The value of each group of numeric instructions (Core 1.0, 4.3), by the operator of an instruction.

ghost use Rattle.std.specs.Prelude.{◌≡◌, false};
ghost use Rattle.semantics.specs.Operations.{unary_value, binary_value, division_value, division_traps, comparison_holds};

use crate::i32::{
    i32_add, i32_and, i32_clz, i32_ctz, i32_div_s, i32_div_u, i32_eq, i32_ge_s, i32_ge_u, i32_gt_s,
    i32_gt_u, i32_le_s, i32_le_u, i32_lt_s, i32_lt_u, i32_mul, i32_ne, i32_or, i32_popcnt,
    i32_rem_s, i32_rem_u, i32_rotl, i32_rotr, i32_shl, i32_shr_s, i32_shr_u, i32_sub, i32_xor,
};
use crate::i64::{
    i64_add, i64_and, i64_clz, i64_ctz, i64_div_s, i64_div_u, i64_eq, i64_ge_s, i64_ge_u, i64_gt_s,
    i64_gt_u, i64_le_s, i64_le_u, i64_lt_s, i64_lt_u, i64_mul, i64_ne, i64_or, i64_popcnt,
    i64_rem_s, i64_rem_u, i64_rotl, i64_rotr, i64_shl, i64_shr_s, i64_shr_u, i64_sub, i64_xor,
};
use wasm_ast::{Binary, Comparison, Division, Unary};

/// Computes the result of a unary operator for i32.
pub fn i32_unary(op: Unary, x: u32) -> u32
    ensures { result ≡ unary_value 32 op x }
{
    match op {
        Unary::Clz => i32_clz(x),
        Unary::Ctz => i32_ctz(x),
        Unary::Popcnt => i32_popcnt(x),
    }
}

/// Computes the result of a unary operator for i64.
pub fn i64_unary(op: Unary, x: u64) -> u64
    ensures { result ≡ unary_value 64 op x }
{
    match op {
        Unary::Clz => i64_clz(x),
        Unary::Ctz => i64_ctz(x),
        Unary::Popcnt => i64_popcnt(x),
    }
}

/// Computes the result of a binary operator that never traps for i32.
pub fn i32_binary(op: Binary, x: u32, y: u32) -> u32
    ensures { result ≡ binary_value 32 op x y }
{
    match op {
        Binary::Add => i32_add(x, y),
        Binary::Sub => i32_sub(x, y),
        Binary::Mul => i32_mul(x, y),
        Binary::And => i32_and(x, y),
        Binary::Or => i32_or(x, y),
        Binary::Xor => i32_xor(x, y),
        Binary::Shl => i32_shl(x, y),
        Binary::ShrS => i32_shr_s(x, y),
        Binary::ShrU => i32_shr_u(x, y),
        Binary::Rotl => i32_rotl(x, y),
        Binary::Rotr => i32_rotr(x, y),
    }
}

/// Computes the result of a binary operator that never traps for i64.
pub fn i64_binary(op: Binary, x: u64, y: u64) -> u64
    ensures { result ≡ binary_value 64 op x y }
{
    match op {
        Binary::Add => i64_add(x, y),
        Binary::Sub => i64_sub(x, y),
        Binary::Mul => i64_mul(x, y),
        Binary::And => i64_and(x, y),
        Binary::Or => i64_or(x, y),
        Binary::Xor => i64_xor(x, y),
        Binary::Shl => i64_shl(x, y),
        Binary::ShrS => i64_shr_s(x, y),
        Binary::ShrU => i64_shr_u(x, y),
        Binary::Rotl => i64_rotl(x, y),
        Binary::Rotr => i64_rotr(x, y),
    }
}

/// Reports whether the i32 operator traps: `y` is 0, or the operator is `DivS`, `y` is -1 and `x` is -2^31.
pub fn i32_division_traps(op: Division, x: u32, y: u32) -> bool
    ensures { result ≡ division_traps 32 op x y }
{
    match op {
        Division::DivS => y == 0 || (x == 1 << 31 && y == u32::MAX),
        Division::DivU | Division::RemS | Division::RemU => y == 0,
    }
}

/// Reports whether the i64 operator traps: `y` is 0, or the operator is `DivS`, `y` is -1 and `x` is -2^63.
pub fn i64_division_traps(op: Division, x: u64, y: u64) -> bool
    ensures { result ≡ division_traps 64 op x y }
{
    match op {
        Division::DivS => y == 0 || (x == 1 << 63 && y == u64::MAX),
        Division::DivU | Division::RemS | Division::RemU => y == 0,
    }
}

/// Computes the result of a division or remainder for i32. The operands must not trap.
pub fn i32_division(op: Division, x: u32, y: u32) -> u32
    requires { division_traps 32 op x y ≡ false }
    ensures { result ≡ division_value 32 op x y }
{
    match op {
        Division::DivS => i32_div_s(x, y),
        Division::DivU => i32_div_u(x, y),
        Division::RemS => i32_rem_s(x, y),
        Division::RemU => i32_rem_u(x, y),
    }
}

/// Computes the result of a division or remainder for i64. The operands must not trap.
pub fn i64_division(op: Division, x: u64, y: u64) -> u64
    requires { division_traps 64 op x y ≡ false }
    ensures { result ≡ division_value 64 op x y }
{
    match op {
        Division::DivS => i64_div_s(x, y),
        Division::DivU => i64_div_u(x, y),
        Division::RemS => i64_rem_s(x, y),
        Division::RemU => i64_rem_u(x, y),
    }
}

/// Reports whether the comparison of i32 operands holds.
pub fn i32_comparison_holds(op: Comparison, x: u32, y: u32) -> bool
    ensures { result ≡ comparison_holds 32 op x y }
{
    match op {
        Comparison::Eq => i32_eq(x, y) == 1,
        Comparison::Ne => i32_ne(x, y) == 1,
        Comparison::LtS => i32_lt_s(x, y) == 1,
        Comparison::LtU => i32_lt_u(x, y) == 1,
        Comparison::GtS => i32_gt_s(x, y) == 1,
        Comparison::GtU => i32_gt_u(x, y) == 1,
        Comparison::LeS => i32_le_s(x, y) == 1,
        Comparison::LeU => i32_le_u(x, y) == 1,
        Comparison::GeS => i32_ge_s(x, y) == 1,
        Comparison::GeU => i32_ge_u(x, y) == 1,
    }
}

/// Reports whether the comparison of i64 operands holds.
pub fn i64_comparison_holds(op: Comparison, x: u64, y: u64) -> bool
    ensures { result ≡ comparison_holds 64 op x y }
{
    match op {
        Comparison::Eq => i64_eq(x, y) == 1,
        Comparison::Ne => i64_ne(x, y) == 1,
        Comparison::LtS => i64_lt_s(x, y) == 1,
        Comparison::LtU => i64_lt_u(x, y) == 1,
        Comparison::GtS => i64_gt_s(x, y) == 1,
        Comparison::GtU => i64_gt_u(x, y) == 1,
        Comparison::LeS => i64_le_s(x, y) == 1,
        Comparison::LeU => i64_le_u(x, y) == 1,
        Comparison::GeS => i64_ge_s(x, y) == 1,
        Comparison::GeU => i64_ge_u(x, y) == 1,
    }
}
