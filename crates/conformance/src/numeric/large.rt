//! The instructions of i64 (Core 1.0, 4.3.2), by their functions and by their enums.

use super::Given;
use semantics::{
    i64_add, i64_and, i64_binary, i64_clz, i64_comparison_holds, i64_ctz, i64_div_s, i64_div_u,
    i64_division, i64_division_traps, i64_eq, i64_ge_s, i64_ge_u, i64_gt_s, i64_gt_u, i64_le_s,
    i64_le_u, i64_lt_s, i64_lt_u, i64_mul, i64_ne, i64_or, i64_popcnt, i64_rem_s, i64_rem_u,
    i64_rotl, i64_rotr, i64_shl, i64_shr_s, i64_shr_u, i64_sub, i64_unary, i64_xor,
};
use wasm_ast::{Binary, Comparison, Division, Unary, Value};

pub fn unary_given(unary: Unary, x: u64) -> Given {
    let by_function = match unary {
        Unary::Clz => i64_clz(x),
        Unary::Ctz => i64_ctz(x),
        Unary::Popcnt => i64_popcnt(x),
    };
    Given {
        by_function: Value::I64(by_function),
        by_enum: Value::I64(i64_unary(unary, x)),
    }
}

pub fn binary_given(binary: Binary, x: u64, y: u64) -> Given {
    let by_function = match binary {
        Binary::Add => i64_add(x, y),
        Binary::Sub => i64_sub(x, y),
        Binary::Mul => i64_mul(x, y),
        Binary::And => i64_and(x, y),
        Binary::Or => i64_or(x, y),
        Binary::Xor => i64_xor(x, y),
        Binary::Shl => i64_shl(x, y),
        Binary::ShrS => i64_shr_s(x, y),
        Binary::ShrU => i64_shr_u(x, y),
        Binary::Rotl => i64_rotl(x, y),
        Binary::Rotr => i64_rotr(x, y),
    };
    Given {
        by_function: Value::I64(by_function),
        by_enum: Value::I64(i64_binary(binary, x, y)),
    }
}

pub fn comparison_given(comparison: Comparison, x: u64, y: u64) -> Given {
    let by_function = match comparison {
        Comparison::Eq => i64_eq(x, y),
        Comparison::Ne => i64_ne(x, y),
        Comparison::LtS => i64_lt_s(x, y),
        Comparison::LtU => i64_lt_u(x, y),
        Comparison::GtS => i64_gt_s(x, y),
        Comparison::GtU => i64_gt_u(x, y),
        Comparison::LeS => i64_le_s(x, y),
        Comparison::LeU => i64_le_u(x, y),
        Comparison::GeS => i64_ge_s(x, y),
        Comparison::GeU => i64_ge_u(x, y),
    };
    Given {
        by_function: Value::I32(by_function),
        by_enum: Value::I32(u32::from(i64_comparison_holds(comparison, x, y))),
    }
}

/// Returns the value, or none if the operands trap.
pub fn division_given(division: Division, x: u64, y: u64) -> Option<Given> {
    if i64_division_traps(division, x, y) {
        return None;
    }
    let by_function = match division {
        Division::DivS => i64_div_s(x, y),
        Division::DivU => i64_div_u(x, y),
        Division::RemS => i64_rem_s(x, y),
        Division::RemU => i64_rem_u(x, y),
    };
    Some(Given {
        by_function: Value::I64(by_function),
        by_enum: Value::I64(i64_division(division, x, y)),
    })
}
