//! The instructions of i32 (Core 1.0, 4.3.2), by their functions and by their enums.

use super::Given;
use semantics::{
    i32_add, i32_and, i32_binary, i32_clz, i32_comparison_holds, i32_ctz, i32_div_s, i32_div_u,
    i32_division, i32_division_traps, i32_eq, i32_ge_s, i32_ge_u, i32_gt_s, i32_gt_u, i32_le_s,
    i32_le_u, i32_lt_s, i32_lt_u, i32_mul, i32_ne, i32_or, i32_popcnt, i32_rem_s, i32_rem_u,
    i32_rotl, i32_rotr, i32_shl, i32_shr_s, i32_shr_u, i32_sub, i32_unary, i32_xor,
};
use wasm_ast::{Binary, Comparison, Division, Unary, Value};

pub fn unary_given(unary: Unary, x: u32) -> Given {
    let by_function = match unary {
        Unary::Clz => i32_clz(x),
        Unary::Ctz => i32_ctz(x),
        Unary::Popcnt => i32_popcnt(x),
    };
    Given {
        by_function: Value::I32(by_function),
        by_enum: Value::I32(i32_unary(unary, x)),
    }
}

pub fn binary_given(binary: Binary, x: u32, y: u32) -> Given {
    let by_function = match binary {
        Binary::Add => i32_add(x, y),
        Binary::Sub => i32_sub(x, y),
        Binary::Mul => i32_mul(x, y),
        Binary::And => i32_and(x, y),
        Binary::Or => i32_or(x, y),
        Binary::Xor => i32_xor(x, y),
        Binary::Shl => i32_shl(x, y),
        Binary::ShrS => i32_shr_s(x, y),
        Binary::ShrU => i32_shr_u(x, y),
        Binary::Rotl => i32_rotl(x, y),
        Binary::Rotr => i32_rotr(x, y),
    };
    Given {
        by_function: Value::I32(by_function),
        by_enum: Value::I32(i32_binary(binary, x, y)),
    }
}

pub fn comparison_given(comparison: Comparison, x: u32, y: u32) -> Given {
    let by_function = match comparison {
        Comparison::Eq => i32_eq(x, y),
        Comparison::Ne => i32_ne(x, y),
        Comparison::LtS => i32_lt_s(x, y),
        Comparison::LtU => i32_lt_u(x, y),
        Comparison::GtS => i32_gt_s(x, y),
        Comparison::GtU => i32_gt_u(x, y),
        Comparison::LeS => i32_le_s(x, y),
        Comparison::LeU => i32_le_u(x, y),
        Comparison::GeS => i32_ge_s(x, y),
        Comparison::GeU => i32_ge_u(x, y),
    };
    Given {
        by_function: Value::I32(by_function),
        by_enum: Value::I32(u32::from(i32_comparison_holds(comparison, x, y))),
    }
}

/// Returns the value, or none if the operands trap.
pub fn division_given(division: Division, x: u32, y: u32) -> Option<Given> {
    if i32_division_traps(division, x, y) {
        return None;
    }
    let by_function = match division {
        Division::DivS => i32_div_s(x, y),
        Division::DivU => i32_div_u(x, y),
        Division::RemS => i32_rem_s(x, y),
        Division::RemU => i32_rem_u(x, y),
    };
    Some(Given {
        by_function: Value::I32(by_function),
        by_enum: Value::I32(i32_division(division, x, y)),
    })
}
