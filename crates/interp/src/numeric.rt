//! Numeric instructions (Core 1.0, 4.4.1) on the operand stack. Each returns the new height of the stack, and its
//! units.

ghost use Rattle.std.specs.Prelude.{◌≡◌, ◌≤◌, length, true};
ghost use Rattle.interp.specs.inside.Acts.{ActsAlone};
ghost use Rattle.interp.specs.inside.Cells.{cell_numeric, in_width};
ghost use Rattle.interp.specs.inside.Going.{divides, has_tops, numeric_asks};
ghost use Rattle.interp.specs.inside.OperandStack.{operand_stack};
ghost use Rattle.verified.specs.Weights.{numeric_units};
ghost use Rattle.wasm_ast.specs.declared.numeric.Numeric.TheVariants as numeric;
ghost use Rattle.wasm_ast.specs.declared.types.ValType.TheVariants.{I32 as i32_type, I64 as i64_type};

use crate::cell::{as_i32, of_i32};
use crate::operand_stack::{pop, push};
use crate::plain::Acted;
use semantics::{
    i32_binary, i32_comparison_holds, i32_division, i32_eqz, i32_unary, i32_wrap_i64, i64_binary,
    i64_comparison_holds, i64_division, i64_eqz, i64_extend_i32_s, i64_extend_i32_u, i64_unary,
};
use verified::plain_units;
use wasm_ast::{Binary, Comparison, Conversion, Division, Numeric, Plain, Unary, ValType};

/// Pops the operands of a numeric instruction and pushes its result; the contract requires that it does not trap.
#[inline(always)]
pub fn act_numeric(op: Numeric, cells: &mut [u64], top: usize) -> Acted
    requires within { top ≤ length cells.old }
    requires asks { numeric_asks op (operand_stack cells.old top) ≡ true }
    ensures acts { ActsAlone (cell_numeric in_width op)
        (operand_stack cells.old top) (operand_stack cells.new result.top) }
    ensures units { result.units ≡ numeric_units op }
    ensures within { result.top ≤ length cells.new }
{
    let units = plain_units(Plain::Numeric(op));
    match op {
        Numeric::Eqz(of) => Acted {
            top: act_eqz(of, cells, top),
            units,
        },
        Numeric::Comparison(of, comparison) => Acted {
            top: act_comparison(of, comparison, cells, top),
            units,
        },
        Numeric::Unary(of, unary) => Acted {
            top: act_unary(of, unary, cells, top),
            units,
        },
        Numeric::Binary(of, binary) => Acted {
            top: act_binary(of, binary, cells, top),
            units,
        },
        Numeric::Division(of, division) => Acted {
            top: act_division(of, division, cells, top),
            units,
        },
        Numeric::Conversion(conversion) => Acted {
            top: act_conversion(conversion, cells, top),
            units,
        },
    }
}

#[inline(always)]
fn act_eqz(of: ValType, cells: &mut [u64], top: usize) -> usize
    requires within { top ≤ length cells.old }
    requires tops { has_tops 1 (operand_stack cells.old top) ≡ true }
    ensures acts { ActsAlone (cell_numeric in_width (numeric.Eqz of))
        (operand_stack cells.old top) (operand_stack cells.new result) }
    ensures within { result ≤ length cells.new }
{
    let (cell, below) = pop(cells, top);
    let answer = match of {
        ValType::I32 => i32_eqz(as_i32(cell)),
        ValType::I64 => i64_eqz(cell),
    };
    push(cells, below, of_i32(answer))
}

#[inline(always)]
fn act_comparison(of: ValType, comparison: Comparison, cells: &mut [u64], top: usize) -> usize
    requires within { top ≤ length cells.old }
    requires tops { has_tops 2 (operand_stack cells.old top) ≡ true }
    ensures acts { ActsAlone (cell_numeric in_width (numeric.Comparison of comparison))
        (operand_stack cells.old top) (operand_stack cells.new result) }
    ensures within { result ≤ length cells.new }
{
    let (second, under) = pop(cells, top);
    let (first, below) = pop(cells, under);
    let holds = match of {
        ValType::I32 => i32_comparison_holds(comparison, as_i32(first), as_i32(second)),
        ValType::I64 => i64_comparison_holds(comparison, first, second),
    };
    push(cells, below, of_i32(u32::from(holds)))
}

#[inline(always)]
fn act_unary(of: ValType, unary: Unary, cells: &mut [u64], top: usize) -> usize
    requires within { top ≤ length cells.old }
    requires tops { has_tops 1 (operand_stack cells.old top) ≡ true }
    ensures acts { ActsAlone (cell_numeric in_width (numeric.Unary of unary))
        (operand_stack cells.old top) (operand_stack cells.new result) }
    ensures within { result ≤ length cells.new }
{
    let (cell, below) = pop(cells, top);
    let answer = match of {
        ValType::I32 => of_i32(i32_unary(unary, as_i32(cell))),
        ValType::I64 => i64_unary(unary, cell),
    };
    push(cells, below, answer)
}

#[inline(always)]
fn act_binary(of: ValType, binary: Binary, cells: &mut [u64], top: usize) -> usize
    requires within { top ≤ length cells.old }
    requires tops { has_tops 2 (operand_stack cells.old top) ≡ true }
    ensures acts { ActsAlone (cell_numeric in_width (numeric.Binary of binary))
        (operand_stack cells.old top) (operand_stack cells.new result) }
    ensures within { result ≤ length cells.new }
{
    let (second, under) = pop(cells, top);
    let (first, below) = pop(cells, under);
    let answer = match of {
        ValType::I32 => of_i32(i32_binary(binary, as_i32(first), as_i32(second))),
        ValType::I64 => i64_binary(binary, first, second),
    };
    push(cells, below, answer)
}

#[inline(always)]
fn act_division(of: ValType, division: Division, cells: &mut [u64], top: usize) -> usize
    requires within { top ≤ length cells.old }
    requires tops { has_tops 2 (operand_stack cells.old top) ≡ true }
    requires divisor { divides of division (operand_stack cells.old top) ≡ true }
    ensures acts { ActsAlone (cell_numeric in_width (numeric.Division of division))
        (operand_stack cells.old top) (operand_stack cells.new result) }
    ensures within { result ≤ length cells.new }
{
    match of {
        ValType::I32 => divide_i32(division, cells, top),
        ValType::I64 => divide_i64(division, cells, top),
    }
}

#[inline(always)]
fn divide_i32(division: Division, cells: &mut [u64], top: usize) -> usize
    requires within { top ≤ length cells.old }
    requires tops { has_tops 2 (operand_stack cells.old top) ≡ true }
    requires divisor { divides i32_type division (operand_stack cells.old top) ≡ true }
    ensures acts { ActsAlone (cell_numeric in_width (numeric.Division i32_type division))
        (operand_stack cells.old top) (operand_stack cells.new result) }
    ensures within { result ≤ length cells.new }
{
    let (second, under) = pop(cells, top);
    let (first, below) = pop(cells, under);
    push(
        cells,
        below,
        of_i32(i32_division(division, as_i32(first), as_i32(second))),
    )
}

#[inline(always)]
fn divide_i64(division: Division, cells: &mut [u64], top: usize) -> usize
    requires within { top ≤ length cells.old }
    requires tops { has_tops 2 (operand_stack cells.old top) ≡ true }
    requires divisor { divides i64_type division (operand_stack cells.old top) ≡ true }
    ensures acts { ActsAlone (cell_numeric in_width (numeric.Division i64_type division))
        (operand_stack cells.old top) (operand_stack cells.new result) }
    ensures within { result ≤ length cells.new }
{
    let (second, under) = pop(cells, top);
    let (first, below) = pop(cells, under);
    push(cells, below, i64_division(division, first, second))
}

#[inline(always)]
fn act_conversion(conversion: Conversion, cells: &mut [u64], top: usize) -> usize
    requires within { top ≤ length cells.old }
    requires tops { has_tops 1 (operand_stack cells.old top) ≡ true }
    ensures acts { ActsAlone (cell_numeric in_width (numeric.Conversion conversion))
        (operand_stack cells.old top) (operand_stack cells.new result) }
    ensures within { result ≤ length cells.new }
{
    let (cell, below) = pop(cells, top);
    let answer = match conversion {
        Conversion::Wrap => of_i32(i32_wrap_i64(cell)),
        Conversion::ExtendS => i64_extend_i32_s(as_i32(cell)),
        Conversion::ExtendU => i64_extend_i32_u(as_i32(cell)),
    };
    push(cells, below, answer)
}
