//! The value of each numeric instruction (Core 1.0, 4.3): `i32.add 1 2` prints `i32.add 1 2: 3`.
//!
//! An operand is decimal, with a sign or none, or hexadecimal after `0x`; i32 takes the low 32 bits. A signed value from
//! -99 to 99 is printed in decimal, any other in hexadecimal.

mod large;
mod small;

use crate::modules::plain_of;
use conformance_cases::{Line, halves};
use semantics::{i32_eqz, i32_wrap_i64, i64_eqz, i64_extend_i32_s, i64_extend_i32_u};
use std::alloc::Global;
use std::fmt;
use wasm_ast::{Conversion, Numeric, Plain, ValType, Value};

/// The value of an instruction, by the function of its name and by its enum.
#[derive(Clone, Copy)]
pub struct Given {
    pub by_function: Value,
    pub by_enum: Value,
}

impl Given {
    // Makes the value of an instruction that no function computes by an enum.
    fn by_function_alone(value: Value) -> Given {
        Given {
            by_function: value,
            by_enum: value,
        }
    }
}

/// Writes the value of an instruction on its operands.
pub fn answer(alloc: Global, case: &str, line: &mut Line) {
    let (name, operands) = halves(case, " ");
    match (plain_of(alloc, name), operands_in(operands)) {
        (Ok(Some(Plain::Numeric(numeric))), Some((first, second))) => {
            tell(outcome(numeric, first, second), line)
        }
        (Ok(_), _) => line.put("no numeric instruction with operands"),
        (Err(_), _) => line.cut(),
    }
}

// Reads the operands. The second is 0 if there is only one.
fn operands_in(text: &str) -> Option<(u64, u64)> {
    let (first, second) = text.split_once(' ').unwrap_or((text, "0"));
    match (number_of(first), number_of(second)) {
        (Some(first), Some(second)) => Some((first, second)),
        _ => None,
    }
}

fn number_of(text: &str) -> Option<u64> {
    if let Some(digits) = text.strip_prefix("0x") {
        return u64::from_str_radix(digits, 16).ok();
    }
    match text.parse::<i64>() {
        Ok(number) => Some(number.cast_unsigned()),
        Err(_) => text.parse().ok(),
    }
}

// Returns the value of the instruction on these operands, or none if it traps.
fn outcome(numeric: Numeric, x: u64, y: u64) -> Option<Given> {
    let (small_x, small_y) = (i32_wrap_i64(x), i32_wrap_i64(y));
    match numeric {
        Numeric::Eqz(val_type) => Some(Given::by_function_alone(is_zero(val_type, x))),
        Numeric::Unary(ValType::I32, unary) => Some(small::unary_given(unary, small_x)),
        Numeric::Unary(ValType::I64, unary) => Some(large::unary_given(unary, x)),
        Numeric::Binary(ValType::I32, binary) => Some(small::binary_given(
            binary, small_x, small_y,
        )),
        Numeric::Binary(ValType::I64, binary) => Some(large::binary_given(binary, x, y)),
        Numeric::Comparison(ValType::I32, comparison) => Some(small::comparison_given(
            comparison, small_x, small_y,
        )),
        Numeric::Comparison(ValType::I64, comparison) => Some(large::comparison_given(
            comparison, x, y,
        )),
        Numeric::Division(ValType::I32, division) => small::division_given(
            division, small_x, small_y,
        ),
        Numeric::Division(ValType::I64, division) => large::division_given(division, x, y),
        Numeric::Conversion(conversion) => Some(Given::by_function_alone(converted(conversion, x))),
    }
}

fn is_zero(val_type: ValType, x: u64) -> Value {
    Value::I32(match val_type {
        ValType::I32 => i32_eqz(i32_wrap_i64(x)),
        ValType::I64 => i64_eqz(x),
    })
}

fn converted(conversion: Conversion, x: u64) -> Value {
    match conversion {
        Conversion::Wrap => Value::I32(i32_wrap_i64(x)),
        Conversion::ExtendS => Value::I64(i64_extend_i32_s(i32_wrap_i64(x))),
        Conversion::ExtendU => Value::I64(i64_extend_i32_u(i32_wrap_i64(x))),
    }
}

// Writes the value, or both values if the function and the enum do not agree.
fn tell(given: Option<Given>, line: &mut Line) {
    let Some(given) = given else {
        return line.put("trap");
    };
    tell_value(given.by_function, line);
    if given.by_enum != given.by_function {
        line.put(", by the enum ");
        tell_value(given.by_enum, line);
    }
}

fn tell_value(value: Value, line: &mut Line) {
    let (signed, unsigned) = match value {
        Value::I32(number) => (i64::from(number.cast_signed()), u64::from(number)),
        Value::I64(number) => (number.cast_signed(), number),
    };
    if (-99..100).contains(&signed) {
        line.show(&signed);
    } else {
        line.show(&Hexadecimal(unsigned));
    }
}

// A number in hexadecimal digits after `0x`.
#[derive(Clone, Copy)]
struct Hexadecimal(u64);

impl fmt::Display for Hexadecimal {
    fn fmt<W: fmt::Write>(&self, f: &mut fmt::Formatter<W>) -> fmt::Result {
        write!(f, "{:#x}", self.0)
    }
}
