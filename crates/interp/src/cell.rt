//! Values as cells. The cell of an i32 is its unsigned number, which is below 2^32.

ghost use Rattle.std.specs.Prelude.{◌≡◌, true};
ghost use Rattle.wasm_ast.specs.declared.types.ValType.TheVariants.{I32 as i32_type};
ghost use Rattle.wasm_ast.specs.declared.types.Value.TheVariants.{I32, I64};
ghost use Rattle.verified.specs.Memory.{number_of};
ghost use Rattle.interp.specs.inside.Cells.{cell_of, in_width, narrowed};

use wasm_ast::{ValType, Value};

/// Returns the i32 in the low half of a cell.
#[inline]
pub fn as_i32(cell: u64) -> u32
    ensures { result ≡ narrowed i32_type cell }
{
    (cell % 0x1_0000_0000) as u32
}

/// Returns the number of a cell, read as a type.
#[inline]
pub fn as_number(of: ValType, cell: u64) -> u64
    ensures { result ≡ narrowed of cell }
{
    match of {
        ValType::I32 => u64::from(as_i32(cell)),
        ValType::I64 => cell,
    }
}

/// Makes the cell of an i32.
#[inline]
pub fn of_i32(number: u32) -> u64
    ensures same { result ≡ number }
    ensures fits { in_width (I32 number) ≡ true }
{
    u64::from(number)
}

/// Makes the cell of a value.
#[inline]
pub fn of_value(value: Value) -> u64
    ensures number { result ≡ number_of value }
    ensures same { I64 result ≡ cell_of value }
    ensures fits { in_width value ≡ true }
{
    match value {
        Value::I32(number) => of_i32(number),
        Value::I64(number) => number,
    }
}
