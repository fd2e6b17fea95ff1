//! The opcodes of groups of instructions (Core 1.0, 5.4).

ghost use Rattle.std.specs.Prelude.{◌≡◌};
ghost use Rattle.wasm_items.specs.Types.{val_type_byte};
ghost use Rattle.wasm_items.specs.Instructions.{comparison_place, unary_place, binary_place, division_place, test_opcode, arithmetic_opcode, conversion_opcode, numeric_opcode, load_opcode, store_opcode};

use wasm_ast::{Binary, Comparison, Conversion, Division, Load, Numeric, Store, Unary, ValType};

/// Returns the byte of a value type (Core 1.0, 5.3.1).
pub fn val_type_byte(val_type: ValType) -> u8
    ensures { result ≡ val_type_byte val_type }
{
    match val_type {
        ValType::I32 => 0x7F,
        ValType::I64 => 0x7E,
    }
}

/// Returns the opcode of a numeric instruction (Core 1.0, 5.4.5).
pub fn numeric_opcode(numeric: Numeric) -> u8
    ensures { result ≡ numeric_opcode numeric }
{
    match numeric {
        Numeric::Eqz(operand) => test_opcode(operand),
        Numeric::Comparison(operand, operation) => test_opcode(operand)
            + 1
            + comparison_place(operation),
        Numeric::Unary(operand, operation) => arithmetic_opcode(operand) + unary_place(operation),
        Numeric::Binary(operand, operation) => arithmetic_opcode(operand) + binary_place(operation),
        Numeric::Division(operand, operation) => arithmetic_opcode(operand)
            + division_place(operation),
        Numeric::Conversion(operation) => conversion_opcode(operation),
    }
}

fn test_opcode(operand: ValType) -> u8
    ensures { result ≡ test_opcode operand }
{
    match operand {
        ValType::I32 => 0x45,
        ValType::I64 => 0x50,
    }
}

fn arithmetic_opcode(operand: ValType) -> u8
    ensures { result ≡ arithmetic_opcode operand }
{
    match operand {
        ValType::I32 => 0x67,
        ValType::I64 => 0x79,
    }
}

fn comparison_place(operation: Comparison) -> u8
    ensures { result ≡ comparison_place operation }
{
    match operation {
        Comparison::Eq => 0,
        Comparison::Ne => 1,
        Comparison::LtS => 2,
        Comparison::LtU => 3,
        Comparison::GtS => 4,
        Comparison::GtU => 5,
        Comparison::LeS => 6,
        Comparison::LeU => 7,
        Comparison::GeS => 8,
        Comparison::GeU => 9,
    }
}

fn unary_place(operation: Unary) -> u8
    ensures { result ≡ unary_place operation }
{
    match operation {
        Unary::Clz => 0,
        Unary::Ctz => 1,
        Unary::Popcnt => 2,
    }
}

fn binary_place(operation: Binary) -> u8
    ensures { result ≡ binary_place operation }
{
    match operation {
        Binary::Add => 3,
        Binary::Sub => 4,
        Binary::Mul => 5,
        Binary::And => 10,
        Binary::Or => 11,
        Binary::Xor => 12,
        Binary::Shl => 13,
        Binary::ShrS => 14,
        Binary::ShrU => 15,
        Binary::Rotl => 16,
        Binary::Rotr => 17,
    }
}

fn division_place(operation: Division) -> u8
    ensures { result ≡ division_place operation }
{
    match operation {
        Division::DivS => 6,
        Division::DivU => 7,
        Division::RemS => 8,
        Division::RemU => 9,
    }
}

fn conversion_opcode(operation: Conversion) -> u8
    ensures { result ≡ conversion_opcode operation }
{
    match operation {
        Conversion::Wrap => 0xA7,
        Conversion::ExtendS => 0xAC,
        Conversion::ExtendU => 0xAD,
    }
}

/// Returns the opcode of a load (Core 1.0, 5.4.4).
pub fn load_opcode(load: Load) -> u8
    ensures { result ≡ load_opcode load }
{
    match load {
        Load::I32 => 0x28,
        Load::I64 => 0x29,
        Load::I32From8S => 0x2C,
        Load::I32From8U => 0x2D,
        Load::I32From16S => 0x2E,
        Load::I32From16U => 0x2F,
        Load::I64From8S => 0x30,
        Load::I64From8U => 0x31,
        Load::I64From16S => 0x32,
        Load::I64From16U => 0x33,
        Load::I64From32S => 0x34,
        Load::I64From32U => 0x35,
    }
}

/// Returns the opcode of a store (Core 1.0, 5.4.4).
pub fn store_opcode(store: Store) -> u8
    ensures { result ≡ store_opcode store }
{
    match store {
        Store::I32 => 0x36,
        Store::I64 => 0x37,
        Store::I32To8 => 0x3A,
        Store::I32To16 => 0x3B,
        Store::I64To8 => 0x3C,
        Store::I64To16 => 0x3D,
        Store::I64To32 => 0x3E,
    }
}
