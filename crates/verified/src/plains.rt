//! The flat forms of instructions that neither branch nor call.

ghost use Rattle.std.specs.Prelude.{◌≡◌, Some};
ghost use Rattle.wasm_ast.specs.declared.numeric.Numeric.TheVariants as numeric;
ghost use Rattle.wasm_ast.specs.declared.plain.Plain.TheVariants as plain;
ghost use Rattle.wasm_ast.specs.declared.types.ValType.TheVariants as val_type;
ghost use Rattle.verified.specs.Plains.{plain_of};

use crate::body::FlatInstr;
use wasm_ast::{
    Binary, Comparison, Conversion, Load, Memory, Numeric, Plain, Store, ValType, Value, Variable,
};

/// Returns the flat form of an instruction: a variant of its own for each frequent one.
pub fn flat_plain(plain: Plain) -> FlatInstr
    ensures { plain_of result ≡ Some plain }
{
    match plain {
        Plain::Drop => FlatInstr::Drop,
        Plain::Select => FlatInstr::Select,
        Plain::Const(Value::I32(number)) => FlatInstr::I32Const(number),
        Plain::Const(Value::I64(number)) => FlatInstr::I64Const(number),
        Plain::Variable(variable) => flat_variable(variable),
        Plain::Numeric(numeric) => flat_numeric(numeric),
        Plain::Memory(Memory::Load(Load::I64, argument)) => FlatInstr::I64Load(argument),
        Plain::Memory(Memory::Store(Store::I64, argument)) => FlatInstr::I64Store(argument),
        _ => FlatInstr::Plain(plain),
    }
}

fn flat_variable(variable: Variable) -> FlatInstr
    ensures { plain_of result ≡ Some (plain.Variable variable) }
{
    match variable {
        Variable::LocalGet(number) => FlatInstr::LocalGet(number),
        Variable::LocalSet(number) => FlatInstr::LocalSet(number),
        Variable::LocalTee(number) => FlatInstr::LocalTee(number),
        Variable::GlobalGet(number) => FlatInstr::GlobalGet(number),
        Variable::GlobalSet(number) => FlatInstr::GlobalSet(number),
    }
}

fn flat_numeric(op: Numeric) -> FlatInstr
    ensures { plain_of result ≡ Some (plain.Numeric op) }
{
    match op {
        Numeric::Eqz(ValType::I32) => FlatInstr::I32Eqz,
        Numeric::Eqz(ValType::I64) => FlatInstr::I64Eqz,
        Numeric::Binary(ValType::I32, binary) => flat_binary_i32(binary),
        Numeric::Binary(ValType::I64, binary) => flat_binary_i64(binary),
        Numeric::Comparison(ValType::I32, comparison) => flat_comparison_i32(comparison),
        Numeric::Comparison(ValType::I64, comparison) => flat_comparison_i64(comparison),
        Numeric::Conversion(Conversion::Wrap) => FlatInstr::I32WrapI64,
        Numeric::Conversion(Conversion::ExtendS) => FlatInstr::I64ExtendI32S,
        Numeric::Conversion(Conversion::ExtendU) => FlatInstr::I64ExtendI32U,
        _ => FlatInstr::Plain(Plain::Numeric(op)),
    }
}

fn flat_binary_i32(binary: Binary) -> FlatInstr
    ensures { plain_of result ≡ Some (plain.Numeric (numeric.Binary val_type.I32 binary)) }
{
    match binary {
        Binary::Add => FlatInstr::I32Add,
        Binary::Sub => FlatInstr::I32Sub,
        Binary::Mul => FlatInstr::I32Mul,
        Binary::And => FlatInstr::I32And,
        Binary::Or => FlatInstr::I32Or,
        Binary::Xor => FlatInstr::I32Xor,
        _ => FlatInstr::Plain(Plain::Numeric(Numeric::Binary(ValType::I32, binary))),
    }
}

fn flat_binary_i64(binary: Binary) -> FlatInstr
    ensures { plain_of result ≡ Some (plain.Numeric (numeric.Binary val_type.I64 binary)) }
{
    match binary {
        Binary::Add => FlatInstr::I64Add,
        Binary::Sub => FlatInstr::I64Sub,
        Binary::Mul => FlatInstr::I64Mul,
        Binary::And => FlatInstr::I64And,
        Binary::Or => FlatInstr::I64Or,
        Binary::Xor => FlatInstr::I64Xor,
        Binary::Shl => FlatInstr::I64Shl,
        Binary::ShrS => FlatInstr::I64ShrS,
        Binary::ShrU => FlatInstr::I64ShrU,
        Binary::Rotl => FlatInstr::I64Rotl,
        _ => FlatInstr::Plain(Plain::Numeric(Numeric::Binary(ValType::I64, binary))),
    }
}

fn flat_comparison_i32(comparison: Comparison) -> FlatInstr
    ensures { plain_of result ≡ Some (plain.Numeric (numeric.Comparison val_type.I32 comparison)) }
{
    match comparison {
        Comparison::Eq => FlatInstr::I32Eq,
        Comparison::Ne => FlatInstr::I32Ne,
        Comparison::LtS => FlatInstr::I32LtS,
        Comparison::LtU => FlatInstr::I32LtU,
        Comparison::GtS => FlatInstr::I32GtS,
        Comparison::GtU => FlatInstr::I32GtU,
        Comparison::LeS => FlatInstr::I32LeS,
        Comparison::GeS => FlatInstr::I32GeS,
        _ => FlatInstr::Plain(Plain::Numeric(Numeric::Comparison(ValType::I32, comparison))),
    }
}

fn flat_comparison_i64(comparison: Comparison) -> FlatInstr
    ensures { plain_of result ≡ Some (plain.Numeric (numeric.Comparison val_type.I64 comparison)) }
{
    match comparison {
        Comparison::Eq => FlatInstr::I64Eq,
        Comparison::Ne => FlatInstr::I64Ne,
        Comparison::LtS => FlatInstr::I64LtS,
        Comparison::LtU => FlatInstr::I64LtU,
        Comparison::GtS => FlatInstr::I64GtS,
        Comparison::GtU => FlatInstr::I64GtU,
        Comparison::LeS => FlatInstr::I64LeS,
        Comparison::LeU => FlatInstr::I64LeU,
        Comparison::GeS => FlatInstr::I64GeS,
        Comparison::GeU => FlatInstr::I64GeU,
    }
}
