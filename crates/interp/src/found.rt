//! What a flat instruction is: one match finds it.

ghost use Rattle.std.specs.Prelude.{◌≡◌};
ghost use Rattle.interp.specs.inside.Found.{IsFound};

use verified::FlatInstr;
use wasm_ast::{Load, Memory, Plain, Store, Value, Variable};

/// A numeric instruction that is a variant of its own in flat form. It has no fields, so that a match of it costs little
/// to prove.
#[derive(Clone, Copy)]
pub enum Operator {
    I64Add,
    I64Sub,
    I64Mul,
    I64And,
    I64Or,
    I64Xor,
    I64Shl,
    I64ShrS,
    I64ShrU,
    I64Rotl,
    I64Eqz,
    I64Eq,
    I64Ne,
    I64LtS,
    I64LtU,
    I64GtS,
    I64GtU,
    I64LeS,
    I64LeU,
    I64GeS,
    I64GeU,
    I32Add,
    I32Sub,
    I32Mul,
    I32And,
    I32Or,
    I32Xor,
    I32Eqz,
    I32Eq,
    I32Ne,
    I32LtS,
    I32LtU,
    I32GtS,
    I32GtU,
    I32LeS,
    I32GeS,
    I32WrapI64,
    I64ExtendI32S,
    I64ExtendI32U,
}

/// What straight code does with an instruction.
#[derive(Clone, Copy)]
pub enum Found {
    Operator(Operator),
    /// Any other instruction that neither branches nor calls.
    Plain(Plain),
    Call(u32),
    /// It is passed where it pops a zero, and has no other effect then.
    Zero,
    /// Straight code ends.
    Other,
}

/// Finds what an instruction is.
#[inline(always)]
pub fn find_flat(first: &FlatInstr) -> Found
    ensures { IsFound result first.now }
{
    match first {
        FlatInstr::LocalGet(number) => Found::Plain(Plain::Variable(Variable::LocalGet(*number))),
        FlatInstr::LocalSet(number) => Found::Plain(Plain::Variable(Variable::LocalSet(*number))),
        FlatInstr::LocalTee(number) => Found::Plain(Plain::Variable(Variable::LocalTee(*number))),
        FlatInstr::GlobalGet(number) => Found::Plain(Plain::Variable(Variable::GlobalGet(*number))),
        FlatInstr::GlobalSet(number) => Found::Plain(Plain::Variable(Variable::GlobalSet(*number))),
        FlatInstr::I32Const(number) => Found::Plain(Plain::Const(Value::I32(*number))),
        FlatInstr::I64Const(number) => Found::Plain(Plain::Const(Value::I64(*number))),
        FlatInstr::Drop => Found::Plain(Plain::Drop),
        FlatInstr::Select => Found::Plain(Plain::Select),
        FlatInstr::I64Add => Found::Operator(Operator::I64Add),
        FlatInstr::I64Sub => Found::Operator(Operator::I64Sub),
        FlatInstr::I64Mul => Found::Operator(Operator::I64Mul),
        FlatInstr::I64And => Found::Operator(Operator::I64And),
        FlatInstr::I64Or => Found::Operator(Operator::I64Or),
        FlatInstr::I64Xor => Found::Operator(Operator::I64Xor),
        FlatInstr::I64Shl => Found::Operator(Operator::I64Shl),
        FlatInstr::I64ShrS => Found::Operator(Operator::I64ShrS),
        FlatInstr::I64ShrU => Found::Operator(Operator::I64ShrU),
        FlatInstr::I64Rotl => Found::Operator(Operator::I64Rotl),
        FlatInstr::I64Eqz => Found::Operator(Operator::I64Eqz),
        FlatInstr::I64Eq => Found::Operator(Operator::I64Eq),
        FlatInstr::I64Ne => Found::Operator(Operator::I64Ne),
        FlatInstr::I64LtS => Found::Operator(Operator::I64LtS),
        FlatInstr::I64LtU => Found::Operator(Operator::I64LtU),
        FlatInstr::I64GtS => Found::Operator(Operator::I64GtS),
        FlatInstr::I64GtU => Found::Operator(Operator::I64GtU),
        FlatInstr::I64LeS => Found::Operator(Operator::I64LeS),
        FlatInstr::I64LeU => Found::Operator(Operator::I64LeU),
        FlatInstr::I64GeS => Found::Operator(Operator::I64GeS),
        FlatInstr::I64GeU => Found::Operator(Operator::I64GeU),
        FlatInstr::I32Add => Found::Operator(Operator::I32Add),
        FlatInstr::I32Sub => Found::Operator(Operator::I32Sub),
        FlatInstr::I32Mul => Found::Operator(Operator::I32Mul),
        FlatInstr::I32And => Found::Operator(Operator::I32And),
        FlatInstr::I32Or => Found::Operator(Operator::I32Or),
        FlatInstr::I32Xor => Found::Operator(Operator::I32Xor),
        FlatInstr::I32Eqz => Found::Operator(Operator::I32Eqz),
        FlatInstr::I32Eq => Found::Operator(Operator::I32Eq),
        FlatInstr::I32Ne => Found::Operator(Operator::I32Ne),
        FlatInstr::I32LtS => Found::Operator(Operator::I32LtS),
        FlatInstr::I32LtU => Found::Operator(Operator::I32LtU),
        FlatInstr::I32GtS => Found::Operator(Operator::I32GtS),
        FlatInstr::I32GtU => Found::Operator(Operator::I32GtU),
        FlatInstr::I32LeS => Found::Operator(Operator::I32LeS),
        FlatInstr::I32GeS => Found::Operator(Operator::I32GeS),
        FlatInstr::I32WrapI64 => Found::Operator(Operator::I32WrapI64),
        FlatInstr::I64ExtendI32S => Found::Operator(Operator::I64ExtendI32S),
        FlatInstr::I64ExtendI32U => Found::Operator(Operator::I64ExtendI32U),
        FlatInstr::I64Load(argument) => {
            Found::Plain(Plain::Memory(Memory::Load(Load::I64, *argument)))
        }
        FlatInstr::I64Store(argument) => {
            Found::Plain(Plain::Memory(Memory::Store(Store::I64, *argument)))
        }
        FlatInstr::Plain(plain) => Found::Plain(*plain),
        FlatInstr::Call(number) => Found::Call(*number),
        FlatInstr::BrIf(_) => Found::Zero,
        FlatInstr::If(_, _, else_body) => {
            if else_body.as_slice().is_empty() {
                Found::Zero
            } else {
                Found::Other
            }
        }
        _ => Found::Other,
    }
}
