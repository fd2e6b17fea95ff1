//! Readers of instructions that contain no others (Core 1.0, 5.4).

ghost use Rattle.std.specs.Prelude.{◌≡◌};
ghost use Rattle.wasm_items.specs.inside.Reading.{GivesAndLeaves, IsRefusal};
ghost use Rattle.wasm_items.specs.inside.ReadingCode.{plain_at, i32_at, i64_at, variable_of, variable_at, branch_at, br_table_at, call_at, call_indirect_at, flat_at};

use crate::fault::{DecodeFault, DecodeRule};
use crate::item::vector;
use crate::memory::{after_zero, memory};
use crate::numeric::numeric;
use crate::reader::Reader;
use std::alloc::Global;
use wasm_ast::{Branch, Instr, MAX_LABELS, Plain, Value, Variable};

/// Reads what follows the opcode of an instruction that contains no others. The opcode is at `place`.
#[tactic(auto, unfolding(crate::specs::inside::ReadingCode::flat_at))]
pub fn flat(
    alloc: Global,
    reader: &mut Reader,
    opcode: u8,
    place: usize,
) -> Result<Instr, DecodeFault>
    ensures { GivesAndLeaves result reader.new (flat_at opcode reader.old) }
{
    match opcode {
        0x00 => Ok(Instr::Unreachable),
        0x0C..=0x0F => {
            let branch = branch(alloc, reader, opcode)?;
            Ok(Instr::Branch(branch))
        }
        0x10 => call(reader),
        0x11 => call_indirect(reader),
        _ => {
            let plain = plain(reader, opcode, place)?;
            Ok(Instr::Plain(plain))
        }
    }
}

#[tactic(auto, unfolding(crate::specs::inside::ReadingCode::call_at))]
fn call(reader: &mut Reader) -> Result<Instr, DecodeFault>
    ensures { GivesAndLeaves result reader.new (call_at reader.old) }
{
    let function = reader.u32()?;
    Ok(Instr::Call(function))
}

#[tactic(auto, unfolding(crate::specs::inside::ReadingCode::call_indirect_at))]
fn call_indirect(reader: &mut Reader) -> Result<Instr, DecodeFault>
    ensures { GivesAndLeaves result reader.new (call_indirect_at reader.old) }
{
    let type_number = reader.u32()?;
    after_zero(reader, Instr::CallIndirect(type_number))
}

// Reads what follows an opcode from 0C to 0F: a branch or a return.
#[tactic(auto, unfolding(crate::specs::inside::ReadingCode::branch_at, crate::specs::inside::ReadingCode::br_at, crate::specs::inside::ReadingCode::br_if_at))]
fn branch(alloc: Global, reader: &mut Reader, opcode: u8) -> Result<Branch, DecodeFault>
    ensures { GivesAndLeaves result reader.new (branch_at opcode reader.old) }
{
    match opcode {
        0x0C => {
            let label = reader.u32()?;
            Ok(Branch::Br(label))
        }
        0x0D => {
            let label = reader.u32()?;
            Ok(Branch::BrIf(label))
        }
        0x0E => branch_table(alloc, reader),
        _ => Ok(Branch::Return),
    }
}

#[tactic(auto, unfolding(crate::specs::inside::ReadingCode::br_table_at))]
fn branch_table(alloc: Global, reader: &mut Reader) -> Result<Branch, DecodeFault>
    ensures { GivesAndLeaves result reader.new (br_table_at reader.old) }
{
    let labels = vector::<u32>(alloc, reader, MAX_LABELS)?;
    let default = reader.u32()?;
    Ok(Branch::BrTable(labels, default))
}

// Reads what follows the opcode of an instruction that neither branches nor calls.
#[tactic(auto, unfolding(crate::specs::inside::ReadingCode::plain_at, crate::specs::inside::ReadingCode::numeric_at))]
fn plain(reader: &mut Reader, opcode: u8, place: usize) -> Result<Plain, DecodeFault>
    ensures { GivesAndLeaves result reader.new (plain_at opcode reader.old) }
{
    match opcode {
        0x01 => Ok(Plain::Nop),
        0x1A => Ok(Plain::Drop),
        0x1B => Ok(Plain::Select),
        0x20..=0x24 => variable(reader, opcode),
        0x28..=0x40 => {
            let operation = memory(reader, opcode, place)?;
            Ok(Plain::Memory(operation))
        }
        0x41 => i32_constant(reader),
        0x42 => i64_constant(reader),
        _ => match numeric(opcode) {
            Some(operation) => Ok(Plain::Numeric(operation)),
            None => Err(no_instruction(opcode, place)),
        },
    }
}

#[tactic(auto, unfolding(crate::specs::inside::ReadingCode::i32_at))]
fn i32_constant(reader: &mut Reader) -> Result<Plain, DecodeFault>
    ensures { GivesAndLeaves result reader.new (i32_at reader.old) }
{
    let number = reader.s32()?;
    Ok(Plain::Const(Value::I32(number.cast_unsigned())))
}

#[tactic(auto, unfolding(crate::specs::inside::ReadingCode::i64_at))]
fn i64_constant(reader: &mut Reader) -> Result<Plain, DecodeFault>
    ensures { GivesAndLeaves result reader.new (i64_at reader.old) }
{
    let number = reader.s64()?;
    Ok(Plain::Const(Value::I64(number.cast_unsigned())))
}

// Reads what follows an opcode from 20 to 24: the index of a local or global.
#[tactic(auto, unfolding(crate::specs::inside::ReadingCode::variable_at))]
fn variable(reader: &mut Reader, opcode: u8) -> Result<Plain, DecodeFault>
    ensures { GivesAndLeaves result reader.new (variable_at opcode reader.old) }
{
    let number = reader.u32()?;
    Ok(Plain::Variable(accessed(opcode, number)))
}

fn accessed(opcode: u8, number: u32) -> Variable
    ensures { result ≡ variable_of opcode number }
{
    match opcode {
        0x20 => Variable::LocalGet(number),
        0x21 => Variable::LocalSet(number),
        0x22 => Variable::LocalTee(number),
        0x23 => Variable::GlobalGet(number),
        _ => Variable::GlobalSet(number),
    }
}

// Returns the fault of an opcode that is not read: `Unsupported` for floats, else `BadByte`.
fn no_instruction(opcode: u8, place: usize) -> DecodeFault
    ensures { IsRefusal result }
{
    match opcode {
        0x43 | 0x44 | 0x5B..=0x66 => DecodeFault::Refused(DecodeRule::Unsupported, place),
        0x8B..=0xA6 | 0xA8..=0xAB | 0xAE..=0xBF => DecodeFault::Refused(
            DecodeRule::Unsupported,
            place,
        ),
        _ => DecodeFault::Refused(DecodeRule::BadByte, place),
    }
}
