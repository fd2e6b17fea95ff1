//! Writers of instructions (Core 1.0, 5.4).

ghost use Rattle.std.specs.Prelude.{◌≡◌, ◌++◌, ◌∷◌, OnOk};
ghost use Rattle.leb.specs.Spelling.{u32_spelling};
ghost use Rattle.wasm_ast.specs.View.{code_of};
ghost use Rattle.wasm_items.specs.Canonical.{plain_bytes, const_bytes, variable_bytes, memory_bytes, branch_bytes, code_bytes, instr_bytes, block_type_byte, expression_bytes};
ghost use Rattle.wasm_items.specs.inside.WritingCode.{opening_bytes, block_bytes, arm_bytes, choice_bytes, call_indirect_bytes, access_bytes};

use super::opcodes::{load_opcode, numeric_opcode, store_opcode, val_type_byte};
use super::parts::{write_byte, write_vector};
use leb::{write_s32, write_s64, write_u32};
use std::alloc::AllocError;
use wasm_ast::{BlockType, Body, Branch, Instr, Memory, MemoryArgument, Plain, Value, Variable};

const ELSE: u8 = 0x05;

const END: u8 = 0x0B;

/// Appends an instruction sequence and its `end` (Core 1.0, 5.4.6).
#[tactic(auto, unfolding(crate::specs::Canonical::expression_bytes))]
pub fn write_expression(out: &mut Vec<u8>, body: &Body) -> Result<(), AllocError>
    ensures { OnOk result (out.new.items ≡ out.old.items ++ expression_bytes body.now) }
{
    write_body(out, body)?;
    write_byte(out, END)
}

// Appends an instruction sequence, without its `end`.
#[cycle(instructions)]
fn write_body(out: &mut Vec<u8>, body: &Body) -> Result<(), AllocError>
    ensures { OnOk result (out.new.items ≡ out.old.items ++ code_bytes body.now) }
{
    for instr in body.as_slice() {
        write_instr(out, instr)?;
    }
    Ok(())
}

#[cycle(instructions)]
fn write_instr(out: &mut Vec<u8>, instr: &Instr) -> Result<(), AllocError>
    ensures { OnOk result (out.new.items ≡ out.old.items ++ instr_bytes instr.now) }
{
    match instr {
        Instr::Plain(plain) => write_plain(out, *plain),
        Instr::Branch(branch) => write_branch(out, branch),
        Instr::Call(function) => write_numbered(out, 0x10, *function),
        Instr::CallIndirect(type_number) => write_call_indirect(out, *type_number),
        Instr::Unreachable => write_byte(out, 0x00),
        Instr::Block(block_type, body) => write_block(out, 0x02, *block_type, body),
        Instr::Loop(block_type, body) => write_block(out, 0x03, *block_type, body),
        Instr::If(block_type, body, other) => write_choice(out, *block_type, body, other),
    }
}

// Appends a block or a loop.
#[cycle(instructions)]
fn write_block(
    out: &mut Vec<u8>,
    opcode: u8,
    block_type: BlockType,
    body: &Body,
) -> Result<(), AllocError>
    ensures { OnOk result (out.new.items
        ≡ out.old.items ++ block_bytes opcode block_type body.now) }
{
    write_opening(out, opcode, block_type)?;
    write_body(out, body)?;
    write_byte(out, END)
}

// Appends an `if`, with both arms.
#[cycle(instructions)]
fn write_choice(
    out: &mut Vec<u8>,
    block_type: BlockType,
    body: &Body,
    other: &Body,
) -> Result<(), AllocError>
    ensures { OnOk result (out.new.items
        ≡ out.old.items ++ choice_bytes block_type body.now other.now) }
{
    write_opening(out, 0x04, block_type)?;
    write_body(out, body)?;
    write_else(out, other)?;
    write_byte(out, END)
}

// Appends the arm for 0 with its `else`, or nothing where the arm is empty.
#[cycle(instructions)]
fn write_else(out: &mut Vec<u8>, arm: &Body) -> Result<(), AllocError>
    ensures { OnOk result (out.new.items ≡ out.old.items ++ arm_bytes arm.now) }
{
    if arm.as_slice().is_empty() {
        return Ok(());
    }
    write_byte(out, ELSE)?;
    write_body(out, arm)
}

// Appends an opcode and a block type.
fn write_opening(out: &mut Vec<u8>, opcode: u8, block_type: BlockType) -> Result<(), AllocError>
    ensures { OnOk result (out.new.items ≡ out.old.items ++ opening_bytes opcode block_type) }
{
    write_byte(out, opcode)?;
    write_byte(out, block_type_byte(block_type))
}

fn block_type_byte(block_type: BlockType) -> u8
    ensures { result ≡ block_type_byte block_type }
{
    match block_type {
        None => 0x40,
        Some(val_type) => val_type_byte(val_type),
    }
}

/// Appends an opcode and an index.
pub fn write_numbered(out: &mut Vec<u8>, opcode: u8, number: u32) -> Result<(), AllocError>
    ensures { OnOk result (out.new.items ≡ out.old.items ++ opcode ∷ u32_spelling number) }
{
    write_byte(out, opcode)?;
    write_u32(out, number)
}

fn write_call_indirect(out: &mut Vec<u8>, type_number: u32) -> Result<(), AllocError>
    ensures { OnOk result (out.new.items ≡ out.old.items ++ call_indirect_bytes type_number) }
{
    write_numbered(out, 0x11, type_number)?;
    write_byte(out, 0x00)
}

fn write_plain(out: &mut Vec<u8>, plain: Plain) -> Result<(), AllocError>
    ensures { OnOk result (out.new.items ≡ out.old.items ++ plain_bytes plain) }
{
    match plain {
        Plain::Nop => write_byte(out, 0x01),
        Plain::Drop => write_byte(out, 0x1A),
        Plain::Select => write_byte(out, 0x1B),
        Plain::Const(value) => write_const(out, value),
        Plain::Numeric(numeric) => write_byte(out, numeric_opcode(numeric)),
        Plain::Variable(variable) => write_variable(out, variable),
        Plain::Memory(memory) => write_memory(out, memory),
    }
}

fn write_const(out: &mut Vec<u8>, value: Value) -> Result<(), AllocError>
    ensures { OnOk result (out.new.items ≡ out.old.items ++ const_bytes value) }
{
    match value {
        Value::I32(number) => {
            write_byte(out, 0x41)?;
            write_s32(out, number.cast_signed())
        }
        Value::I64(number) => {
            write_byte(out, 0x42)?;
            write_s64(out, number.cast_signed())
        }
    }
}

fn write_variable(out: &mut Vec<u8>, variable: Variable) -> Result<(), AllocError>
    ensures { OnOk result (out.new.items ≡ out.old.items ++ variable_bytes variable) }
{
    match variable {
        Variable::LocalGet(local) => write_numbered(out, 0x20, local),
        Variable::LocalSet(local) => write_numbered(out, 0x21, local),
        Variable::LocalTee(local) => write_numbered(out, 0x22, local),
        Variable::GlobalGet(global) => write_numbered(out, 0x23, global),
        Variable::GlobalSet(global) => write_numbered(out, 0x24, global),
    }
}

fn write_memory(out: &mut Vec<u8>, memory: Memory) -> Result<(), AllocError>
    ensures { OnOk result (out.new.items ≡ out.old.items ++ memory_bytes memory) }
{
    match memory {
        Memory::Load(load, argument) => write_access(out, load_opcode(load), argument),
        Memory::Store(store, argument) => write_access(out, store_opcode(store), argument),
        Memory::Size => {
            write_byte(out, 0x3F)?;
            write_byte(out, 0x00)
        }
        Memory::Grow => {
            write_byte(out, 0x40)?;
            write_byte(out, 0x00)
        }
    }
}

// Appends a load or a store with this opcode.
fn write_access(out: &mut Vec<u8>, opcode: u8, argument: MemoryArgument) -> Result<(), AllocError>
    ensures { OnOk result (out.new.items ≡ out.old.items ++ access_bytes opcode argument) }
{
    write_byte(out, opcode)?;
    write_u32(out, argument.align)?;
    write_u32(out, argument.offset)
}

fn write_branch(out: &mut Vec<u8>, branch: &Branch) -> Result<(), AllocError>
    ensures { OnOk result (out.new.items ≡ out.old.items ++ branch_bytes branch.now) }
{
    match branch {
        Branch::Br(label) => write_numbered(out, 0x0C, *label),
        Branch::BrIf(label) => write_numbered(out, 0x0D, *label),
        Branch::BrTable(labels, default) => {
            write_byte(out, 0x0E)?;
            write_vector(out, labels.as_slice())?;
            write_u32(out, *default)
        }
        Branch::Return => write_byte(out, 0x0F),
    }
}
