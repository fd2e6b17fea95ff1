//! Readers of instruction sequences, and of the instructions that contain them (Core 1.0, 5.4.1 and 5.4.6).

ghost use Rattle.std.specs.Prelude.{◌≡◌, ◌<◌, ◌≤◌, ℕ, length, slice_get};
ghost use Rattle.wasm_items.specs.inside.Reading.{GivesAndLeaves};
ghost use Rattle.wasm_items.specs.inside.ReadingCode.{closed_as, typed_with, ended_with, arm_with, else_with, if_with, opcode_with, instr_with, stops, code_at, expression_at};

use crate::fault::{DecodeFault, DecodeRule};
use crate::instructions::flat;
use crate::reader::Reader;
use crate::types::block_type;
use std::alloc::Global;
use wasm_ast::{BlockType, Body, Instr, MAX_NESTING};

const ELSE: u8 = 0x05;

const END: u8 = 0x0B;

/// Reads an instruction sequence and its `end` (Core 1.0, 5.4.6).
#[tactic(auto, unfolding(crate::specs::inside::ReadingCode::expression_at))]
pub fn expression(alloc: Global, reader: &mut Reader) -> Result<Body, DecodeFault>
    ensures { GivesAndLeaves result reader.new (expression_at reader.old) }
{
    ended(alloc, reader, MAX_NESTING)
}

// Reports whether the next byte ends a sequence: `end` or `else`.
fn is_closing(reader: &Reader) -> bool
    ensures { result ≡ stops (slice_get reader.now 0) }
{
    match reader.peek() {
        Some(byte) => byte == END || byte == ELSE,
        None => false,
    }
}

// Reads the `end` of a sequence, and returns `whole`, which it ends.
#[tactic(auto, unfolding(crate::specs::inside::ReadingCode::closed_at))]
fn closed<T: Drop>(reader: &mut Reader, whole: T) -> Result<T, DecodeFault>
    ensures { GivesAndLeaves result reader.new (closed_as whole reader.old) }
{
    let place = reader.place();
    if reader.byte()? != END {
        return Err(DecodeFault::Refused(DecodeRule::BadByte, place));
    }
    Ok(whole)
}

// Reads an instruction sequence and its `end`.
#[cycle(decoder)]
#[tactic(auto, unfolding(crate::specs::inside::ReadingCode::ended_with))]
fn ended(alloc: Global, reader: &mut Reader, levels: u32) -> Result<Body, DecodeFault>
    ensures { (n : ℕ) → length reader.old < n
        → GivesAndLeaves result reader.new (ended_with (code_at n) levels reader.old) }
{
    let body = sequence(alloc, reader, levels)?;
    closed(reader, body)
}

// Reads instructions up to a byte that ends them, with at most `levels` blocks, loops and ifs inside each other.
#[cycle(decoder)]
fn sequence(alloc: Global, reader: &mut Reader, levels: u32) -> Result<Body, DecodeFault>
    ensures { (n : ℕ) → length reader.old < n
        → GivesAndLeaves result reader.new (code_at n levels reader.old) }
{
    let mut instrs = Vec::new(alloc);
    'each: while !is_closing(reader) {
        let instr = instruction(alloc, reader, levels)?;
        instrs.push(instr)?;
    }
    instrs.shrink_to_fit();
    Ok(Body::from(instrs))
}

// Reads one instruction.
#[cycle(decoder)]
#[tactic(auto, unfolding(crate::specs::inside::ReadingCode::instr_with))]
fn instruction(alloc: Global, reader: &mut Reader, levels: u32) -> Result<Instr, DecodeFault>
    ensures { (n : ℕ) → length reader.old ≤ n
        → GivesAndLeaves result reader.new (instr_with (code_at n) levels reader.old) }
{
    let place = reader.place();
    let opcode = reader.byte()?;
    after_opcode(alloc, reader, levels, opcode, place)
}

// Reads what follows the opcode at `place`.
#[cycle(decoder)]
#[tactic(auto, unfolding(crate::specs::inside::ReadingCode::opcode_with, crate::specs::inside::ReadingCode::block_with, crate::specs::inside::ReadingCode::loop_with))]
fn after_opcode(
    alloc: Global,
    reader: &mut Reader,
    levels: u32,
    opcode: u8,
    place: usize,
) -> Result<Instr, DecodeFault>
    ensures { (n : ℕ) → length reader.old < n
        → GivesAndLeaves result reader.new (opcode_with (code_at n) levels opcode reader.old) }
{
    match opcode {
        0x02 => {
            let (result_type, body) = typed_body(alloc, reader, levels, place)?;
            closed(reader, Instr::Block(result_type, body))
        }
        0x03 => {
            let (result_type, body) = typed_body(alloc, reader, levels, place)?;
            closed(reader, Instr::Loop(result_type, body))
        }
        0x04 => choice(alloc, reader, levels, place),
        _ => flat(alloc, reader, opcode, place),
    }
}

// Reads a block's type and its body, but not its end. The opcode is at `place`.
#[cycle(decoder)]
#[tactic(auto, unfolding(crate::specs::inside::ReadingCode::typed_with))]
fn typed_body(
    alloc: Global,
    reader: &mut Reader,
    levels: u32,
    place: usize,
) -> Result<(BlockType, Body), DecodeFault>
    ensures { (n : ℕ) → length reader.old < n
        → GivesAndLeaves result reader.new (typed_with (code_at n) levels reader.old) }
{
    if levels == 0 {
        return Err(DecodeFault::Refused(DecodeRule::OverLimit, place));
    }
    let result_type = block_type(reader)?;
    let body = sequence(alloc, reader, levels - 1)?;
    Ok((result_type, body))
}

// Reads what follows the opcode of an `if` at `place`.
#[cycle(decoder)]
#[tactic(auto, unfolding(crate::specs::inside::ReadingCode::if_with))]
fn choice(
    alloc: Global,
    reader: &mut Reader,
    levels: u32,
    place: usize,
) -> Result<Instr, DecodeFault>
    ensures { (n : ℕ) → length reader.old < n
        → GivesAndLeaves result reader.new (if_with (code_at n) levels reader.old) }
{
    let (result_type, body) = typed_body(alloc, reader, levels, place)?;
    let other = else_body(alloc, reader, levels)?;
    Ok(Instr::If(result_type, body, other))
}

// Reads the arm for 0 of an `if`, which is empty where there is no `else`, and the `end`.
#[cycle(decoder)]
#[tactic(auto, unfolding(crate::specs::inside::ReadingCode::else_with, crate::specs::inside::ReadingCode::arm_with))]
fn else_body(alloc: Global, reader: &mut Reader, levels: u32) -> Result<Body, DecodeFault>
    requires { 0 < levels }
    ensures { (n : ℕ) → length reader.old < n
        → GivesAndLeaves result reader.new (else_with (code_at n) levels reader.old) }
{
    let place = reader.place();
    match reader.byte()? {
        ELSE => ended(alloc, reader, levels - 1),
        END => Ok(Body::empty(alloc)),
        _ => Err(DecodeFault::Refused(DecodeRule::BadByte, place)),
    }
}
