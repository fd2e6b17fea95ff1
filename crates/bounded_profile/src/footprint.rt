//! The footprint of a module: the bytes of its memory that loads and stores reach.

ghost use Rattle.std.specs.Prelude.{◌≡◌, ◌+◌, [], false, replicate, IfOk, OnOk};
ghost use Rattle.verified.specs.Arities.{block_arity};
ghost use Rattle.verified.specs.Memory.{memory_bytes};
ghost use Rattle.verified.specs.Reached.{access_at, accesses, accesses_along, memory_accesses};
ghost use Rattle.bounded_profile.specs.inside.Footprint.{marked_all, marked_to, marks_along, trail, trail_behind, with_plain};
ghost use Rattle.profile_rules.specs.inside.Tracking.{operands_of};

use profile_rules::{
    Operands, TEST, arity_at, arity_table, branch_arity, number_of, plain_arity, result_count,
};
use std::alloc::{AllocError, Global};
use verified::{Arity, Operand, memory_bytes};
use wasm_ast::{BlockType, Body, Instr, Memory, Module, Plain};

/// Decides for each byte of the memory whether some load or store of the module reaches it. Functions count whether
/// they are called or not. The only error is that an allocation fails.
pub fn footprint_marks(alloc: Global, module: &Module) -> Result<Vec<bool>, AllocError>
    ensures { IfOk result (λ marks. marks.items
        ≡ marked_all (accesses «module».now) (replicate (memory_bytes «module».now) false)) }
{
    let arities = arity_table(alloc, module)?;
    let mut marks = vec![in alloc; false; memory_bytes(module) as usize]?;
    for function in module.functions.as_slice() {
        mark_body(alloc, &arities, &function.body, &mut marks)?;
    }
    Ok(marks)
}

// Marks the bytes that the body of a function reaches.
fn mark_body(
    alloc: Global,
    arities: &[Arity],
    body: &Body,
    marks: &mut [bool],
) -> Result<(), AllocError>
    ensures { OnOk result (marks.new
        ≡ marked_all (accesses_along arities.now body.now []) marks.old) }
{
    mark_code(alloc, arities, body, marks)?;
    Ok(())
}

// Marks the bytes that code reaches, where the code begins with no operands.
#[cycle(code)]
fn mark_code(
    alloc: Global,
    arities: &[Arity],
    body: &Body,
    marks: &mut [bool],
) -> Result<(), AllocError>
    ensures { OnOk result (marks.new ≡ marks_along arities.now body.now marks.old) }
{
    let mut known = Operands::new(alloc);
    for instr in body.as_slice() {
        mark_instr(alloc, arities, instr, &mut known, marks)?;
    }
    Ok(())
}

#[cycle(code)]
fn mark_instr(
    alloc: Global,
    arities: &[Arity],
    instr: &Instr,
    known: &mut Operands,
    marks: &mut [bool],
) -> Result<(), AllocError>
    ensures { OnOk result (trail (operands_of known.new) marks.new
        ≡ trail_behind arities.now instr.now (trail (operands_of known.old) marks.old)) }
{
    match instr {
        Instr::Plain(plain) => mark_plain(*plain, known, marks),
        Instr::Branch(branch) => known.pass(branch_arity(branch)),
        Instr::Call(function) => known.pass(arity_at(arities, *function)),
        Instr::CallIndirect(_) | Instr::Unreachable => Ok(()),
        Instr::Block(gives, body) | Instr::Loop(gives, body) => {
            mark_code(alloc, arities, body, marks)?;
            known.pass(arity_of_block(*gives))
        }
        Instr::If(gives, body, other) => {
            known.pass(TEST)?;
            mark_code(alloc, arities, body, marks)?;
            mark_code(alloc, arities, other, marks)?;
            known.pass(arity_of_block(*gives))
        }
    }
}

// Returns the arity of a whole block, loop or `if`.
fn arity_of_block(gives: BlockType) -> Arity
    ensures { result ≡ block_arity gives }
{
    let gives = result_count(gives);
    Arity { takes: 0, gives }
}

fn mark_plain(plain: Plain, known: &mut Operands, marks: &mut [bool]) -> Result<(), AllocError>
    ensures { OnOk result (trail (operands_of known.new) marks.new
        ≡ with_plain plain (trail (operands_of known.old) marks.old)) }
{
    match plain {
        Plain::Const(value) => known.push(Operand::Known(number_of(value))),
        Plain::Memory(memory) => {
            mark_memory(memory, known, marks);
            known.pass(plain_arity(plain))
        }
        _ => known.pass(plain_arity(plain)),
    }
}

// Marks the bytes of a load or a store. The address of a store is below the value that it stores.
fn mark_memory(memory: Memory, known: &Operands, marks: &mut [bool])
    ensures { marks.new ≡ marked_all (memory_accesses «memory» (operands_of known.now)) marks.old }
{
    match memory {
        Memory::Load(load, argument) => {
            mark_access(known.at(0), argument.offset, load.width(), marks);
        }
        Memory::Store(store, argument) => {
            mark_access(known.at(1), argument.offset, store.width(), marks);
        }
        Memory::Size | Memory::Grow => {}
    }
}

fn mark_access(address: Operand, offset: u32, width: u32, marks: &mut [bool])
    ensures { marks.new ≡ marked_all (access_at address offset width) marks.old }
{
    if let Operand::Known(address) = address {
        mark(address, offset, width, marks);
    }
}

// Marks `width` bytes from an address on. Bytes past the memory are left out.
fn mark(address: u64, offset: u32, width: u32, marks: &mut [bool])
    ensures { marks.new ≡ marked_to (address + offset) width marks.old }
{
    for step in 0..width {
        let distance = u64::from(offset) + u64::from(step);
        let byte = address.saturating_add(distance) as usize;
        if byte < marks.len() {
            marks[byte] = true;
        }
    }
}
