//! Instructions that neither branch nor call (Core 1.0, 4.4.1 to 4.4.4), on an operand stack with room for one more
//! cell. Each returns the new height of the stack, and its units.

ghost use Rattle.std.specs.Prelude.{◌≡◌, ◌<◌, ◌≤◌, length, map, true};
ghost use Rattle.wasm_ast.specs.declared.types.ValType.TheVariants.{I32 as i32_type};
ghost use Rattle.wasm_ast.specs.declared.types.Value.TheVariants.{I64};
ghost use Rattle.wasm_ast.specs.declared.plain.Memory.TheVariants as memory_variant;
ghost use Rattle.wasm_ast.specs.declared.plain.Plain.TheVariants as plain;
ghost use Rattle.wasm_ast.specs.Widths.{load_width, store_width};
ghost use Rattle.verified.specs.Weights.{memory_units, plain_units};
ghost use Rattle.interp.specs.inside.Acts.{ActsAlone, ActsOn, ActsOnBytes, ActsOnVariables};
ghost use Rattle.interp.specs.inside.Cells.{cell_effect, cell_memory, in_width};
ghost use Rattle.interp.specs.inside.Going.{has_tops, memory_asks, of_next, of_top, plain_asks, reaches, variable_asks};
ghost use Rattle.interp.specs.inside.Kept.{count_kept};
ghost use Rattle.interp.specs.inside.OperandStack.{operand_stack};
ghost use Rattle.semantics.specs.Effects.{variable_effect};

use crate::call_globals::CallGlobals;
use crate::cell::{as_i32, as_number, of_i32, of_value};
use crate::locals::{local, set_local};
use crate::memory::Memory;
use crate::numeric::act_numeric;
use crate::operand_stack::{pop, push};
use verified::plain_units;
use wasm_ast::{Load, Memory as MemoryAccess, MemoryArgument, Plain, Store, Variable};

/// The height of the operand stack after an instruction, and its units. The units are computed where the kind of the
/// instruction is matched, so that a proof does not match it twice.
#[derive(Clone, Copy)]
pub struct Acted {
    pub top: usize,
    pub units: u32,
}

impl Acted {
    #[inline(always)]
    pub fn by(instruction: Plain, top: usize) -> Acted
        ensures top { result.top ≡ top }
        ensures units { result.units ≡ plain_units instruction }
    {
        Acted {
            top,
            units: plain_units(instruction),
        }
    }
}

/// Executes a plain instruction. The contract requires that it does not trap, and that there is a step for it.
#[inline(always)]
pub fn act_plain(
    instruction: Plain,
    cells: &mut [u64],
    top: usize,
    locals: &mut [u64],
    globals: &mut CallGlobals,
    bytes: &mut Memory,
) -> Acted
    requires room { top < length cells.old }
    requires asks { plain_asks instruction
        (operand_stack cells.old top) (map I64 locals.old) globals.old.here bytes.old ≡ true }
    ensures acts { ActsOn (cell_effect in_width instruction)
        (operand_stack cells.old top) (operand_stack cells.new result.top)
        (map I64 locals.old) (map I64 locals.new) globals.old.here globals.new.here
        bytes.old bytes.new }
    ensures units { result.units ≡ plain_units instruction }
    ensures within { result.top ≤ length cells.new }
    ensures kept_globals { globals.new.initial ≡ globals.old.initial }
    ensures kept_bytes { count_kept bytes.new ≡ count_kept bytes.old }
{
    match instruction {
        Plain::Nop => Acted::by(instruction, top),
        Plain::Drop => Acted::by(instruction, pop(cells, top).1),
        Plain::Select => Acted::by(instruction, act_select(cells, top)),
        Plain::Const(value) => Acted::by(instruction, push(cells, top, of_value(value))),
        Plain::Numeric(op) => act_numeric(op, cells, top),
        Plain::Variable(op) => {
            let top = act_variable(op, cells, top, locals, globals);
            Acted::by(instruction, top)
        }
        Plain::Memory(op) => act_memory(op, cells, top, bytes),
    }
}

/// Keeps the first of two operands for a number other than 0, and the second for 0 (Core 1.0, 4.4.2).
#[inline(always)]
fn act_select(cells: &mut [u64], top: usize) -> usize
    requires within { top ≤ length cells.old }
    requires tops { has_tops 3 (operand_stack cells.old top) ≡ true }
    ensures acts { ActsAlone (cell_effect in_width plain.Select)
        (operand_stack cells.old top) (operand_stack cells.new result) }
    ensures within { result ≤ length cells.new }
{
    let (number, over) = pop(cells, top);
    let (second, under) = pop(cells, over);
    let (first, below) = pop(cells, under);
    push(
        cells,
        below,
        if as_i32(number) == 0 { second } else { first },
    )
}

/// Reads or writes a local or a global (Core 1.0, 4.4.3).
#[inline(always)]
fn act_variable(
    instruction: Variable,
    cells: &mut [u64],
    top: usize,
    locals: &mut [u64],
    globals: &mut CallGlobals,
) -> usize
    requires room { top < length cells.old }
    requires asks { variable_asks instruction
        (operand_stack cells.old top) (map I64 locals.old) globals.old.here ≡ true }
    ensures acts { ActsOnVariables (variable_effect instruction)
        (operand_stack cells.old top) (operand_stack cells.new result)
        (map I64 locals.old) (map I64 locals.new) globals.old.here globals.new.here }
    ensures within { result ≤ length cells.new }
    ensures kept_globals { globals.new.initial ≡ globals.old.initial }
{
    match instruction {
        Variable::LocalGet(number) => push(cells, top, local(locals, number)),
        Variable::LocalSet(number) => {
            let (cell, below) = pop(cells, top);
            set_local(locals, number, cell);
            below
        }
        Variable::LocalTee(number) => {
            let (cell, _) = pop(cells, top);
            set_local(locals, number, cell);
            top
        }
        Variable::GlobalGet(number) => push(cells, top, globals.get(number)),
        Variable::GlobalSet(number) => {
            let (cell, below) = pop(cells, top);
            globals.set(number, cell);
            below
        }
    }
}

/// Loads, stores, or returns the size of the memory (Core 1.0, 4.4.4). There is no `memory.grow`.
#[inline(always)]
fn act_memory(instruction: MemoryAccess, cells: &mut [u64], top: usize, bytes: &mut Memory) -> Acted
    requires room { top < length cells.old }
    requires asks { memory_asks instruction (operand_stack cells.old top) bytes.old ≡ true }
    ensures acts { ActsOnBytes (cell_memory in_width instruction)
        (operand_stack cells.old top) (operand_stack cells.new result.top) bytes.old bytes.new }
    ensures units { result.units ≡ memory_units instruction }
    ensures within { result.top ≤ length cells.new }
    ensures kept_bytes { count_kept bytes.new ≡ count_kept bytes.old }
{
    let plain = Plain::Memory(instruction);
    match instruction {
        MemoryAccess::Load(op, argument) => {
            Acted::by(plain, act_load(op, argument, cells, top, bytes))
        }
        MemoryAccess::Store(op, argument) => {
            Acted::by(plain, act_store(op, argument, cells, top, bytes))
        }
        MemoryAccess::Size => Acted::by(plain, push(cells, top, of_i32(bytes.size()))),
        MemoryAccess::Grow => unreachable!(),
    }
}

#[inline(always)]
fn act_load(
    op: Load,
    argument: MemoryArgument,
    cells: &mut [u64],
    top: usize,
    bytes: &Memory,
) -> usize
    requires within { top ≤ length cells.old }
    requires tops { has_tops 1 (operand_stack cells.old top) ≡ true }
    requires there { of_top i32_type (reaches argument.offset (load_width op) bytes.now)
        (operand_stack cells.old top) ≡ true }
    ensures acts { ActsOnBytes (cell_memory in_width (memory_variant.Load op argument))
        (operand_stack cells.old top) (operand_stack cells.new result) bytes.now bytes.now }
    ensures within { result ≤ length cells.new }
{
    let (cell, below) = pop(cells, top);
    let place = u64::from(as_i32(cell)) + u64::from(argument.offset);
    push(cells, below, bytes.load(op, place))
}

#[inline(always)]
fn act_store(
    op: Store,
    argument: MemoryArgument,
    cells: &[u64],
    top: usize,
    bytes: &mut Memory,
) -> usize
    requires within { top ≤ length cells.now }
    requires tops { has_tops 2 (operand_stack cells.now top) ≡ true }
    requires there { of_next i32_type (reaches argument.offset (store_width op) bytes.old)
        (operand_stack cells.now top) ≡ true }
    ensures acts { ActsOnBytes (cell_memory in_width (memory_variant.Store op argument))
        (operand_stack cells.now top) (operand_stack cells.now result) bytes.old bytes.new }
    ensures within { result ≤ length cells.now }
    ensures kept_bytes { count_kept bytes.new ≡ count_kept bytes.old }
{
    let (cell, under) = pop(cells, top);
    let number = as_number(op.val_type(), cell);
    let (start, below) = pop(cells, under);
    let place = u64::from(as_i32(start)) + u64::from(argument.offset);
    bytes.store(op, place, number);
    below
}
