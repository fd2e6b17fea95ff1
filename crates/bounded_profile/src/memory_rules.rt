//! P10, except for the addresses of loads and stores: the initial memory, and the data segments in it.

ghost use Rattle.std.specs.Prelude.{◌≡◌, ◌↔◌, IsTrue};
ghost use Rattle.profile_rules.specs.Faults.{Settles};
ghost use Rattle.profile_rules.specs.declared.fault.ProfileRule.TheVariants.{P10};
ghost use Rattle.wasm_ast.specs.Code.{Code};
ghost use Rattle.wasm_ast.specs.View.{then_code};
ghost use Rattle.wasm_ast.specs.declared.plain.Variable.TheVariants.{GlobalGet};
ghost use Rattle.verified.specs.Memory.{initial_number, offset_number, plain_offset, variable_number, DataWithin, MinimumsWithin, SegmentsWithin};

use crate::module_rules::NOWHERE;
use profile_rules::{ProfileFault, ProfileRule, number_of};
use verified::memory_bytes;
use wasm_ast::{Body, Data, Instr, Limits, Module, Plain, Variable};

/// The greatest minimum of a memory, in pages.
const MAX_MINIMUM: u32 = 16;

/// Checks that the memory begins with at most 16 pages.
pub fn check_minimums(module: &Module) -> Result<(), ProfileFault>
    ensures { Settles P10 (MinimumsWithin «module».now) result }
{
    if module
        .memories
        .as_slice()
        .iter()
        .all(|limits| limits.minimum <= MAX_MINIMUM)
    {
        Ok(())
    } else {
        Err(ProfileFault::Breaks(ProfileRule::P10, NOWHERE))
    }
}

/// Checks that each data segment is within the initial memory.
pub fn check_segments(module: &Module) -> Result<(), ProfileFault>
    ensures { Settles P10 (SegmentsWithin «module».now) result }
{
    for segment in module.data.as_slice() {
        if !is_segment_within(module, segment) {
            return Err(ProfileFault::Breaks(ProfileRule::P10, NOWHERE));
        }
    }
    Ok(())
}

fn is_segment_within(module: &Module, segment: &Data) -> bool
    ensures { IsTrue result ↔ DataWithin «module».now segment.now }
{
    let bytes = memory_bytes(module);
    let length = segment.bytes.as_slice().len() as u64;
    match offset_number(module, &segment.offset) {
        Some(offset) => length <= bytes && offset <= bytes - length,
        None => false,
    }
}

// Returns the value of an offset: a constant, or the initial value of a global.
fn offset_number(module: &Module, offset: &Body) -> Option<u64>
    ensures { result ≡ offset_number «module».now offset.now }
{
    match offset.as_slice() {
        [first, ..] => number_at(module, first),
        [] => None,
    }
}

// Returns the value of an offset that begins with this instruction.
fn number_at(module: &Module, first: &Instr) -> Option<u64>
    ensures { (rest : Code) → result ≡ offset_number «module».now (then_code first.now rest) }
{
    match first {
        Instr::Plain(plain) => plain_offset(module, *plain),
        _ => None,
    }
}

fn plain_offset(module: &Module, plain: Plain) -> Option<u64>
    ensures { result ≡ plain_offset «module».now plain }
{
    match plain {
        Plain::Const(value) => Some(number_of(value)),
        Plain::Variable(Variable::GlobalGet(number)) => global_number(module, number),
        _ => None,
    }
}

// Returns the initial value of a global.
fn global_number(module: &Module, number: u32) -> Option<u64>
    ensures { result ≡ variable_number «module».now (GlobalGet number) }
{
    match module.globals.as_slice().get(number as usize) {
        Some(global) => initial_number(&global.initial),
        None => None,
    }
}

// Returns the value of an initializer, where it is a constant.
fn initial_number(initial: &Body) -> Option<u64>
    ensures { result ≡ initial_number initial.now }
{
    match initial.as_slice() {
        [first, ..] => constant_at(first),
        [] => None,
    }
}

// Returns the value of an initializer that begins with this instruction.
fn constant_at(first: &Instr) -> Option<u64>
    ensures { (rest : Code) → result ≡ initial_number (then_code first.now rest) }
{
    match first {
        Instr::Plain(Plain::Const(value)) => Some(number_of(*value)),
        _ => None,
    }
}
