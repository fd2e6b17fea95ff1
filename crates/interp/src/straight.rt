//! Runs of straight code: of instructions that neither branch nor call a function of the module, so that the control
//! entries stay. So they do where a `br_if` does not branch, and an `if` does nothing. The operands are in a slice with
//! free cells; their number, the code and the count are passed by value.

ghost use Rattle.std.specs.Prelude.{◌≡◌, ◌≤◌, length, map, false, true, IfOk, IfSome, OnErr};
ghost use Rattle.wasm_ast.specs.declared.types.Value.TheVariants.{I64};
ghost use Rattle.verified.specs.View.{code_of};
ghost use Rattle.interp.specs.inside.Kept.{count_kept};
ghost use Rattle.interp.specs.inside.OperandStack.{operand_stack};
ghost use Rattle.interp.specs.inside.Meaning.{AreImports};
ghost use Rattle.interp.specs.inside.Split.{free_of};
ghost use Rattle.interp.specs.inside.Walk.{max_count};
ghost use Rattle.interp.specs.inside.Straight.{GoesIn, IsBranchIf, IsEqz, IsTest, LeadsAmid, Passes, SendsAmid, Takes, is_straight, spot};

use crate::call_globals::CallGlobals;
use crate::flat::act_flat;
use crate::locals::Locals;
use crate::memory::Memory;
use crate::operands::Operands;
use crate::program::Program;
use std::alloc::AllocError;
use verified::{CallState, FlatInstr, HostCall};

/// Where straight code stops: the remaining code, the units so far, and the number of operands.
#[derive(Clone, Copy)]
pub struct Stop<'a> {
    pub code: &'a [FlatInstr],
    pub count: u128,
    pub top: usize,
}

/// The code after the opening of a loop, with the units of the opening: a `call` that takes an item, `i32.eqz` and
/// `br_if`.
#[derive(Clone, Copy)]
struct Item<'a> {
    code: &'a [FlatInstr],
    units: u32,
}

/// Runs straight code up to the first instruction that is not straight. The only error is that an allocation fails,
/// in a call that sends or aggregates.
#[inline]
pub fn go_straight<'a>(
    program: Program<'a>,
    code: &'a [FlatInstr],
    count: u128,
    operands: &mut Operands,
    locals: &mut Locals,
    globals: &mut CallGlobals,
    bytes: &mut Memory,
    host: &mut CallState,
) -> Result<Stop<'a>, AllocError>
    requires calls { AreImports program.calls.now program.«module».now }
    requires leads { LeadsAmid program.«module».now (spot operands.old.here (code_of code.now)
        locals.old.here globals.old.here bytes.old host.old count) max_count (free_of operands.old) }
    ensures passes { IfOk result (λ stop. Passes program.entry.«module».now max_count
        (spot operands.old.here (code_of code.entry.now)
        locals.old.here globals.old.here bytes.old host.old count)
        (spot operands.new.here (code_of stop.code.now)
        locals.new.here globals.new.here bytes.new host.new stop.count)) }
    ensures sends { OnErr result (SendsAmid program.entry.«module».now max_count
        (spot operands.old.here (code_of code.entry.now)
        locals.old.here globals.old.here bytes.old host.old count)) }
    ensures more { IfOk result (λ stop. count ≤ stop.count) }
    ensures stops { IfOk result (λ stop. is_straight program.entry.calls.now
        (code_of stop.code.now) ≡ false) }
    ensures below { operands.new.below ≡ operands.old.below }
    ensures locals_below { locals.new.below ≡ locals.old.below }
    ensures kept_globals { globals.new.initial ≡ globals.old.initial }
    ensures kept_bytes { count_kept bytes.new ≡ count_kept bytes.old }
{
    let floor = operands.floor;
    let base = locals.base;
    let top = operands.top - floor;
    if !begins_straight(program, code) {
        return Ok(Stop { code, count, top });
    }
    let stop = run_straight(
        program,
        code,
        count,
        &mut operands.cells[floor..],
        top,
        &mut locals.cells[base..],
        globals,
        bytes,
        host,
    )?;
    operands.top = floor + stop.top;
    Ok(stop)
}

/// Runs straight code over the operands of the innermost entry and the locals of the innermost frame.
fn run_straight<'a>(
    program: Program<'a>,
    code: &'a [FlatInstr],
    count: u128,
    cells: &mut [u64],
    top: usize,
    locals: &mut [u64],
    globals: &mut CallGlobals,
    bytes: &mut Memory,
    host: &mut CallState,
) -> Result<Stop<'a>, AllocError>
    requires calls { AreImports program.calls.now program.«module».now }
    requires within { top ≤ length cells.old }
    requires leads { LeadsAmid program.«module».now
        (spot (operand_stack cells.old top) (code_of code.now) (map I64 locals.old)
        globals.old.here bytes.old host.old count) max_count
        (length cells.old) }
    ensures passes { IfOk result (λ stop. Passes program.entry.«module».now max_count
        (spot (operand_stack cells.old top) (code_of code.entry.now)
        (map I64 locals.old) globals.old.here bytes.old host.old count)
        (spot (operand_stack cells.new stop.top) (code_of stop.code.now)
        (map I64 locals.new) globals.new.here bytes.new host.new stop.count)) }
    ensures sends { OnErr result (SendsAmid program.entry.«module».now max_count
        (spot (operand_stack cells.old top) (code_of code.entry.now)
        (map I64 locals.old) globals.old.here bytes.old host.old count)) }
    ensures more { IfOk result (λ stop. count ≤ stop.count) }
    ensures stops { IfOk result (λ stop. is_straight program.entry.calls.now
        (code_of stop.code.now) ≡ false) }
    ensures within { IfOk result (λ stop. stop.top ≤ length cells.new) }
    ensures kept_globals { globals.new.initial ≡ globals.old.initial }
    ensures kept_bytes { count_kept bytes.new ≡ count_kept bytes.old }
{
    let item = take_item(program, code, host);
    let mut at = Stop {
        code: item.code,
        count: count + u128::from(item.units),
        top,
    };
    while let Some((first, rest)) = at.code.split_first() {
        match act_flat(program, first, cells, at.top, locals, globals, bytes, host)? {
            None => return Ok(at),
            Some(acted) => {
                at = Stop {
                    code: rest,
                    count: at.count + u128::from(acted.units),
                    top: acted.top,
                };
            }
        }
    }
    Ok(at)
}

/// Reports whether the code begins with a straight instruction.
#[inline(always)]
fn begins_straight(program: Program, code: &[FlatInstr]) -> bool
    ensures { result ≡ is_straight program.entry.calls.now (code_of code.now) }
{
    match code.split_first() {
        None => false,
        Some((FlatInstr::Call(number), _)) => program.host_call(*number).is_some(),
        Some((first, _)) => first.is_plain(),
    }
}

/// Takes an item at the opening of a loop, and goes past the opening. It does nothing at any other code, and where there
/// is no item.
#[inline(always)]
fn take_item<'a>(program: Program<'a>, code: &'a [FlatInstr], host: &mut CallState) -> Item<'a>
    requires { AreImports program.calls.now program.«module».now }
    ensures { GoesIn program.entry.«module».now (code_of code.entry.now) host.old
        (code_of result.code.now) host.new result.units }
{
    match code.split_first() {
        Some((FlatInstr::Call(number), rest)) => match past_test(rest) {
            Some(body) => {
                if take_by(program.host_call(*number), host) {
                    Item {
                        code: body,
                        units: 4,
                    }
                } else {
                    Item { code, units: 0 }
                }
            }
            None => Item { code, units: 0 },
        },
        _ => Item { code, units: 0 },
    }
}

/// Goes past the `i32.eqz` and the `br_if` of an opening. `None` is any other code.
#[inline(always)]
fn past_test(code: &[FlatInstr]) -> Option<&[FlatInstr]>
    ensures { IfSome result (λ body. IsTest (code_of code.entry.now) (code_of body.now)) }
{
    match code.split_first() {
        None => None,
        Some((first, rest)) => match rest.split_first() {
            None => None,
            Some((second, body)) => {
                if is_eqz(first) && is_branch_if(second) {
                    Some(body)
                } else {
                    None
                }
            }
        },
    }
}

#[inline(always)]
fn is_eqz(instr: &FlatInstr) -> bool
    ensures { result ≡ true → IsEqz instr.now }
{
    match instr {
        FlatInstr::I32Eqz => true,
        _ => false,
    }
}

#[inline(always)]
fn is_branch_if(instr: &FlatInstr) -> bool
    ensures { result ≡ true → IsBranchIf instr.now }
{
    match instr {
        FlatInstr::BrIf(_) => true,
        _ => false,
    }
}

/// Takes an item by this host call. It changes nothing where there is no item, or the call takes none.
#[inline(always)]
fn take_by(call: Option<HostCall>, host: &mut CallState) -> bool
    ensures some { result ≡ true → Takes call host.old host.new }
    ensures none { result ≡ false → host.new ≡ host.old }
{
    match call {
        Some(HostCall::NextMessage) => host.next_message(),
        Some(HostCall::NextEdge) => host.next_edge(),
        _ => false,
    }
}
