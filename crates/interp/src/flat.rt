//! Straight instructions in flat form: one match finds what to do.

ghost use Rattle.std.specs.Prelude.{◌≡◌, ◌<◌, ◌≤◌, ℕ, List, None, length, map, slice_get, true, IfNone, IfOk, IfSome, OnErr};
ghost use Rattle.wasm_ast.specs.declared.numeric.Numeric.TheVariants as numeric;
ghost use Rattle.wasm_ast.specs.declared.plain.Plain.TheVariants as plain;
ghost use Rattle.wasm_ast.specs.declared.types.Value.TheVariants.{I64};
ghost use Rattle.verified.specs.declared.body.FlatInstr.TheVariants as flat;
ghost use Rattle.verified.specs.Plains.{plain_of};
ghost use Rattle.interp.specs.inside.Flat.{Fails, FlatDid, PlainDid, Stops, flat_asks};
ghost use Rattle.interp.specs.inside.Found.{numeric_of};
ghost use Rattle.interp.specs.inside.Going.{has_tops, numeric_asks, plain_asks};
ghost use Rattle.interp.specs.inside.Meaning.{AreImports};
ghost use Rattle.interp.specs.inside.OperandStack.{operand_stack};
ghost use Rattle.interp.specs.inside.Renewed.{Renewed};
ghost use Rattle.interp.specs.inside.Straight.{GoesBeside, PopsZero, SendsBeside, host_asks};

use crate::call_globals::CallGlobals;
use crate::cell::as_i32;
use crate::found::{Found, Operator, find_flat};
use crate::host::call_host;
use crate::memory::Memory;
use crate::numeric::act_numeric;
use crate::operand_stack::pop;
use crate::plain::{Acted, act_plain};
use crate::program::Program;
use std::alloc::AllocError;
use verified::{CallState, FlatInstr, host_units};
use wasm_ast::{Binary, Comparison, Conversion, Numeric, Plain, ValType};

/// Executes an instruction that is straight: one that neither branches nor calls, a call of the host, or one that only
/// pops a zero. `None` is any other instruction. The only error is that an allocation fails, in a call that sends or
/// aggregates.
#[inline(always)]
pub fn act_flat(
    program: Program,
    first: &FlatInstr,
    cells: &mut [u64],
    top: usize,
    locals: &mut [u64],
    globals: &mut CallGlobals,
    bytes: &mut Memory,
    host: &mut CallState,
) -> Result<Option<Acted>, AllocError>
    requires calls { AreImports program.calls.now program.«module».now }
    requires room { top < length cells.old }
    requires asks { flat_asks program.calls.now (plain_of first.now) first.now
        (operand_stack cells.old top) (map I64 locals.old) globals.old.here bytes.old ≡ true }
    ensures did { IfOk result (λ acted. IfSome acted (λ by. FlatDid program.entry.«module».now
        (plain_of first.now) first.now by top cells.old cells.new locals.old locals.new
        globals.old globals.new bytes.old bytes.new host.old host.new)) }
    ensures stops { IfOk result (λ acted. IfNone acted (Stops program.entry.calls.now first.now
        cells.old cells.new locals.old locals.new globals.old globals.new bytes.old bytes.new
        host.old host.new)) }
    ensures fails { OnErr result (Fails program.entry.«module».now first.now
        (operand_stack cells.old top) host.old
        globals.old globals.new bytes.old bytes.new) }
{
    match find_flat(first) {
        Found::Operator(op) => Ok(Some(act_operator(op, cells, top))),
        Found::Plain(plain) => Ok(Some(act_known(plain, cells, top, locals, globals, bytes))),
        Found::Call(number) => act_call(program, number, cells, top, host),
        Found::Zero => Ok(pass_zero(cells, top)),
        Found::Other => Ok(None),
    }
}

/// Executes a numeric instruction that is a variant of its own in flat form.
#[inline(always)]
fn act_operator(op: Operator, cells: &mut [u64], top: usize) -> Acted
    requires room { top < length cells.old }
    requires asks { numeric_asks (numeric_of op) (operand_stack cells.old top) ≡ true }
    ensures { (locals : List ℕ) (globals : Renewed) (bytes : List ℕ)
        → PlainDid (plain.Numeric (numeric_of op))
        result top cells.old cells.new locals locals globals globals bytes bytes }
{
    match op {
        Operator::I64Add => act_binary(ValType::I64, Binary::Add, cells, top),
        Operator::I64Sub => act_binary(ValType::I64, Binary::Sub, cells, top),
        Operator::I64Mul => act_binary(ValType::I64, Binary::Mul, cells, top),
        Operator::I64And => act_binary(ValType::I64, Binary::And, cells, top),
        Operator::I64Or => act_binary(ValType::I64, Binary::Or, cells, top),
        Operator::I64Xor => act_binary(ValType::I64, Binary::Xor, cells, top),
        Operator::I64Shl => act_binary(ValType::I64, Binary::Shl, cells, top),
        Operator::I64ShrS => act_binary(ValType::I64, Binary::ShrS, cells, top),
        Operator::I64ShrU => act_binary(ValType::I64, Binary::ShrU, cells, top),
        Operator::I64Rotl => act_binary(ValType::I64, Binary::Rotl, cells, top),
        Operator::I64Eqz => act_op(Numeric::Eqz(ValType::I64), cells, top),
        Operator::I64Eq => act_comparison(ValType::I64, Comparison::Eq, cells, top),
        Operator::I64Ne => act_comparison(ValType::I64, Comparison::Ne, cells, top),
        Operator::I64LtS => act_comparison(ValType::I64, Comparison::LtS, cells, top),
        Operator::I64LtU => act_comparison(ValType::I64, Comparison::LtU, cells, top),
        Operator::I64GtS => act_comparison(ValType::I64, Comparison::GtS, cells, top),
        Operator::I64GtU => act_comparison(ValType::I64, Comparison::GtU, cells, top),
        Operator::I64LeS => act_comparison(ValType::I64, Comparison::LeS, cells, top),
        Operator::I64LeU => act_comparison(ValType::I64, Comparison::LeU, cells, top),
        Operator::I64GeS => act_comparison(ValType::I64, Comparison::GeS, cells, top),
        Operator::I64GeU => act_comparison(ValType::I64, Comparison::GeU, cells, top),
        Operator::I32Add => act_binary(ValType::I32, Binary::Add, cells, top),
        Operator::I32Sub => act_binary(ValType::I32, Binary::Sub, cells, top),
        Operator::I32Mul => act_binary(ValType::I32, Binary::Mul, cells, top),
        Operator::I32And => act_binary(ValType::I32, Binary::And, cells, top),
        Operator::I32Or => act_binary(ValType::I32, Binary::Or, cells, top),
        Operator::I32Xor => act_binary(ValType::I32, Binary::Xor, cells, top),
        Operator::I32Eqz => act_op(Numeric::Eqz(ValType::I32), cells, top),
        Operator::I32Eq => act_comparison(ValType::I32, Comparison::Eq, cells, top),
        Operator::I32Ne => act_comparison(ValType::I32, Comparison::Ne, cells, top),
        Operator::I32LtS => act_comparison(ValType::I32, Comparison::LtS, cells, top),
        Operator::I32LtU => act_comparison(ValType::I32, Comparison::LtU, cells, top),
        Operator::I32GtS => act_comparison(ValType::I32, Comparison::GtS, cells, top),
        Operator::I32GtU => act_comparison(ValType::I32, Comparison::GtU, cells, top),
        Operator::I32LeS => act_comparison(ValType::I32, Comparison::LeS, cells, top),
        Operator::I32GeS => act_comparison(ValType::I32, Comparison::GeS, cells, top),
        Operator::I32WrapI64 => act_op(Numeric::Conversion(Conversion::Wrap), cells, top),
        Operator::I64ExtendI32S => act_op(Numeric::Conversion(Conversion::ExtendS), cells, top),
        Operator::I64ExtendI32U => act_op(Numeric::Conversion(Conversion::ExtendU), cells, top),
    }
}

/// Executes a numeric instruction, which is a constant where the call is inlined.
#[inline(always)]
fn act_op(op: Numeric, cells: &mut [u64], top: usize) -> Acted
    requires room { top < length cells.old }
    requires asks { numeric_asks op (operand_stack cells.old top) ≡ true }
    ensures { (locals : List ℕ) (globals : Renewed) (bytes : List ℕ) → PlainDid (plain.Numeric op)
        result top cells.old cells.new locals locals globals globals bytes bytes }
{
    act_numeric(op, cells, top)
}

/// Executes a binary operator in the same way.
#[inline(always)]
fn act_binary(of: ValType, binary: Binary, cells: &mut [u64], top: usize) -> Acted
    requires room { top < length cells.old }
    requires asks { has_tops 2 (operand_stack cells.old top) ≡ true }
    ensures { (locals : List ℕ) (globals : Renewed) (bytes : List ℕ)
        → PlainDid (plain.Numeric (numeric.Binary of binary))
        result top cells.old cells.new locals locals globals globals bytes bytes }
{
    act_op(Numeric::Binary(of, binary), cells, top)
}

/// Executes a comparison in the same way.
#[inline(always)]
fn act_comparison(of: ValType, comparison: Comparison, cells: &mut [u64], top: usize) -> Acted
    requires room { top < length cells.old }
    requires asks { has_tops 2 (operand_stack cells.old top) ≡ true }
    ensures { (locals : List ℕ) (globals : Renewed) (bytes : List ℕ)
        → PlainDid (plain.Numeric (numeric.Comparison of comparison))
        result top cells.old cells.new locals locals globals globals bytes bytes }
{
    act_op(Numeric::Comparison(of, comparison), cells, top)
}

/// Executes a plain instruction, which is a constant where the call is inlined.
#[inline(always)]
fn act_known(
    plain: Plain,
    cells: &mut [u64],
    top: usize,
    locals: &mut [u64],
    globals: &mut CallGlobals,
    bytes: &mut Memory,
) -> Acted
    requires room { top < length cells.old }
    requires asks { plain_asks plain
        (operand_stack cells.old top) (map I64 locals.old) globals.old.here bytes.old ≡ true }
    ensures { PlainDid plain result top
        cells.old cells.new locals.old locals.new globals.old globals.new bytes.old bytes.new }
{
    act_plain(plain, cells, top, locals, globals, bytes)
}

/// Calls the function with this number, if it is one of the host's.
#[inline(always)]
fn act_call(
    program: Program,
    number: u32,
    cells: &mut [u64],
    top: usize,
    host: &mut CallState,
) -> Result<Option<Acted>, AllocError>
    requires calls { AreImports program.calls.now program.«module».now }
    requires room { top < length cells.old }
    requires asks { host_asks (slice_get program.calls.now number) (operand_stack cells.old top)
        ≡ true }
    ensures goes { IfOk result (λ acted. IfSome acted (λ by. GoesBeside program.entry.«module».now
        (flat.Call number) (operand_stack cells.old top) host.old
        (operand_stack cells.new by.top) host.new by.units)) }
    ensures within { IfOk result (λ acted. IfSome acted (λ by. by.top ≤ length cells.new)) }
    ensures other { IfOk result (λ acted. IfNone acted
        (slice_get program.entry.calls.now number ≡ None)) }
    ensures cells { IfOk result (λ acted. IfNone acted (cells.new ≡ cells.old)) }
    ensures host { IfOk result (λ acted. IfNone acted (host.new ≡ host.old)) }
    ensures sends { OnErr result (SendsBeside program.entry.«module».now (flat.Call number)
        (operand_stack cells.old top) host.old) }
{
    match program.host_call(number) {
        None => Ok(None),
        Some(call) => Ok(Some(Acted {
            top: call_host(call, cells, top, host)?,
            units: host_units(Some(call)),
        })),
    }
}

/// Pops the topmost cell if that is 0.
#[inline(always)]
fn pass_zero(cells: &[u64], top: usize) -> Option<Acted>
    requires within { top ≤ length cells.now }
    requires there { 1 ≤ length (operand_stack cells.now top) }
    ensures { IfSome result (λ acted. PopsZero (operand_stack cells.now top)
        (operand_stack cells.now acted.top) acted (length cells.now)) }
{
    let (cell, below) = pop(cells, top);
    if as_i32(cell) == 0 {
        Some(Acted {
            top: below,
            units: 1,
        })
    } else {
        None
    }
}
