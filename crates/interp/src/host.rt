//! Host calls (Core 1.0, 4.4.7) on an operand stack with room for one more cell. Each returns the new height of the
//! stack.

ghost use Rattle.std.specs.Prelude.{◌≡◌, ◌∷◌, ◌<◌, ◌≤◌, List, length, nat_lt, true, IfOk, OnErr};
ghost use Rattle.wasm_ast.specs.declared.types.ValType.TheVariants.{I32 as i32_type};
ghost use Rattle.wasm_ast.specs.declared.types.Value.{Value as AnyValue};
ghost use Rattle.wasm_ast.specs.declared.types.Value.TheVariants.{I64};
ghost use Rattle.verified.specs.declared.call.TheConstants.{AGGREGATORS};
ghost use Rattle.verified.specs.declared.imports.HostCall.TheVariants as calls;
ghost use Rattle.verified.specs.Effects.{signed};
ghost use Rattle.interp.specs.inside.Acts.{ActsOnHost};
ghost use Rattle.interp.specs.inside.Cells.{cell_call, in_width};
ghost use Rattle.interp.specs.inside.Given.{gives, only_pushes};
ghost use Rattle.interp.specs.inside.Going.{call_asks, has_tops, of_next, of_top};
ghost use Rattle.interp.specs.inside.OperandStack.{operand_stack};

use crate::cell::{as_i32, of_i32};
use crate::operand_stack::{pop, push};
use std::alloc::AllocError;
use verified::{CallState, HostCall};

/// Pops the arguments of a host call, pushes its results, and changes the vertex. The contract requires that the
/// arguments are there, and that the number of an aggregator is in range. Only `send` and `aggregate` allocate; the
/// only error is that this fails.
#[inline(always)]
pub fn call_host(
    call: HostCall,
    cells: &mut [u64],
    top: usize,
    vertex: &mut CallState,
) -> Result<usize, AllocError>
    requires room { top < length cells.old }
    requires asks { call_asks call (operand_stack cells.old top) ≡ true }
    ensures acts { IfOk result (λ now. ActsOnHost (cell_call in_width call)
        (operand_stack cells.old top) (operand_stack cells.new now) vertex.old vertex.new) }
    ensures within { IfOk result (λ now. now ≤ length cells.new) }
    ensures fails { OnErr result (gives call ≡ true) }
{
    match call {
        HostCall::SetValue => Ok(set_value(cells, top, vertex)),
        HostCall::Send => send(cells, top, vertex),
        HostCall::Aggregate => aggregate(cells, top, vertex),
        HostCall::Aggregated => Ok(aggregated(cells, top, vertex)),
        HostCall::VoteToHalt => {
            vertex.vote_to_halt();
            Ok(top)
        }
        _ => Ok(push(cells, top, answer(call, vertex))),
    }
}

// Makes a host call that has no arguments and one result, and returns the result as a cell.
#[inline(always)]
fn answer(call: HostCall, vertex: &mut CallState) -> u64
    requires { only_pushes call ≡ true }
    ensures { (values : List AnyValue) → ActsOnHost (cell_call in_width call)
        values (I64 result ∷ values) vertex.old vertex.new }
{
    match call {
        HostCall::VertexId => signed(vertex.vertex_id()),
        HostCall::Superstep => signed(vertex.superstep()),
        HostCall::NumVertices => signed(vertex.num_vertices()),
        HostCall::GetValue => signed(vertex.get_value()),
        HostCall::NextMessage => of_i32(u32::from(vertex.next_message())),
        HostCall::MessageValue => signed(vertex.message_value()),
        HostCall::NextEdge => of_i32(u32::from(vertex.next_edge())),
        HostCall::EdgeTarget => signed(vertex.edge_target()),
        HostCall::EdgeValue => signed(vertex.edge_value()),
        _ => unreachable!(),
    }
}

// Returns the cell of a signed number.
#[inline(always)]
fn signed(number: i64) -> u64
    ensures { I64 result ≡ signed number }
{
    number.cast_unsigned()
}

#[inline(always)]
fn set_value(cells: &[u64], top: usize, vertex: &mut CallState) -> usize
    requires within { top ≤ length cells.now }
    requires tops { has_tops 1 (operand_stack cells.now top) ≡ true }
    ensures acts { ActsOnHost (cell_call in_width calls.SetValue)
        (operand_stack cells.now top) (operand_stack cells.now result) vertex.old vertex.new }
    ensures within { result ≤ length cells.now }
{
    let (value, below) = pop(cells, top);
    vertex.set_value(value.cast_signed());
    below
}

#[inline(always)]
fn send(cells: &[u64], top: usize, vertex: &mut CallState) -> Result<usize, AllocError>
    requires within { top ≤ length cells.now }
    requires tops { has_tops 2 (operand_stack cells.now top) ≡ true }
    ensures acts { IfOk result (λ now. ActsOnHost (cell_call in_width calls.Send)
        (operand_stack cells.now top) (operand_stack cells.now now) vertex.old vertex.new) }
    ensures within { IfOk result (λ now. now ≤ length cells.now) }
{
    let (value, under) = pop(cells, top);
    let (target, below) = pop(cells, under);
    vertex.send(target.cast_signed(), value.cast_signed())?;
    Ok(below)
}

#[inline(always)]
fn aggregate(cells: &[u64], top: usize, vertex: &mut CallState) -> Result<usize, AllocError>
    requires within { top ≤ length cells.now }
    requires tops { has_tops 2 (operand_stack cells.now top) ≡ true }
    requires slot { of_next i32_type (λ slot. nat_lt slot AGGREGATORS)
        (operand_stack cells.now top) ≡ true }
    ensures acts { IfOk result (λ now. ActsOnHost (cell_call in_width calls.Aggregate)
        (operand_stack cells.now top) (operand_stack cells.now now) vertex.old vertex.new) }
    ensures within { IfOk result (λ now. now ≤ length cells.now) }
{
    let (value, under) = pop(cells, top);
    let (slot, below) = pop(cells, under);
    vertex.aggregate(as_i32(slot), value.cast_signed())?;
    Ok(below)
}

#[inline(always)]
fn aggregated(cells: &mut [u64], top: usize, vertex: &CallState) -> usize
    requires within { top ≤ length cells.old }
    requires tops { has_tops 1 (operand_stack cells.old top) ≡ true }
    requires slot { of_top i32_type (λ slot. nat_lt slot AGGREGATORS)
        (operand_stack cells.old top) ≡ true }
    ensures acts { ActsOnHost (cell_call in_width calls.Aggregated)
        (operand_stack cells.old top) (operand_stack cells.new result) vertex.now vertex.now }
    ensures within { result ≤ length cells.new }
{
    let (slot, below) = pop(cells, top);
    push(cells, below, signed(vertex.aggregated(as_i32(slot))))
}
