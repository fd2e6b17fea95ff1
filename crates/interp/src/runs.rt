//! Compute calls.

ghost use Rattle.std.specs.Prelude.{◌≡◌, ◌↔◌, ◌+◌, ◌*◌, ◌≤◌, IfOk, IsOk, IsTrue, OnErr};
ghost use Rattle.wasm_ast.specs.Limits.{IsWithinLimits};
ghost use Rattle.verified.specs.Bodies.{bodies_of};
ghost use Rattle.interp.specs.inside.Begun.{BeginsWith, EndsInRoom, HasStartRoom, Sends};
ghost use Rattle.semantics.specs.Bounded.{HasIds, IsWithinBound, NeverFails, items_of};
ghost use Rattle.semantics.specs.Call.{IsOutcome};
ghost use Rattle.interp.specs.Room.{IsSilent};
ghost use Rattle.interp.specs.inside.Meaning.{AreImports};
ghost use Rattle.interp.specs.inside.Walk.{max_count};

use crate::program::{Definition, Program};
use crate::scratch::Scratch;
use crate::start::image::Image;
use crate::walk::Walk;
use std::alloc::{AllocError, Global};
use verified::{CallInput, CallOutcome, CallState, Verified};

/// The greatest id of a vertex.
const MAX_ID: u64 = 9_223_372_036_854_775_807;

/// Calls `compute` for a vertex: it runs the module's function over its initial memory and globals (Core 1.0, 4.5.5).
///
/// The call ends within a bound that is known beforehand, and it never compares anything with that bound. The only
/// error is that an allocation fails. A call that sends no message and contributes to no aggregator allocates nothing and
/// always succeeds. Once the outcome is read, `Scratch::reuse` saves the next call its allocations.
pub fn run(
    alloc: Global,
    verified: &Verified,
    input: &CallInput,
    scratch: &mut Scratch,
) -> Result<CallOutcome, AllocError>
    requires fits { scratch.old ≡ verified.now }
    requires ids { HasIds input.now }
    ensures kept { scratch.new ≡ scratch.old }
    ensures outcome { IfOk result (IsOutcome verified.now input.now) }
    ensures units { IfOk result (IsWithinBound verified.now input.now) }
    ensures fails_never { NeverFails verified.now input.now }
    ensures reserved { IsSilent verified.now input.now → IsOk result }
{
    let program = scratch.program_for(verified);
    let definition = program.defined(verified.compute());
    units_fit(verified.size(), input);
    scratch.call(alloc, program, definition, input)
}

/// Decides whether the id and the targets of the edges are in range, which is a precondition of `run`.
pub fn has_ids(input: &CallInput) -> bool
    ensures { IsTrue result ↔ HasIds input.now }
{
    input.id <= MAX_ID && input.edges.iter().all(|edge| edge.0 <= MAX_ID)
}

// Proves that the count of a call's units fits: it is at most the size, times one more than there are messages and edges.
// It only reads the two lengths, whose type bounds them.
fn units_fit(size: u32, input: &CallInput)
    ensures { size * (1 + items_of input.now) ≤ max_count }
{
    let _messages = input.messages.len();
    let _edges = input.edges.len();
}

/// Calls the function in this walk, which keeps its room. The lists become those of the outcome, whatever they hold.
pub(crate) fn call_in<'a>(
    image: &Image<'a>,
    program: Program<'a>,
    definition: Definition<'a>,
    input: &CallInput,
    sends: Vec<(i64, i64)>,
    contributions: Vec<(u32, i64)>,
    walk: &mut Walk<'a>,
) -> Result<CallOutcome, AllocError>
    requires own { image.now ≡ program.«module».now }
    requires calls { AreImports program.calls.now program.«module».now }
    requires bodies { program.bodies.now ≡ bodies_of program.«module».now }
    requires flat { definition.body.now ≡ definition.function.now.body }
    requires begins { BeginsWith program.«module».now definition.function.now }
    requires within { IsWithinLimits program.«module».now }
    requires room { HasStartRoom program.«module».now definition.function.now walk.old.room }
    requires ends { EndsInRoom program.«module».now input.now max_count walk.old.room }
    ensures room { walk.new.room ≡ walk.old.room }
    ensures sends { OnErr result (Sends program.entry.«module».now input.now) }
    ensures outcome { IfOk result (IsOutcome program.entry.«module».now input.now) }
{
    let mut host = CallState::with_lists(input, sends, contributions);
    image.reset(definition.function, walk);
    let code = definition.body.as_slice();
    let count = walk.finish(program, code, &mut host)?;
    Ok(host.into_outcome(count))
}
