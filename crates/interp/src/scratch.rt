//! What the calls of a module share.

ghost use Rattle.std.specs.Prelude.{◌≡◌, ◌+◌, ◌*◌, ◌^◌, ◌≤◌, ◌↔◌, length, IfOk, IsTrue, OnErr};
ghost use Rattle.wasm_ast.specs.Limits.{IsWithinLimits, max_locals};
ghost use Rattle.verified.specs.Modules.{IsTyped};
ghost use Rattle.verified.specs.Profile.{IsBounded};
ghost use Rattle.verified.specs.Bodies.{bodies_of};
ghost use Rattle.semantics.specs.Call.{IsOutcome};
ghost use Rattle.interp.specs.Room.{most_entries, most_locals};
ghost use Rattle.interp.specs.inside.Begun.{BeginsWith, EndsEachWithin, HasRoom, Sends};
ghost use Rattle.interp.specs.inside.Meaning.{AreImports};
ghost use Rattle.interp.specs.inside.Walk.{max_count};

use crate::call_globals::CallGlobals;
use crate::locals::Locals;
use crate::memory::Memory;
use crate::operands::Operands;
use crate::program::{Definition, Program};
use crate::runs::call_in;
use crate::start::image::Image;
use crate::walk::Walk;
use std::alloc::{AllocError, Global};
use std::marker::Model;
use std::mem::replace;
use verified::{CallInput, CallOutcome, Verified};
use wasm_ast::{MAX_LOCALS, MAX_NESTING};

/// The state that the calls of one module share: what each call begins with, and buffers that one call leaves to the
/// next. Its model is the module.
pub struct Scratch<'a> {
    verified: &'a Verified,
    // In a box, so that dropping the owner is one call.
    lists: Box<Lists<'a>>,
}

/// What each call begins with, the walk of the last call, and the lists of an outcome that was given back.
#[derive(Drop)]
pub struct Lists<'a> {
    image: Image<'a>,
    walk: Walk<'a>,
    sends: Vec<(i64, i64)>,
    contributions: Vec<(u32, i64)>,
}

impl<'a> Drop for Scratch<'a> {
    fn drop(self) {
        let Scratch {
            verified: _,
            lists: _,
        } = self;
    }
}

impl<'a> Model for Scratch<'a> {
    ghost use Rattle.wasm_ast.specs.declared.module.Module.{Module as AnyModule};
    ghost use Rattle.wasm_ast.specs.contracts.module.Module as module_type;
    ghost use Rattle.std.specs.Prelude.{◌≡◌};
    ghost use Rattle.interp.specs.inside.Begun.{HasRoom};

    ghost Value = { AnyModule };

    ghost coded = { module_type.the_row.coded };

    ghost view = { λ scratch. scratch.verified.now };

    ghost invariant = { λ scratch. (scratch.lists.value.image ≡ scratch.verified.now)
        × HasRoom scratch.verified.now scratch.lists.value.walk.room };
}

impl<'a> Scratch<'a> {
    /// Allocates the buffers for calls of the module, and evaluates its initial globals and memory. The buffers have
    /// room for the most entries, operands and locals that a call has at a time. The only error is that an allocation
    /// fails.
    pub fn new(alloc: Global, verified: &'a Verified) -> Result<Scratch<'a>, AllocError>
        ensures { IfOk result (λ scratch. scratch ≡ verified.now) }
    {
        let lists = make_lists(alloc, verified)?;
        let lists = Box::new(alloc, lists)?;
        Ok(Scratch { verified, lists })
    }

    /// Decides whether it was made for this module, or for an equal one, such as a copy. It allocates nothing.
    pub fn fits(&self, verified: &Verified) -> bool
        ensures { IsTrue result ↔ (self.now ≡ verified.now) }
    {
        *self.verified.module() == *verified.module()
    }

    /// Takes back an outcome that is read: the next call fills its lists instead of new ones. So calls allocate only where one
    /// sends or contributes more than those before it. The scratch keeps the capacity of these lists, which is that of the
    /// largest call so far.
    pub fn reuse(&mut self, outcome: CallOutcome)
        ensures { self.new ≡ self.old }
    {
        let lists = &mut *self.lists;
        lists.sends = outcome.sends;
        lists.contributions = outcome.contributions;
    }

    // Returns the functions of the module that it was made for, which is that of `verified`.
    pub(crate) fn program_for(&self, verified: &Verified) -> Program<'a>
        requires { self.now ≡ verified.now }
        ensures same { result.«module».now ≡ verified.now }
        ensures typed { IsTyped verified.now }
        ensures within { IsWithinLimits verified.now }
        ensures bounded { IsBounded verified.now }
        ensures calls { AreImports result.calls.now result.«module».now }
        ensures bodies { result.bodies.now ≡ bodies_of result.«module».now }
    {
        Program::of(self.verified)
    }

    // Calls the function, in the walk of the last call and in the lists that were given back.
    pub(crate) fn call(
        &mut self,
        alloc: Global,
        program: Program<'a>,
        definition: Definition<'a>,
        input: &CallInput,
    ) -> Result<CallOutcome, AllocError>
        requires same { program.«module».now ≡ self.old }
        requires typed { IsTyped self.old }
        requires bounded { IsBounded self.old }
        requires within { IsWithinLimits self.old }
        requires calls { AreImports program.calls.now program.«module».now }
        requires bodies { program.bodies.now ≡ bodies_of program.«module».now }
        requires flat { definition.body.now ≡ definition.function.now.body }
        requires begins { BeginsWith program.«module».now definition.function.now }
        requires few { length definition.function.now.locals ≤ max_locals }
        requires ends { EndsEachWithin program.«module».now input.now max_count }
        ensures kept { self.new ≡ self.old }
        ensures sends { OnErr result (Sends program.entry.«module».now input.now) }
        ensures outcome { IfOk result (IsOutcome program.entry.«module».now input.now) }
    {
        let lists = &mut *self.lists;
        let sends = replace(&mut lists.sends, Vec::new(alloc));
        let contributions = replace(&mut lists.contributions, Vec::new(alloc));
        call_in(
            &lists.image,
            program,
            definition,
            input,
            sends,
            contributions,
            &mut lists.walk,
        )
    }
}

// Makes what the first call begins with, and a walk with room for it.
fn make_lists<'a>(alloc: Global, verified: &'a Verified) -> Result<Lists<'a>, AllocError>
    ensures image { IfOk result (λ lists. lists.image ≡ verified.now) }
    ensures room { IfOk result (λ lists. HasRoom verified.now lists.walk.room) }
{
    let image = Image::new(alloc, verified)?;
    let walk = make_walk(alloc, verified, &image)?;
    Ok(Lists {
        image,
        walk,
        sends: Vec::new(alloc),
        contributions: Vec::new(alloc),
    })
}

// Makes a walk with room for the most that a call has at a time.
fn make_walk<'a>(
    alloc: Global,
    verified: &'a Verified,
    image: &Image<'a>,
) -> Result<Walk<'a>, AllocError>
    requires { image.now ≡ verified.now }
    ensures { IfOk result (λ walk. HasRoom verified.now walk.room) }
{
    let frames = verified.max_frames() as usize;
    let entries = Vec::with_capacity(alloc, most_entries(frames) + 1)?;
    let operands = Operands::with_room(alloc, verified.max_operands() as usize + 1)?;
    let locals = Locals::with_room(alloc, most_locals(frames + 1))?;
    let memory = Memory::zeros(alloc, verified)?;
    let globals = CallGlobals::of(alloc, image.globals())?;
    Ok(Walk {
        entries,
        operands,
        locals,
        globals,
        memory,
    })
}

// Returns the most control entries that this many frames have.
fn most_entries(frames: usize) -> usize
    requires { frames ≤ 2 ^ 32 }
    ensures { result ≡ most_entries frames }
{
    frames * (1 + MAX_NESTING as usize)
}

// Returns the most locals that this many frames have.
fn most_locals(frames: usize) -> usize
    requires { frames ≤ 2 ^ 32 }
    ensures { result ≡ most_locals frames }
{
    frames * MAX_LOCALS as usize
}
