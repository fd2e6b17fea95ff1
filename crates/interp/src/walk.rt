//! The walk over nested code, which is the run of the machine (Core 1.0, 4.4).

ghost use Rattle.std.specs.Prelude.{◌≡◌, ◌+◌, ◌^◌, ◌<◌, ◌≤◌, false, true, IfOk, OnErr};
ghost use Rattle.wasm_ast.specs.Limits.{IsWithinLimits};
ghost use Rattle.verified.specs.Bodies.{bodies_of};
ghost use Rattle.verified.specs.View.{code_of, then_code};
ghost use Rattle.semantics.specs.Machine.{next_units};
ghost use Rattle.interp.specs.inside.Cells.{cell_advance, in_width, of_any_width};
ghost use Rattle.interp.specs.inside.Going.{goes_on, is_going};
ghost use Rattle.interp.specs.inside.Meaning.{AreImports};
ghost use Rattle.interp.specs.inside.Place.{HasFrameRoom, at, hosted, running, state_of};
ghost use Rattle.interp.specs.inside.Walk.{Arrives, Concludes, HasCountRoom, LeadsWithin, SendsFrom, Turned, Turns, left_of, max_count, taken};
ghost use Rattle.interp.specs.inside.Straight.{is_straight};

mod branches;
mod calls;
mod labels;

use crate::call_globals::CallGlobals;
use crate::control_entry::{ControlEntry, Form};
use crate::locals::Locals;
use crate::memory::Memory;
use crate::operands::Operands;
use crate::program::Program;
use crate::straight::{Stop, go_straight};
use std::alloc::AllocError;
use std::marker::Model;
use verified::{CallState, FlatBody, FlatInstr, branch_units};

/// Where the run goes on, or that it is done, with the units so far.
#[derive(Clone, Copy)]
pub enum Turn<'a> {
    Next { code: &'a [FlatInstr], count: u128 },
    /// A loop begins again, with this body, and was not counted yet.
    Again { body: &'a FlatBody, count: u128 },
    Finished { count: u128 },
}

/// The state of a run, except for the code, the count and the host, which are passed from step to step. Calls of a module
/// take turns with one walk: each begins by resetting it.
#[derive(Drop)]
pub struct Walk<'a> {
    pub entries: Vec<ControlEntry<'a>>,
    pub operands: Operands,
    pub locals: Locals,
    pub globals: CallGlobals,
    pub memory: Memory<'a>,
}

impl<'a> Model for Walk<'a> {
    ghost use Rattle.interp.specs.inside.Place.{Standing, standing_code};
    ghost use Rattle.interp.specs.inside.Meaning.{standing_of, IsOrdered};

    ghost Value = { Standing };

    ghost coded = { standing_code };

    ghost view = { standing_of };

    ghost invariant = { IsOrdered };
}

impl<'a> Walk<'a> {
    /// Runs to the end, and returns the units that the run took. The run ends before their count overflows. The only
    /// error is that an allocation fails, in a call that sends or aggregates.
    pub fn finish(
        &mut self,
        program: Program<'a>,
        code: &'a [FlatInstr],
        host: &mut CallState,
    ) -> Result<u128, AllocError>
        requires calls { AreImports program.calls.now program.«module».now }
        requires bodies { program.bodies.now ≡ bodies_of program.«module».now }
        requires within { IsWithinLimits program.«module».now }
        requires ends { LeadsWithin program.«module».now self.old.room
            (at (hosted self.old host.old) (code_of code.now) 0) max_count }
        ensures sends { OnErr result (SendsFrom program.entry.«module».now
            (at (hosted self.old host.old) (code_of code.now) 0) max_count) }
        ensures concludes { IfOk result (λ count. Concludes program.entry.«module».now
            (at (hosted self.old host.old) (code_of code.now) 0) max_count
            (state_of (hosted self.new host.new) count)) }
        ensures room { self.new.room ≡ self.old.room }
    {
        let mut rest = code;
        let mut count = 0;
        'turns: loop {
            let stop = self.go_on(program, rest, count, host)?;
            match self.turn(program, stop.code, stop.count) {
                Turn::Next {
                    code: next,
                    count: counted,
                } => {
                    rest = next;
                    count = counted;
                }
                Turn::Again {
                    body,
                    count: counted,
                } => {
                    rest = body.as_slice();
                    count = counted + 1;
                }
                Turn::Finished { count: counted } => return Ok(counted),
            }
        }
    }

    /// Runs straight code up to the first instruction that is not straight.
    #[inline]
    fn go_on(
        &mut self,
        program: Program<'a>,
        code: &'a [FlatInstr],
        count: u128,
        host: &mut CallState,
    ) -> Result<Stop<'a>, AllocError>
        requires calls { AreImports program.calls.now program.«module».now }
        requires leads { LeadsWithin program.«module».now self.old.room
            (at (hosted self.old host.old) (code_of code.now) count) max_count }
        ensures passes { IfOk result (λ stop. Arrives program.entry.«module».now max_count
            (at (hosted self.old host.old) (code_of code.entry.now) count)
            (at (hosted self.new host.new) (code_of stop.code.now) stop.count)) }
        ensures sends { OnErr result (SendsFrom program.entry.«module».now
            (at (hosted self.old host.old) (code_of code.entry.now) count) max_count) }
        ensures stops { IfOk result (λ stop. is_straight program.entry.calls.now
            (code_of stop.code.now) ≡ false) }
        ensures closer { IfOk result (λ stop.
            left_of max_count (at self.new (code_of stop.code.now) stop.count)
            ≤ left_of max_count (at self.old (code_of code.entry.now) count)) }
        ensures room { self.new.room ≡ self.old.room }
    {
        let stop = go_straight(
            program,
            code,
            count,
            &mut self.operands,
            &mut self.locals,
            &mut self.globals,
            &mut self.memory,
            host,
        )?;
        Ok(stop)
    }

    /// Takes one step; the contract requires that there is one.
    #[inline]
    fn turn(&mut self, program: Program<'a>, code: &'a [FlatInstr], count: u128) -> Turn<'a>
        requires calls { AreImports program.calls.now program.«module».now }
        requires bodies { program.bodies.now ≡ bodies_of program.«module».now }
        requires within { IsWithinLimits program.«module».now }
        requires fits { HasCountRoom program.«module».now (at self.old (code_of code.now) count) }
        requires room { HasFrameRoom self.old }
        requires stops { is_straight program.calls.now (code_of code.now) ≡ false }
        requires goes { is_going (cell_advance of_any_width program.«module».now
            (running (at self.old (code_of code.now) count))) ≡ true }
        ensures turned { Turned result (cell_advance in_width program.entry.«module».now
            (running (at self.old (code_of code.now) count))) self.new }
        ensures room { self.new.room ≡ self.old.room }
    {
        match code.split_first() {
            None => self.leave(count),
            Some((first, rest)) => self.take(program, first, rest, count),
        }
    }

    /// Takes the instruction `first`, and counts its units where its kind is matched. `rest` is the code after it.
    #[inline]
    fn take(
        &mut self,
        program: Program<'a>,
        first: &'a FlatInstr,
        rest: &'a [FlatInstr],
        count: u128,
    ) -> Turn<'a>
        requires calls { AreImports program.calls.now program.«module».now }
        requires bodies { program.bodies.now ≡ bodies_of program.«module».now }
        requires within { IsWithinLimits program.«module».now }
        requires fits { count
            + next_units program.«module».now (then_code first.now (code_of rest.now)) < 2 ^ 128 }
        requires room { HasFrameRoom self.old }
        requires stops { is_straight program.calls.now
            (then_code first.now (code_of rest.now)) ≡ false }
        requires goes { goes_on
            (taken of_any_width program.«module».now (then_code first.now (code_of rest.now)))
            (code_of rest.now) (count
            + next_units program.«module».now (then_code first.now (code_of rest.now)))
            self.old ≡ true }
        ensures turned { Turns result
            (taken in_width program.entry.«module».now (then_code first.now (code_of rest.now)))
            (code_of rest.now) (count
            + next_units program.entry.«module».now (then_code first.now (code_of rest.now)))
            self.old self.new }
        ensures room { self.new.room ≡ self.old.room }
    {
        match first {
            FlatInstr::Br(label) => self.jump(*label, count + 1),
            FlatInstr::BrIf(label) => self.branch_if(*label, rest, count + 1),
            FlatInstr::Branch(branch) => {
                self.branch(branch, rest, count + u128::from(branch_units(branch)))
            }
            FlatInstr::Call(number) => {
                let count = count + u128::from(program.call_units(*number));
                self.call(program, *number, rest, count)
            }
            FlatInstr::CallIndirect(_) => unreachable!(),
            FlatInstr::Unreachable => unreachable!(),
            FlatInstr::Block(block_type, body) => {
                let keeps = block_type.is_some();
                self.open(Form::Block { keeps }, body, rest, count + 1)
            }
            FlatInstr::Loop(block_type, body) => {
                let block_type = *block_type;
                self.open(Form::Loop { block_type, body }, body, rest, count + 1)
            }
            FlatInstr::If(block_type, then_body, else_body) => {
                self.choose(block_type.is_some(), then_body, else_body, rest, count + 1)
            }
            _ => unreachable!(),
        }
    }
}
