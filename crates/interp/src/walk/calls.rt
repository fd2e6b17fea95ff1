//! Calls of functions by number (Core 1.0, 4.4.7).

ghost use Rattle.std.specs.Prelude.{◌≡◌, ◌+◌, ◌≤◌, None, Some, length, slice_get, true};
ghost use Rattle.wasm_ast.specs.Limits.{IsWithinLimits, max_locals, parameters_of};
ghost use Rattle.verified.specs.Bodies.{bodies_of};
ghost use Rattle.verified.specs.View.{code_of};
ghost use Rattle.semantics.specs.Machine.{enter};
ghost use Rattle.interp.specs.inside.Cells.{celled, in_width, of_any_width};
ghost use Rattle.interp.specs.inside.Going.{goes_on};
ghost use Rattle.interp.specs.inside.Meaning.{AreImports};
ghost use Rattle.interp.specs.inside.Place.{HasFrameRoom};
ghost use Rattle.interp.specs.inside.Walk.{Turns, called, entered};

use crate::control_entry::{ControlEntry, push_entry};
use crate::program::{Callee, Definition, Program};
use crate::walk::{Turn, Walk};
use verified::FlatInstr;
use wasm_ast::FuncType;

impl<'a> Walk<'a> {
    /// Calls the function with this number, which is not one of the host's.
    pub fn call(
        &mut self,
        program: Program<'a>,
        number: u32,
        code: &'a [FlatInstr],
        count: u128,
    ) -> Turn<'a>
        requires calls { AreImports program.calls.now program.«module».now }
        requires bodies { program.bodies.now ≡ bodies_of program.«module».now }
        requires within { IsWithinLimits program.«module».now }
        requires room { HasFrameRoom self.old }
        requires other { slice_get program.calls.now number ≡ None }
        requires goes { goes_on (called of_any_width program.«module».now number) (code_of code.now)
            count self.old ≡ true }
        ensures turned { Turns result (called in_width program.entry.«module».now number)
            (code_of code.now) count self.old self.new }
        ensures room { self.new.room ≡ self.old.room }
    {
        match program.callee(number) {
            None => unreachable!(),
            Some(Callee::Host(_)) => unreachable!(),
            Some(Callee::Defined(definition)) => self.enter(program, definition, code, count),
        }
    }

    fn enter(
        &mut self,
        program: Program<'a>,
        definition: Definition<'a>,
        code: &'a [FlatInstr],
        count: u128,
    ) -> Turn<'a>
        requires flat { definition.body.now ≡ definition.function.now.body }
        requires room { HasFrameRoom self.old }
        requires few { parameters_of program.«module».now.types definition.function.now.type_number
            + length definition.function.now.locals ≤ max_locals }
        requires goes { goes_on (entered program.«module».now definition.function.now)
            (code_of code.now) count self.old ≡ true }
        ensures turned { Turns result
            (entered program.entry.«module».now definition.entry.function.now)
            (code_of code.now) count self.old self.new }
        ensures room { self.new.room ≡ self.old.room }
    {
        let types = program.module.types.as_slice();
        match types.get(definition.function.type_number as usize) {
            None => unreachable!(),
            Some(func_type) => self.enter_typed(definition, func_type, code, count),
        }
    }

    fn enter_typed(
        &mut self,
        definition: Definition<'a>,
        func_type: &FuncType,
        code: &'a [FlatInstr],
        count: u128,
    ) -> Turn<'a>
        requires flat { definition.body.now ≡ definition.function.now.body }
        requires room { HasFrameRoom self.old }
        requires few { length func_type.now.parameters
            + length definition.function.now.locals ≤ max_locals }
        requires goes { goes_on (enter (celled definition.function.now) (Some func_type.now))
            (code_of code.now) count self.old ≡ true }
        ensures turned { Turns result
            (enter (celled definition.entry.function.now) (Some func_type.now))
            (code_of code.now) count self.old self.new }
        ensures room { self.new.room ≡ self.old.room }
    {
        let arguments = func_type.parameters.as_slice().len();
        let keeps = !func_type.results.as_slice().is_empty();
        let base = self.locals.base();
        self.locals.open(self.operands.topmost(arguments));
        self.locals.add(definition.function.locals.as_slice());
        self.operands.shed(arguments);
        let floor = self.operands.floor();
        let frame = ControlEntry::Frame {
            keeps,
            floor,
            base,
            after: code,
        };
        push_entry(&mut self.entries, frame);
        self.operands.open();
        Turn::Next {
            code: definition.body.as_slice(),
            count,
        }
    }
}
