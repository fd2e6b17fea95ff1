//! Blocks (Core 1.0, 4.4.5), and how the run goes on after them.

ghost use Rattle.std.specs.Prelude.{◌≡◌, option_map, true};
ghost use Rattle.wasm_ast.specs.declared.types.Value.TheVariants.{I64};
ghost use Rattle.verified.specs.View.{code_of};
ghost use Rattle.semantics.specs.Machine.{arrive, leave};
ghost use Rattle.interp.specs.inside.Going.{goes_on, is_going};
ghost use Rattle.interp.specs.inside.Meaning.{keeps_of, target_of};
ghost use Rattle.interp.specs.inside.Place.{HasEntryRoom, HasOperandRoom, state_of};
ghost use Rattle.interp.specs.inside.Walk.{Turned, Turns, chosen, opened};

use crate::cell::as_i32;
use crate::control_entry::{ControlEntry, Form, innermost_loop, pop_entry, push_entry};
use crate::walk::{Turn, Walk};
use verified::{FlatBody, FlatInstr};

impl<'a> Walk<'a> {
    /// Goes on at the innermost label or frame, with an operand. The label of a loop stays: there the walk has already
    /// entered the loop's body again.
    #[inline(always)]
    pub fn arrive(&mut self, top: Option<u64>, count: u128) -> Turn<'a>
        requires spare { HasOperandRoom self.old }
        requires goes { is_going (arrive (option_map I64 top) self.old.entries
            (state_of self.old count)) ≡ true }
        ensures turned { Turned result (arrive (option_map I64 top) self.old.entries
            (state_of self.old count)) self.new }
        ensures room { self.new.room ≡ self.old.room }
    {
        if let Some(body) = innermost_loop(self.entries.as_slice()) {
            self.operands.empty();
            return Turn::Again { body, count };
        }
        match pop_entry(&mut self.entries) {
            None => Turn::Finished { count },
            Some(
                ControlEntry::Label {
                    form: Form::Block { keeps },
                    floor,
                    after,
                },
            ) => {
                self.operands.fall(floor);
                self.operands.carry(keeps, top);
                Turn::Next { code: after, count }
            }
            Some(
                ControlEntry::Label {
                    form: Form::Loop { .. },
                    ..
                },
            ) => unreachable!(),
            Some(
                ControlEntry::Frame {
                    keeps,
                    floor,
                    base,
                    after,
                },
            ) => {
                self.operands.fall(floor);
                self.locals.close(base);
                self.operands.carry(keeps, top);
                Turn::Next { code: after, count }
            }
        }
    }

    /// Goes on after the innermost label or frame, at the end of its sequence.
    #[inline]
    pub fn leave(&mut self, count: u128) -> Turn<'a>
        ensures turned { Turned result
            (leave self.old.values self.old.entries (state_of self.old count)) self.new }
        ensures room { self.new.room ≡ self.old.room }
    {
        match pop_entry(&mut self.entries) {
            None => Turn::Finished { count },
            Some(ControlEntry::Label { floor, after, .. }) => {
                self.operands.join(floor);
                Turn::Next { code: after, count }
            }
            Some(
                ControlEntry::Frame {
                    floor,
                    base,
                    after,
                    ..
                },
            ) => {
                self.operands.join(floor);
                self.locals.close(base);
                Turn::Next { code: after, count }
            }
        }
    }

    /// Enters a sequence in a label.
    #[inline]
    pub fn open(
        &mut self,
        form: Form<'a>,
        body: &'a FlatBody,
        code: &'a [FlatInstr],
        count: u128,
    ) -> Turn<'a>
        requires { HasEntryRoom self.old }
        ensures turned { Turns result
            (opened (keeps_of form.entry) (target_of form.entry (code_of code.now)) body.now)
            (code_of code.now) count self.old self.new }
        ensures room { self.new.room ≡ self.old.room }
    {
        let floor = self.operands.floor();
        let label = ControlEntry::Label {
            form,
            floor,
            after: code,
        };
        push_entry(&mut self.entries, label);
        self.operands.open();
        Turn::Next {
            code: body.as_slice(),
            count,
        }
    }

    /// Enters one of two sequences, by the topmost operand.
    #[inline]
    pub fn choose(
        &mut self,
        keeps: bool,
        then_body: &'a FlatBody,
        else_body: &'a FlatBody,
        code: &'a [FlatInstr],
        count: u128,
    ) -> Turn<'a>
        requires room { HasEntryRoom self.old }
        requires goes { goes_on (chosen keeps then_body.now else_body.now) (code_of code.now) count
            self.old ≡ true }
        ensures turned { Turns result (chosen keeps then_body.now else_body.now)
            (code_of code.now) count self.old self.new }
        ensures room { self.new.room ≡ self.old.room }
    {
        if as_i32(self.operands.pop()) == 0 {
            self.open(Form::Block { keeps }, else_body, code, count)
        } else {
            self.open(Form::Block { keeps }, then_body, code, count)
        }
    }
}
