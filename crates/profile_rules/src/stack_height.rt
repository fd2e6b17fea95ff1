//! The height of the operand stack along code.

ghost use Rattle.std.specs.Prelude.{◌≡◌};
ghost use Rattle.verified.specs.Arities.{block_arity};
ghost use Rattle.profile_rules.specs.inside.StackHeights.{reaching, stepping, with_call, most_along, with_instr};

use crate::arity::{TEST, arity_at, branch_arity, plain_arity, result_count};
use crate::height_table::HeightTable;
use verified::Arity;
use wasm_ast::{BlockType, Body, Instr};

/// For each function: the operands that a call takes and gives, and the greatest height of the stack in it.
#[derive(Clone, Copy)]
pub struct Callees<'a> {
    pub arities: &'a [Arity],
    pub heights: &'a HeightTable,
}

/// The height of the operand stack: at a place of the code, and at most so far. Both counts saturate.
#[derive(Clone, Copy)]
pub struct StackHeight {
    here: usize,
    most: usize,
}

impl StackHeight {
    // Counts inner code that reaches this height above the operands here.
    fn reach(&mut self, above: usize)
        ensures { self.new ≡ reaching above self.old }
    {
        self.most = self.here.saturating_add(above).max(self.most);
    }

    fn step(&mut self, arity: Arity)
        ensures { self.new ≡ stepping arity self.old }
    {
        self.here = self
            .here
            .saturating_sub(arity.takes)
            .saturating_add(arity.gives);
        self.most = self.most.max(self.here);
    }

    // Counts a call. The callee runs on the operands below its arguments.
    fn call(&mut self, callees: Callees, function: u32)
        ensures { self.new
            ≡ with_call callees.entry.arities.now callees.entry.heights.now function self.old }
    {
        let arity = arity_at(callees.arities, function);
        let left = self.here.saturating_sub(arity.takes);
        self.most = left
            .saturating_add(callees.heights.get(function))
            .max(self.most);
        self.step(arity);
    }

    fn give(&mut self, gives: BlockType)
        ensures { self.new ≡ stepping (block_arity gives) self.old }
    {
        let gives = result_count(gives);
        self.step(Arity { takes: 0, gives });
    }

    /// Finds the greatest height in code that begins with no operands. The count saturates.
    #[cycle(code)]
    pub fn most_along(callees: Callees, body: &Body) -> usize
        ensures { result
            ≡ most_along callees.entry.arities.now callees.entry.heights.now body.now }
    {
        let mut stack_height = StackHeight { here: 0, most: 0 };
        for instr in body.as_slice() {
            stack_height.add_instr(callees, instr);
        }
        stack_height.most
    }

    #[cycle(code)]
    fn add_instr(&mut self, callees: Callees, instr: &Instr)
        ensures { self.new
            ≡ with_instr callees.entry.arities.now callees.entry.heights.now instr.now self.old }
    {
        match instr {
            Instr::Plain(plain) => self.step(plain_arity(*plain)),
            Instr::Branch(branch) => self.step(branch_arity(branch)),
            Instr::Call(function) => self.call(callees, *function),
            Instr::CallIndirect(_) | Instr::Unreachable => {}
            Instr::Block(gives, body) | Instr::Loop(gives, body) => {
                self.reach(StackHeight::most_along(callees, body));
                self.give(*gives);
            }
            Instr::If(gives, body, other) => {
                self.step(TEST);
                self.reach(StackHeight::most_along(callees, body));
                self.reach(StackHeight::most_along(callees, other));
                self.give(*gives);
            }
        }
    }
}
