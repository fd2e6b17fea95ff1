//! Branches (Core 1.0, 4.4.5).

ghost use Rattle.std.specs.Prelude.{◌≡◌, reverse, true, vec_capacity};
ghost use Rattle.wasm_ast.specs.declared.plain.Branch.TheVariants as branches;
ghost use Rattle.wasm_ast.specs.Code.{end};
ghost use Rattle.verified.specs.View.{code_of};
ghost use Rattle.semantics.specs.Machine.{label_of};
ghost use Rattle.interp.specs.inside.Cells.{cell_branch};
ghost use Rattle.interp.specs.inside.Going.{goes_on, has_labels};
ghost use Rattle.interp.specs.inside.Meaning.{AreNested, floor_of, entries_round};
ghost use Rattle.interp.specs.inside.Place.{HasOperandRoom};
ghost use Rattle.interp.specs.inside.Split.{HasSpare};
ghost use Rattle.interp.specs.inside.Walk.{Turns, Unwinds, UnwindsFrame};

use crate::cell::as_i32;
use crate::control_entry::{ControlEntry, pop_entry};
use crate::locals::Locals;
use crate::operands::Operands;
use crate::walk::{Turn, Walk};
use verified::FlatInstr;
use wasm_ast::Branch;

impl<'a> Walk<'a> {
    /// Takes a branch.
    #[inline]
    pub fn branch(&mut self, branch: &Branch, code: &'a [FlatInstr], count: u128) -> Turn<'a>
        requires spare { HasOperandRoom self.old }
        requires goes { goes_on (cell_branch branch.now) (code_of code.now) count
            self.old ≡ true }
        ensures turned { Turns result (cell_branch branch.now) (code_of code.now) count
            self.old self.new }
        ensures room { self.new.room ≡ self.old.room }
    {
        match branch {
            Branch::Br(label) => self.jump(*label, count),
            Branch::BrIf(label) => self.branch_if(*label, code, count),
            Branch::BrTable(labels, other) => self.branch_by(labels.as_slice(), *other, count),
            Branch::Return => self.back(count),
        }
    }

    #[inline(always)]
    pub fn branch_if(&mut self, label: u32, code: &'a [FlatInstr], count: u128) -> Turn<'a>
        requires spare { HasOperandRoom self.old }
        requires goes { goes_on (cell_branch (branches.BrIf label)) (code_of code.now) count
            self.old ≡ true }
        ensures turned { Turns result (cell_branch (branches.BrIf label)) (code_of code.now) count
            self.old self.new }
        ensures room { self.new.room ≡ self.old.room }
    {
        if as_i32(self.operands.pop()) == 0 {
            Turn::Next { code, count }
        } else {
            self.jump(label, count)
        }
    }

    fn branch_by(&mut self, labels: &[u32], other: u32, count: u128) -> Turn<'a>
        requires spare { HasOperandRoom self.old }
        requires goes { goes_on (cell_branch (branches.BrTable labels.now other)) end count
            self.old ≡ true }
        ensures turned { Turns result (cell_branch (branches.BrTable labels.now other)) end count
            self.old self.new }
        ensures room { self.new.room ≡ self.old.room }
    {
        let place = as_i32(self.operands.pop());
        self.jump(label_at(labels, place, other), count)
    }

    /// Jumps to a label.
    #[inline(always)]
    pub fn jump(&mut self, label: u32, count: u128) -> Turn<'a>
        requires spare { HasOperandRoom self.old }
        requires goes { goes_on (cell_branch (branches.Br label)) end count self.old ≡ true }
        ensures turned { Turns result (cell_branch (branches.Br label)) end count
            self.old self.new }
        ensures room { self.new.room ≡ self.old.room }
    {
        let top = self.operands.top();
        unwind(&mut self.entries, &mut self.operands, &self.locals, label);
        self.arrive(top, count)
    }

    /// Returns from the innermost frame.
    fn back(&mut self, count: u128) -> Turn<'a>
        requires spare { HasOperandRoom self.old }
        requires goes { goes_on (cell_branch branches.Return) end count self.old ≡ true }
        ensures turned { Turns result (cell_branch branches.Return) end count self.old self.new }
        ensures room { self.new.room ≡ self.old.room }
    {
        let top = self.operands.top();
        unwind_all(&mut self.entries, &mut self.operands, &self.locals);
        self.arrive(top, count)
    }
}

/// Finds the label at a place of a branch table, or the default for all places past its end.
fn label_at(labels: &[u32], place: u32, other: u32) -> u32
    ensures { result ≡ label_of labels.now place other }
{
    match labels.get(place as usize) {
        Some(label) => *label,
        None => other,
    }
}

/// Pops this many labels.
fn unwind<'a>(
    entries: &mut Vec<ControlEntry<'a>>,
    operands: &mut Operands,
    locals: &Locals,
    labels: u32,
)
    requires ordered { AreNested entries.old.items operands.old locals.now }
    requires there { has_labels labels
        (entries_round entries.old.items operands.old locals.now) ≡ true }
    ensures ordered { AreNested entries.new.items operands.new locals.now }
    ensures jump { Unwinds labels
        (entries_round entries.old.items operands.old locals.now)
        (entries_round entries.new.items operands.new locals.now) }
    ensures room { vec_capacity entries.new ≡ vec_capacity entries.old }
    ensures spare { HasSpare operands.old → HasSpare operands.new }
    ensures same { operands.new.below.room ≡ operands.old.below.room }
{
    for _ in 0..labels {
        match pop_entry(entries) {
            Some(ControlEntry::Label { floor, .. }) => operands.fall(floor),
            Some(ControlEntry::Frame { .. }) => unreachable!(),
            None => unreachable!(),
        }
    }
}

/// Finds where the operands of the enclosing entry begin, if the innermost entry is a label.
fn innermost_label(entries: &[ControlEntry]) -> Option<usize>
    ensures { result ≡ floor_of (reverse entries.now) }
{
    match entries.last() {
        Some(ControlEntry::Label { floor, .. }) => Some(*floor),
        Some(ControlEntry::Frame { .. }) => None,
        None => None,
    }
}

/// Pops all labels of the innermost frame.
fn unwind_all<'a>(entries: &mut Vec<ControlEntry<'a>>, operands: &mut Operands, locals: &Locals)
    requires { AreNested entries.old.items operands.old locals.now }
    ensures ordered { AreNested entries.new.items operands.new locals.now }
    ensures back { UnwindsFrame
        (entries_round entries.old.items operands.old locals.now)
        (entries_round entries.new.items operands.new locals.now) }
    ensures room { vec_capacity entries.new ≡ vec_capacity entries.old }
    ensures spare { HasSpare operands.old → HasSpare operands.new }
    ensures same { operands.new.below.room ≡ operands.old.below.room }
{
    while let Some(floor) = innermost_label(entries.as_slice()) {
        operands.fall(floor);
        let _ = pop_entry(entries);
    }
}
