//! The forms of loops that can be rewritten.

ghost use Rattle.std.specs.Prelude.{◌≡◌, ◌+◌, ◌≤◌, IfSome, length, true};
ghost use Rattle.fit.specs.inside.Forms.{FormFits};

use crate::code::{Code, ends_by_branch};
use crate::items::{goes_back, inverts, takes};
use crate::labels::{body_names, names};
use wasm_ast::{Body, Branch, Instr, Plain, Variable};

/// The form of a loop. An index counts the instructions of its body, without those inside of them.
#[derive(Clone, Copy)]
pub enum Form {
    /// It takes an item first or last, or in a way that is not rewritten.
    Other,
    /// Nothing goes back to it.
    Once,
    /// It takes an item at this index and goes back where there was one. More code follows.
    Trailing(usize),
    /// It takes an item at this index, leaves by the branch two behind where there was none, and else goes back.
    Inverted(usize),
    /// It takes an item at this index and leaves by the branch two behind where there was none. The code before may as well
    /// run behind the call.
    Late(usize),
    /// At this index is a block that begins by taking an item, and leaves the loop where there was none.
    Nested(usize),
    /// It takes an item at this index, and the instruction behind is an `if`.
    Chosen(usize),
    /// It takes an item at this index, and behind an inversion comes an `if`.
    ChosenNot(usize),
}

/// Finds the form of a loop with this body.
///
/// It takes time by the length of the body.
pub fn form_of(takers: &[bool], body: &Code) -> Form
    ensures { FormFits (length body.now.instrs.items) result }
{
    let instrs = body.instrs.as_slice();
    if !names(instrs, 0) {
        return Form::Once;
    }
    if is_opening(takers, instrs) {
        return Form::Other;
    }
    match backward_form(takers, instrs) {
        Form::Other => forward_form(takers, body),
        form => form,
    }
}

// Whether code takes an item first, and leaves the loop where there is none.
fn is_opening(takers: &[bool], instrs: &[Instr]) -> bool
    ensures { result ≡ true → 3 ≤ length instrs.now }
{
    match instrs {
        [call, invert, leave, ..] => takes(takers, call) && inverts(invert) && leaves(leave),
        _ => false,
    }
}

fn leaves(instr: &Instr) -> bool {
    match instr {
        Instr::Branch(Branch::BrIf(label)) => *label >= 1,
        _ => false,
    }
}

// Finds the form of a loop that takes an item near its end. One that ends with the pair already is of another form.
fn backward_form(takers: &[bool], instrs: &[Instr]) -> Form
    ensures { FormFits (length instrs.now) result }
{
    if let [
        front @ ..,
        call,
        invert,
        leave,
        Instr::Branch(Branch::Br(0)),
    ] = instrs
    {
        if takes(takers, call) && inverts(invert) && leaves(leave) && !names(front, 0) {
            return Form::Inverted(front.len());
        }
    }
    match back_at(takers, instrs) {
        Some(index) if goes_back_once(instrs, index) => Form::Trailing(index),
        _ => Form::Other,
    }
}

// Finds where the loop takes an item and goes back where there was one.
fn back_at(takers: &[bool], instrs: &[Instr]) -> Option<usize>
    ensures { IfSome result (λ index. index + 2 ≤ length instrs.now) }
{
    for index in 0..instrs.len() {
        if let [call, back, ..] = &instrs[index..] {
            if takes(takers, call) && goes_back(back) {
                return Some(index);
            }
        }
    }
    None
}

// Whether there is code behind the pair at this index, and nothing else goes back to the loop.
fn goes_back_once(instrs: &[Instr], index: usize) -> bool
    requires { index + 2 ≤ length instrs.now }
{
    index + 2 < instrs.len() && !names(&instrs[..index], 0) && !names(&instrs[index + 2..], 0)
}

// Finds the form of a loop that takes an item behind code that may as well run behind the call.
fn forward_form(takers: &[bool], body: &Code) -> Form
    ensures { FormFits (length body.now.instrs.items) result }
{
    let instrs = body.instrs.as_slice();
    let index = waiting_count(instrs);
    if body.ends && is_opening(takers, &instrs[index..]) {
        return Form::Late(index);
    }
    if body.ends && begins_by_leaving(takers, &instrs[index..]) {
        return Form::Nested(index);
    }
    chosen_form(takers, instrs, index)
}

// Finds the form of a loop that takes an item at this index, and goes on by an `if`.
fn chosen_form(takers: &[bool], instrs: &[Instr], index: usize) -> Form
    requires { index ≤ length instrs.now }
    ensures { FormFits (length instrs.now) result }
{
    match &instrs[index..] {
        [call, Instr::If(None, arm, other), rest @ ..]
            if takes(takers, call) && is_chosen(index, arm, other, rest) => { Form::Chosen(index) }
        [call, invert, Instr::If(None, other, arm), rest @ ..]
            if takes(takers, call) && inverts(invert) && is_chosen(index, arm, other, rest) => {
            Form::ChosenNot(index)
        }
        _ => Form::Other,
    }
}

// Counts the instructions at the beginning that may as well run behind one that takes an item.
fn waiting_count(instrs: &[Instr]) -> usize
    ensures { result ≤ length instrs.now }
{
    for (index, instr) in instrs.iter().enumerate() {
        if !can_wait(instr) {
            return index;
        }
    }
    instrs.len()
}

// Whether the instruction acts on operands and locals alone, so that an item can be taken before it as well.
fn can_wait(instr: &Instr) -> bool {
    match instr {
        Instr::Plain(Plain::Nop | Plain::Const(_)) => true,
        Instr::Plain(Plain::Variable(variable)) => matches!(
            variable,
            Variable::LocalGet(_) | Variable::LocalSet(_) | Variable::LocalTee(_)
        ),
        _ => false,
    }
}

// Whether code begins with a block that takes an item first, is left where there was one, and else leaves the loop.
fn begins_by_leaving(takers: &[bool], instrs: &[Instr]) -> bool
    ensures { result ≡ true → 1 ≤ length instrs.now }
{
    match instrs {
        [Instr::Block(None, block), ..] => leaves_first(takers, block),
        _ => false,
    }
}

// Whether a block in a loop takes an item first, is left where there was one, and else leaves the loop.
fn leaves_first(takers: &[bool], block: &Body) -> bool {
    match block.as_slice() {
        [call, back, exit @ ..] => {
            takes(takers, call)
                && goes_back(back)
                && ends_by_branch(exit)
                && !names(exit, 0)
                && !names(exit, 1)
        }
        _ => false,
    }
}

// Whether an `if` in a loop goes on where an item was taken (`arm`), and else leaves the loop. `before` is how many
// instructions are before the call, and `rest` is the code behind the `if`.
fn is_chosen(before: usize, arm: &Body, other: &Body, rest: &[Instr]) -> bool {
    let leaves_by_arm = !ends_by_branch(arm.as_slice()) || body_names(arm, 0);
    let is_alone = before == 0 && other.as_slice().is_empty();
    (is_alone || !leaves_by_arm) && !body_names(other, 1) && !names(rest, 0)
}
