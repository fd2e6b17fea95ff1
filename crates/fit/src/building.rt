//! Loops in their new form.

ghost use Rattle.std.specs.Prelude.{◌+◌, ◌≤◌, length};
ghost use Rattle.fit.specs.inside.Forms.{FormFits};

use crate::code::Code;
use crate::labels::Move;
use crate::loops::{Form, form_of};
use crate::moving::{moved_body, push_moved};
use std::alloc::{AllocError, Global};
use wasm_ast::{BlockType, Body, Branch, Instr, Numeric, Plain, ValType};

/// Adds a loop, in the form nearest to the profile. `body` is its code.
pub fn push_loop(
    alloc: Global,
    takers: &[bool],
    gives: BlockType,
    body: Code,
    out: &mut Code,
) -> Result<(), AllocError> {
    match form_of(takers, &body) {
        Form::Other => out.push(Instr::Loop(gives, Body::from(body.instrs)), body.ends),
        Form::Once => out.push(Instr::Block(gives, Body::from(body.instrs)), body.ends),
        form => {
            out.ends = body.ends;
            push_form(alloc, form, body.instrs.as_slice(), &mut out.instrs)
        }
    }
}

// Adds a loop of this form, which is rewritten.
fn push_form(
    alloc: Global,
    form: Form,
    instrs: &[Instr],
    out: &mut Vec<Instr>,
) -> Result<(), AllocError>
    requires { FormFits (length instrs.now) form }
{
    match form {
        Form::Other | Form::Once => Ok(()),
        Form::Trailing(index) => push_trailing(alloc, instrs, index, out),
        Form::Inverted(index) => push_inverted(alloc, instrs, index, out),
        Form::Late(index) => push_late(alloc, instrs, index, out),
        Form::Nested(index) => push_nested(alloc, instrs, index, out),
        Form::Chosen(index) => push_chosen(alloc, instrs, index, 1, out),
        Form::ChosenNot(index) => push_chosen(alloc, instrs, index, 2, out),
    }
}

// Moves the code behind the pair out of the loop.
fn push_trailing(
    alloc: Global,
    instrs: &[Instr],
    index: usize,
    out: &mut Vec<Instr>,
) -> Result<(), AllocError>
    requires { index + 2 ≤ length instrs.now }
{
    let mut front = Vec::new(alloc);
    push_moved(alloc, &instrs[..index + 2], Move::Nowhere, 0, &mut front)?;
    out.push(Instr::Loop(None, Body::from(front)))?;
    push_moved(alloc, &instrs[index + 2..], Move::Out(1), 0, out)
}

// Lets the pair go back where there was an item, and moves the branch that leaves the loop behind it.
fn push_inverted(
    alloc: Global,
    instrs: &[Instr],
    index: usize,
    out: &mut Vec<Instr>,
) -> Result<(), AllocError>
    requires { index + 3 ≤ length instrs.now }
{
    let mut front = Vec::new(alloc);
    push_moved(alloc, &instrs[..index + 1], Move::Nowhere, 0, &mut front)?;
    front.push(Instr::Branch(Branch::BrIf(0)))?;
    out.push(Instr::Loop(None, Body::from(front)))?;
    push_leaving(&instrs[index + 2], out)
}

// Moves the code before the item behind it, in the loop and where the loop is left.
fn push_late(
    alloc: Global,
    instrs: &[Instr],
    index: usize,
    out: &mut Vec<Instr>,
) -> Result<(), AllocError>
    requires { index + 3 ≤ length instrs.now }
{
    let (before, call) = (&instrs[..index], &instrs[index..index + 1]);
    push_opening(alloc, call, before, &instrs[index + 3..], Move::Around, out)?;
    push_moved(alloc, before, Move::Nowhere, 0, out)?;
    push_leaving(&instrs[index + 2], out)
}

// Adds the branch that leaves a loop, outside of the loop and always taken.
fn push_leaving(leave: &Instr, out: &mut Vec<Instr>) -> Result<(), AllocError> {
    if let Instr::Branch(Branch::BrIf(label)) = leave {
        out.push(Instr::Branch(Branch::Br(Move::Out(1).label(0, *label))))?;
    }
    Ok(())
}

// Moves the code for no item, which is in a block behind the call, out of the loop.
fn push_nested(
    alloc: Global,
    instrs: &[Instr],
    index: usize,
    out: &mut Vec<Instr>,
) -> Result<(), AllocError>
    requires { index + 1 ≤ length instrs.now }
{
    let before = &instrs[..index];
    if let Instr::Block(_, block) = &instrs[index] {
        if let [_, _, exit @ ..] = block.as_slice() {
            let call = &block.as_slice()[..1];
            push_opening(alloc, call, before, &instrs[index + 1..], Move::Around, out)?;
            push_moved(alloc, before, Move::Nowhere, 0, out)?;
            push_moved(alloc, exit, Move::Out(2), 0, out)?;
        }
    }
    Ok(())
}

// Makes the arm for an item the loop, and moves the other arm behind the loop. The `if` is `behind` instructions after the call.
fn push_chosen(
    alloc: Global,
    instrs: &[Instr],
    index: usize,
    behind: usize,
    out: &mut Vec<Instr>,
) -> Result<(), AllocError>
    requires { index + behind + 1 ≤ length instrs.now }
{
    if let Instr::If(_, then, or_else) = &instrs[index + behind] {
        let (arm, other) = if behind == 1 {
            (then, or_else)
        } else {
            (or_else, then)
        };
        let (before, call) = (&instrs[..index], &instrs[index..index + 1]);
        push_opening(alloc, call, before, arm.as_slice(), Move::OutOfArm, out)?;
        push_moved(alloc, before, Move::Nowhere, 0, out)?;
        if !other.as_slice().is_empty() {
            out.push(Instr::Block(None, moved_body(alloc, other, Move::Out(1), 1)?))?;
        }
        push_moved(alloc, &instrs[index + behind + 1..], Move::Out(1), 0, out)?;
    }
    Ok(())
}

// Adds a block with a loop that takes an item first, and leaves the block where there was none. Where there was one, the
// code `before` and `behind` is run.
fn push_opening(
    alloc: Global,
    call: &[Instr],
    before: &[Instr],
    behind: &[Instr],
    how: Move,
    out: &mut Vec<Instr>,
) -> Result<(), AllocError> {
    let mut body = Vec::new(alloc);
    push_moved(alloc, call, Move::Nowhere, 0, &mut body)?;
    body.push(Instr::Plain(Plain::Numeric(Numeric::Eqz(ValType::I32))))?;
    body.push(Instr::Branch(Branch::BrIf(1)))?;
    push_moved(alloc, before, Move::Nowhere, 0, &mut body)?;
    push_moved(alloc, behind, how, 0, &mut body)?;
    let mut block = Vec::new(alloc);
    block.push(Instr::Loop(None, Body::from(body)))?;
    out.push(Instr::Block(None, Body::from(block)))?;
    Ok(())
}
