//! The rewriting of bodies.

use crate::building::push_loop;
use crate::code::{Code, always_branches};
use crate::labels::names;
use crate::moving::moved_leaf;
use std::alloc::{AllocError, Global};
use wasm_ast::{BlockType, Body, Branch, Instr, Plain, ValType, Value};

// How often a body is rewritten. Each time can make way for the next.
const ROUNDS: u32 = 3;

/// What the rewriting of a body needs of the module and the function.
#[derive(Clone, Copy)]
pub struct Surroundings<'a> {
    /// For each imported function, whether it takes an item.
    pub takers: &'a [bool],
    /// What the function gives.
    pub gives: Option<ValType>,
}

/// Rewrites a body. It drops code that is never reached, makes a block of a loop to which nothing goes back, and changes
/// loops that take a message or an edge in the midst of their code to ones that take it first or last.
pub fn rewritten_body(
    alloc: Global,
    around: Surroundings,
    body: &Body,
) -> Result<Body, AllocError> {
    let mut last = body.copy(alloc)?;
    for _ in 0..ROUNDS {
        last = Body::from(rewritten(alloc, around, &last)?.instrs);
    }
    Ok(last)
}

// Rewrites a body once: drops code that is never reached, and brings each loop into the form nearest to the profile, inner
// loops first.
//
// It takes time by the length of the body and by the depth of its blocks.
#[cycle(rewritten)]
fn rewritten(alloc: Global, around: Surroundings, body: &Body) -> Result<Code, AllocError> {
    let mut code = Code::new(alloc);
    for instr in body.as_slice() {
        if code.ends {
            return closed(around.gives, code);
        }
        push_rewritten(alloc, around, instr, &mut code)?;
    }
    Ok(code)
}

#[cycle(rewritten)]
fn push_rewritten(
    alloc: Global,
    around: Surroundings,
    instr: &Instr,
    code: &mut Code,
) -> Result<(), AllocError> {
    match instr {
        Instr::Block(gives, body) => {
            let inner = rewritten(alloc, around, body)?;
            push_block(*gives, inner, code)
        }
        Instr::Loop(gives, body) => {
            let inner = rewritten(alloc, around, body)?;
            push_loop(alloc, around.takers, *gives, inner, code)
        }
        Instr::If(gives, body, other) => {
            let arm = rewritten(alloc, around, body)?;
            push_choice(*gives, arm, rewritten(alloc, around, other)?, code)
        }
        Instr::Unreachable => code.push(Instr::Unreachable, true),
        _ => code.push(moved_leaf(alloc, instr)?, always_branches(instr)),
    }
}

fn push_block(gives: BlockType, inner: Code, code: &mut Code) -> Result<(), AllocError> {
    let ends = never_falls(&inner);
    code.push(Instr::Block(gives, Body::from(inner.instrs)), ends)
}

fn push_choice(
    gives: BlockType,
    arm: Code,
    other: Code,
    code: &mut Code,
) -> Result<(), AllocError> {
    let ends = never_falls(&arm) && never_falls(&other);
    let arm = Body::from(arm.instrs);
    code.push(Instr::If(gives, arm, Body::from(other.instrs)), ends)
}

// Whether control never passes a block with this code.
fn never_falls(inner: &Code) -> bool {
    inner.ends && !names(inner.instrs.as_slice(), 0)
}

// Ends code whose rest is dropped. Behind a block or a loop that control does not pass, it adds a `return`, which is never
// reached and is valid with any operands.
fn closed(gives: Option<ValType>, code: Code) -> Result<Code, AllocError> {
    let mut code = code;
    if needs_end(code.instrs.as_slice()) {
        if let Some(val_type) = gives {
            code.push(Instr::Plain(Plain::Const(Value::zero(val_type))), true)?;
        }
        code.push(Instr::Branch(Branch::Return), true)?;
    }
    Ok(code)
}

fn needs_end(instrs: &[Instr]) -> bool {
    match instrs {
        [.., last] => matches!(
            last,
            Instr::Block(_, _) | Instr::Loop(_, _) | Instr::If(_, _, _)
        ),
        _ => false,
    }
}
