//! Copies of code for another place.

use crate::labels::Move;
use std::alloc::{AllocError, Global};
use wasm_ast::{Body, Branch, Instr, Sequence};

/// Adds copies of instructions that are moved. `depth` is how many blocks of the moved code are around them.
pub fn push_moved(
    alloc: Global,
    instrs: &[Instr],
    how: Move,
    depth: u32,
    out: &mut Vec<Instr>,
) -> Result<(), AllocError> {
    for instr in instrs {
        out.push(moved_instr(alloc, instr, how, depth)?)?;
    }
    Ok(())
}

/// Copies an instruction as it is.
pub fn moved_leaf(alloc: Global, instr: &Instr) -> Result<Instr, AllocError> {
    moved_instr(alloc, instr, Move::Nowhere, 0)
}

/// Copies a body that is moved. `depth` is how many blocks of the moved code are around its instructions.
#[cycle(moved)]
pub fn moved_body(alloc: Global, body: &Body, how: Move, depth: u32) -> Result<Body, AllocError> {
    let instrs = body.as_slice();
    let mut copies = Vec::with_capacity(alloc, instrs.len())?;
    for instr in instrs {
        copies.push(moved_instr(alloc, instr, how, depth)?)?;
    }
    Ok(Body::from(copies))
}

#[cycle(moved)]
fn moved_instr(alloc: Global, instr: &Instr, how: Move, depth: u32) -> Result<Instr, AllocError> {
    let inner = depth.saturating_add(1);
    match instr {
        Instr::Plain(plain) => Ok(Instr::Plain(*plain)),
        Instr::Branch(branch) => Ok(Instr::Branch(moved_branch(alloc, branch, how, depth)?)),
        Instr::Call(function) => Ok(Instr::Call(*function)),
        Instr::CallIndirect(type_number) => Ok(Instr::CallIndirect(*type_number)),
        Instr::Unreachable => Ok(Instr::Unreachable),
        Instr::Block(gives, body) => Ok(Instr::Block(*gives, moved_body(alloc, body, how, inner)?)),
        Instr::Loop(gives, body) => Ok(Instr::Loop(*gives, moved_body(alloc, body, how, inner)?)),
        Instr::If(gives, body, other) => {
            let body = moved_body(alloc, body, how, inner)?;
            Ok(Instr::If(*gives, body, moved_body(alloc, other, how, inner)?))
        }
    }
}

fn moved_branch(
    alloc: Global,
    branch: &Branch,
    how: Move,
    depth: u32,
) -> Result<Branch, AllocError> {
    match branch {
        Branch::Br(label) => Ok(Branch::Br(how.label(depth, *label))),
        Branch::BrIf(label) => Ok(Branch::BrIf(how.label(depth, *label))),
        Branch::BrTable(labels, default) => {
            let labels = moved_labels(alloc, labels.as_slice(), how, depth)?;
            Ok(Branch::BrTable(labels, how.label(depth, *default)))
        }
        Branch::Return => Ok(Branch::Return),
    }
}

fn moved_labels(
    alloc: Global,
    labels: &[u32],
    how: Move,
    depth: u32,
) -> Result<Sequence<u32>, AllocError> {
    let mut moved = Vec::with_capacity(alloc, labels.len())?;
    for label in labels {
        moved.push(how.label(depth, *label))?;
    }
    Ok(Sequence::from(moved))
}
