//! Makes the flat form of code.

ghost use Rattle.std.specs.Prelude.{◌≡◌, IfOk};
ghost use Rattle.verified.specs.Bodies.{bodies_of};
ghost use Rattle.verified.specs.inside.Mirrors.{Mirrors, MirrorsBranch};

use crate::body::{FlatBody, FlatInstr};
use crate::plains::flat_plain;
use std::alloc::{AllocError, Global};
use wasm_ast::{Body, Branch, Instr, Module, Sequence};

/// Makes the flat form of the body of each function that the module defines. It takes time and memory by the length of
/// the module. The only error is that an allocation fails.
pub fn flat_bodies(alloc: Global, module: &Module) -> Result<Vec<FlatBody>, AllocError>
    ensures { IfOk result (λ bodies. bodies.items ≡ bodies_of «module».now) }
{
    let mut bodies = Vec::new(alloc);
    for function in module.functions.as_slice() {
        bodies.push(flat_body(alloc, &function.body)?)?;
    }
    Ok(bodies)
}

#[cycle(flatten)]
fn flat_body(alloc: Global, body: &Body) -> Result<FlatBody, AllocError>
    ensures { IfOk result (λ flat. flat ≡ body.now) }
{
    let instrs = body.as_slice();
    let mut flat = Vec::with_capacity(alloc, instrs.len())?;
    for instr in instrs {
        flat.push(flat_instr(alloc, instr)?)?;
    }
    Ok(FlatBody::from(flat))
}

#[cycle(flatten)]
fn flat_instr(alloc: Global, instr: &Instr) -> Result<FlatInstr, AllocError>
    ensures { IfOk result (λ flat. Mirrors flat instr.now) }
{
    match instr {
        Instr::Plain(plain) => Ok(flat_plain(*plain)),
        Instr::Branch(branch) => flat_branch(alloc, branch),
        Instr::Call(function) => Ok(FlatInstr::Call(*function)),
        Instr::CallIndirect(type_number) => Ok(FlatInstr::CallIndirect(*type_number)),
        Instr::Unreachable => Ok(FlatInstr::Unreachable),
        Instr::Block(gives, body) => Ok(FlatInstr::Block(*gives, flat_body(alloc, body)?)),
        Instr::Loop(gives, body) => Ok(FlatInstr::Loop(*gives, flat_body(alloc, body)?)),
        Instr::If(gives, body, or) => {
            let body = flat_body(alloc, body)?;
            Ok(FlatInstr::If(*gives, body, flat_body(alloc, or)?))
        }
    }
}

fn flat_branch(alloc: Global, branch: &Branch) -> Result<FlatInstr, AllocError>
    ensures { IfOk result (λ flat. MirrorsBranch flat branch.now) }
{
    match branch {
        Branch::Br(label) => Ok(FlatInstr::Br(*label)),
        Branch::BrIf(label) => Ok(FlatInstr::BrIf(*label)),
        Branch::BrTable(labels, default) => {
            let mut copies = Vec::new(alloc);
            copies.extend_from_slice(labels.as_slice())?;
            Ok(FlatInstr::Branch(Branch::BrTable(Sequence::from(copies), *default)))
        }
        Branch::Return => Ok(FlatInstr::Branch(Branch::Return)),
    }
}
