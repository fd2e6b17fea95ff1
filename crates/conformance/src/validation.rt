//! The validity of modules (Core 1.0, section 3): `ok`, or `no valid` with the broken rule and its place.

use crate::modules::{module_of, tell_agreed};
use conformance_cases::Line;
use sources::CommandFault;
use std::alloc::{AllocError, Global};
use std::mem;
use validate::{ValidFault, validate};
use wasm_ast::{Body, Function, Instr, Module, Sequence};

/// Writes whether the module that a text spells is valid.
pub fn answer(alloc: Global, text: &str, line: &mut Line) {
    match module_of(alloc, text) {
        Ok(module) => tell_validity(alloc, module, line),
        Err(fault) => line.show(&fault),
    }
}

fn tell_validity(alloc: Global, module: Box<Module>, line: &mut Line) {
    match validate(alloc, Box::into_inner(module)) {
        Ok(_) => line.put("ok"),
        Err(fault) => tell_fault(alloc, fault, line),
    }
}

/// Writes a fault's line, and its own words if they are others.
pub fn tell_fault(alloc: Global, fault: ValidFault, line: &mut Line) {
    let mut own = Line::new(alloc);
    own.add("no valid ", &fault);
    tell_agreed(alloc, CommandFault::from(fault), &own, line);
}

/// Answers for the module with each body in one block more. So blocks can be nested deeper than any text or bytes allow.
pub fn answer_in_a_block(alloc: Global, text: &str, line: &mut Line) {
    match module_of(alloc, text) {
        Ok(module) => tell_validity_in_blocks(alloc, module, line),
        Err(fault) => line.show(&fault),
    }
}

fn tell_validity_in_blocks(alloc: Global, mut module: Box<Module>, line: &mut Line) {
    match put_in_blocks(alloc, &mut module) {
        Ok(()) => tell_validity(alloc, module, line),
        Err(_) => line.cut(),
    }
}

fn put_in_blocks(alloc: Global, module: &mut Module) -> Result<(), AllocError> {
    let functions = mem::replace(&mut module.functions, Sequence::empty(alloc));
    let mut functions = functions.into_vec();
    let done = put_each_in_a_block(alloc, &mut functions);
    module.functions = Sequence::from(functions);
    done
}

fn put_each_in_a_block(alloc: Global, functions: &mut [Function]) -> Result<(), AllocError> {
    for function in functions {
        put_in_a_block(alloc, &mut function.body)?;
    }
    Ok(())
}

fn put_in_a_block(alloc: Global, body: &mut Body) -> Result<(), AllocError> {
    let whole = mem::replace(body, Body::empty(alloc));
    let mut instrs = Vec::new(alloc);
    instrs.push(Instr::Block(None, whole))?;
    *body = Body::from(instrs);
    Ok(())
}
