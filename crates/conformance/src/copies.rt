//! Copies, and `==`. `NAME: PART | OTHER` compares the module of `modules/whole.wat` with a copy of the module in which
//! OTHER replaces PART.

use crate::modules::assembled;
use conformance_cases::{CaseFiles, Line};
use std::alloc::{AllocError, Global};
use wasm_ast::Module;

/// Writes how the module compares with the copy that a case asks for.
pub fn answer(rt: &(impl CaseFiles + AllocGlobal), case: &str, line: &mut Line) {
    match rt.text_of("modules/whole.wat") {
        Ok(whole) => tell(rt.alloc(), whole.as_str(), case, line),
        Err(error) => line.show(&error),
    }
}

fn tell(alloc: Global, whole: &str, case: &str, line: &mut Line) {
    match compared_after(alloc, whole, case) {
        Ok(word) => line.put(word),
        Err(_) => line.cut(),
    }
}

fn compared_after(alloc: Global, whole: &str, case: &str) -> Result<&'static str, AllocError> {
    let (part, other) = case.split_once(" | ").unwrap_or((case, case));
    let Some((before, after)) = whole.split_once(part) else {
        return Ok("no such part");
    };
    let changed = format!(in alloc; "{before}{other}{after}")?;
    compared_texts(alloc, whole, changed.as_str())
}

fn compared_texts(alloc: Global, whole: &str, changed: &str) -> Result<&'static str, AllocError> {
    match assembled(alloc, whole) {
        Ok(module) => compared_with(alloc, &module, changed),
        Err(_) => Ok("no module"),
    }
}

fn compared_with(
    alloc: Global,
    module: &Module,
    changed: &str,
) -> Result<&'static str, AllocError> {
    match assembled(alloc, changed) {
        Ok(other) => compared(alloc, module, &other),
        Err(_) => Ok("no module"),
    }
}

fn compared(alloc: Global, module: &Module, other: &Module) -> Result<&'static str, AllocError> {
    if !are_bodies_copied(alloc, other)? {
        return Ok("no copy");
    }
    let copy = other.copy(alloc)?;
    Ok(copy_told(module, other, &copy))
}

fn copy_told(module: &Module, other: &Module, copy: &Module) -> &'static str {
    if copy == other {
        told(module, copy)
    } else {
        "no copy"
    }
}

fn are_bodies_copied(alloc: Global, module: &Module) -> Result<bool, AllocError> {
    for function in module.functions.as_slice() {
        if function.body.copy(alloc)? != function.body {
            return Ok(false);
        }
    }
    Ok(true)
}

fn told(left: &Module, right: &Module) -> &'static str {
    match (left == right, right != left) {
        (true, false) => "equal",
        (false, true) => "differ",
        _ => "neither",
    }
}
