//! The bounded profile. It prints `ok` and the bounds of a call of `compute`, or `no profile` with the broken rule and its
//! place, or with the cycle of functions that call each other. Other cases print the sizes of frames.

use crate::modules::{tell_agreed, valid_of};
use bounded_profile::{ProfileFault, verify};
use conformance_cases::Line;
use sources::CommandFault;
use std::alloc::Global;
use validate::Valid;
use verified::Verified;
use wasm_ast::imported_function_count;

/// Writes what a file asks of the module that a text spells, or why it is not in the profile.
pub fn answer(alloc: Global, file: &str, text: &str, line: &mut Line) {
    match valid_of(alloc, text) {
        Ok(valid) => answer_of_valid(alloc, file, valid, line),
        Err(fault) => line.show(&fault),
    }
}

fn answer_of_valid(alloc: Global, file: &str, valid: Valid, line: &mut Line) {
    match verify(alloc, valid) {
        Ok(verified) => tell(alloc, file, &verified, line),
        Err(fault) => tell_fault(alloc, fault, line),
    }
}

fn tell(alloc: Global, file: &str, verified: &Verified, line: &mut Line) {
    match file {
        "bounded_profile/cells.txt" => tell_cells(verified, line),
        "bounded_profile/reach.txt" => tell_reach(verified, line),
        _ => tell_bounds(alloc, verified, line),
    }
}

// Writes the bounds of a module and of its copy.
fn tell_bounds(alloc: Global, verified: &Verified, line: &mut Line) {
    match verified.copy(alloc) {
        Ok(copy) if are_equal(&copy, verified) => line.put("ok"),
        Ok(_) => line.put("another copy"),
        Err(_) => line.cut(),
    }
    line.add(" size ", &verified.size());
    line.add(" operands ", &verified.max_operands());
    line.add(" frames ", &verified.max_frames());
}

fn are_equal(copy: &Verified, verified: &Verified) -> bool {
    copy.module() == verified.module()
        && copy.size() == verified.size()
        && copy.max_operands() == verified.max_operands()
        && copy.max_frames() == verified.max_frames()
}

/// Writes a fault's line, and its own words if they are others.
pub fn tell_fault(alloc: Global, fault: ProfileFault, line: &mut Line) {
    let mut own = Line::new(alloc);
    own.add("no profile ", &fault);
    tell_agreed(alloc, CommandFault::from(fault), &own, line);
}

// Writes for each defined function the number of its parameters and locals, and its greatest stack height.
fn tell_cells(verified: &Verified, line: &mut Line) {
    let module = verified.module();
    let imported = imported_function_count(module.imports.as_slice());
    line.put("cells");
    for index in 0..module.functions.as_slice().len() {
        if let Ok(number) = u32::try_from(imported.saturating_add(index)) {
            let cells = verified.cells(number);
            line.add(" ", &cells.locals);
            line.add(" ", &cells.operands);
        }
    }
}

// Writes the number of reached bytes, and how many of them are below bytes 0, 2, 8 and 65,535.
fn tell_reach(verified: &Verified, line: &mut Line) {
    line.add("reach ", &verified.reach());
    line.put(" places");
    for byte in [0, 2, 8, 65_535] {
        line.add(" ", &verified.place(byte));
    }
}
