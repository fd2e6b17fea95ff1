//! Modules as cases spell them. One function here owns each module, and the functions that show it borrow it.

use bounded_profile::verify;
use conformance_cases::{Line, bytes};
use sources::CommandFault;
use std::alloc::{AllocError, Global};
use validate::{Valid, validate};
use verified::Verified;
use wasm_ast::{Instr, Module, Plain, within_limits};
use wasm_decode::{EncodeFault, decode, encode};
use wat_asm::{assemble, print};

/// Reads the module of a text, or of bytes in hexadecimal, which begin with `00 61 73 6D`. A box holds it, so that its drop
/// is one call.
pub fn module_of(alloc: Global, text: &str) -> Result<Box<Module>, CommandFault<'static>> {
    if text.starts_with("00 61 73 6D") {
        let bytes = bytes(alloc, text)?;
        decoded(alloc, bytes.as_slice())
    } else {
        assembled(alloc, text)
    }
}

/// Decodes a module.
pub fn decoded(alloc: Global, bytes: &[u8]) -> Result<Box<Module>, CommandFault<'static>> {
    match decode(alloc, bytes) {
        Ok(module) => Ok(boxed(alloc, module)?),
        Err(fault) => Err(CommandFault::from(fault)),
    }
}

/// Assembles a module.
pub fn assembled(alloc: Global, text: &str) -> Result<Box<Module>, CommandFault<'static>> {
    match assemble(alloc, text) {
        Ok(module) => Ok(boxed(alloc, module)?),
        Err(fault) => Err(CommandFault::from(fault)),
    }
}

/// Puts a module into a box, so that its drop is one call.
pub fn boxed(alloc: Global, module: Module) -> Result<Box<Module>, AllocError> {
    Ok(Box::new(alloc, module)?)
}

/// Reads a module and validates it.
pub fn valid_of(alloc: Global, text: &str) -> Result<Valid, CommandFault<'static>> {
    let module = module_of(alloc, text)?;
    match validate(alloc, Box::into_inner(module)) {
        Ok(valid) => Ok(valid),
        Err(fault) => Err(CommandFault::from(fault)),
    }
}

/// Reads a module and verifies it.
pub fn verified_of(alloc: Global, text: &str) -> Result<Verified, CommandFault<'static>> {
    match verify(alloc, valid_of(alloc, text)?) {
        Ok(verified) => Ok(verified),
        Err(fault) => Err(CommandFault::from(fault)),
    }
}

/// Returns the instruction that a text spells, if it is one that neither branches nor calls.
pub fn plain_of(alloc: Global, text: &str) -> Result<Option<Plain>, AllocError> {
    match format!(in alloc; "(module (func {text}))") {
        Ok(text) => Ok(plain_in(alloc, text.as_str())),
        Err(error) => Err(error),
    }
}

fn plain_in(alloc: Global, text: &str) -> Option<Plain> {
    match assembled(alloc, text) {
        Ok(module) => only_plain(&module),
        Err(_) => None,
    }
}

fn only_plain(module: &Module) -> Option<Plain> {
    let [function, ..] = module.functions.as_slice() else {
        return None;
    };
    match function.body.as_slice() {
        [Instr::Plain(plain)] => Some(*plain),
        _ => None,
    }
}

/// Prints the module as text.
pub fn printed(alloc: Global, module: &Module) -> Result<String, AllocError> {
    if within_limits(module) {
        print(alloc, module)
    } else {
        String::from_str(alloc, "a module past the limits")
    }
}

/// Encodes the module in its shortest spelling.
pub fn spelling(alloc: Global, module: &Module) -> Result<Vec<u8>, EncodeFault> {
    if within_limits(module) {
        encode(alloc, module)
    } else {
        Err(EncodeFault::OverLimit)
    }
}

/// Writes the line of a fault, with the words of the fault's own crate if they are others.
pub fn tell_agreed(alloc: Global, fault: CommandFault<'static>, own: &Line, line: &mut Line) {
    let mut told = Line::new(alloc);
    told.show(&fault);
    line.append(&told);
    if told.as_str() != own.as_str() {
        line.put(", in other words ");
        line.append(own);
    }
}
