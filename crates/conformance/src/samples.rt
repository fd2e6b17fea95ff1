//! Whole programs in files: whether the printed text spells the same module, how long the module is in the binary format,
//! and what becomes of its bytes when they are damaged.

use crate::binary::sweep::{ALL, EVERYWHERE, Places, SOME, swept};
use crate::modules::{assembled, module_of, printed, spelling};
use anyhow::{Result, bail};
use conformance_cases::{CaseFiles, Line};
use std::alloc::Global;
use wasm_ast::Module;

/// Prints what becomes of a file's module, damaged at these places. A file whose name ends in `.wat` is text, any other is
/// binary.
pub fn show_damaged(
    rt: &(impl CaseFiles + Print + AllocGlobal),
    file: &str,
    places: Places,
) -> Result<()> {
    let mut bytes = bytes_of(rt, file)?;
    let mut line = Line::new(rt.alloc());
    swept(rt.alloc(), &mut bytes, places, ALL, &mut line);
    println!(rt; "{}", line.finish()?)?;
    Ok(())
}

fn bytes_of(rt: &(impl CaseFiles + AllocGlobal), file: &str) -> Result<Vec<u8>> {
    if !file.ends_with(".wat") {
        return rt.bytes_of(file);
    }
    let text = rt.text_of(file)?;
    match module_of(rt.alloc(), text.as_str()) {
        Ok(module) => spelled(rt.alloc(), &module),
        Err(_) => bail!("{file} is no module"),
    }
}

fn spelled(alloc: Global, module: &Module) -> Result<Vec<u8>> {
    match spelling(alloc, module) {
        Ok(bytes) => Ok(bytes),
        Err(_) => bail!("the module is not spelled"),
    }
}

/// Writes what becomes of a module's bytes, damaged at each place.
pub fn tell_damaged(alloc: Global, module: &Module, line: &mut Line) {
    match spelling(alloc, module) {
        Ok(mut bytes) => swept(alloc, &mut bytes, EVERYWHERE, SOME, line),
        Err(_) => line.put("not spelled"),
    }
}

/// Writes whether the printed text spells the module, and how long its bytes are.
pub fn tell_again(alloc: Global, module: &Module, line: &mut Line) {
    match printed(alloc, module) {
        Ok(text) => line.put(again(alloc, module, text.as_str())),
        Err(_) => line.cut(),
    }
    match spelling(alloc, module) {
        Ok(bytes) => {
            line.add(", ", &bytes.len());
            line.put(" bytes");
        }
        Err(_) => line.put(", not spelled"),
    }
}

// Returns whether the text spells the module, and whether that one is printed in the same way.
fn again(alloc: Global, module: &Module, text: &str) -> &'static str {
    match assembled(alloc, text) {
        Ok(spelled) => again_of_spelled(alloc, module, &spelled, text),
        Err(_) => "another",
    }
}

fn again_of_spelled(alloc: Global, module: &Module, spelled: &Module, text: &str) -> &'static str {
    if spelled != module {
        return "another";
    }
    match printed(alloc, spelled) {
        Ok(once_more) if once_more.as_str() == text => "same",
        _ => "another text",
    }
}
