//! Texts of modules (Core 1.0, section 6). It prints the module again, on one line or with `↵` for the end of each line; or
//! the fault of the text and its place.

use crate::modules::printed;
use conformance_cases::Line;
use std::alloc::Global;
use wasm_ast::Module;

/// Writes the printed module with one blank in place of the end of a line and the blanks at the beginning of the next one.
pub fn tell_on_a_line(alloc: Global, module: &Module, line: &mut Line) {
    match printed(alloc, module) {
        Ok(text) => push_lines(text.as_str(), line),
        Err(_) => line.cut(),
    }
}

fn push_lines(printed: &str, line: &mut Line) {
    for part in printed.lines() {
        line.gap(" ");
        line.put(part.trim_start());
    }
}

/// Writes the printed module with `↵` for the end of each line.
pub fn tell_layout(alloc: Global, module: &Module, line: &mut Line) {
    match printed(alloc, module) {
        Ok(text) => line.put_lines(text.as_str(), "↵"),
        Err(_) => line.cut(),
    }
}
