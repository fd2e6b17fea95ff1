//! The host functions. `NAME` prints the parameters and results of the function. `(import ..)` prints the function that an
//! import names.

use crate::modules::assembled;
use conformance_cases::Line;
use std::alloc::Global;
use verified::HostCall;
use wasm_ast::{Import, ImportDescription, Module, ValType};

/// Writes the parameters and results of a function, or the function that an import names.
pub fn answer(alloc: Global, case: &str, line: &mut Line) {
    if case.starts_with('(') {
        return tell_imported(alloc, case, line);
    }
    match HostCall::named("pregel", case) {
        Some(call) => tell_type(case, call, line),
        None => line.put("none"),
    }
}

// Writes the parameters and results of a function, and its own name if that is another.
fn tell_type(name: &str, call: HostCall, line: &mut Line) {
    if call.name() != name {
        line.put(call.name());
    }
    let call_type = call.type_of();
    tell_types(call_type.parameters, line);
    line.put(" -> ");
    tell_types(call_type.results, line);
}

fn tell_types(types: &[ValType], line: &mut Line) {
    let mut gap = "[";
    for one in types {
        line.put(gap);
        line.put(word_of(*one));
        gap = " ";
    }
    line.put(if types.is_empty() { "[]" } else { "]" });
}

/// Returns the name of a type.
pub fn word_of(val_type: ValType) -> &'static str {
    match val_type {
        ValType::I32 => "i32",
        ValType::I64 => "i64",
    }
}

// Writes the name of the function that the import names.
fn tell_imported(alloc: Global, import: &str, line: &mut Line) {
    match format!(in alloc; "(module {import})") {
        Ok(text) => line.put(imported_name(alloc, text.as_str())),
        Err(_) => line.cut(),
    }
}

fn imported_name(alloc: Global, text: &str) -> &'static str {
    match assembled(alloc, text) {
        Ok(module) => first_name(&module),
        Err(_) => "no module",
    }
}

fn first_name(module: &Module) -> &'static str {
    let [import, ..] = module.imports.as_slice() else {
        return "none";
    };
    match call_of(module, import) {
        Some(call) => call.name(),
        None => "none",
    }
}

fn call_of(module: &Module, import: &Import) -> Option<HostCall> {
    let ImportDescription::Function(number) = import.description else {
        return None;
    };
    let Some(func_type) = module.types.as_slice().get(number as usize) else {
        return None;
    };
    HostCall::of_import(import.module.as_str(), import.name.as_str(), func_type)
}
