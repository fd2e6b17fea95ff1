//! The costs of functions. For each function of a module, the imported ones first, it prints the size with calls inlined,
//! `-` if that passes the limit, and then the rank. If functions call each other in a cycle, it prints these.

ghost use Rattle.cost.specs.Ranks.{IsRanking};

use crate::modules::valid_of;
use conformance_cases::Line;
use cost::{Ranks, inlined_size, ranks};
use std::alloc::Global;
use verified::Valid;
use wasm_ast::{Module, imported_function_count};

/// Writes the sizes and ranks of the functions of the module that a text spells.
pub fn answer(alloc: Global, text: &str, line: &mut Line) {
    match valid_of(alloc, text) {
        Ok(valid) => tell_costs(alloc, &valid, line),
        Err(fault) => line.show(&fault),
    }
}

fn tell_costs(alloc: Global, valid: &Valid, line: &mut Line) {
    match ranks(alloc, valid) {
        Ok(ranks) => tell(valid, &ranks, line),
        Err(fault) => line.show(&fault),
    }
}

fn tell(valid: &Valid, ranks: &Ranks, line: &mut Line)
    requires { IsRanking valid.now ranks.now }
{
    let count = function_count(valid.module());
    line.put("sizes");
    for function in 0..count {
        match inlined_size(valid, ranks, function) {
            Some(size) => line.add(" ", &size),
            None => line.put(" -"),
        }
    }
    line.put(" ranks");
    for function in 0..count {
        line.add(" ", &ranks.rank(function));
    }
}

fn function_count(module: &Module) -> u32 {
    let imported = imported_function_count(module.imports.as_slice());
    let count = imported.saturating_add(module.functions.as_slice().len());
    u32::try_from(count).unwrap_or(0)
}
