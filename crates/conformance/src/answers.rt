//! The files of cases in their order, and the answer to a case of each.

use crate::modules::module_of;
use crate::{
    binary, calls, copies, costs, graphs, host_functions, inboxes, inputs, leb_numbers, limits,
    numeric, profile, samples, texts, validation, widths,
};
use anyhow::Result;
use bounded_profile::ProfileFault;
use conformance_cases::{Answers, CaseFiles, Line, is_case, named, show_texts, spelled};
use cost::CostFault;
use std::alloc::Global;
use std::thread::Threads;
use validate::ValidFault;
use wasm_ast::Module;

/// The files. A folder stands for all of its files that are not listed.
const FILES: [&str; 30] = [
    // values, and copies of the syntax
    "wasm_ast/numeric.txt",
    "wasm_ast/widths.txt",
    "wasm_ast/limits.txt",
    "wasm_ast/copies.txt",
    // modules as bytes and as text
    "leb/leb.txt",
    "wasm_decode",
    "wat_asm/texts.txt",
    "wat_asm/layouts.txt",
    "wat_asm/samples.txt",
    "wat_asm/samples-damaged.txt",
    // valid modules, modules in the bounded profile, and the costs of calls
    "validate/validation.txt",
    "validate/validation-in-a-block.txt",
    "validate/out-of-memory.txt",
    "bounded_profile/profile.txt",
    "bounded_profile/profile-constants.txt",
    "bounded_profile/out-of-memory.txt",
    "bounded_profile/cells.txt",
    "bounded_profile/reach.txt",
    "cost/costs.txt",
    "cost/out-of-memory.txt",
    // compute calls
    "host_calls/host-functions.txt",
    "interp",
    // graphs, inboxes, and inputs of calls
    "graph/graphs.txt",
    "graph/graph-limits.txt",
    "graph/parts.txt",
    "graph/values.txt",
    "graph/fields.txt",
    "inbox/inboxes.txt",
    "inbox/inboxes-by-part.txt",
    "sources/inputs.txt",
];

/// Shows the cases of all files.
pub fn show(rt: &(impl CaseFiles + Print + AllocGlobal + Threads + Sync)) -> Result<()> {
    for file in FILES {
        show_file(rt, file)?;
    }
    Ok(())
}

fn show_file(
    rt: &(impl CaseFiles + Print + AllocGlobal + Threads + Sync),
    file: &'static str,
) -> Result<()> {
    match file {
        "wasm_decode" => binary::show(rt),
        "interp" => calls::show(rt),
        "inbox/inboxes-by-part.txt" => show_in_threads(rt, file),
        _ => show_texts(rt, file, &FileAnswers { rt, file }),
    }
}

// Prints a line for each case of a file whose answers are made in threads.
fn show_in_threads(
    rt: &(impl CaseFiles + Print + AllocGlobal + Threads + Sync),
    file: &'static str,
) -> Result<()> {
    let text = rt.text_of(file)?;
    for line in text.lines() {
        if is_case(line) {
            show_case_in_threads(rt, line)?;
        }
    }
    Ok(())
}

fn show_case_in_threads(
    rt: &(impl Print + AllocGlobal + Threads + Sync),
    line: &str,
) -> Result<()> {
    let (name, case) = named(line);
    let case = spelled(rt.alloc(), case)?;
    let mut answer = Line::new(rt.alloc());
    inboxes::by_part::answer(rt, rt.alloc(), case.as_str(), &mut answer);
    println!(rt; "{name}: {}", answer.finish()?)?;
    Ok(())
}

// The answers to the cases of a file.
#[derive(Clone, Copy)]
struct FileAnswers<'a, R> {
    rt: &'a R,
    file: &'static str,
}

impl<R: CaseFiles + AllocGlobal> Answers for FileAnswers<'_, R> {
    fn tell(&self, case: &str, line: &mut Line) {
        let (rt, alloc) = (self.rt, self.rt.alloc());
        match self.file {
            "wasm_ast/copies.txt" => copies::answer(rt, case, line),
            "graph/parts.txt" => graphs::parts::answer(rt, case, line),
            file => answer(alloc, file, case, line),
        }
    }
}

// Writes the answer to a case that needs no other file.
fn answer(alloc: Global, file: &str, text: &str, line: &mut Line) {
    match file {
        "wasm_ast/numeric.txt" => numeric::answer(alloc, text, line),
        "wasm_ast/widths.txt" => widths::answer(alloc, text, line),
        "leb/leb.txt" => leb_numbers::answer(alloc, text, line),
        "validate/validation.txt" => validation::answer(alloc, text, line),
        "validate/validation-in-a-block.txt" => validation::answer_in_a_block(alloc, text, line),
        "cost/costs.txt" => costs::answer(alloc, text, line),
        "host_calls/host-functions.txt" => host_functions::answer(alloc, text, line),
        "graph/graphs.txt" => graphs::texts::answer(alloc, text, line),
        "graph/graph-limits.txt" => graphs::limits::answer(alloc, text, line),
        "graph/values.txt" => graphs::values::answer(alloc, text, line),
        "graph/fields.txt" => graphs::fields::answer(text, line),
        "inbox/inboxes.txt" => inboxes::answer(alloc, text, line),
        "sources/inputs.txt" => inputs::answer(alloc, text, line),
        _ => answer_of_module(alloc, file, text, line),
    }
}

// Writes the answer to a case of a file about modules, or a fault that no module has.
fn answer_of_module(alloc: Global, file: &str, text: &str, line: &mut Line) {
    match file {
        "validate/out-of-memory.txt" => {
            validation::tell_fault(alloc, ValidFault::OutOfMemory, line)
        }
        "bounded_profile/out-of-memory.txt" => {
            profile::tell_fault(alloc, ProfileFault::OutOfMemory, line)
        }
        "cost/out-of-memory.txt" => line.show(&CostFault::OutOfMemory),
        _ if file.starts_with("bounded_profile/") => profile::answer(alloc, file, text, line),
        _ => match module_of(alloc, text) {
            Ok(module) => tell_module(alloc, file, &module, line),
            Err(fault) => line.show(&fault),
        },
    }
}

fn tell_module(alloc: Global, file: &str, module: &Module, line: &mut Line) {
    match file {
        "wasm_ast/limits.txt" => limits::tell_sizes(module, line),
        "wat_asm/texts.txt" => texts::tell_on_a_line(alloc, module, line),
        "wat_asm/layouts.txt" => texts::tell_layout(alloc, module, line),
        "wat_asm/samples.txt" => samples::tell_again(alloc, module, line),
        _ => samples::tell_damaged(alloc, module, line),
    }
}
