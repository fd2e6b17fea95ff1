//! The printer: the text of a module.

ghost use Rattle.std.specs.Prelude.{◌≡◌, IfOk, string_bytes};
ghost use Rattle.wasm_ast.specs.Limits.{IsWithinLimits};
ghost use Rattle.wat_syntax.specs.inside.Writing.{Writes};
ghost use Rattle.wat_syntax.specs.Layout.{definitions, layout, pieces, uses};

use line_text::TextBuilder;
use std::alloc::{AllocError, Global};
use wasm_ast::{Data, Element, Export, FuncType, Function, Global as ModuleGlobal, Import, Module};
use wat_syntax::{
    Gap, Keyword, Memory, Table, write_closing_line, write_each, write_opening, write_start,
};

/// Prints the module in the text format (Core 1.0, 6.6).
///
/// The order is types, imports, functions, tables, memories, globals, exports, the start function, elements and data.
/// Each field is on a line, indented by two blanks. Each instruction of a function is on a line, indented by four blanks
/// and two more for each block around it. References are indices, and constants are signed decimals. The module must be
/// within the limits, but need not be valid. It fails only where an allocation fails.
pub fn print(alloc: Global, module: &Module) -> Result<String, AllocError>
    requires { IsWithinLimits «module».now }
    ensures { IfOk result (λ text. string_bytes text ≡ layout «module».now) }
{
    let mut text = TextBuilder::new(alloc);
    write_module(&mut text, module);
    text.put("\n");
    text.finish()
}

fn write_module(text: &mut TextBuilder, module: &Module)
    requires { IsWithinLimits «module».now }
    ensures { Writes text.old text.new (pieces «module».now) }
{
    write_opening(text, Gap::Nothing, Keyword::Module);
    write_definitions(text, module);
    write_uses(text, module);
    write_closing_line(text, 0);
}

// Writes the types, the imports and the definitions of the module.
#[tactic(auto, using(wat_syntax::proofs::Codes::bodies_within, wat_syntax::proofs::Codes::all_held))]
fn write_definitions(text: &mut TextBuilder, module: &Module)
    requires { IsWithinLimits «module».now }
    ensures { Writes text.old text.new (definitions «module».now) }
{
    write_each::<FuncType>(text, module.types.as_slice());
    write_each::<Import>(text, module.imports.as_slice());
    write_each::<Function>(text, module.functions.as_slice());
    write_each::<Table>(text, module.tables.as_slice());
    write_each::<Memory>(text, module.memories.as_slice());
    write_each::<ModuleGlobal>(text, module.globals.as_slice());
}

// Writes the exports, the start function and the segments of the module.
#[tactic(auto, using(wat_syntax::proofs::Codes::all_held))]
fn write_uses(text: &mut TextBuilder, module: &Module)
    requires { IsWithinLimits «module».now }
    ensures { Writes text.old text.new (uses «module».now) }
{
    write_each::<Export>(text, module.exports.as_slice());
    write_start(text, module.start);
    write_each::<Element>(text, module.elements.as_slice());
    write_each::<Data>(text, module.data.as_slice());
}
