//! Places in a module's functions.

ghost use Rattle.std.specs.Prelude.{◌≡◌, [], IfOk, string_bytes};
ghost use Rattle.std.specs.Str.Lines.{lines};
ghost use Rattle.wasm_ast.specs.Limits.{IsWithinLimits};
ghost use Rattle.wat_syntax.specs.Layout.{layout};
ghost use Rattle.line_text.specs.TextBuilder.{Gains};
ghost use Rattle.call_lines.specs.OutputLines.{IfText, line};
ghost use Rattle.explanations.specs.Explanation.{ShowsLines};
ghost use Rattle.explanations.specs.inside.Shown.{texts};
ghost use Rattle.explanations.specs.inside.Told.{Sees, SeesPlace, ShowsBody, ShowsLine};

use crate::listing::{Printed, Sight, push_around};
use line_text::TextBuilder;
use sources::{Source, module_of};
use std::alloc::{AllocError, Global};
use validate::Place;
use wasm_ast::Module;
use wat_asm::print;

/// The kind of code at a place, and the text that shows it.
#[derive(Drop)]
pub struct Seen {
    pub sight: Sight,
    pub text: String,
}

/// Finds what is at a place of the module in a source, if there is one.
pub fn seen_at(alloc: Global, source: Option<&Source>, place: Place) -> Result<Seen, AllocError>
    ensures { IfOk result (SeesPlace source.entry place) }
{
    match source {
        Some(source) => seen_of(alloc, source, place),
        None => Ok(unseen(alloc, place)),
    }
}

// Finds what is at a place of the module in a source, which may have none.
fn seen_of(alloc: Global, source: &Source, place: Place) -> Result<Seen, AllocError>
    ensures { IfOk result (Sees source.now place) }
{
    match module_of(alloc, source) {
        Ok(module) => seen_in(alloc, &module, place),
        Err(_) => Ok(unseen(alloc, place)),
    }
}

// Returns what is known of a place without its module.
fn unseen(alloc: Global, place: Place) -> Seen
    ensures { string_bytes result.text ≡ [] }
{
    let sight = sight_without(place);
    let text = String::new(alloc);
    Seen { sight, text }
}

fn sight_without(place: Place) -> Sight {
    if place.instruction.is_some() {
        Sight::Other
    } else {
        Sight::Nothing
    }
}

// Finds what is at a place of a module.
fn seen_in(alloc: Global, module: &Module, place: Place) -> Result<Seen, AllocError>
    requires { IsWithinLimits «module».now }
    ensures { IfOk result (λ seen. ShowsLines (lines (layout «module».now)) place.instruction
        (string_bytes seen.text)) }
{
    let layout = print(alloc, module)?;
    seen_in_text(alloc, layout.as_str(), place)
}

// Finds what is at a place of the module with this text.
fn seen_in_text(alloc: Global, layout: &str, place: Place) -> Result<Seen, AllocError>
    ensures { IfOk result (λ seen. ShowsLines (lines layout.now) place.instruction
        (string_bytes seen.text)) }
{
    let printed = Printed::new(alloc, layout)?;
    let text = place_text(alloc, &printed, place)?;
    let sight = sight_at(&printed, place);
    Ok(Seen { sight, text })
}

fn sight_at(printed: &Printed, place: Place) -> Sight {
    let (Some(function), Some(instruction)) = (place.function, place.instruction) else {
        return Sight::Nothing;
    };
    match printed.body(function) {
        Some(body) => printed.sight(body, instruction),
        None => Sight::Other,
    }
}

// Makes the text that shows a place.
fn place_text(alloc: Global, printed: &Printed, place: Place) -> Result<String, AllocError>
    ensures { IfText result
        (ShowsLines (texts printed.now.lines.items) place.instruction) }
{
    let Some(function) = place.function else {
        return Ok(String::new(alloc));
    };
    if let Some(line) = printed.import(function) {
        return import_text(alloc, function, line);
    }
    match printed.body(function) {
        Some(body) => body_text(alloc, function, body, place.instruction),
        None => Ok(String::new(alloc)),
    }
}

// Makes the text that shows an imported function.
fn import_text(alloc: Global, function: u32, whole: &str) -> Result<String, AllocError>
    ensures { IfText result (ShowsLine whole.now) }
{
    let mut text = TextBuilder::new(alloc);
    push_import_heading(&mut text, function);
    push_whole(&mut text, whole);
    text.finish()
}

fn push_import_heading(text: &mut TextBuilder, function: u32) {
    text.put("\nFunction ");
    text.show(&function);
    text.put(" is imported:\n         ");
}

fn push_whole(text: &mut TextBuilder, whole: &str)
    ensures { Gains text.old text.new (line whole.now) }
{
    text.put(whole);
    text.put("\n");
}

// Makes the text that shows the lines of a body around an instruction.
fn body_text(
    alloc: Global,
    function: u32,
    body: &[&str],
    instruction: Option<u32>,
) -> Result<String, AllocError>
    ensures { IfText result (ShowsBody (texts body.now) instruction) }
{
    let mut text = TextBuilder::new(alloc);
    push_heading(&mut text, function, instruction);
    push_around(&mut text, body, instruction);
    text.finish()
}

// Appends the heading above the lines.
fn push_heading(text: &mut TextBuilder, function: u32, instruction: Option<u32>) {
    match instruction {
        Some(instruction) => {
            text.put("\nFunction ");
            text.show(&function);
            text.put(", around instruction ");
            text.show(&instruction);
        }
        None => {
            text.put("\nThe end of function ");
            text.show(&function);
        }
    }
    text.put(". ");
    text.put(COUNTING);
}

// Returns what the numbers of a listing are.
const COUNTING: &str = "\
Functions are counted from 0, the imported ones first; instructions from 0, in the order
of the lines that `pregel print` writes, without `end` and `else`:
";
