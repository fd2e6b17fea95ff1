//! The printer of a module's fields.

ghost use Rattle.std.specs.Prelude.{◌≡◌, ◌∷◌, ℕ};
ghost use Rattle.wasm_ast.specs.Limits.{IsBodyWithin};
ghost use Rattle.wat_syntax.specs.inside.Writing.{Writes};
ghost use Rattle.wat_syntax.specs.Instructions.{code, type_word};
ghost use Rattle.wat_syntax.specs.Layout.{begins, data_field, element_field, export_description, export_field, function_field, global_field, global_type, import_description, import_field, limits, maximum_part, memory_field, number_part, offset, start_field, table_field, type_field, type_group};

use crate::instructions::{write_code, write_type_use};
use crate::keyword::Keyword;
use crate::pieces::{
    Gap, Part, write_closing, write_closing_line, write_count, write_each, write_keyword,
    write_number_in, write_opening, write_string,
};
use line_text::TextBuilder;
use wasm_ast::{
    Body, Data, Element, Export, ExportDescription, FuncType, Function, Global, GlobalType, Import,
    ImportDescription, Limits, MAX_NESTING, Mutability, ValType,
};

// ---- parts of fields

/// Writes a type with a blank before it.
impl Part for ValType {
    type Of = ValType;

    ghost pieces = { type_word };

    fn write(text: &mut TextBuilder, word: &ValType) {
        write_keyword(text, Gap::Space, Keyword::Type(*word));
    }
}

// Writes a keyword and types in parentheses, as `(param i32 i64)`, or nothing where there are no types.
#[tactic(auto, using(crate::proofs::Codes::all_held))]
fn write_type_group(text: &mut TextBuilder, keyword: Keyword, types: &[ValType])
    ensures { Writes text.old text.new (type_group keyword types.now) }
{
    if types.is_empty() {
        return;
    }
    write_opening(text, Gap::Space, keyword);
    write_each::<ValType>(text, types);
    write_closing(text);
}

fn write_limits(text: &mut TextBuilder, given: Limits)
    ensures { Writes text.old text.new (limits given) }
{
    write_count(text, given.minimum);
    if let Some(maximum) = given.maximum {
        write_count(text, maximum);
    }
}

fn write_global_type(text: &mut TextBuilder, global: GlobalType)
    ensures { Writes text.old text.new (global_type global) }
{
    match global.mutability {
        Mutability::Constant => write_keyword(text, Gap::Space, Keyword::Type(global.value)),
        Mutability::Variable => {
            write_opening(text, Gap::Space, Keyword::Mut);
            write_keyword(text, Gap::Space, Keyword::Type(global.value));
            write_closing(text);
        }
    }
}

// Writes the index of a segment's table or memory, where it is not 0.
fn write_number_part(text: &mut TextBuilder, n: u32)
    ensures { Writes text.old text.new (number_part n) }
{
    if n != 0 {
        write_count(text, n);
    }
}

fn write_offset(text: &mut TextBuilder, body: &Body)
    requires { IsBodyWithin body.now }
    ensures { Writes text.old text.new (offset body.now) }
{
    write_opening(text, Gap::Space, Keyword::Offset);
    write_code(text, Gap::Space, MAX_NESTING, body);
    write_closing(text);
}

// ---- fields

// Writes the start of a field, on a line of its own.
fn write_beginning(text: &mut TextBuilder, keyword: Keyword)
    ensures { Writes text.old text.new (begins keyword) }
{
    write_opening(text, Gap::Line(1), keyword);
}

/// Writes a type (Core 1.0, 6.6.2).
impl Part for FuncType {
    type Of = FuncType;

    ghost pieces = { type_field };

    fn write(text: &mut TextBuilder, field: &FuncType) {
        write_beginning(text, Keyword::FuncType);
        write_opening(text, Gap::Space, Keyword::Func);
        write_type_group(text, Keyword::Param, field.parameters.as_slice());
        write_type_group(text, Keyword::Result, field.results.as_slice());
        write_closing(text);
        write_closing(text);
    }
}

fn write_import_description(text: &mut TextBuilder, description: ImportDescription)
    ensures { Writes text.old text.new (import_description description) }
{
    match description {
        ImportDescription::Function(type_number) => {
            write_opening(text, Gap::Space, Keyword::Func);
            write_type_use(text, type_number);
            write_closing(text);
        }
        ImportDescription::Table(limits) => {
            write_opening(text, Gap::Space, Keyword::Table);
            write_limits(text, limits);
            write_keyword(text, Gap::Space, Keyword::Funcref);
            write_closing(text);
        }
        ImportDescription::Memory(limits) => {
            write_opening(text, Gap::Space, Keyword::Memory);
            write_limits(text, limits);
            write_closing(text);
        }
        ImportDescription::Global(global) => {
            write_opening(text, Gap::Space, Keyword::Global);
            write_global_type(text, global);
            write_closing(text);
        }
    }
}

/// Writes an import (Core 1.0, 6.6.4).
impl Part for Import {
    type Of = Import;

    ghost pieces = { import_field };

    fn write(text: &mut TextBuilder, field: &Import) {
        write_beginning(text, Keyword::Import);
        write_string(text, field.module.as_str().as_bytes());
        write_string(text, field.name.as_str().as_bytes());
        write_import_description(text, field.description);
        write_closing(text);
    }
}

/// Writes a function (Core 1.0, 6.6.5).
impl Part for Function {
    type Of = Function;

    ghost pieces = { function_field };

    ghost IsWithin = { λ f. IsBodyWithin f.body };

    fn write(text: &mut TextBuilder, field: &Function) {
        write_beginning(text, Keyword::Func);
        write_type_use(text, field.type_number);
        write_type_group(text, Keyword::Local, field.locals.as_slice());
        write_code(text, Gap::Line(2), MAX_NESTING, &field.body);
        write_closing_line(text, 1);
    }
}

/// A table, which is printed by its limits.
pub struct Table;

/// Writes a table (Core 1.0, 6.6.6).
impl Part for Table {
    type Of = Limits;

    ghost pieces = { table_field };

    fn write(text: &mut TextBuilder, field: &Limits) {
        write_beginning(text, Keyword::Table);
        write_limits(text, *field);
        write_keyword(text, Gap::Space, Keyword::Funcref);
        write_closing(text);
    }
}

/// A memory, which is printed by its limits.
pub struct Memory;

/// Writes a memory (Core 1.0, 6.6.7).
impl Part for Memory {
    type Of = Limits;

    ghost pieces = { memory_field };

    fn write(text: &mut TextBuilder, field: &Limits) {
        write_beginning(text, Keyword::Memory);
        write_limits(text, *field);
        write_closing(text);
    }
}

/// Writes a global (Core 1.0, 6.6.8).
impl Part for Global {
    type Of = Global;

    ghost pieces = { global_field };

    ghost IsWithin = { λ g. IsBodyWithin g.initial };

    fn write(text: &mut TextBuilder, field: &Global) {
        write_beginning(text, Keyword::Global);
        write_global_type(text, field.global_type);
        write_code(text, Gap::Space, MAX_NESTING, &field.initial);
        write_closing(text);
    }
}

fn write_export_description(text: &mut TextBuilder, description: ExportDescription)
    ensures { Writes text.old text.new (export_description description) }
{
    match description {
        ExportDescription::Function(n) => write_number_in(text, Gap::Space, Keyword::Func, n),
        ExportDescription::Table(n) => write_number_in(text, Gap::Space, Keyword::Table, n),
        ExportDescription::Memory(n) => write_number_in(text, Gap::Space, Keyword::Memory, n),
        ExportDescription::Global(n) => write_number_in(text, Gap::Space, Keyword::Global, n),
    }
}

/// Writes an export (Core 1.0, 6.6.9).
impl Part for Export {
    type Of = Export;

    ghost pieces = { export_field };

    fn write(text: &mut TextBuilder, field: &Export) {
        write_beginning(text, Keyword::Export);
        write_string(text, field.name.as_str().as_bytes());
        write_export_description(text, field.description);
        write_closing(text);
    }
}

/// Writes the start function, or nothing where the module has none (Core 1.0, 6.6.10).
pub fn write_start(text: &mut TextBuilder, start: Option<u32>)
    ensures { Writes text.old text.new (start_field start) }
{
    if let Some(n) = start {
        write_number_in(text, Gap::Line(1), Keyword::Start, n);
    }
}

/// Writes an element segment (Core 1.0, 6.6.11).
impl Part for Element {
    type Of = Element;

    ghost pieces = { element_field };

    ghost IsWithin = { λ e. IsBodyWithin e.offset };

    #[tactic(auto, using(crate::proofs::Codes::all_held))]
    fn write(text: &mut TextBuilder, field: &Element) {
        write_beginning(text, Keyword::Elem);
        write_number_part(text, field.table);
        write_offset(text, &field.offset);
        write_each::<u32>(text, field.functions.as_slice());
        write_closing(text);
    }
}

/// Writes a data segment (Core 1.0, 6.6.12).
impl Part for Data {
    type Of = Data;

    ghost pieces = { data_field };

    ghost IsWithin = { λ d. IsBodyWithin d.offset };

    fn write(text: &mut TextBuilder, field: &Data) {
        write_beginning(text, Keyword::Data);
        write_number_part(text, field.memory);
        write_offset(text, &field.offset);
        write_string(text, field.bytes.as_slice());
        write_closing(text);
    }
}
