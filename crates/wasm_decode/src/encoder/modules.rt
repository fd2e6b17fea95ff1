//! The writer of modules (Core 1.0, 5.5.15).

ghost use Rattle.std.specs.Prelude.{◌≡◌, ◌++◌, ◌<◌, ◌≤◌, length, OnOk, IfOk, IsOkUnless};
ghost use Rattle.wasm_ast.specs.Limits.{max_module_bytes, IsWithinLimits};
ghost use Rattle.wasm_items.specs.Canonical.{table_bytes, vector};
ghost use Rattle.wasm_decode.specs.Canonical.{canonical, sections_bytes, vector_section, start_section};
ghost use Rattle.wasm_decode.specs.inside.WritingModule.{declarations_bytes, spaces_bytes, contents_bytes};

use super::fault::EncodeFault;
use super::functions::write_code_section;
use super::sections::{write_section, write_vector_section};
use crate::modules::{MAGIC, VERSION};
use crate::sections::{
    DATA, ELEMENT, EXPORT, FUNCTION, GLOBAL, IMPORT, MEMORY, START, TABLE, TYPE,
};
use leb::write_u32;
use std::alloc::{AllocError, Global};
use wasm_ast::{Limits, MAX_MODULE_BYTES, Module};
use wasm_items::{write_count, write_table_type};

/// Encodes a module in its canonical spelling, the shortest of all its spellings (Core 1.0, section
/// 5).
///
/// The canonical spelling has no custom section and no section whose vector is empty. It has one
/// group for neighbouring locals of one type, and no `else` for an empty arm. The fault is
/// `OverLimit` where it is longer than 1,048,576 bytes, and `OutOfMemory` where an allocation fails.
/// Time is linear in the size of the module.
pub fn encode(alloc: Global, module: &Module) -> Result<Vec<u8>, EncodeFault>
    requires { IsWithinLimits «module».now }
    ensures ok { IfOk result (λ bytes. bytes.items ≡ canonical «module».now) }
    ensures small { IfOk result (λ bytes. length bytes.items ≤ max_module_bytes) }
    ensures over { result ≡ Err EncodeFault.OverLimit
        → max_module_bytes < length (canonical «module».now) }
{
    let bytes = spelling(alloc, module)?;
    if bytes.len() > MAX_MODULE_BYTES {
        return Err(EncodeFault::OverLimit);
    }
    Ok(bytes)
}

// Writes all bytes of the module, however many.
#[tactic(auto, unfolding(crate::specs::Canonical::canonical))]
fn spelling(alloc: Global, module: &Module) -> Result<Vec<u8>, AllocError>
    ensures { IfOk result (λ bytes. bytes.items ≡ canonical «module».now) }
{
    let mut out = Vec::new(alloc);
    out.extend_from_slice(&MAGIC)?;
    out.extend_from_slice(&VERSION)?;
    write_sections(alloc, &mut out, module)?;
    Ok(out)
}

#[tactic(auto, unfolding(crate::specs::Canonical::sections_bytes))]
fn write_sections(alloc: Global, out: &mut Vec<u8>, module: &Module) -> Result<(), AllocError>
    ensures { OnOk result (out.new.items ≡ out.old.items ++ sections_bytes «module».now) }
{
    let mut content = Vec::new(alloc);
    write_declarations(out, &mut content, module)?;
    write_spaces(out, &mut content, module)?;
    write_contents(alloc, out, &mut content, module)
}

// Appends types, imports, the types of functions, and tables.
#[tactic(auto, unfolding(crate::specs::inside::WritingModule::declarations_bytes))]
fn write_declarations(
    out: &mut Vec<u8>,
    content: &mut Vec<u8>,
    module: &Module,
) -> Result<(), AllocError>
    ensures { OnOk result (out.new.items ≡ out.old.items ++ declarations_bytes «module».now) }
{
    write_vector_section(out, content, TYPE, module.types.as_slice())?;
    write_vector_section(out, content, IMPORT, module.imports.as_slice())?;
    write_vector_section(out, content, FUNCTION, module.functions.as_slice())?;
    write_table_section(out, content, module.tables.as_slice())
}

// Appends memories, globals, exports, and the start function.
#[tactic(auto, unfolding(crate::specs::inside::WritingModule::spaces_bytes))]
fn write_spaces(out: &mut Vec<u8>, content: &mut Vec<u8>, module: &Module) -> Result<(), AllocError>
    ensures { OnOk result (out.new.items ≡ out.old.items ++ spaces_bytes «module».now) }
{
    write_vector_section(out, content, MEMORY, module.memories.as_slice())?;
    write_vector_section(out, content, GLOBAL, module.globals.as_slice())?;
    write_vector_section(out, content, EXPORT, module.exports.as_slice())?;
    write_start_section(out, content, module.start)
}

// Appends elements, functions and data.
#[tactic(auto, unfolding(crate::specs::inside::WritingModule::contents_bytes))]
fn write_contents(
    alloc: Global,
    out: &mut Vec<u8>,
    content: &mut Vec<u8>,
    module: &Module,
) -> Result<(), AllocError>
    ensures { OnOk result (out.new.items ≡ out.old.items ++ contents_bytes «module».now) }
{
    let mut body = Vec::new(alloc);
    write_vector_section(out, content, ELEMENT, module.elements.as_slice())?;
    write_code_section(out, content, &mut body, module.functions.as_slice())?;
    write_vector_section(out, content, DATA, module.data.as_slice())
}

fn write_table_section(
    out: &mut Vec<u8>,
    content: &mut Vec<u8>,
    tables: &[Limits],
) -> Result<(), AllocError>
    ensures { OnOk result (out.new.items
        ≡ out.old.items ++ vector_section 4 table_bytes tables.now) }
{
    if tables.is_empty() {
        return Ok(());
    }
    content.clear();
    write_tables(content, tables)?;
    write_section(out, TABLE, content)
}

fn write_tables(out: &mut Vec<u8>, tables: &[Limits]) -> Result<(), AllocError>
    ensures { OnOk result (out.new.items ≡ out.old.items ++ vector table_bytes tables.now) }
{
    write_count(out, tables.len())?;
    for limits in tables {
        write_table_type(out, *limits)?;
    }
    Ok(())
}

fn write_start_section(
    out: &mut Vec<u8>,
    content: &mut Vec<u8>,
    start: Option<u32>,
) -> Result<(), AllocError>
    ensures { OnOk result (out.new.items ≡ out.old.items ++ start_section start) }
{
    let Some(function) = start else {
        return Ok(());
    };
    content.clear();
    write_u32(content, function)?;
    write_section(out, START, content)
}
