//! Writers of functions: their locals and their bodies (Core 1.0, 5.5.13).

ghost use Rattle.std.specs.Prelude.{◌≡◌, ◌++◌, OnOk, length, flat_map};
ghost use Rattle.wasm_items.specs.Canonical.{vector};
ghost use Rattle.wasm_decode.specs.Canonical.{vector_section, function_bytes, locals_bytes, group_bytes, groups_of, groups_from};

use super::sections::write_section;
use crate::sections::CODE;
use std::alloc::AllocError;
use wasm_ast::{Function, ValType};
use wasm_items::{val_type_byte, write_byte, write_count, write_expression, write_sized};

/// Appends the code section, or nothing where there are no functions. `content` is a buffer for the section's content,
/// and `scratch` one for each body. Both are cleared first.
pub fn write_code_section(
    out: &mut Vec<u8>,
    content: &mut Vec<u8>,
    scratch: &mut Vec<u8>,
    functions: &[Function],
) -> Result<(), AllocError>
    ensures { OnOk result (out.new.items
        ≡ out.old.items ++ vector_section 10 function_bytes functions.now) }
{
    if functions.is_empty() {
        return Ok(());
    }
    content.clear();
    write_functions(content, scratch, functions)?;
    write_section(out, CODE, content)
}

fn write_functions(
    out: &mut Vec<u8>,
    scratch: &mut Vec<u8>,
    functions: &[Function],
) -> Result<(), AllocError>
    ensures { OnOk result (out.new.items ≡ out.old.items ++ vector function_bytes functions.now) }
{
    write_count(out, functions.len())?;
    for function in functions {
        write_function(out, scratch, function)?;
    }
    Ok(())
}

// Appends the size of the locals and the body, then the two.
#[tactic(auto, unfolding(crate::specs::Canonical::function_bytes))]
fn write_function(
    out: &mut Vec<u8>,
    scratch: &mut Vec<u8>,
    function: &Function,
) -> Result<(), AllocError>
    ensures { OnOk result (out.new.items ≡ out.old.items ++ function_bytes function.now) }
{
    scratch.clear();
    write_locals(scratch, function.locals.as_slice())?;
    write_expression(scratch, &function.body)?;
    write_sized(out, scratch)
}

#[tactic(auto, unfolding(crate::specs::Canonical::locals_bytes, wasm_items::specs::Canonical::vector))]
fn write_locals(out: &mut Vec<u8>, locals: &[ValType]) -> Result<(), AllocError>
    ensures { OnOk result (out.new.items ≡ out.old.items ++ locals_bytes locals.now) }
{
    match locals.split_first() {
        None => write_count(out, 0),
        Some((first, others)) => {
            write_count(out, group_count(*first, others))?;
            write_groups(out, *first, others)
        }
    }
}

// Counts the groups of neighbours of one type.
fn group_count(first: ValType, others: &[ValType]) -> usize
    ensures { result ≡ length (groups_from 1 first others.now) }
{
    let mut groups = 1;
    let mut val_type = first;
    for local in others {
        if *local == val_type {
            continue;
        }
        groups += 1;
        val_type = *local;
    }
    groups
}

fn write_groups(out: &mut Vec<u8>, first: ValType, others: &[ValType]) -> Result<(), AllocError>
    ensures { OnOk result (out.new.items
        ≡ out.old.items ++ flat_map group_bytes (groups_from 1 first others.now)) }
{
    let mut count = 1;
    let mut val_type = first;
    for local in others {
        if *local == val_type {
            count += 1;
            continue;
        }
        write_group(out, count, val_type)?;
        count = 1;
        val_type = *local;
    }
    write_group(out, count, val_type)
}

fn write_group(out: &mut Vec<u8>, count: usize, val_type: ValType) -> Result<(), AllocError>
    ensures { OnOk result (out.new.items ≡ out.old.items ++ group_bytes (count, val_type)) }
{
    write_count(out, count)?;
    write_byte(out, val_type_byte(val_type))
}
