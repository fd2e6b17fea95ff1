//! Readers of the locals and bodies of functions (Core 1.0, 5.5.13).

ghost use Rattle.std.specs.Prelude.{◌≡◌, ◌++◌, replicate, OnOk};
ghost use Rattle.wasm_items.specs.inside.Reading.{Gives, GivesAndLeaves};
ghost use Rattle.wasm_decode.specs.inside.ReadingModule.{groups_at, locals_at, function_in, function_at, bodies_at, functions_at};

use std::alloc::{AllocError, Global};
use wasm_ast::{FuncType, Function, MAX_LOCALS, Sequence, ValType, parameter_count};
use wasm_items::{DecodeFault, DecodeRule, Reader, expression, val_type};

/// Reads the content of the code section: a body for each function, whose type index is given.
#[tactic(auto, unfolding(crate::specs::inside::ReadingModule::functions_at))]
pub fn code(
    alloc: Global,
    reader: &mut Reader,
    types: &[FuncType],
    type_numbers: &[u32],
) -> Result<Sequence<Function>, DecodeFault>
    ensures { GivesAndLeaves result reader.new
        (functions_at types.now type_numbers.now reader.old) }
{
    let place = reader.place();
    let count = reader.u32()? as usize;
    if count != type_numbers.len() {
        return Err(DecodeFault::Refused(DecodeRule::CountMismatch, place));
    }
    let functions = bodies(alloc, reader, types, type_numbers)?;
    Ok(Sequence::from(functions))
}

fn bodies(
    alloc: Global,
    reader: &mut Reader,
    types: &[FuncType],
    type_numbers: &[u32],
) -> Result<Vec<Function>, DecodeFault>
    ensures { Gives (λ functions. (functions.items, reader.new))
        result (bodies_at types.now type_numbers.now reader.old) }
{
    let mut functions = Vec::new(alloc);
    for type_number in type_numbers {
        let function = function(alloc, reader, types, *type_number)?;
        functions.push(function)?;
    }
    Ok(functions)
}

// Reads a size, and a function's locals and body of exactly that many bytes.
#[tactic(auto, unfolding(crate::specs::inside::ReadingModule::function_at))]
fn function(
    alloc: Global,
    reader: &mut Reader,
    types: &[FuncType],
    type_number: u32,
) -> Result<Function, DecodeFault>
    ensures { GivesAndLeaves result reader.new (function_at types.now type_number reader.old) }
{
    let inside = reader.part()?;
    let parameters = parameter_count(types, type_number);
    function_inside(alloc, inside, type_number, parameters)
}

// Reads all remaining bytes as the locals and the body of a function with `parameters` parameters.
#[tactic(auto, unfolding(crate::specs::inside::ReadingModule::function_in))]
fn function_inside(
    alloc: Global,
    mut inside: Reader,
    type_number: u32,
    parameters: usize,
) -> Result<Function, DecodeFault>
    ensures { Gives (λ f. f) result (function_in type_number parameters inside.entry) }
{
    let room = (MAX_LOCALS as usize).saturating_sub(parameters) as u32;
    let locals = locals(alloc, &mut inside, room)?;
    let body = expression(alloc, &mut inside)?;
    inside.finish()?;
    Ok(Function {
        type_number,
        locals,
        body,
    })
}

// Reads locals in groups of one type, at most `room` in all.
#[tactic(auto, unfolding(crate::specs::inside::ReadingModule::locals_at))]
fn locals(alloc: Global, reader: &mut Reader, room: u32) -> Result<Sequence<ValType>, DecodeFault>
    ensures { GivesAndLeaves result reader.new (locals_at room reader.old) }
{
    let count = reader.u32()?;
    let locals = groups(alloc, reader, count, room)?;
    Ok(Sequence::from(locals))
}

fn groups(
    alloc: Global,
    reader: &mut Reader,
    count: u32,
    mut room: u32,
) -> Result<Vec<ValType>, DecodeFault>
    ensures { Gives (λ locals. (locals.items, reader.new))
        result (groups_at count room reader.old) }
{
    let mut locals = Vec::new(alloc);
    for _ in 0..count {
        let place = reader.place();
        let len = reader.u32()?;
        if len > room {
            return Err(DecodeFault::Refused(DecodeRule::OverLimit, place));
        }
        let local = val_type(reader)?;
        push_copies(&mut locals, len, local)?;
        room -= len;
    }
    Ok(locals)
}

fn push_copies(locals: &mut Vec<ValType>, count: u32, local: ValType) -> Result<(), AllocError>
    ensures { OnOk result (locals.new.items ≡ locals.old.items ++ replicate count local) }
{
    for _ in 0..count {
        locals.push(local)?;
    }
    Ok(())
}
