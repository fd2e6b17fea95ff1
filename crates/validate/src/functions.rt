//! Functions (Core 1.0, 3.4.1).

ghost use Rattle.std.specs.Prelude.{◌≡◌, IfOk};
ghost use Rattle.std.specs.List.{AllByRecursion};
ghost use Rattle.verified.specs.Modules.{FunctionTyped};
ghost use Rattle.validate.specs.inside.Checks.{FunctionTypesHold, all_locals};
ghost use Rattle.validate.specs.inside.Findings.{IsRefusal, Settles};

use crate::bodies::check_body;
use crate::context::BodyContext;
use crate::fault::{Place, Rule, ValidFault};
use crate::operands::first_of;
use crate::spaces::IndexSpaces;
use std::alloc::{AllocError, Global};
use wasm_ast::{FuncType, Function, ValType};

/// Checks that the type of each function exists, imports included.
pub fn check_function_types(spaces: &IndexSpaces) -> Result<(), ValidFault>
    ensures { Settles (FunctionTypesHold spaces.now) result }
{
    for (number, type_number) in spaces.functions.iter().enumerate() {
        if *type_number as usize >= spaces.types.len() {
            return Err(no_type(u32::try_from(number).ok()));
        }
    }
    Ok(())
}

fn no_type(function: Option<u32>) -> ValidFault
    ensures { IsRefusal result }
{
    ValidFault::Breaks(
        Rule::TypeNumber,
        Place {
            function,
            instruction: None,
        },
    )
}

/// Checks the body of each function that the module defines.
pub fn check_bodies(
    alloc: Global,
    functions: &[Function],
    spaces: &IndexSpaces,
) -> Result<(), ValidFault>
    ensures { Settles (AllByRecursion (FunctionTyped spaces.now) functions.now) result }
{
    let imported = spaces.functions.len().saturating_sub(functions.len());
    for (index, function) in functions.iter().enumerate() {
        let number = u32::try_from(imported.saturating_add(index)).ok();
        check_function(alloc, number, function, spaces)?;
    }
    Ok(())
}

fn check_function(
    alloc: Global,
    number: Option<u32>,
    function: &Function,
    spaces: &IndexSpaces,
) -> Result<(), ValidFault>
    ensures { Settles (FunctionTyped spaces.now function.now) result }
{
    let Some(function_type) = spaces.type_at(function.type_number) else {
        return Err(no_type(number));
    };
    let context = BodyContext {
        spaces,
        locals: locals_of(alloc, function_type, function)?,
        outcome: first_of(function_type.results.as_slice()),
        function: number,
    };
    check_body(alloc, &context, &function.body)
}

// Lists the types of the locals, the parameters first.
fn locals_of(
    alloc: Global,
    function_type: &FuncType,
    function: &Function,
) -> Result<Vec<ValType>, AllocError>
    ensures { IfOk result (λ locals. locals.items ≡ all_locals function_type.now function.now) }
{
    let mut locals = Vec::new(alloc);
    locals.extend_from_slice(function_type.parameters.as_slice())?;
    locals.extend_from_slice(function.locals.as_slice())?;
    Ok(locals)
}
