//! Globals and segments (Core 1.0, 3.4.4 to 3.4.6).

ghost use Rattle.std.specs.Prelude.{◌≡◌, ◌<◌, length};
ghost use Rattle.std.specs.List.{AllByRecursion};
ghost use Rattle.verified.specs.Modules.{GlobalTyped, ElementTyped, DataTyped};
ghost use Rattle.validate.specs.inside.Findings.{Settles};

use crate::constants::check_constant;
use crate::fault::{Rule, ValidFault};
use crate::spaces::IndexSpaces;
use wasm_ast::{Data, Element, Global, ValType};

/// Checks that each initialiser is constant and of its global's type (Core 1.0, 3.4.4). It may read only the globals of
/// `spaces`; the module has `count` in all.
pub fn check_globals(
    globals: &[Global],
    spaces: &IndexSpaces,
    count: usize,
) -> Result<(), ValidFault>
    ensures { Settles (AllByRecursion (GlobalTyped spaces.now) globals.now) result }
{
    for global in globals {
        check_constant(global.global_type.value, &global.initial, spaces, count)?;
    }
    Ok(())
}

/// Checks the element segments (Core 1.0, 3.4.5).
pub fn check_elements(elements: &[Element], spaces: &IndexSpaces) -> Result<(), ValidFault>
    ensures { Settles (AllByRecursion (ElementTyped spaces.now) elements.now) result }
{
    for element in elements {
        check_element(element, spaces)?;
    }
    Ok(())
}

fn check_element(element: &Element, spaces: &IndexSpaces) -> Result<(), ValidFault>
    ensures { Settles (ElementTyped spaces.now element.now) result }
{
    if element.table as usize >= spaces.tables.len() {
        return Err(ValidFault::from(Rule::Table));
    }
    check_constant(ValType::I32, &element.offset, spaces, spaces.globals.len())?;
    let count = spaces.functions.len();
    for function in element.functions.as_slice() {
        if *function as usize >= count {
            return Err(ValidFault::from(Rule::Function));
        }
    }
    Ok(())
}

/// Checks the data segments (Core 1.0, 3.4.6).
pub fn check_data(segments: &[Data], spaces: &IndexSpaces) -> Result<(), ValidFault>
    ensures { Settles (AllByRecursion (DataTyped spaces.now) segments.now) result }
{
    for segment in segments {
        check_segment(segment, spaces)?;
    }
    Ok(())
}

fn check_segment(segment: &Data, spaces: &IndexSpaces) -> Result<(), ValidFault>
    ensures { Settles (DataTyped spaces.now segment.now) result }
{
    if segment.memory as usize >= spaces.memories.len() {
        return Err(ValidFault::from(Rule::Memory));
    }
    check_constant(ValType::I32, &segment.offset, spaces, spaces.globals.len())
}
