//! The validation of a module (Core 1.0, 3.4.10).

ghost use Rattle.std.specs.Prelude.{◌≡◌, IfOk, OnOk, IsOkUnless};
ghost use Rattle.wasm_ast.specs.Limits.{IsWithinLimits};
ghost use Rattle.verified.specs.Modules.{IsTyped};
ghost use Rattle.validate.specs.inside.Checks.{OuterTyped, InnerTyped};
ghost use Rattle.validate.specs.inside.Findings.{Settles};

use crate::exports::{check_exports, check_names, check_start};
use crate::fault::{Rule, ValidFault};
use crate::functions::{check_bodies, check_function_types};
use crate::segments::{check_data, check_elements, check_globals};
use crate::spaces::IndexSpaces;
use crate::types::{check_memories, check_tables, check_types};
use std::alloc::Global;
use verified::Valid;
use wasm_ast::{Module, within_limits};

/// Validates a module: accepts it exactly where it is typed (Core 1.0, 3.4.10) and `within_limits`.
///
/// A fault has a rule that the module breaks, and the place. The limits are checked first. Then come types, the types of
/// functions, tables and memories, globals, exports, the start function, elements, data and bodies.
///
/// Time is linear in the length of the module, except that the names of exports are sorted. Memory is linear in the
/// number of functions, globals and exports, and in the operands and labels at one place of a body.
pub fn validate(alloc: Global, module: Module) -> Result<Valid, ValidFault>
    ensures kept { IfOk result (λ valid. valid ≡ «module») }
    ensures accepted { OnOk result (IsTyped «module» × IsWithinLimits «module») }
    ensures refused { IsTyped «module» → IsWithinLimits «module»
        → IsOkUnless result ValidFault.OutOfMemory }
{
    let module = Box::new(alloc, module)?;
    check_module(alloc, &module)?;
    Ok(Valid::of(module))
}

fn check_module(alloc: Global, module: &Module) -> Result<(), ValidFault>
    ensures { Settles (IsTyped «module».now × IsWithinLimits «module».now) result }
{
    if !within_limits(module) {
        return Err(ValidFault::from(Rule::Limits));
    }
    check_types(module.types.as_slice())?;
    let mut spaces = IndexSpaces::outer(alloc, module)?;
    check_outer(module, &spaces)?;
    spaces.define_globals(alloc, module.globals.as_slice())?;
    check_inner(alloc, module, &spaces)
}

// Checks the parts that may refer only to imported globals.
fn check_outer(module: &Module, spaces: &IndexSpaces) -> Result<(), ValidFault>
    ensures { Settles (OuterTyped «module».now spaces.now) result }
{
    check_function_types(spaces)?;
    check_tables(spaces.tables.as_slice())?;
    check_memories(spaces.memories.as_slice())?;
    let globals = module.globals.as_slice();
    let count = spaces.globals.len().saturating_add(globals.len());
    check_globals(globals, spaces, count)
}

// Checks the parts that may refer to all globals.
fn check_inner(alloc: Global, module: &Module, spaces: &IndexSpaces) -> Result<(), ValidFault>
    ensures { Settles (InnerTyped «module».now spaces.now) result }
{
    check_exports(module.exports.as_slice(), spaces)?;
    check_names(alloc, module.exports.as_slice())?;
    check_start(module.start, spaces)?;
    check_elements(module.elements.as_slice(), spaces)?;
    check_data(module.data.as_slice(), spaces)?;
    check_bodies(alloc, module.functions.as_slice(), spaces)
}
