//! How many cells the frame of each function needs.

ghost use Rattle.std.specs.Prelude.{◌≡◌, ◌+◌, ◌≤◌, [], length, IfOk};
ghost use Rattle.wasm_ast.specs.Limits.{IsWithinLimits, max_locals, parameters_of};
ghost use Rattle.verified.specs.Arities.{arity_table};
ghost use Rattle.verified.specs.Cells.{cells_of, cells_table};

use profile_rules::{Callees, HeightTable, StackHeight, arity_table};
use std::alloc::{AllocError, Global};
use verified::{Arity, Cells};
use wasm_ast::{Function, Module, parameter_count};

/// Counts the cells of each function that the module defines. The only error is that an allocation fails.
pub fn cells_table(alloc: Global, module: &Module) -> Result<Vec<Cells>, AllocError>
    requires { IsWithinLimits «module».now }
    ensures { IfOk result (λ table. table.items ≡ cells_table «module».now) }
{
    let arities = arity_table(alloc, module)?;
    // All heights are 0 here: a callee adds only its result to the operands of its caller.
    let heights = HeightTable::new(alloc, 0)?;
    let mut table = Vec::new(alloc);
    for function in module.functions.as_slice() {
        table.push(cells_of(module, &arities, &heights, function))?;
    }
    Ok(table)
}

fn cells_of(module: &Module, arities: &[Arity], heights: &HeightTable, function: &Function) -> Cells
    requires arities { arities.now ≡ arity_table «module».now }
    requires none { heights.now ≡ [] }
    requires within { parameters_of «module».now.types function.now.type_number
        + length function.now.locals ≤ max_locals }
    ensures { result ≡ cells_of «module».now function.now }
{
    let parameters = parameter_count(module.types.as_slice(), function.type_number);
    let operands = StackHeight::most_along(Callees { arities, heights }, &function.body);
    Cells {
        locals: (parameters + function.locals.as_slice().len()) as u32,
        operands: operands.min(u32::MAX as usize) as u32,
    }
}
