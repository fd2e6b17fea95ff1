//! The limits of a module's size, from both sides. A case prints whether the module is within the limits, and the number of
//! its parts.

use conformance_cases::Line;
use wasm_ast::{Module, within_limits};

/// Writes the sizes of a module. Instructions inside of others are not counted.
pub fn tell_sizes(module: &Module, line: &mut Line) {
    let functions = module.functions.as_slice();
    line.put(if within_limits(module) {
        "within"
    } else {
        "past"
    });
    line.add(" the limits, types ", &module.types.as_slice().len());
    line.add(", functions ", &functions.len());
    let mut instructions = 0usize;
    for function in functions {
        instructions = instructions.saturating_add(function.body.as_slice().len());
    }
    line.add(", instructions ", &instructions);
}
