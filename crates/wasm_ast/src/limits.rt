//! Limits on the size of a module. They are this engine's own: the standard leaves them to each implementation
//! (Core 1.0, A.2).

ghost use Rattle.std.specs.Prelude.{◌≡◌, ◌↔◌, ◌+◌, ◌≤◌, length, IsTrue};
ghost use Rattle.std.specs.List.{AllByRecursion};
ghost use Rattle.wasm_ast.specs.declared.module.Global.{Global as AnyGlobal};
ghost use Rattle.wasm_ast.specs.declared.module.Element.{Element as AnyElement};
ghost use Rattle.wasm_ast.specs.declared.module.Data.{Data as AnyData};
ghost use Rattle.wasm_ast.specs.Code.{end};
ghost use Rattle.wasm_ast.specs.View.{then_code};
ghost use Rattle.wasm_ast.specs.Limits.{max_functions, IsPlainWithin, IsBranchWithin, IsCodeWithin, IsBodyWithin, IsTypeWithin, parameters_of, IsFunctionWithin, imported_functions, IsWithinLimits};

use crate::body::{Body, Instr};
use crate::module::{Data, Element, Function, Global, Import, ImportDescription, Module};
use crate::plain::{Branch, Memory, Plain};
use crate::types::FuncType;

/// The most bytes of a module's binary form.
pub const MAX_MODULE_BYTES: usize = 1_048_576;

/// The most functions of a module, imports included.
pub const MAX_FUNCTIONS: u32 = 1024;

/// The most parameters of a function type.
pub const MAX_PARAMETERS: u32 = 1024;

/// The most results of a function type.
pub const MAX_RESULTS: u32 = 1024;

/// The most parameters and locals of a function together. A function whose type index names no type counts as one
/// without parameters.
pub const MAX_LOCALS: u32 = 1024;

/// The most labels of a `br_table`, not counting its default.
pub const MAX_LABELS: u32 = 1024;

/// The deepest nesting of blocks, loops and ifs, in bodies, initial values and offsets.
pub const MAX_NESTING: u32 = 128;

/// The largest exponent of the alignment of a load or a store.
pub const MAX_ALIGN: u32 = 31;

/// Checks all the limits except `MAX_MODULE_BYTES`, since the module has no binary form yet.
pub fn within_limits(module: &Module) -> bool
    ensures { IsTrue result ↔ IsWithinLimits «module».now }
{
    let types = module.types.as_slice();
    are_types_within(types)
        && is_count_within(module.imports.as_slice(), module.functions.as_slice())
        && are_functions_within(types, module.functions.as_slice())
        && are_globals_within(module.globals.as_slice())
        && are_elements_within(module.elements.as_slice())
        && are_segments_within(module.data.as_slice())
}

fn are_types_within(types: &[FuncType]) -> bool
    ensures { IsTrue result ↔ AllByRecursion IsTypeWithin types.now }
{
    types.iter().all(|t| {
        t.parameters.as_slice().len() <= MAX_PARAMETERS as usize
            && t.results.as_slice().len() <= MAX_RESULTS as usize
    })
}

fn is_count_within(imports: &[Import], functions: &[Function]) -> bool
    ensures { IsTrue result
        ↔ (imported_functions imports.now + length functions.now ≤ max_functions) }
{
    let imported = imported_function_count(imports);
    functions.len() <= MAX_FUNCTIONS as usize
        && imported <= MAX_FUNCTIONS as usize - functions.len()
}

/// Counts the imports that are functions.
pub fn imported_function_count(imports: &[Import]) -> usize
    ensures { result ≡ imported_functions imports.now }
{
    imports
        .iter()
        .filter(|i| matches!(i.description, ImportDescription::Function(_)))
        .count()
}

fn are_functions_within(types: &[FuncType], functions: &[Function]) -> bool
    ensures { IsTrue result ↔ AllByRecursion (IsFunctionWithin types.now) functions.now }
{
    functions.iter().all(|f| is_function_within(types, f))
}

fn is_function_within(types: &[FuncType], function: &Function) -> bool
    ensures { IsTrue result ↔ IsFunctionWithin types.now function.now }
{
    let parameters = parameter_count(types, function.type_number);
    let locals = function.locals.as_slice().len();
    locals <= MAX_LOCALS as usize
        && parameters <= MAX_LOCALS as usize - locals
        && is_body_within(&function.body)
}

/// Counts the parameters of the type with this index. It is 0 where there is no such type.
pub fn parameter_count(types: &[FuncType], type_number: u32) -> usize
    ensures { result ≡ parameters_of types.now type_number }
{
    match types.get(type_number as usize) {
        Some(t) => t.parameters.as_slice().len(),
        None => 0,
    }
}

fn are_globals_within(globals: &[Global]) -> bool
    ensures { IsTrue result
        ↔ AllByRecursion (λ (g : AnyGlobal). IsBodyWithin g.initial) globals.now }
{
    globals.iter().all(|g| is_body_within(&g.initial))
}

fn are_elements_within(elements: &[Element]) -> bool
    ensures { IsTrue result
        ↔ AllByRecursion (λ (e : AnyElement). IsBodyWithin e.offset) elements.now }
{
    elements.iter().all(|e| is_body_within(&e.offset))
}

fn are_segments_within(segments: &[Data]) -> bool
    ensures { IsTrue result
        ↔ AllByRecursion (λ (d : AnyData). IsBodyWithin d.offset) segments.now }
{
    segments.iter().all(|d| is_body_within(&d.offset))
}

fn is_body_within(body: &Body) -> bool
    ensures { IsTrue result ↔ IsBodyWithin body.now }
{
    is_code_within(body, MAX_NESTING)
}

// Checks that at most `levels` blocks, loops and ifs are inside each other, and that each instruction is within its
// limits. The recursion goes no deeper than `levels`.
#[cycle(code)]
fn is_code_within(body: &Body, levels: u32) -> bool
    ensures { IsTrue result ↔ IsCodeWithin levels body.now }
{
    for instr in body.as_slice() {
        if !is_instr_within(instr, levels) {
            return false;
        }
    }
    true
}

#[cycle(code)]
fn is_instr_within(instr: &Instr, levels: u32) -> bool
    ensures { IsTrue result ↔ IsCodeWithin levels (then_code instr.now end) }
{
    match instr {
        Instr::Plain(plain) => is_plain_within(*plain),
        Instr::Branch(branch) => is_branch_within(branch),
        Instr::Call(_) | Instr::CallIndirect(_) | Instr::Unreachable => true,
        Instr::Block(_, body) | Instr::Loop(_, body) => {
            levels >= 1 && is_code_within(body, levels - 1)
        }
        Instr::If(_, body, other) => {
            levels >= 1 && is_code_within(body, levels - 1) && is_code_within(other, levels - 1)
        }
    }
}

fn is_plain_within(plain: Plain) -> bool
    ensures { IsTrue result ↔ IsPlainWithin plain }
{
    match plain {
        Plain::Memory(Memory::Load(_, argument) | Memory::Store(_, argument)) => {
            argument.align <= MAX_ALIGN
        }
        _ => true,
    }
}

fn is_branch_within(branch: &Branch) -> bool
    ensures { IsTrue result ↔ IsBranchWithin branch.now }
{
    match branch {
        Branch::BrTable(labels, _) => labels.as_slice().len() <= MAX_LABELS as usize,
        _ => true,
    }
}
