//! How many operands an instruction takes and gives (Core 1.0, 3.3).

ghost use Rattle.std.specs.Prelude.{◌≡◌, IfOk, slice_get};
ghost use Rattle.verified.specs.Arities.{plain_arity, variable_arity, memory_arity, numeric_arity, branch_arity, result_count, type_arity, arity_table, arity_at};

use std::alloc::{AllocError, Global};
use verified::Arity;
use wasm_ast::{
    BlockType, Branch, FuncType, ImportDescription, Memory, Module, Numeric, Plain, Variable,
};

/// No operands taken, and none given.
pub const NOTHING: Arity = Arity { takes: 0, gives: 0 };

/// The condition of an `if` or a `br_if`.
pub const TEST: Arity = Arity { takes: 1, gives: 0 };

pub fn plain_arity(plain: Plain) -> Arity
    ensures { result ≡ plain_arity plain }
{
    let (takes, gives) = match plain {
        Plain::Nop => (0, 0),
        Plain::Drop => (1, 0),
        Plain::Select => (3, 1),
        Plain::Const(_) => (0, 1),
        Plain::Numeric(numeric) => return numeric_arity(numeric),
        Plain::Variable(variable) => return variable_arity(variable),
        Plain::Memory(memory) => return memory_arity(memory),
    };
    Arity { takes, gives }
}

fn numeric_arity(numeric: Numeric) -> Arity
    ensures { result ≡ numeric_arity numeric }
{
    let takes = match numeric {
        Numeric::Eqz(_) | Numeric::Unary(_, _) | Numeric::Conversion(_) => 1,
        Numeric::Comparison(_, _) | Numeric::Binary(_, _) | Numeric::Division(_, _) => 2,
    };
    Arity { takes, gives: 1 }
}

fn variable_arity(variable: Variable) -> Arity
    ensures { result ≡ variable_arity variable }
{
    let (takes, gives) = match variable {
        Variable::LocalGet(_) | Variable::GlobalGet(_) => (0, 1),
        Variable::LocalSet(_) | Variable::GlobalSet(_) => (1, 0),
        Variable::LocalTee(_) => (1, 1),
    };
    Arity { takes, gives }
}

fn memory_arity(memory: Memory) -> Arity
    ensures { result ≡ memory_arity memory }
{
    let (takes, gives) = match memory {
        Memory::Load(_, _) | Memory::Grow => (1, 1),
        Memory::Store(_, _) => (2, 0),
        Memory::Size => (0, 1),
    };
    Arity { takes, gives }
}

/// Returns the arity of a branch. Nothing comes after a branch that is always taken, so it counts as taking and
/// giving nothing.
pub fn branch_arity(branch: &Branch) -> Arity
    ensures { result ≡ branch_arity branch.now }
{
    match branch {
        Branch::BrIf(_) => TEST,
        Branch::Br(_) | Branch::BrTable(_, _) | Branch::Return => NOTHING,
    }
}

/// Counts the results of a block of this type.
pub fn result_count(gives: BlockType) -> usize
    ensures { result ≡ result_count gives }
{
    match gives {
        Some(_) => 1,
        None => 0,
    }
}

/// Finds the arity of a call of each function, imports first.
pub fn arity_table(alloc: Global, module: &Module) -> Result<Vec<Arity>, AllocError>
    ensures { IfOk result (λ table. table.items ≡ arity_table «module».now) }
{
    let mut table = Vec::new(alloc);
    let types = module.types.as_slice();
    for import in module.imports.as_slice() {
        if let ImportDescription::Function(type_number) = import.description {
            table.push(arity_of_type(types, type_number))?;
        }
    }
    for function in module.functions.as_slice() {
        table.push(arity_of_type(types, function.type_number))?;
    }
    Ok(table)
}

// Returns the arity of a function of the type with this number. A type has at most one result.
fn arity_of_type(types: &[FuncType], type_number: u32) -> Arity
    ensures { result ≡ type_arity (slice_get types.now type_number) }
{
    match types.get(type_number as usize) {
        Some(func_type) => Arity {
            takes: func_type.parameters.as_slice().len(),
            gives: func_type.results.as_slice().len(),
        },
        None => NOTHING,
    }
}

/// Returns the arity of a call of the function with this number.
pub fn arity_at(table: &[Arity], function: u32) -> Arity
    ensures { result ≡ arity_at table.now function }
{
    match table.get(function as usize) {
        Some(arity) => *arity,
        None => NOTHING,
    }
}
