//! Constant expressions (Core 1.0, 3.3.7).

ghost use Rattle.std.specs.Prelude.{◌≡◌};
ghost use Rattle.verified.specs.Constants.{ConstantTyped};
ghost use Rattle.validate.specs.inside.Checks.{only_plain, plain_constant, variable_constant};
ghost use Rattle.wasm_ast.specs.declared.plain.Variable.TheVariants.{GlobalGet};
ghost use Rattle.validate.specs.inside.Findings.{Gives, Settles};

use crate::fault::{Rule, ValidFault};
use crate::spaces::IndexSpaces;
use wasm_ast::{Body, Instr, Mutability, Plain, ValType, Variable};

/// Checks that an initialiser or an offset is one constant instruction of the wanted type. It may read only the globals
/// of `spaces`; the module has `globals` in all.
pub fn check_constant(
    wanted: ValType,
    body: &Body,
    spaces: &IndexSpaces,
    globals: usize,
) -> Result<(), ValidFault>
    ensures { Settles (ConstantTyped spaces.now wanted body.now) result }
{
    let Some(plain) = only_plain(body) else {
        return Err(ValidFault::from(Rule::ConstExpr));
    };
    let found = constant_type(plain, spaces, globals)?;
    if found == wanted {
        Ok(())
    } else {
        Err(ValidFault::from(Rule::Mismatch))
    }
}

// Returns the only instruction of the body, where there is exactly one and it is plain.
fn only_plain(body: &Body) -> Option<Plain>
    ensures { result ≡ only_plain body.now }
{
    match body.as_slice() {
        [Instr::Plain(plain)] => Some(*plain),
        _ => None,
    }
}

// Returns the type of the instruction's value, where the instruction is constant.
fn constant_type(plain: Plain, spaces: &IndexSpaces, globals: usize) -> Result<ValType, ValidFault>
    ensures { Gives (plain_constant spaces.now plain) result }
{
    match plain {
        Plain::Const(value) => Ok(value.val_type()),
        Plain::Variable(Variable::GlobalGet(number)) => constant_global(number, spaces, globals),
        _ => Err(ValidFault::from(Rule::ConstExpr)),
    }
}

fn constant_global(number: u32, spaces: &IndexSpaces, globals: usize) -> Result<ValType, ValidFault>
    ensures { Gives (variable_constant spaces.now (GlobalGet number)) result }
{
    match spaces.global_at(number) {
        Some(global) => match global.mutability {
            Mutability::Constant => Ok(global.value),
            Mutability::Variable => Err(ValidFault::from(Rule::ConstExpr)),
        },
        None if (number as usize) < globals => Err(ValidFault::from(Rule::ConstExpr)),
        None => Err(ValidFault::from(Rule::Global)),
    }
}
