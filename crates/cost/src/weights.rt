//! The units of a module's instructions.

ghost use Rattle.std.specs.Prelude.{◌≡◌, ◌≤◌, IfOk};
ghost use Rattle.wasm_ast.specs.Limits.{is_function};
ghost use Rattle.verified.specs.Weights.{plain_units, branch_units, host_units, call_units, units_of, imported_units, units_at};

use std::alloc::{AllocError, Global};
use std::marker::Model;
use verified::{HostCall, branch_units, host_units, plain_units};
use wasm_ast::{Import, ImportDescription, Instr, Module};

/// The units of a module's instructions. Its model is the module.
#[derive(Drop)]
pub struct Weights<'a> {
    module: &'a Module,
    // the units of a call of each imported function
    imported: Vec<u32>,
}

impl<'a> Model for Weights<'a> {
    ghost use Rattle.std.specs.Prelude.{◌≡◌};
    ghost use Rattle.wasm_ast.specs.declared.module.Module.{Module as AnyModule};
    ghost use Rattle.wasm_ast.specs.contracts.module.Module as module_type;
    ghost use Rattle.verified.specs.Weights.{imported_units};

    ghost Value = { AnyModule };

    ghost coded = { module_type.the_row.coded };

    ghost view = { λ a. a.«module».now };

    ghost invariant = { λ a. a.imported.items ≡ imported_units a.«module».now.imports };
}

impl<'a> Weights<'a> {
    /// Looks up the units of the module's imports. It fails only where an allocation fails.
    pub fn of(alloc: Global, module: &'a Module) -> Result<Weights<'a>, AllocError>
        ensures { IfOk result (λ weights. weights ≡ «module».now) }
    {
        Ok(Weights {
            module,
            imported: imported_units(alloc, module.imports.as_slice())?,
        })
    }

    /// Returns the units of the instruction, without those of any instructions inside it.
    pub fn units(&self, instr: &Instr) -> u32
        ensures { result ≡ units_of self.now instr.now }
    {
        match instr {
            Instr::Plain(plain) => plain_units(*plain),
            Instr::Branch(branch) => branch_units(branch),
            Instr::Call(function) => self.call(*function),
            _ => 1,
        }
    }

    fn call(&self, function: u32) -> u32
        ensures { result ≡ call_units self.now function }
    {
        units_at(&self.imported, function)
    }
}

// Returns the units of a call of the function with this index, given those of the imported functions.
fn units_at(imported: &[u32], function: u32) -> u32
    ensures { result ≡ units_at imported.now function }
{
    match imported.get(function as usize) {
        Some(units) => *units,
        None => host_units(None),
    }
}

fn imported_units(alloc: Global, imports: &[Import]) -> Result<Vec<u32>, AllocError>
    ensures { IfOk result (λ units. units.items ≡ imported_units imports.now) }
{
    let mut units = Vec::new(alloc);
    for import in imports {
        if is_function(import) {
            let call = HostCall::named(import.module.as_str(), import.name.as_str());
            units.push(host_units(call))?;
        }
    }
    Ok(units)
}

/// Reports whether the import is a function.
pub fn is_function(import: &Import) -> bool
    ensures { result ≡ is_function import.now }
{
    matches!(import.description, ImportDescription::Function(_))
}
