//! The context in which instructions are checked, the same for all functions of a module.

ghost use Rattle.std.specs.Prelude.{◌≡◌, slice_get, IfOk};
ghost use Rattle.std.specs.List.{filter_map};
ghost use Rattle.std.specs.Option.{option_copied};
ghost use Rattle.verified.specs.Spaces.{function_import};
ghost use Rattle.verified.specs.Known.{takes_slot};
ghost use Rattle.profile_rules.specs.inside.Tracking.{setting_of, type_numbers, imported_call, called, host_called};

use crate::constants::asks::Asks;
use std::alloc::{AllocError, Global};
use std::marker::Model;
use verified::{HostCall, memory_bytes};
use wasm_ast::{FuncType, Function, Import, ImportDescription, Module};

/// The context in which instructions are checked.
#[derive(Drop)]
pub struct ModuleSetting<'a> {
    pub types: &'a [FuncType],
    // The type number of each function, imports first.
    functions: Vec<u32>,
    // The host call of each imported function, by its name.
    host_calls: Vec<Option<HostCall>>,
    /// The bytes of the memory. It never grows.
    pub bytes: u64,
    pub asks: Asks,
}

impl<'a> Model for ModuleSetting<'a> {
    ghost use Rattle.profile_rules.specs.inside.Tracking.{Setting};

    ghost Value = { Setting };

    ghost view = { λ a. record {
      types = a.types.now;
      functions = a.functions.items;
      host_calls = a.host_calls.items;
      bytes = a.bytes;
      asks = a.asks;
    } };
}

impl<'a> ModuleSetting<'a> {
    /// Makes the setting of a module, for the constants that `asks` selects.
    pub fn new(
        alloc: Global,
        module: &'a Module,
        asks: Asks,
    ) -> Result<ModuleSetting<'a>, AllocError>
        ensures { IfOk result (λ setting. setting ≡ setting_of asks «module».now) }
    {
        let imports = module.imports.as_slice();
        Ok(ModuleSetting {
            types: module.types.as_slice(),
            functions: function_types(alloc, imports, module.functions.as_slice())?,
            host_calls: host_calls(alloc, imports)?,
            bytes: memory_bytes(module),
            asks,
        })
    }

    /// Counts the functions, imports included.
    pub fn function_count(&self) -> usize {
        self.functions.len()
    }

    pub fn type_at(&self, number: u32) -> Option<&FuncType>
        ensures { option_copied result ≡ slice_get self.now.types number }
    {
        self.types.get(number as usize)
    }

    /// Returns the type of the function with this number.
    pub fn called(&self, number: u32) -> Option<&FuncType>
        ensures { option_copied result ≡ called self.now number }
    {
        match self.functions.get(number as usize) {
            Some(type_number) => self.type_at(*type_number),
            None => None,
        }
    }

    /// Decides whether the first parameter of the function with this number is the number of an aggregator.
    pub fn takes_slot(&self, number: u32) -> bool
        ensures { result ≡ takes_slot (host_called self.now number) }
    {
        match self.host_calls.get(number as usize) {
            Some(Some(HostCall::Aggregate | HostCall::Aggregated)) => true,
            _ => false,
        }
    }
}

// Lists the type number of each function, imports first.
fn function_types(
    alloc: Global,
    imports: &[Import],
    functions: &[Function],
) -> Result<Vec<u32>, AllocError>
    ensures { IfOk result (λ v. v.items ≡ type_numbers imports.now functions.now) }
{
    imports
        .iter()
        .filter_map(|import| imported_function(import.description))
        .chain(functions.iter().map(|function| function.type_number))
        .collect(alloc)
}

fn imported_function(description: ImportDescription) -> Option<u32>
    ensures { result ≡ function_import description }
{
    match description {
        ImportDescription::Function(type_number) => Some(type_number),
        _ => None,
    }
}

// Lists the host call of each imported function, by its name.
fn host_calls(alloc: Global, imports: &[Import]) -> Result<Vec<Option<HostCall>>, AllocError>
    ensures { IfOk result (λ v. v.items ≡ filter_map imported_call imports.now) }
{
    imports
        .iter()
        .filter_map(|import| imported_call(import))
        .collect(alloc)
}

// Returns the host call that an import names, if the import is a function.
#[tactic(auto, unfolding(crate::specs::inside::Tracking::imported_call))]
fn imported_call(import: &Import) -> Option<Option<HostCall>>
    ensures { result ≡ imported_call import.now }
{
    match import.description {
        ImportDescription::Function(_) => Some(HostCall::named(
            import.module.as_str(),
            import.name.as_str(),
        )),
        _ => None,
    }
}
