//! Rules on the parts of a module other than its code.

ghost use Rattle.std.specs.Prelude.{◌≡◌, ◌↔◌, IfSome, IfNone, MatchResult, IsTrue};
ghost use Rattle.verified.specs.Modules.{IsTyped};
ghost use Rattle.verified.specs.Compute.{exported_compute, IsDefinedPlain, IsComputeNumber};
ghost use Rattle.profile_rules.specs.Faults.{Denies, Settles};
ghost use Rattle.verified.specs.Hosts.{IsHostImport};
ghost use Rattle.profile_rules.specs.declared.fault.ProfileRule.TheVariants.{P1, P2, P3, P4};
ghost use Rattle.verified.specs.Profile.{ImportsHostCalls, HasCompute, HasPlainType, NoStart, NoElements, plain_type};

use profile_rules::{ProfileFault, ProfileRule};
use validate::Place;
use verified::HostCall;
use wasm_ast::{
    Export, ExportDescription, FuncType, Function, Import, ImportDescription, Module,
    imported_function_count,
};

/// No function and no instruction.
pub const NOWHERE: Place = Place {
    function: None,
    instruction: None,
};

/// P1: checks that each import is a function of the host, with its type. The place is the number of the imported
/// function; an import that is no function has none.
pub fn check_imports(module: &Module) -> Result<(), ProfileFault>
    ensures { Settles P1 (ImportsHostCalls «module».now) result }
{
    for (index, import) in module.imports.as_slice().iter().enumerate() {
        match host_import(module, import) {
            Some(_) => {}
            None => {
                let place = Place {
                    function: number_of_import(import, index),
                    instruction: None,
                };
                return Err(ProfileFault::Breaks(ProfileRule::P1, place));
            }
        }
    }
    Ok(())
}

fn number_of_import(import: &Import, index: usize) -> Option<u32> {
    match import.description {
        ImportDescription::Function(_) => u32::try_from(index).ok(),
        _ => None,
    }
}

// Finds the function of the host that the import brings in, by its name and type.
fn host_import(module: &Module, import: &Import) -> Option<HostCall>
    ensures found { IfSome result (λ call. IsHostImport «module».now import.now) }
    ensures none { IfNone result (IsHostImport «module».now import.now → ⊥) }
{
    let ImportDescription::Function(number) = import.description else {
        return None;
    };
    let func_type = module.types.as_slice().get(number as usize)?;
    HostCall::of_import(import.module.as_str(), import.name.as_str(), func_type)
}

/// P2: finds the number of the exported function `compute`. The module has to define it, without parameters and
/// results.
pub fn find_compute(module: &Module) -> Result<u32, ProfileFault>
    requires { IsTyped «module».now }
    ensures { MatchResult result (IsComputeNumber «module».now)
        (λ e. Denies P2 e (HasCompute «module».now)) }
{
    match exported_compute(module.exports.as_slice()) {
        Some(number) => {
            if is_defined_plain(module, number) {
                Ok(number)
            } else {
                Err(ProfileFault::Breaks(ProfileRule::P2, NOWHERE))
            }
        }
        None => Err(ProfileFault::Breaks(ProfileRule::P2, NOWHERE)),
    }
}

// Finds the number of the function that is exported as `compute`.
fn exported_compute(exports: &[Export]) -> Option<u32>
    ensures { result ≡ exported_compute exports.now }
{
    for export in exports {
        if export.name.as_str() == "compute" {
            return match export.description {
                ExportDescription::Function(number) => Some(number),
                _ => None,
            };
        }
    }
    None
}

// Decides whether the module defines the function, without parameters and results.
fn is_defined_plain(module: &Module, number: u32) -> bool
    ensures { IsTrue result ↔ IsDefinedPlain «module».now number }
{
    let imported = imported_function_count(module.imports.as_slice());
    let number = number as usize;
    if number < imported {
        return false;
    }
    match module.functions.as_slice().get(number - imported) {
        Some(function) => is_of_plain_type(module, function),
        None => false,
    }
}

fn is_of_plain_type(module: &Module, function: &Function) -> bool
    ensures { IsTrue result ↔ HasPlainType «module».now function.now }
{
    match module.types.as_slice().get(function.type_number as usize) {
        Some(func_type) => is_plain(func_type),
        None => false,
    }
}

fn is_plain(func_type: &FuncType) -> bool
    ensures { IsTrue result ↔ (func_type.now ≡ plain_type) }
{
    func_type.parameters.as_slice().is_empty() && func_type.results.as_slice().is_empty()
}

/// P3: checks that there is no start function. The place is its number.
pub fn check_start(module: &Module) -> Result<(), ProfileFault>
    ensures { Settles P3 (NoStart «module».now) result }
{
    match module.start {
        None => Ok(()),
        Some(function) => {
            let place = Place {
                function: Some(function),
                instruction: None,
            };
            Err(ProfileFault::Breaks(ProfileRule::P3, place))
        }
    }
}

/// P4: checks that there are no elements.
pub fn check_elements(module: &Module) -> Result<(), ProfileFault>
    ensures { Settles P4 (NoElements «module».now) result }
{
    if module.elements.as_slice().is_empty() {
        Ok(())
    } else {
        Err(ProfileFault::Breaks(ProfileRule::P4, NOWHERE))
    }
}
