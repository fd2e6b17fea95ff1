//! The host's functions that a module imports.

ghost use Rattle.std.specs.Prelude.{◌≡◌, Some, IfOk};
ghost use Rattle.wasm_ast.specs.Limits.{is_function};
ghost use Rattle.verified.specs.Imports.{call_of};
ghost use Rattle.verified.specs.Hosts.{host_table, call_at, AreHostCalls};
ghost use Rattle.verified.specs.Profile.{ImportsHostCalls};

use std::alloc::{AllocError, Global};
use verified::{HostCall, each_import_is_one_call};
use wasm_ast::{Import, ImportDescription, Module};

/// Finds the host's function of each imported function, by the names of the import. It is `None` where the host has
/// no such function.
pub fn host_table(alloc: Global, module: &Module) -> Result<Vec<Option<HostCall>>, AllocError>
    ensures { IfOk result (λ table. table.items ≡ host_table «module».now) }
{
    let mut table = Vec::new(alloc);
    for import in module.imports.as_slice() {
        if is_function(import) {
            table.push(HostCall::named(import.module.as_str(), import.name.as_str()))?;
        }
    }
    Ok(table)
}

/// Finds the same where each import is a function of the host.
pub fn host_calls(alloc: Global, module: &Module) -> Result<Vec<HostCall>, AllocError>
    requires { ImportsHostCalls «module».now }
    ensures { IfOk result (λ calls. AreHostCalls «module».now calls.items) }
{
    each_import_is_one_call();
    let mut calls = Vec::new(alloc);
    for import in module.imports.as_slice() {
        match HostCall::named(import.module.as_str(), import.name.as_str()) {
            Some(call) => calls.push(call)?,
            None => unreachable!(),
        }
    }
    Ok(calls)
}

fn is_function(import: &Import) -> bool
    ensures { result ≡ is_function import.now }
{
    matches!(import.description, ImportDescription::Function(_))
}

/// Returns the host's function with this number, if it is one.
pub fn call_at(table: &[Option<HostCall>], function: u32) -> Option<HostCall>
    ensures { result ≡ call_at table.now function }
{
    match table.get(function as usize) {
        Some(call) => *call,
        None => None,
    }
}
