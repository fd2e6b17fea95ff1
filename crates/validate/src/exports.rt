//! Exports and the start function (Core 1.0, 3.4.7, 3.4.8 and 3.4.10).

ghost use Rattle.std.specs.Prelude.{◌↔◌, IsTrue, IfOk};
ghost use Rattle.verified.specs.Modules.{ExportTyped, StartTyped};
ghost use Rattle.validate.specs.inside.Checks.{ExportsTyped, HaveDistinctNames};
ghost use Rattle.validate.specs.inside.Findings.{Settles};

use crate::fault::{Place, Rule, ValidFault};
use crate::spaces::IndexSpaces;
use std::alloc::{AllocError, Global};
use std::collections::BTreeSet;
use wasm_ast::{Export, ExportDescription};

/// Checks that each export names something that exists (Core 1.0, 3.4.8).
pub fn check_exports(exports: &[Export], spaces: &IndexSpaces) -> Result<(), ValidFault>
    ensures { Settles (ExportsTyped spaces.now exports.now) result }
{
    for export in exports {
        check_export(export.description, spaces)?;
    }
    Ok(())
}

fn check_export(description: ExportDescription, spaces: &IndexSpaces) -> Result<(), ValidFault>
    ensures { Settles (ExportTyped spaces.now description) result }
{
    let (number, count, rule) = match description {
        ExportDescription::Function(number) => (number, spaces.functions.len(), Rule::Function),
        ExportDescription::Table(number) => (number, spaces.tables.len(), Rule::Table),
        ExportDescription::Memory(number) => (number, spaces.memories.len(), Rule::Memory),
        ExportDescription::Global(number) => (number, spaces.globals.len(), Rule::Global),
    };
    if (number as usize) < count {
        Ok(())
    } else {
        Err(ValidFault::from(rule))
    }
}

/// Checks that no two exports have the same name (Core 1.0, 3.4.10).
pub fn check_names(alloc: Global, exports: &[Export]) -> Result<(), ValidFault>
    ensures { Settles (HaveDistinctNames exports.now) result }
{
    if have_distinct_names(alloc, exports)? {
        Ok(())
    } else {
        Err(ValidFault::from(Rule::DuplicateExport))
    }
}

fn have_distinct_names(alloc: Global, exports: &[Export]) -> Result<bool, AllocError>
    ensures { IfOk result (λ distinct. IsTrue distinct ↔ HaveDistinctNames exports.now) }
{
    let mut seen = BTreeSet::new(alloc);
    for export in exports {
        if !seen.insert(export.name.as_str())? {
            return Ok(false);
        }
    }
    Ok(true)
}

/// Checks that the start function, if any, has no parameters and no results (Core 1.0, 3.4.7).
pub fn check_start(start: Option<u32>, spaces: &IndexSpaces) -> Result<(), ValidFault>
    ensures { Settles (StartTyped spaces.now start) result }
{
    let Some(function) = start else {
        return Ok(());
    };
    let Some(started) = spaces.function_type(function) else {
        return Err(ValidFault::from(Rule::Function));
    };
    if started.parameters.as_slice().is_empty() && started.results.as_slice().is_empty() {
        Ok(())
    } else {
        Err(ValidFault::Breaks(
            Rule::StartType,
            Place {
                function: Some(function),
                instruction: None,
            },
        ))
    }
}
