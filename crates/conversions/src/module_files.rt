//! The commands that make one file or text of a module in another: its spelling, what `fit` makes of it, its text.

ghost use Rattle.std.specs.Prelude.{◌⊎◌, IfErr, OnErr};
ghost use Rattle.wasm_ast.specs.Limits.{IsWithinLimits};
ghost use Rattle.wasm_decode.specs.Canonical.{canonical};
ghost use Rattle.sources.specs.Disk.{Stays, Tries};
ghost use Rattle.call_lines.specs.OutputLines.{IfText};
ghost use Rattle.sources.specs.Source.{RefusesModule};
ghost use Rattle.sources.specs.Reading.{IsRefusedAt};
ghost use Rattle.conversions.specs.Outputs.{PrintsLayout, PrintsLength, PrintsSpelling, PrintsFitted, PrintsFittedOf, TriesFitted, TriesFittedOf, TriesSpelling};
ghost use Rattle.conversions.specs.Causes.{IsUnassembled, IsUnfitted, IsUnspelled, RefusesFit, StaysBeforeWriting};

use crate::writing::write_told;
use fit::fit;
use sources::{CommandFault, Files, read_module};
use std::alloc::Global;
use validate::validate;
use wasm_ast::Module;
use wasm_decode::encode;
use wat_asm::print;

/// Writes the module in one file to another, in the binary format.
pub fn assemble_file<'a, F: Files>(
    alloc: Global,
    path: &'a str,
    binary: &'a str,
    files: &mut F,
) -> Result<String, CommandFault<'a>>
    ensures answered { IfText result
        (PrintsLength (F.disk files.old) (F.disk files.new) path.now binary.now) }
    ensures refused { IfErr result (IsUnassembled (F.disk files.old) path.now binary.now) }
    ensures before { IfErr result (StaysBeforeWriting (F.disk files.old) (F.disk files.new)) }
    ensures tried { OnErr result (Stays (F.disk files.old) (F.disk files.new)
        ⊎ TriesSpelling (F.disk files.old) (F.disk files.new) path.now binary.now) }
{
    let module = read_module(alloc, path, files)?;
    write_module(alloc, &module, binary, files)
}

// Writes a module to a file, in the binary format.
fn write_module<'a, F: Files>(
    alloc: Global,
    module: &Module,
    binary: &'a str,
    files: &mut F,
) -> Result<String, CommandFault<'a>>
    requires { IsWithinLimits «module».now }
    ensures answered { IfText result
        (PrintsSpelling (F.disk files.old) (F.disk files.new) «module».now binary.now) }
    ensures refused { IfErr result (IsUnspelled (F.disk files.old) binary.now «module».now) }
    ensures before { IfErr result (StaysBeforeWriting (F.disk files.old) (F.disk files.new)) }
    ensures tried { OnErr result
        (Tries binary.now (canonical «module».now) (F.disk files.old) (F.disk files.new)) }
{
    let bytes = encode(alloc, module)?;
    write_told(alloc, bytes.as_slice(), binary, files)
}

/// Writes what the module in one file is rewritten to into another, in the binary format.
pub fn fit_file<'a, F: Files>(
    alloc: Global,
    path: &'a str,
    binary: &'a str,
    files: &mut F,
) -> Result<String, CommandFault<'a>>
    ensures answered { IfText result
        (PrintsFitted (F.disk files.old) (F.disk files.new) path.now binary.now) }
    ensures refused { IfErr result (IsUnfitted (F.disk files.old) path.now binary.now) }
    ensures before { IfErr result (StaysBeforeWriting (F.disk files.old) (F.disk files.new)) }
    ensures tried { OnErr result (Stays (F.disk files.old) (F.disk files.new)
        ⊎ TriesFitted (F.disk files.old) (F.disk files.new) path.now binary.now) }
{
    let module = read_module(alloc, path, files)?;
    write_fitted(alloc, module, binary, files)
}

// Writes what a module is rewritten to into a file, in the binary format.
fn write_fitted<'a, F: Files>(
    alloc: Global,
    module: Module,
    binary: &'a str,
    files: &mut F,
) -> Result<String, CommandFault<'a>>
    ensures answered { IfText result
        (PrintsFittedOf (F.disk files.old) (F.disk files.new) «module» binary.now) }
    ensures refused { IfErr result (RefusesFit (F.disk files.old) binary.now «module») }
    ensures before { IfErr result (StaysBeforeWriting (F.disk files.old) (F.disk files.new)) }
    ensures tried { OnErr result (Stays (F.disk files.old) (F.disk files.new)
        ⊎ TriesFittedOf (F.disk files.old) (F.disk files.new) «module» binary.now) }
{
    let valid = validate(alloc, module)?;
    let fitted = fit(alloc, valid)?;
    write_module(alloc, fitted.module(), binary, files)
}

/// Prints the module in a file.
pub fn print_file<'a, F: Files>(
    alloc: Global,
    path: &'a str,
    files: &mut F,
) -> Result<String, CommandFault<'a>>
    ensures answered { IfText result (PrintsLayout (F.disk files.old) path.now) }
    ensures kept { Stays (F.disk files.old) (F.disk files.new) }
    ensures refused { IfErr result (IsRefusedAt (F.disk files.old) path.now RefusesModule) }
{
    let module = read_module(alloc, path, files)?;
    let text = print(alloc, &module)?;
    Ok(text)
}
