//! The explanation of an error.

ghost use Rattle.std.specs.Prelude.{◌≡◌, IfOk, IfSome, is_some, string_bytes};
ghost use Rattle.explanations.specs.Explanation.{Answers, Explains, is_explained};

use crate::explaining::{invalid, no_module, no_text, unbounded};
use profile_rules::ProfileFault;
use sources::{CommandFault, Source};
use std::alloc::{AllocError, Global};
use validate::ValidFault;
use wasm_decode::DecodeFault;
use wat_asm::TextFault;

/// Explains why the module in a source is refused. The text has the rule in a sentence, what usually breaks it in
/// WebAssembly text, in C and in Rust, what to write instead, and the place.
///
/// A place in a function is shown as lines of what `print` writes, each instruction after the number that the error
/// counts by. A place in a text is shown as its line, and a place in bytes as the bytes around it. No place is shown
/// where there is no source.
///
/// It returns `None` for a fault that is not the module's own, and for one that is an allocation that failed. The
/// only error is that an allocation fails.
pub fn explanation(
    alloc: Global,
    source: Option<&Source>,
    fault: &CommandFault,
) -> Result<Option<String>, AllocError>
    ensures whether { IfOk result (λ told. is_some told ≡ is_explained fault.now) }
    ensures explained { IfOk result
        (λ told. IfSome told (λ text. Explains source.entry fault.now (string_bytes text))) }
{
    answer(alloc, source, fault)
}

/// Decides whether a fault is explained: one of the module's own, except an allocation that failed.
pub fn is_explained(fault: &CommandFault) -> bool
    ensures { result ≡ is_explained fault.now }
{
    match fault {
        CommandFault::Unbounded(ProfileFault::OutOfMemory)
        | CommandFault::Invalid(ValidFault::OutOfMemory)
        | CommandFault::Text(TextFault::OutOfMemory)
        | CommandFault::Decode(DecodeFault::OutOfMemory) => false,
        CommandFault::Unbounded(_)
        | CommandFault::Invalid(_)
        | CommandFault::Text(_)
        | CommandFault::Decode(_) => true,
        _ => false,
    }
}

fn answer(
    alloc: Global,
    source: Option<&Source>,
    fault: &CommandFault,
) -> Result<Option<String>, AllocError>
    ensures { Answers source.entry fault.now result }
{
    match fault {
        CommandFault::Unbounded(fault) => unbounded(alloc, source, fault),
        CommandFault::Invalid(fault) => invalid(alloc, source, *fault),
        CommandFault::Text(fault) => no_text(alloc, source, *fault),
        CommandFault::Decode(fault) => no_module(alloc, source, *fault),
        _ => Ok(None),
    }
}
