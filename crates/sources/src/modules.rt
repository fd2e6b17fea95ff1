//! Modules as text or bytes, and their verification.

ghost use Rattle.std.specs.Prelude.{◌≡◌, IfErr, IfOk, MatchResult, false, string_bytes, true};
ghost use Rattle.wasm_ast.specs.declared.module.Module.{Module as AnyModule};
ghost use Rattle.sources.specs.Modules.{IsSpelledBy, IsVerified, Loads, MeansBy};
ghost use Rattle.sources.specs.Source.{IsWant, RefusesLoad, RefusesModule, content, is_text};

use crate::fault::CommandFault;
use crate::file_contents::Source;
use bounded_profile::verify;
use std::alloc::Global;
use validate::validate;
use verified::Verified;
use wasm_ast::Module;
use wasm_decode::decode;
use wat_asm::assemble;

/// Loads the module that a text or bytes spell, if it is valid (Core 1.0, section 3) and in the bounded profile.
///
/// It fails with `Decode` or `Text`, then `Invalid`, then `Unbounded`, in this order, and with no other fault.
pub fn load<'a>(alloc: Global, source: &Source) -> Result<Verified, CommandFault<'a>>
    ensures loaded { IfOk result (Loads (is_text source.now) (content source.now)) }
    // The module that is spelled so is loaded if it is verified, unless memory runs out.
    ensures only { (m : AnyModule) → IsSpelledBy (is_text source.now) (content source.now) m
        → IsVerified m → MatchResult result (λ verified. verified ≡ m) IsWant }
    ensures refused { IfErr result (RefusesLoad (is_text source.now) (content source.now)) }
{
    let module = module_of(alloc, source)?;
    let valid = validate(alloc, module)?;
    let verified = verify(alloc, valid)?;
    Ok(verified)
}

/// Reads the module that a text or bytes spell.
pub fn module_of<'a>(alloc: Global, source: &Source) -> Result<Module, CommandFault<'a>>
    ensures found { MatchResult result (MeansBy (is_text source.now) (content source.now))
        (RefusesModule (is_text source.now) (content source.now)) }
    // The module that is spelled so is found, unless memory runs out.
    ensures only { (m : AnyModule) → IsSpelledBy (is_text source.now) (content source.now) m
        → MatchResult result (λ x. x ≡ m) IsWant }
{
    match source {
        Source::Text(text) => assembled(alloc, text.as_str()),
        Source::Binary(bytes) => decoded(alloc, bytes.as_slice()),
    }
}

fn assembled<'a>(alloc: Global, text: &str) -> Result<Module, CommandFault<'a>>
    ensures found { MatchResult result (MeansBy true text.now) (RefusesModule true text.now) }
    ensures only { (m : AnyModule) → IsSpelledBy true text.now m
        → MatchResult result (λ x. x ≡ m) IsWant }
{
    let module = assemble(alloc, text)?;
    Ok(module)
}

fn decoded<'a>(alloc: Global, bytes: &[u8]) -> Result<Module, CommandFault<'a>>
    ensures found { MatchResult result (MeansBy false bytes.now) (RefusesModule false bytes.now) }
    ensures only { (m : AnyModule) → IsSpelledBy false bytes.now m
        → MatchResult result (λ x. x ≡ m) IsWant }
{
    let module = decode(alloc, bytes)?;
    Ok(module)
}
