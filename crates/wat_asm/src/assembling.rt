//! The assembler: a module from its text.

ghost use Rattle.std.specs.Prelude.{◌≡◌, ℕ, true, Some, IfOk, MatchResult};
ghost use Rattle.wasm_ast.specs.declared.module.Module.{Module as AnyModule};
ghost use Rattle.wasm_ast.specs.Limits.{IsWithinLimits};
ghost use Rattle.wasm_ast.specs.Representable.{IsRepresentable};
ghost use Rattle.wat_syntax.specs.declared.fault.TextFault.TheVariants.{OutOfMemory};
ghost use Rattle.wat_syntax.specs.inside.Follows.{IsMemory};
ghost use Rattle.wat_syntax.specs.Layout.{layout};
ghost use Rattle.wat_syntax.specs.inside.ReadingModule.{module_at, nameless};
ghost use Rattle.wat_syntax.specs.inside.Tokens.{toks_of};

use std::alloc::Global;
use wasm_ast::Module;
use wat_syntax::{Failure, FaultKind, Position, TextFault, Tokens, lex, parse};

/// Assembles the module that this text spells (Core 1.0, section 6).
///
/// Instructions may be plain or folded, and names may replace indices. At most 512 parentheses may be inside each other.
/// A fault has its position in the text. A module beyond the limits is `OverLimit`, but no module is validated. The text
/// that `print` writes of a module is assembled to that module again, unless memory runs out.
pub fn assemble(alloc: Global, text: &str) -> Result<Module, TextFault>
    ensures within { IfOk result IsWithinLimits }
    ensures printed { (m : AnyModule) → IsWithinLimits m → IsRepresentable m → text.now ≡ layout m
        → MatchResult result (λ x. x ≡ m) (λ fault. fault ≡ OutOfMemory) }
{
    match lex(alloc, text) {
        Ok(tokens) => parsed(alloc, text, tokens),
        Err(failure) => Err(lexed_fault(text, failure)),
    }
}

// Parses the module that these tokens of the text spell.
fn parsed(alloc: Global, text: &str, tokens: Tokens) -> Result<Module, TextFault>
    ensures within { IfOk result IsWithinLimits }
    ensures again { (n : ℕ) (m : AnyModule) → nameless tokens.tokens.items ≡ true
        → module_at n (toks_of text.now tokens.tokens.items) ≡ Some m → IsWithinLimits m
        → MatchResult result (λ x. x ≡ m) (λ fault. fault ≡ OutOfMemory) }
{
    match parse(alloc, text.as_bytes(), tokens.tokens.as_slice()) {
        Ok(module) => Ok(module),
        Err(failure) => Err(parsed_fault(text, &tokens, failure)),
    }
}

// Returns the fault of a failure that has the number of bytes that remain.
fn lexed_fault(text: &str, failure: Failure) -> TextFault
    ensures { IsMemory failure → result ≡ OutOfMemory }
{
    match failure {
        Failure::OutOfMemory => TextFault::OutOfMemory,
        Failure::Fault(what, left) => fault(text, what, text.len().saturating_sub(left)),
    }
}

// Returns the fault of a failure that has the number of tokens that remain.
fn parsed_fault(text: &str, tokens: &Tokens, failure: Failure) -> TextFault
    ensures { IsMemory failure → result ≡ OutOfMemory }
{
    match failure {
        Failure::OutOfMemory => TextFault::OutOfMemory,
        Failure::Fault(what, left) => {
            let index = tokens.tokens.len().saturating_sub(left);
            match tokens.places.as_slice().get(index) {
                Some(place) => fault(text, what, *place),
                None => fault(text, what, text.len()),
            }
        }
    }
}

// Returns the fault of this kind at a position of the text.
fn fault(text: &str, what: FaultKind, place: usize) -> TextFault {
    let position = position(text.as_bytes(), place);
    match what {
        FaultKind::Lex => TextFault::Lex(position),
        FaultKind::Syntax => TextFault::Syntax(position),
        FaultKind::UnknownName => TextFault::UnknownName(position),
        FaultKind::DuplicateName => TextFault::DuplicateName(position),
        FaultKind::NumberRange => TextFault::NumberRange(position),
        FaultKind::TypeUse => TextFault::TypeUse(position),
        FaultKind::Unsupported => TextFault::Unsupported(position),
        FaultKind::OverLimit => TextFault::OverLimit(position),
    }
}

// Reports whether a character in UTF-8 starts with this byte.
fn begins_character(b: u8) -> bool {
    b & 0xc0 != 0x80
}

// Returns the line and the column of the byte at this position.
fn position(text: &[u8], place: usize) -> Position {
    let mut line = 1usize;
    let mut column = 1usize;
    for b in &text[..place.min(text.len())] {
        if *b == b'\n' {
            line = line.saturating_add(1);
            column = 1;
        } else if begins_character(*b) {
            column = column.saturating_add(1);
        }
    }
    Position { line, column }
}
