//! The reader of modules (Core 1.0, 6.6.13).

ghost use Rattle.std.specs.Prelude.{◌≡◌, ℕ, true, Some, IfOk};
ghost use Rattle.wasm_ast.specs.declared.module.Module.{Module as AnyModule};
ghost use Rattle.wasm_ast.specs.Limits.{IsWithinLimits};
ghost use Rattle.wat_syntax.specs.inside.Follows.{Follows, IsRead};
ghost use Rattle.wat_syntax.specs.inside.Parsing.{DraftsAny, Passes};
ghost use Rattle.wat_syntax.specs.inside.ReadingModule.{goes_on_with_type, is_empty, module_at, module_open_at, nameless, only_at, type_step, whole_at};
ghost use Rattle.wat_syntax.specs.inside.Tokens.{toks_of};

use crate::fault::{Failure, FaultKind};
use crate::keyword::Keyword;
use crate::lexer::Token;
use crate::parser::draft::Draft;
use crate::parser::fields::Field;
use crate::parser::items::{Item, repeated};
use crate::parser::names::{Names, declared};
use crate::parser::tokens::Parser;
use std::alloc::Global;
use wasm_ast::{Module, within_limits};

/// Parses the module that the tokens of this text spell. A failure has the number of tokens that remain at its place.
///
/// `source` has the bytes of the text, from which strings are read. Each kind of fault comes where the `TextFault` of its
/// name says. A module beyond the limits is `OverLimit`, but no module is validated.
pub fn parse(alloc: Global, source: &[u8], tokens: &[Token]) -> Result<Module, Failure>
    ensures within { IfOk result (λ m. IsWithinLimits m) }
    ensures again { (n : ℕ) (m : AnyModule) → nameless tokens.now ≡ true
        → module_at n (toks_of source.now tokens.now) ≡ Some m
        → IsWithinLimits m → IsRead (λ x. x) result m }
{
    let names = declared(alloc, tokens)?;
    limited(alloc, source, &names, tokens)
}

// Reads the module, and checks that it is within the limits.
fn limited(alloc: Global, source: &[u8], names: &Names, tokens: &[Token]) -> Result<Module, Failure>
    ensures within { IfOk result (λ m. IsWithinLimits m) }
    ensures again { (n : ℕ) (m : AnyModule) → module_at n (toks_of source.now tokens.now) ≡ Some m
        → IsWithinLimits m → IsRead (λ x. x) result m }
{
    let module = module(alloc, source, names, tokens)?;
    if within_limits(&module) {
        Ok(module)
    } else {
        Err(Failure::Fault(FaultKind::OverLimit, tokens.len()))
    }
}

// Reads the module, whether it is within the limits or not.
fn module(alloc: Global, source: &[u8], names: &Names, tokens: &[Token]) -> Result<Module, Failure>
    ensures { (n : ℕ) → Follows (λ m. m) result (module_at n (toks_of source.now tokens.now)) }
{
    let mut parser = Parser::new(alloc, source, names, tokens);
    let mut draft = Draft::new(alloc);
    only(&mut parser, &mut draft)?;
    Ok(draft.into_module(parser.types))
}

// Reads a module's fields between its parentheses. No token may follow.
#[tactic(auto, unfolding(crate::specs::inside::ReadingModule::only_at))]
fn only(parser: &mut Parser<'_>, draft: &mut Draft) -> Result<(), Failure>
    ensures again { DraftsAny draft.old draft.new only_at parser.old parser.new result }
{
    whole(parser, draft)?;
    if is_at_end(parser) {
        Ok(())
    } else {
        Err(parser.unexpected())
    }
}

// Reads a module's fields between its parentheses.
#[tactic(auto, unfolding(crate::specs::inside::ReadingModule::whole_at, crate::specs::inside::ReadingModule::types_at, crate::specs::inside::ReadingModule::fields_at))]
fn whole(parser: &mut Parser<'_>, draft: &mut Draft) -> Result<(), Failure>
    ensures again { DraftsAny draft.old draft.new whole_at parser.old parser.new result }
{
    open_module(parser)?;
    repeated(&EarlyType, parser, &mut ())?;
    repeated(&Field, parser, draft)?;
    parser.close()
}

fn is_at_end(parser: &Parser<'_>) -> bool
    ensures { result ≡ is_empty parser.now.0 }
{
    parser.rest.is_empty()
}

#[tactic(auto, unfolding(crate::specs::inside::ReadingModule::module_open_at))]
fn open_module(parser: &mut Parser<'_>) -> Result<(), Failure>
    ensures again { Passes module_open_at parser.old parser.new result }
{
    match parser.rest {
        [Token::Open, Token::Key(Keyword::Module), rest @ ..] => {
            parser.rest = rest;
            let _name = parser.name();
            Ok(())
        }
        _ => Err(parser.unexpected()),
    }
}

// A type that comes before all other fields.
struct EarlyType;

impl Item for EarlyType {
    type Made = ();

    ghost Seen = { Unit {0} };

    ghost seen = { λ made. made };

    ghost first = { λ _. goes_on_with_type };

    ghost step = { λ _. type_step };

    fn is_next(&self, parser: &Parser<'_>) -> bool {
        parser.is_type()
    }

    #[tactic(auto, unfolding(crate::specs::inside::ReadingModule::type_step))]
    fn add(&self, parser: &mut Parser<'_>, _made: &mut ()) -> Result<(), Failure> {
        parser.enter();
        let t = parser.defined_type()?;
        parser.types.push(t)?;
        parser.close()
    }
}
