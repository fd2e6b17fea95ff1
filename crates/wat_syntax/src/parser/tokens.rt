//! The state of the parser, and the readers of single tokens.

ghost use Rattle.std.specs.Prelude.{◌≡◌, ◌≤◌, [], Bool, Some, None, length};
ghost use Rattle.wat_syntax.specs.inside.Parsing.{Advances, Passes, Shows, Gives};
ghost use Rattle.wat_syntax.specs.inside.Reading.{State, closed_as, closed_at, funcref_at, inside, name_at, number_at, number_first, open_first, opened_at, opening, text_at, type_first, unnamed_at};
ghost use Rattle.wat_syntax.specs.inside.Tokens.{toks_of};

use crate::fault::{Failure, FaultKind};
use crate::keyword::Keyword;
use crate::lexer::{Token, string};
use crate::parser::equal_types::EqualTypes;
use crate::parser::names::{Kind, Names, Space};
use std::alloc::Global;
use std::marker::Model;
use wasm_ast::{FuncType, Name};

/// The state of the parser: the tokens that are not read yet, and the names and types that they may refer to. Its model
/// is the tokens and the types.
#[derive(Drop)]
pub struct Parser<'a> {
    pub alloc: Global,
    pub source: &'a [u8],
    pub rest: &'a [Token],
    /// The names of the module's fields.
    pub names: &'a Names,
    /// The module's types so far, with those that uses added.
    pub types: Vec<FuncType>,
    /// Whether all types that the module defines are read, wherever they are.
    pub are_types_read: bool,
    /// The index of each type, once all defined types are read. Those that uses added come last.
    pub equal_types: EqualTypes,
    /// The names of the function's parameters and locals.
    pub locals: Space,
    /// The names of the blocks around the next instruction, the innermost last.
    pub labels: Vec<Option<u32>>,
}

impl<'a> Model for Parser<'a> {
    ghost use Rattle.wat_syntax.specs.inside.Reading.{State};
    ghost use Rattle.wat_syntax.specs.inside.Tokens.{toks_of};

    ghost Value = { State };

    ghost view = { λ parser. (toks_of parser.source.now parser.rest.now, parser.types.items) };
}

impl<'a> Parser<'a> {
    pub fn new(alloc: Global, source: &'a [u8], names: &'a Names, tokens: &'a [Token]) -> Parser<'a>
        ensures { result ≡ (toks_of source.now tokens.now, []) }
    {
        Parser {
            alloc,
            source,
            rest: tokens,
            names,
            types: Vec::new(alloc),
            are_types_read: false,
            equal_types: EqualTypes::new(alloc),
            locals: Space::new(alloc),
            labels: Vec::new(alloc),
        }
    }

    /// Returns the failure of this kind at the next token.
    pub fn fault(&self, wrong: FaultKind) -> Failure {
        Failure::Fault(wrong, self.rest.len())
    }

    /// Returns the failure of a token that may not come here.
    pub fn unexpected(&self) -> Failure {
        match self.rest {
            [Token::Unsupported, ..] => self.fault(FaultKind::Unsupported),
            [Token::OutOfRange, ..] => self.fault(FaultKind::NumberRange),
            _ => self.fault(FaultKind::Syntax),
        }
    }

    /// Reads a closing parenthesis.
    #[tactic(auto, unfolding(crate::specs::inside::Reading::closed_at))]
    pub fn close(&mut self) -> Result<(), Failure>
        ensures { Advances self.old self.new result (Passes closed_at) }
    {
        match self.rest {
            [Token::Close, rest @ ..] => {
                self.rest = rest;
                Ok(())
            }
            _ => Err(self.unexpected()),
        }
    }

    /// Reads `funcref`.
    #[tactic(auto, unfolding(crate::specs::inside::Reading::funcref_at))]
    pub fn funcref(&mut self) -> Result<(), Failure>
        ensures { Advances self.old self.new result (Passes funcref_at) }
    {
        match self.rest {
            [Token::Key(Keyword::Funcref), rest @ ..] => {
                self.rest = rest;
                Ok(())
            }
            _ => Err(self.unexpected()),
        }
    }

    /// Reads a closing parenthesis, and returns `whole`, which it ends.
    pub fn closed<T: Drop>(&mut self, whole: T) -> Result<T, Failure>
        ensures { Advances self.old self.new result (Gives (closed_as whole)) }
    {
        self.close()?;
        Ok(whole)
    }

    /// Returns the keyword after the parenthesis that comes next, where both do. It reads nothing.
    pub fn opening(&self) -> Option<Keyword>
        ensures { result ≡ opening self.now.0 }
    {
        match self.rest {
            [Token::Open, Token::Key(keyword), ..] => Some(*keyword),
            _ => None,
        }
    }

    /// Skips the parenthesis and the keyword that come next.
    pub fn enter(&mut self)
        ensures again { self.new ≡ inside self.old }
        ensures shrinks { length self.new.0 ≤ length self.old.0 }
    {
        if let [_, _, rest @ ..] = self.rest {
            self.rest = rest;
        }
    }

    /// Reads a parenthesis and a keyword, and returns the keyword.
    #[tactic(auto, unfolding(crate::specs::inside::Reading::opened_at))]
    pub fn opened(&mut self) -> Result<Keyword, Failure>
        ensures { Advances self.old self.new result (Gives opened_at) }
    {
        match self.rest {
            [Token::Open, Token::Key(keyword), rest @ ..] => {
                self.rest = rest;
                Ok(*keyword)
            }
            _ => Err(self.unexpected()),
        }
    }

    /// Reports whether a type or a type use comes next.
    pub fn is_type(&self) -> bool
        ensures { result ≡ type_first self.now.0 }
    {
        matches!(self.opening(), Some(Keyword::FuncType))
    }

    /// Forgets the names of parameters and locals.
    pub fn forget_locals(&mut self)
        ensures { self.new ≡ self.old }
    {
        self.locals = Space::new(self.alloc);
    }

    /// Reports whether an opening parenthesis comes next.
    pub fn is_open(&self) -> bool
        ensures { result ≡ open_first self.now.0 }
    {
        matches!(self.rest, [Token::Open, ..])
    }

    /// Reports whether a number or a name comes next.
    #[tactic(auto, unfolding(crate::specs::inside::Reading::number_first))]
    pub fn is_index(&self) -> bool
        ensures { (b : Bool) → number_first self.now.0 ≡ Some b → result ≡ b }
    {
        matches!(
            self.rest,
            [Token::Number(_) | Token::Name(_) | Token::OutOfRange, ..]
        )
    }

    /// Reads a name, where one comes next.
    #[tactic(auto, unfolding(crate::specs::inside::Reading::unnamed_at))]
    pub fn name(&mut self) -> Option<u32>
        ensures again { (s : State) → unnamed_at self.old ≡ Some s
            → (result ≡ None) × (self.new ≡ s) }
        ensures shrinks { length self.new.0 ≤ length self.old.0 }
    {
        match self.rest {
            [Token::Name(name), rest @ ..] => {
                self.rest = rest;
                Some(*name)
            }
            _ => None,
        }
    }

    /// Reads an unsigned number of 32 bits (Core 1.0, 6.3.1).
    #[tactic(auto, unfolding(crate::specs::inside::Reading::number_at))]
    pub fn number(&mut self) -> Result<u32, Failure>
        ensures { Advances self.old self.new result (Gives number_at) }
    {
        match self.rest {
            [Token::Number(n), rest @ ..] => match u32::try_from(*n) {
                Ok(n) => {
                    self.rest = rest;
                    Ok(n)
                }
                Err(_) => Err(self.fault(FaultKind::NumberRange)),
            },
            _ => Err(self.unexpected()),
        }
    }

    // Returns the index that a name of this kind has, where it has one.
    fn named(&self, kind: Kind, name: u32) -> Option<u32> {
        match kind {
            Kind::Local => self.locals.find(name),
            Kind::Label => label(self.labels.as_slice(), name),
            _ => self.names.find(kind, name),
        }
    }

    /// Reads an index of this kind, given as a number or a name (Core 1.0, 6.5.1 and 6.6.1).
    #[tactic(auto, unfolding(crate::specs::inside::Reading::number_at))]
    pub fn index(&mut self, kind: Kind) -> Result<u32, Failure>
        ensures { Advances self.old self.new result (Gives number_at) }
    {
        match self.rest {
            [Token::Name(name), rest @ ..] => match self.named(kind, *name) {
                Some(n) => {
                    self.rest = rest;
                    Ok(n)
                }
                None => Err(self.fault(FaultKind::UnknownName)),
            },
            _ => self.number(),
        }
    }

    /// Reads the bytes of a string (Core 1.0, 6.3.3).
    #[tactic(auto, unfolding(crate::specs::inside::Reading::text_at))]
    pub fn bytes(&mut self) -> Result<Vec<u8>, Failure>
        ensures { Advances self.old self.new result (Shows (λ v. v.items) text_at) }
    {
        match self.rest {
            [Token::Text(place), rest @ ..] => {
                let bytes = string(self.alloc, self.source, *place)?;
                self.rest = rest;
                Ok(bytes)
            }
            _ => Err(self.unexpected()),
        }
    }

    /// Reads a string in UTF-8 (Core 1.0, 6.3.4).
    #[tactic(auto, unfolding(crate::specs::inside::Reading::name_at))]
    pub fn text(&mut self) -> Result<Name, Failure>
        ensures { Advances self.old self.new result (Gives name_at) }
    {
        let fault = self.fault(FaultKind::Lex);
        let bytes = self.bytes()?;
        match String::from_utf8(bytes) {
            Ok(text) => Ok(Name::from(text)),
            Err(_) => Err(fault),
        }
    }
}

// Returns the index of the innermost label with this name.
fn label(labels: &[Option<u32>], name: u32) -> Option<u32> {
    let count = labels.len();
    for inside in 0..count {
        if labels[count - 1 - inside] == Some(name) {
            return u32::try_from(inside).ok();
        }
    }
    None
}
