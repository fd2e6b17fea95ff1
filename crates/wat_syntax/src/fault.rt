//! Why a text is no module.

ghost use Rattle.std.specs.Prelude.{◌≡◌, Some};
ghost use Rattle.wat_syntax.specs.Faults.{fault_text};
ghost use Rattle.wat_syntax.specs.declared.fault.Failure.TheVariants.{OutOfMemory};

use std::alloc::{AllocError, AllocFailed};
use std::error::Error;
use std::fmt;

/// A position in a text. Lines and columns are counted from 1, and columns are in characters.
#[derive(Clone, Copy)]
pub struct Position {
    pub line: usize,
    pub column: usize,
}

/// The reason why a text is not a module, with its position. It is printed as its word, the line and the column.
#[derive(Clone, Copy)]
pub enum TextFault {
    /// No token starts here, a comment or a string does not end, or a name is not UTF-8.
    Lex(Position),
    /// The tokens from here on do not fit the grammar of modules.
    Syntax(Position),
    /// Nothing in scope has this name.
    UnknownName(Position),
    /// Another item of the same kind has this name.
    DuplicateName(Position),
    /// A number is out of range here.
    NumberRange(Position),
    /// The parameters and results after the index of a type are not those of the type.
    TypeUse(Position),
    /// The word is of the format, but this assembler does not support it: floats, or a version after 1.0.
    Unsupported(Position),
    /// A limit is exceeded.
    OverLimit(Position),
    /// An allocation failed.
    OutOfMemory,
}

impl fmt::Display for TextFault {
    ghost output = { λ fault. Some (fault_text fault) };

    fn fmt<W: fmt::Write>(&self, f: &mut fmt::Formatter<W>) -> fmt::Result {
        match self.word_and_place() {
            Some((word, place)) => write!(f, "{word} {} {}", place.line, place.column),
            None => f.write_str("OutOfMemory - -"),
        }
    }
}

impl TextFault {
    ghost use Rattle.std.specs.Prelude.{◌≡◌, IfNone, IfSome, codes};
    ghost use Rattle.wat_syntax.specs.Faults.{fault_text, word_at};

    // Returns the word of the fault and its position, where it has one.
    fn word_and_place(&self) -> Option<(&'static str, Position)>
        ensures placed { IfSome result (λ x. fault_text self.now ≡ word_at x.0.now x.1) }
        ensures placeless { IfNone result (fault_text self.now ≡ codes "OutOfMemory - -") }
    {
        match self {
            TextFault::Lex(place) => Some(("Lex", *place)),
            TextFault::Syntax(place) => Some(("Syntax", *place)),
            TextFault::UnknownName(place) => Some(("UnknownName", *place)),
            TextFault::DuplicateName(place) => Some(("DuplicateName", *place)),
            TextFault::NumberRange(place) => Some(("NumberRange", *place)),
            TextFault::TypeUse(place) => Some(("TypeUse", *place)),
            TextFault::Unsupported(place) => Some(("Unsupported", *place)),
            TextFault::OverLimit(place) => Some(("OverLimit", *place)),
            TextFault::OutOfMemory => None,
        }
    }
}

/// Writes the same text as `Display`.
impl fmt::Debug for TextFault {
    fn fmt<W: fmt::Write>(&self, f: &mut fmt::Formatter<W>) -> fmt::Result {
        fmt::Display::fmt(self, f)
    }
}

impl Error for TextFault {}

/// The kind of a fault, without its position. The `TextFault` of each name says when it comes.
#[derive(Clone, Copy)]
pub enum FaultKind {
    Lex,
    Syntax,
    UnknownName,
    DuplicateName,
    NumberRange,
    TypeUse,
    Unsupported,
    OverLimit,
}

/// A failure of the lexer or the parser. A fault has the number of bytes or tokens that remain at its place.
#[derive(Clone, Copy)]
pub enum Failure {
    /// An allocation failed.
    OutOfMemory,
    Fault(FaultKind, usize),
}

impl From<AllocError> for Failure {
    ghost from_gives = { λ _ failure. failure ≡ OutOfMemory };

    fn from(_: AllocError) -> Failure {
        Failure::OutOfMemory
    }
}

impl<T: Drop> From<AllocFailed<T>> for Failure {
    ghost from_gives = { λ _ failure. failure ≡ OutOfMemory };

    fn from(_: AllocFailed<T>) -> Failure {
        Failure::OutOfMemory
    }
}
