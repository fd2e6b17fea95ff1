//! The lexer: from a text to its tokens.

mod numbering;
mod numeral;
mod scanner;
mod strings;
mod token;
mod words;

ghost use Rattle.std.specs.Prelude.{List, IfOk};
ghost use Rattle.wat_syntax.specs.Pieces.{Piece};
ghost use Rattle.wat_syntax.specs.inside.Follows.{IsRead};
ghost use Rattle.wat_syntax.specs.Numbering.{AreNamesNumbered};
ghost use Rattle.wat_syntax.specs.inside.Tokens.{ArePiecesHeld, IsPrinted, sorted, toks_of};

use crate::fault::Failure;
use numbering::Numbering;
use scanner::one;
use std::alloc::Global;
pub use strings::string;
pub use token::{Token, Tokens};

/// Cuts a text into tokens (Core 1.0, 6.3). A failure has the number of bytes that remain at its place.
///
/// A fault is `Lex` where no token starts, a comment does not end or a string is malformed. It is `OverLimit`, at the end
/// of the text, where there are 2^32 different names. A word without a meaning is a token, which `parse` refuses.
pub fn lex(alloc: Global, source: &str) -> Result<Tokens, Failure>
    ensures again { (ps : List Piece) → ArePiecesHeld ps → IsPrinted source.now ps
        → IsRead (λ x. toks_of source.now x.tokens.items) result (sorted ps) }
    ensures names { IfOk result (λ x. AreNamesNumbered source.now x.tokens.items x.places.items) }
{
    let text = source.as_bytes();
    let mut names = Numbering::new(alloc);
    let mut tokens = Vec::new(alloc);
    let mut places = Vec::new(alloc);
    let mut rest = text;
    'each: while !rest.is_empty() {
        let (next, after) = one(&mut names, text.len(), rest)?;
        if let Some(token) = next {
            tokens.push(token)?;
            places.push(text.len() - rest.len())?;
        }
        rest = after;
    }
    Ok(Tokens { tokens, places })
}
