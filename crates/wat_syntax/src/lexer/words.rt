//! The meaning of words.

ghost use Rattle.std.specs.Prelude.{◌≡◌, List, None, ℕ, IfOk};
ghost use Rattle.wat_syntax.specs.inside.Follows.{Follows};
ghost use Rattle.wat_syntax.specs.Keywords.{lookup};
ghost use Rattle.wat_syntax.specs.declared.keyword.TheConstants.{KEYWORDS};
ghost use Rattle.wat_syntax.specs.inside.Lexing.{Means, as_key, plain_of, word_of};
ghost use Rattle.wat_syntax.specs.Numbering.{Grows, IsNumbered, number_in};
ghost use Rattle.wat_syntax.specs.inside.Tokens.{tok_of};

use super::numbering::Numbering;
use super::numeral::{alignment, negative, offset, positive, unsigned};
use super::token::Token;
use crate::fault::Failure;
use crate::keyword::Keyword;
use std::str;

const OFFSET: &[u8] = b"offset=";

const ALIGN: &[u8] = b"align=";

// The starts of the words that are not supported: those of floats and of later versions.
const UNSUPPORTED: [&str; 35] = [
    "f32",
    "f64",
    "i32.trunc_",
    "i64.trunc_",
    "i32.reinterpret_",
    "i64.reinterpret_",
    "i32.extend",
    "i64.extend",
    "v128",
    "i8x16",
    "i16x8",
    "i32x4",
    "i64x2",
    "ref.",
    "table.",
    "memory.",
    "elem.drop",
    "data.drop",
    "externref",
    "return_call",
    "call_ref",
    "br_on_",
    "struct.",
    "array.",
    "any.",
    "extern.",
    "i31.",
    "throw",
    "rethrow",
    "try",
    "catch",
    "delegate",
    "atomic.",
    "i32.atomic.",
    "i64.atomic.",
];

fn is_unsupported(word: &[u8]) -> bool {
    for beginning in &UNSUPPORTED {
        if word.starts_with(beginning.as_bytes()) {
            return true;
        }
    }
    false
}

// Returns the token of a word that starts with `$`.
fn name<'t>(names: &mut Numbering<'t>, word: &'t [u8]) -> Result<Token, Failure>
    ensures named { IfOk result (IsNumbered names.new word.now) }
    ensures grows { Grows names.old names.new }
{
    if word.len() < 2 {
        return Ok(Token::Other);
    }
    match str::from_utf8(word) {
        Ok(text) => {
            let n = names.number(text)?;
            Ok(Token::Name(n))
        }
        Err(_) => Ok(Token::Other),
    }
}

fn keyword(word: &[u8]) -> Token
    ensures tells { Means result (as_key (lookup KEYWORDS word.now)) }
    ensures nameless { number_in result ≡ None }
{
    match Keyword::spelled(word) {
        Some(found) => Token::Key(found),
        None => {
            if is_unsupported(word) {
                Token::Unsupported
            } else {
                Token::Other
            }
        }
    }
}

// Returns the token of a word that starts with a letter.
fn plain(word: &[u8]) -> Token
    ensures tells { Means result (plain_of word.now) }
    ensures nameless { number_in result ≡ None }
{
    if let Some(digits) = word.strip_prefix(OFFSET) {
        offset(digits)
    } else if let Some(digits) = word.strip_prefix(ALIGN) {
        alignment(digits)
    } else {
        keyword(word)
    }
}

/// Returns the token of a word.
#[tactic(auto, unfolding(crate::specs::inside::Lexing::word_of))]
pub fn token_of<'t>(names: &mut Numbering<'t>, word: &'t [u8]) -> Result<Token, Failure>
    ensures again { (source : List ℕ) → Follows (tok_of source) result (word_of word.now) }
    ensures named { IfOk result (IsNumbered names.new word.now) }
    ensures grows { Grows names.old names.new }
{
    match word {
        [] => Ok(Token::Other),
        [first, digits @ ..] => match *first {
            b'0'..=b'9' => Ok(unsigned(word)),
            b'-' => Ok(negative(digits)),
            b'+' => Ok(positive(digits)),
            b'$' => name(names, word),
            _ => Ok(plain(word)),
        },
    }
}
