//! The scanner: where tokens start and end.

ghost use Rattle.std.specs.Prelude.{◌≡◌, ◌+◌, ◌<◌, ◌≤◌, List, ℕ, Some, None, length, take, drop, IfOk, IfSome};
ghost use Rattle.std.specs.List.{prefix_len};
ghost use Rattle.wat_syntax.specs.inside.Follows.{Follows};
ghost use Rattle.wat_syntax.specs.inside.Lexing.{EndsWith, IsLeft, is_blank, one_at, opening_at, quoted_at, read_of, word_at};
ghost use Rattle.wat_syntax.specs.Words.{first_word, is_word};
ghost use Rattle.wat_syntax.specs.Numbering.{Grows, IsNumbered, number_in};

use super::numbering::Numbering;
use super::strings::behind;
use super::token::Token;
use super::words::token_of;
use crate::fault::{Failure, FaultKind};

// Reports whether the byte may be in a name, a keyword or a number (Core 1.0, 6.3.5).
#[tactic(auto, unfolding(crate::specs::Words::is_word))]
fn is_word_byte(b: u8) -> bool
    ensures { result ≡ is_word b }
{
    b > 32
        && b < 127
        && b != b'"'
        && b != b'('
        && b != b')'
        && b != b','
        && b != b';'
        && b != b'['
        && b != b']'
        && b != b'{'
        && b != b'}'
}

// Reports whether the byte is a space, a tab or the end of a line.
fn is_blank(b: u8) -> bool
    ensures { result ≡ is_blank b }
{
    b == b' ' || b == b'\n' || b == b'\t' || b == b'\r'
}

// Returns the length of the word at the start of the text.
fn word_length(text: &[u8]) -> usize
    ensures value { result ≡ prefix_len is_word text.now }
    ensures within { result ≤ length text.now }
{
    let mut count = 0;
    'each: while count < text.len() && is_word_byte(text[count]) {
        count += 1;
    }
    count
}

// Splits the text into the word at its start and the text after it.
#[tactic(auto, using(crate::proofs::Left::left))]
fn word(text: &[u8]) -> (&[u8], &[u8])
    ensures first { result.0.now ≡ take (prefix_len is_word text.now) text.now }
    ensures rest { result.1.now ≡ drop (prefix_len is_word text.now) text.now }
    ensures shrinks { length result.0.now + length result.1.now ≡ length text.now }
    ensures ends { IsLeft text.now result.1.now }
{
    let count = word_length(text);
    (&text[..count], &text[count..])
}

// Returns the text after a block comment, given the text after its `(;`. `None` means that the comment does not end.
#[tactic(auto, using(crate::proofs::Left::left))]
fn comment(text: &[u8]) -> Option<&[u8]>
    ensures { IfSome result (λ rest. IsLeft text.now rest.now) }
{
    let mut rest = text;
    let mut depth = 1u64;
    'each: loop {
        match rest {
            [b';', b')', after @ ..] => {
                rest = after;
                depth = depth.saturating_sub(1);
                if depth == 0 {
                    return Some(rest);
                }
            }
            [b'(', b';', after @ ..] => {
                rest = after;
                depth = depth.saturating_add(1);
            }
            [_, after @ ..] => rest = after,
            [] => return None,
        }
    }
}

// Returns the text from the end of this line on.
#[tactic(auto, using(crate::proofs::Left::left))]
fn line_end(text: &[u8]) -> &[u8]
    ensures { IsLeft text.now result.now }
{
    let mut rest = text;
    'each: while let [b, after @ ..] = rest {
        if *b == b'\n' {
            return rest;
        }
        rest = after;
    }
    rest
}

// Reads a parenthesis or a block comment, given the text after `(`. `left` bytes remain at the parenthesis.
#[tactic(auto, using(crate::proofs::Left::left))]
fn opening(left: usize, text: &[u8]) -> Result<(Option<Token>, &[u8]), Failure>
    ensures again { (source : List ℕ) → Follows (read_of source) result (opening_at text.now) }
    ensures nameless { IfOk result (λ x. IfSome x.0 (λ t. number_in t ≡ None)) }
    ensures ends { IfOk result (λ x. IsLeft text.now x.1.now) }
{
    match text {
        [b';', inside @ ..] => match comment(inside) {
            Some(rest) => Ok((None, rest)),
            None => Err(Failure::Fault(FaultKind::Lex, left)),
        },
        _ => Ok((Some(Token::Open), text)),
    }
}

// Reads a line comment, given the text after its first `;`. `left` bytes remain at that semicolon.
#[tactic(auto, using(crate::proofs::Left::left))]
fn line_comment(left: usize, text: &[u8]) -> Result<(Option<Token>, &[u8]), Failure>
    ensures nameless { IfOk result (λ x. IfSome x.0 (λ t. number_in t ≡ None)) }
    ensures ends { IfOk result (λ x. IsLeft text.now x.1.now) }
{
    match text {
        [b';', inside @ ..] => Ok((None, line_end(inside))),
        _ => Err(Failure::Fault(FaultKind::Lex, left)),
    }
}

// Reads a string, given the text after its quotation mark. `size` is the length of the whole text; `left` bytes remain at
// the mark.
#[tactic(auto, using(crate::proofs::Left::left))]
fn quoted(size: usize, left: usize, text: &[u8]) -> Result<(Option<Token>, &[u8]), Failure>
    requires { length text.now ≤ size }
    ensures again { (source : List ℕ) → size ≡ length source → EndsWith source text.now
        → Follows (read_of source) result (quoted_at text.now) }
    ensures nameless { IfOk result (λ x. IfSome x.0 (λ t. number_in t ≡ None)) }
    ensures ends { IfOk result (λ x. IsLeft text.now x.1.now) }
{
    match behind(text) {
        Some(rest) => Ok((Some(Token::Text(size - text.len())), rest)),
        None => Err(Failure::Fault(FaultKind::Lex, left)),
    }
}

// Reads a word.
#[tactic(auto, using(crate::proofs::Left::left))]
fn spelled<'t>(
    names: &mut Numbering<'t>,
    text: &'t [u8],
) -> Result<(Option<Token>, &'t [u8]), Failure>
    ensures again { (source : List ℕ) → Follows (read_of source) result (word_at text.now) }
    ensures named { IfOk result (λ x. IfSome x.0 (IsNumbered names.new (first_word text.now))) }
    ensures grows { Grows names.old names.new }
    ensures shrinks { IfOk result (λ x. length x.1.now < length text.now) }
    ensures ends { IfOk result (λ x. IsLeft text.now x.1.now) }
{
    let (first, rest) = word(text);
    if first.is_empty() {
        return Err(Failure::Fault(FaultKind::Lex, text.len()));
    }
    let token = token_of(names, first)?;
    Ok((Some(token), rest))
}

/// Reads one token, and returns it with the text after it. It is `None` for a blank or a comment. `size` is the length of
/// the whole text.
#[tactic(auto, unfolding(crate::specs::inside::Lexing::one_at), using(crate::proofs::Scanner::ends_behind, crate::proofs::Left::left))]
pub fn one<'t>(
    names: &mut Numbering<'t>,
    size: usize,
    text: &'t [u8],
) -> Result<(Option<Token>, &'t [u8]), Failure>
    requires { length text.now ≤ size }
    ensures again { (source : List ℕ) → size ≡ length source → EndsWith source text.now
        → Follows (read_of source) result (one_at text.now) }
    ensures named { IfOk result (λ x. IfSome x.0 (IsNumbered names.new (first_word text.now))) }
    ensures grows { Grows names.old names.new }
    ensures shrinks { IfOk result (λ x. length x.1.now < length text.now) }
    ensures ends { IfOk result (λ x. IsLeft text.now x.1.now) }
{
    match text {
        [] => Err(Failure::Fault(FaultKind::Lex, 0)),
        [first, rest @ ..] => {
            if is_blank(*first) {
                return Ok((None, rest));
            }
            match *first {
                b')' => Ok((Some(Token::Close), rest)),
                b'(' => opening(text.len(), rest),
                b';' => line_comment(text.len(), rest),
                b'"' => quoted(size, text.len(), rest),
                _ => spelled(names, text),
            }
        }
    }
}
