//! Strings (Core 1.0, 6.3.3).

ghost use Rattle.std.specs.Prelude.{◌≡◌, ◌<◌, ◌≤◌, ℕ, List, Some, None, drop, length, false, IfOk, IfSome, IsSomeAnd, IsTrue};
ghost use Rattle.wat_syntax.specs.inside.Follows.{FollowsSome};
ghost use Rattle.wat_syntax.specs.inside.Lexing.{IsLeft};
ghost use Rattle.wat_syntax.specs.Quoted.{needs_no_escape};
ghost use Rattle.wat_syntax.specs.inside.Strings.{hex_digit, plain, quote_at, escape_at, step_at, string_of};

use std::alloc::{AllocError, Global};

/// One element of a string.
#[derive(Clone, Copy)]
enum Part {
    Byte(u8),
    /// A character, given by its code point.
    Character(char),
    /// The quotation mark that ends the string.
    End,
}

// Returns the value of a hexadecimal digit.
fn digit(b: u8) -> Option<u8>
    ensures again { (n : ℕ) → hex_digit b ≡ Some n → result ≡ Some n }
    ensures within { IfSome result (λ n. n < 16) }
{
    match b {
        b'0'..=b'9' => Some(b - b'0'),
        b'a'..=b'f' => Some(b - b'a' + 10),
        b'A'..=b'F' => Some(b - b'A' + 10),
        _ => None,
    }
}

// Appends a hexadecimal digit to a number.
fn with_digit(number: u32, b: u8) -> Option<u32> {
    let value = digit(b)?;
    number.checked_mul(16)?.checked_add(u32::from(value))
}

// Reads a code point in hexadecimal up to the closing bracket. Underscores may be between digits.
#[tactic(auto, using(crate::proofs::Left::left))]
fn character(text: &[u8]) -> Option<(Part, &[u8])>
    ensures shrinks { IfSome result (λ x. length x.1.now < length text.now) }
    ensures ends { IfSome result (λ x. IsLeft text.now x.1.now) }
{
    let mut rest = text;
    let mut number = 0u32;
    let mut after_digit = false;
    'each: while let [b, behind @ ..] = rest {
        if *b == b'}' {
            if !after_digit {
                return None;
            }
            return Some((Part::Character(char::from_u32(number)?), behind));
        }
        if *b == b'_' && after_digit {
            after_digit = false;
        } else {
            number = with_digit(number, *b)?;
            after_digit = true;
        }
        rest = behind;
    }
    None
}

// Returns the byte that a letter or a mark after a backslash means.
fn letter(b: u8) -> Option<u8>
    ensures { IfSome result (λ _. hex_digit b ≡ None) }
{
    match b {
        b't' => Some(b'\t'),
        b'n' => Some(b'\n'),
        b'r' => Some(b'\r'),
        b'"' => Some(b'"'),
        b'\'' => Some(b'\''),
        b'\\' => Some(b'\\'),
        _ => None,
    }
}

// Reads a byte in two hexadecimal digits.
#[tactic(auto, using(crate::proofs::Left::left))]
fn two_digits(text: &[u8]) -> Option<(Part, &[u8])>
    ensures again { FollowsSome (λ x. (x.0, x.1.now)) result (escape_at text.now) }
    ensures shrinks { IfSome result (λ x. length x.1.now < length text.now) }
    ensures ends { IfSome result (λ x. IsLeft text.now x.1.now) }
{
    match text {
        [high, low, rest @ ..] => match (digit(*high), digit(*low)) {
            (Some(high), Some(low)) => Some((Part::Byte(high * 16 + low), rest)),
            _ => None,
        },
        _ => None,
    }
}

// Reads an escape, after its backslash.
#[tactic(auto, using(crate::proofs::Left::left))]
fn escape(text: &[u8]) -> Option<(Part, &[u8])>
    ensures again { FollowsSome (λ x. (x.0, x.1.now)) result (escape_at text.now) }
    ensures shrinks { IfSome result (λ x. length x.1.now < length text.now) }
    ensures ends { IfSome result (λ x. IsLeft text.now x.1.now) }
{
    match text {
        [b'u', b'{', rest @ ..] => character(rest),
        [first, rest @ ..] => match letter(*first) {
            Some(b) => Some((Part::Byte(b), rest)),
            None => two_digits(text),
        },
        [] => None,
    }
}

fn is_control(b: u8) -> bool
    ensures { IsTrue result → needs_no_escape b ≡ false }
{
    b < 32 || b == 127
}

// Reads one element, and returns it with the text after it.
#[tactic(auto, using(crate::proofs::Left::left))]
fn step(text: &[u8]) -> Option<(Part, &[u8])>
    ensures again { FollowsSome (λ x. (x.0, x.1.now)) result (step_at text.now) }
    ensures shrinks { IfSome result (λ x. length x.1.now < length text.now) }
    ensures ends { IfSome result (λ x. IsLeft text.now x.1.now) }
{
    match text {
        [b'"', rest @ ..] => Some((Part::End, rest)),
        [b'\\', rest @ ..] => escape(rest),
        [b, rest @ ..] => {
            if is_control(*b) {
                None
            } else {
                Some((Part::Byte(*b), rest))
            }
        }
        [] => None,
    }
}

/// Returns the text after a string, given the text after its quotation mark. `None` means that it is not a string.
#[tactic(auto, using(crate::proofs::Left::left))]
pub fn behind(text: &[u8]) -> Option<&[u8]>
    ensures again { (bytes rest : List ℕ) → quote_at plain text.now ≡ Some (bytes, rest)
        → IsSomeAnd result (λ x. x.now ≡ rest) }
    ensures shrinks { IfSome result (λ x. length x.now < length text.now) }
    ensures ends { IfSome result (λ x. IsLeft text.now x.now) }
{
    let mut rest = text;
    'each: loop {
        let (one, after) = step(rest)?;
        match one {
            Part::End => return Some(after),
            Part::Byte(_) => rest = after,
            Part::Character(_) => rest = after,
        }
    }
}

/// Returns the bytes of the string that starts at this position of the text, which a `Token::Text` has.
pub fn string(alloc: Global, source: &[u8], place: usize) -> Result<Vec<u8>, AllocError>
    ensures { (bytes : List ℕ) → string_of (drop place source.now) ≡ Some bytes
        → IfOk result (λ v. v.items ≡ bytes) }
{
    let mut bytes = Vec::new(alloc);
    if place > source.len() {
        return Ok(bytes);
    }
    let mut rest = &source[place..];
    'each: while let Some((one, after)) = step(rest) {
        match one {
            Part::Byte(b) => bytes.push(b)?,
            Part::Character(c) => {
                let mut room = [0; 4];
                bytes.extend_from_slice(c.encode_utf8(&mut room).as_bytes())?;
            }
            Part::End => return Ok(bytes),
        }
        rest = after;
    }
    Ok(bytes)
}
