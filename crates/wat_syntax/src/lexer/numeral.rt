//! Numbers (Core 1.0, 6.3.2).

ghost use Rattle.std.specs.Prelude.{◌≡◌, ℕ, Some, None, IfErr, negsuc, suc, ◌<◌, ◌^◌};
ghost use Rattle.wat_syntax.specs.declared.lexer.numeral.Numeral.TheVariants.{Value};
ghost use Rattle.wat_syntax.specs.inside.Lexing.{Means, as_align, as_negative, as_number, as_offset, as_positive, begins_with_digit, numeral_of};
ghost use Rattle.wat_syntax.specs.Numbering.{number_in};

use super::token::Token;
use std::str;

/// The number that digits without a sign spell.
#[derive(Clone, Copy)]
enum Numeral {
    Value(u64),
    /// A number of 2^64 or more.
    TooLarge,
    /// The digits spell no number.
    Misspelled,
}

// Returns the value of a digit in any base up to 16.
fn digit(b: u8) -> Option<u64> {
    match b {
        b'0'..=b'9' => Some(u64::from(b - b'0')),
        b'a'..=b'f' => Some(u64::from(b - b'a') + 10),
        b'A'..=b'F' => Some(u64::from(b - b'A') + 10),
        _ => None,
    }
}

// Reports whether these are digits of this base, with at most single underscores between them.
fn is_spelled(base: u64, digits: &[u8]) -> bool {
    let mut after_digit = false;
    for b in digits {
        if let Some(value) = digit(*b) {
            if value >= base {
                return false;
            }
            after_digit = true;
        } else if *b == b'_' && after_digit {
            after_digit = false;
        } else {
            return false;
        }
    }
    after_digit
}

// Returns the number that digits spell, if it is below 2^64. Underscores are skipped.
fn value(base: u64, digits: &[u8]) -> Option<u64> {
    let mut value = 0u64;
    for b in digits {
        if let Some(next) = digit(*b) {
            value = value.checked_mul(base)?.checked_add(next)?;
        }
    }
    Some(value)
}

fn freely_spelled(word: &[u8]) -> Numeral {
    let (base, digits) = match word {
        [b'0', b'x', rest @ ..] => (16, rest),
        _ => (10, word),
    };
    if !is_spelled(base, digits) {
        return Numeral::Misspelled;
    }
    match value(base, digits) {
        Some(n) => Numeral::Value(n),
        None => Numeral::TooLarge,
    }
}

fn begins_with_digit(word: &[u8]) -> bool
    ensures { result ≡ begins_with_digit word.now }
{
    match word {
        [b, ..] => b'0' <= *b && *b <= b'9',
        [] => false,
    }
}

// Reads decimal digits by the standard library. Most numbers are in decimal.
fn plainly_spelled(word: &[u8]) -> Option<u64>
    ensures { (n : ℕ) → numeral_of word.now ≡ Some n → result ≡ Some n }
{
    match str::from_utf8(word) {
        Ok(text) => text.parse::<u64>().ok(),
        Err(_) => None,
    }
}

fn read(word: &[u8]) -> Numeral
    ensures { (n : ℕ) → numeral_of word.now ≡ Some n → result ≡ Value n }
{
    if !begins_with_digit(word) {
        return Numeral::Misspelled;
    }
    match plainly_spelled(word) {
        Some(n) => Numeral::Value(n),
        None => freely_spelled(word),
    }
}

/// Returns the token of a number without a sign.
pub fn unsigned(word: &[u8]) -> Token
    ensures tells { Means result (as_number (numeral_of word.now)) }
    ensures nameless { number_in result ≡ None }
{
    match read(word) {
        Numeral::Value(n) => Token::Number(n),
        Numeral::TooLarge => Token::OutOfRange,
        Numeral::Misspelled => Token::Other,
    }
}

/// Returns the token of a number with a plus sign, given its digits.
pub fn positive(digits: &[u8]) -> Token
    ensures tells { Means result (as_positive (numeral_of digits.now)) }
    ensures nameless { number_in result ≡ None }
{
    match read(digits) {
        Numeral::Value(n) => match i64::try_from(n) {
            Ok(z) => Token::Signed(z),
            Err(_) => Token::OutOfRange,
        },
        Numeral::TooLarge => Token::OutOfRange,
        Numeral::Misspelled => Token::Other,
    }
}

// Returns -n, if it is at least -2^63.
fn negated(n: u64) -> Option<i64>
    ensures { (m : ℕ) → n ≡ suc m → m < 2 ^ 63 → result ≡ Some (negsuc m) }
{
    if n <= 1 << 63 {
        Some(n.wrapping_neg().cast_signed())
    } else {
        None
    }
}

fn behind_minus(n: u64) -> Token
    ensures tells { Means result (as_negative (Some n)) }
    ensures nameless { number_in result ≡ None }
{
    match negated(n) {
        Some(z) => Token::Signed(z),
        None => Token::OutOfRange,
    }
}

/// Returns the token of a number with a minus sign, given its digits.
pub fn negative(digits: &[u8]) -> Token
    ensures tells { Means result (as_negative (numeral_of digits.now)) }
    ensures nameless { number_in result ≡ None }
{
    match read(digits) {
        Numeral::Value(n) => behind_minus(n),
        Numeral::TooLarge => Token::OutOfRange,
        Numeral::Misspelled => Token::Other,
    }
}

fn small(word: &[u8]) -> Result<u32, Token>
    ensures value { (n : ℕ) → numeral_of word.now ≡ Some n → n < 2 ^ 32 → result ≡ Ok n }
    ensures nameless { IfErr result (λ t. number_in t ≡ None) }
{
    match read(word) {
        Numeral::Value(n) => match u32::try_from(n) {
            Ok(n) => Ok(n),
            Err(_) => Err(Token::OutOfRange),
        },
        Numeral::TooLarge => Err(Token::OutOfRange),
        Numeral::Misspelled => Err(Token::Other),
    }
}

/// Returns the token of an offset, given the digits after `offset=`.
pub fn offset(digits: &[u8]) -> Token
    ensures tells { Means result (as_offset (numeral_of digits.now)) }
    ensures nameless { number_in result ≡ None }
{
    match small(digits) {
        Ok(n) => Token::Offset(n),
        Err(token) => token,
    }
}

/// Returns the token of an alignment, given the digits after `align=`.
pub fn alignment(digits: &[u8]) -> Token
    ensures tells { Means result (as_align (numeral_of digits.now)) }
    ensures nameless { number_in result ≡ None }
{
    match small(digits) {
        Ok(n) => Token::Align(n),
        Err(token) => token,
    }
}
