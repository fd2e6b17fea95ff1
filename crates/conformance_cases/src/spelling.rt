//! How cases are spelled, one on a line.

use crate::line::Line;
use std::alloc::{AllocError, Global};

/// Returns whether a line is a case. Blank lines and lines that begin with `#` are none.
pub fn is_case(line: &str) -> bool {
    !line.trim().is_empty() && !line.starts_with('#')
}

/// Splits a text at the first gap. If it has no gap, the second half is empty.
pub fn halves<'a>(text: &'a str, gap: &str) -> (&'a str, &'a str) {
    text.split_once(gap).unwrap_or((text, ""))
}

/// Splits a line into the case's name, and the text after the first `: `.
pub fn named(line: &str) -> (&str, &str) {
    halves(line, ": ")
}

/// Spells out a line: `↵`, `␍`, `⇥`, `␌` and `⍽` are LF, CR, a tab, a form feed and a no-break space, and `⟦N|TEXT⟧` is
/// TEXT, N times.
pub fn spelled(alloc: Global, line: &str) -> Result<String, AllocError> {
    let mut text = Line::new(alloc);
    spell(line, &mut text);
    text.finish()
}

fn spell(line: &str, text: &mut Line) {
    let (before, others) = halves(line, "⟦");
    append(before, text);
    for part in others.split('⟦') {
        spell_part(part, text);
    }
}

// Spells out the repeated text, if a bracket ends it, and the text after it.
fn spell_part(part: &str, text: &mut Line) {
    let Some((repeated, rest)) = part.split_once('⟧') else {
        return append(part, text);
    };
    repeat(repeated, text);
    append(rest, text);
}

fn repeat(repeated: &str, text: &mut Line) {
    let (count, part) = repeated.split_once('|').unwrap_or(("1", repeated));
    for _ in 0..count.parse::<u32>().unwrap_or(0) {
        append(part, text);
    }
}

fn append(part: &str, text: &mut Line) {
    for character in part.chars() {
        text.push(meant(character));
    }
}

// Returns the character that this one means.
fn meant(character: char) -> char {
    match character {
        '↵' => '\n',
        '␍' => '\r',
        '⇥' => '\t',
        '␌' => '\u{c}',
        '⍽' => '\u{a0}',
        _ => character,
    }
}

/// Reads bytes, two hexadecimal digits each, with blanks between them and `⟦N|..⟧` for N times.
pub fn bytes(alloc: Global, line: &str) -> Result<Vec<u8>, AllocError> {
    let text = spelled(alloc, line)?;
    bytes_of_words(alloc, text.as_str())
}

fn bytes_of_words(alloc: Global, text: &str) -> Result<Vec<u8>, AllocError> {
    let mut bytes = Vec::new(alloc);
    for word in text.split_ascii_whitespace() {
        push_digits(word, &mut bytes)?;
    }
    Ok(bytes)
}

/// Appends the bytes of a word of hexadecimal digits.
pub fn push_digits(word: &str, bytes: &mut Vec<u8>) -> Result<(), AllocError> {
    for pair in word.as_bytes().chunks(2) {
        bytes.push(byte_of(pair))?;
    }
    Ok(())
}

// Returns the byte of two digits, or of one.
fn byte_of(digits: &[u8]) -> u8 {
    match digits {
        [first, second] => (digit_of(*first) << 4) | digit_of(*second),
        [only] => digit_of(*only),
        _ => 0,
    }
}

// Returns the value of a digit, and 0 for any other byte.
fn digit_of(digit: u8) -> u8 {
    match digit {
        b'0'..=b'9' => digit - b'0',
        b'a'..=b'f' => digit - b'a' + 10,
        b'A'..=b'F' => digit - b'A' + 10,
        _ => 0,
    }
}
