//! Places in a text or in bytes.

use line_text::TextBuilder;
use sources::Source;
use std::alloc::{AllocError, Global};
use wat_asm::Position;

// The number of characters of a line before the place, and of all that are shown.
const BEFORE_COLUMN: usize = 60;

const SHOWN_COLUMNS: usize = 120;

// The number of bytes before the place, and of all that are shown.
const BEFORE_BYTE: usize = 8;

const SHOWN_BYTES: usize = 17;

/// Shows the line of a place in a text, and under it a mark at the column. Of a long line only the part around the
/// place is shown. Tabs and other control characters are shown as blanks. Nothing is shown without a text.
pub fn position_text(
    alloc: Global,
    source: Option<&Source>,
    place: Position,
) -> Result<String, AllocError> {
    let mut text = TextBuilder::new(alloc);
    if let Some(Source::Text(source)) = source {
        push_position(&mut text, source.as_str(), place);
    }
    text.finish()
}

fn push_position(text: &mut TextBuilder, source: &str, place: Position) {
    let Some(line) = source.lines().nth(place.line.saturating_sub(1)) else {
        return;
    };
    let column = place.column.saturating_sub(1);
    let from = column.saturating_sub(BEFORE_COLUMN);
    text.put("\nLine ");
    text.show(&place.line);
    text.put(", column ");
    text.show(&place.column);
    text.put(":\n");
    push_letters(text, line, from);
    push_mark(text, column - from);
}

// Appends the characters of a line to a text, from this one on.
fn push_letters(text: &mut TextBuilder, line: &str, from: usize) {
    text.put("  ");
    for letter in line.chars().skip(from).take(SHOWN_COLUMNS) {
        let letter = if letter < ' ' { ' ' } else { letter };
        text.show(&letter);
    }
    text.put("\n");
}

// Appends a line with a mark to a text, after this many blanks.
fn push_mark(text: &mut TextBuilder, blanks: usize) {
    text.put("  ");
    for _ in 0..blanks {
        text.put(" ");
    }
    text.put("^\n");
}

/// Shows the bytes around a place as hexadecimal digits, and under them a mark at the place. Nothing is shown without
/// bytes there.
pub fn byte_text(
    alloc: Global,
    source: Option<&Source>,
    place: usize,
) -> Result<String, AllocError> {
    let mut text = TextBuilder::new(alloc);
    if let Some(Source::Binary(bytes)) = source {
        push_bytes(&mut text, bytes.as_slice(), place);
    }
    text.finish()
}

fn push_bytes(text: &mut TextBuilder, bytes: &[u8], place: usize) {
    if place >= bytes.len() {
        return;
    }
    let from = place.saturating_sub(BEFORE_BYTE);
    text.put("\nThe bytes around ");
    text.show(&place);
    text.put(", counted from 0:\n");
    push_digits(text, bytes, from);
    push_mark(text, 3 * (place - from));
}

// Appends bytes to a text, from this one on.
fn push_digits(text: &mut TextBuilder, bytes: &[u8], from: usize) {
    text.put(" ");
    for byte in bytes.iter().skip(from).take(SHOWN_BYTES) {
        text.show(&format_args!(" {byte:02X}"));
    }
    text.put("\n");
}

/// Shows the calls of functions, each of which calls the next one, and the last the first.
pub fn cycle_text(alloc: Global, functions: &[u32]) -> Result<String, AllocError> {
    let mut text = TextBuilder::new(alloc);
    text.put("\nThe calls: ");
    for function in functions {
        text.show(function);
        text.put(" -> ");
    }
    if let Some(function) = functions.first() {
        text.show(function);
        text.put("\n");
    }
    text.finish()
}
