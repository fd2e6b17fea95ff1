//! One line of an input.

ghost use Rattle.std.specs.Prelude.{◌≡◌};
ghost use Rattle.call_lines.specs.InputLine.{line_of, long_line, short_line, u32_of};

use line_text::{Fields, id_of, number_of};

/// The meaning of a line.
#[derive(Clone, Copy)]
pub enum Line {
    /// It is blank or a comment.
    Skipped,
    /// `id N`.
    Id(u64),
    /// `superstep N`.
    Superstep(u32),
    /// `count N`.
    Count(u32),
    /// `value V`.
    Value(i64),
    /// `message V`.
    Message(i64),
    /// `edge TARGET V`.
    Edge(u64, i64),
    /// `aggregate SLOT V`. The number may be past the last aggregator.
    Aggregate(u32, i64),
    /// It is no line of an input.
    Bad,
}

/// Reads a line, without its line feed.
pub fn line_of(line: &str) -> Line
    ensures { result ≡ line_of line.now }
{
    if line.starts_with('#') {
        return Line::Skipped;
    }
    let mut fields = Fields::new(line);
    let Some(name) = fields.next() else {
        return Line::Skipped;
    };
    let Some(first) = fields.next() else {
        return Line::Bad;
    };
    let Some(second) = fields.next() else {
        return short_line(name, first);
    };
    if fields.next().is_some() {
        return Line::Bad;
    }
    long_line(name, first, second)
}

// Reads a line of a name and one number.
fn short_line(name: &[u8], number: &[u8]) -> Line
    ensures { result ≡ short_line name.now number.now }
{
    if name == b"id".as_slice() {
        return id_of(number).map_or(Line::Bad, Line::Id);
    }
    if name == b"superstep".as_slice() {
        return u32_of(number).map_or(Line::Bad, Line::Superstep);
    }
    if name == b"count".as_slice() {
        return u32_of(number).map_or(Line::Bad, Line::Count);
    }
    if name == b"value".as_slice() {
        return number_of(number).map_or(Line::Bad, Line::Value);
    }
    if name == b"message".as_slice() {
        return number_of(number).map_or(Line::Bad, Line::Message);
    }
    Line::Bad
}

// Reads a line of a name and two numbers.
fn long_line(name: &[u8], first: &[u8], second: &[u8]) -> Line
    ensures { result ≡ long_line name.now first.now second.now }
{
    let Some(value) = number_of(second) else {
        return Line::Bad;
    };
    if name == b"edge".as_slice() {
        return id_of(first).map_or(Line::Bad, |target| Line::Edge(target, value));
    }
    if name == b"aggregate".as_slice() {
        return u32_of(first).map_or(Line::Bad, |aggregator| Line::Aggregate(aggregator, value));
    }
    Line::Bad
}

/// Reads decimal digits as a number of 32 bits.
pub fn u32_of(field: &[u8]) -> Option<u32>
    ensures { result ≡ u32_of field.now }
{
    let number = id_of(field)?;
    u32::try_from(number).ok()
}
