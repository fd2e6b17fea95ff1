//! One line of an edge list.

ghost use Rattle.std.specs.Prelude.{◌≡◌};
ghost use Rattle.line_text.specs.Number.{id_of};
ghost use Rattle.graph.specs.edge_list.Line.{bare_edge, edge_between, is_comment, line_of, value_in, valued_edge};
ghost use Rattle.graph.specs.inside.Adding.{SaysInRange};

use crate::vertex::Edge;
use line_text::{Fields, id_of, number_of};

/// The form of a file's lines, beside the two ends of an edge.
#[derive(Clone, Copy)]
pub struct Form {
    /// Whether a line may have a third field, the value.
    pub takes_value: bool,
    /// Whether a line has to have a third field.
    pub needs_value: bool,
    /// The value of every edge, in place of its line's.
    pub weight: Option<i64>,
}

/// The meaning of a line.
#[derive(Clone, Copy)]
pub enum Line {
    /// The line is blank, or a comment.
    Blank,
    /// An edge.
    Said(Edge),
    /// The line has the wrong number of fields.
    BadForm,
    /// The line has the right number of fields, and one of them is no number in its range.
    BadNumber,
}

/// Reads a line, given without its end.
pub fn line_of(line: &str, form: Form) -> Line
    ensures said { result ≡ line_of form line.now }
    ensures in_range { SaysInRange result }
{
    if is_comment(line) {
        return Line::Blank;
    }
    let mut fields = Fields::new(line);
    let Some(from) = fields.next() else {
        return Line::Blank;
    };
    let Some(target) = fields.next() else {
        return Line::BadForm;
    };
    let Some(value) = fields.next() else {
        return bare_edge(from, target, form);
    };
    if fields.next().is_some() {
        return Line::BadForm;
    }
    valued_edge(from, target, value, form)
}

/// Checks whether a line is a comment: it begins with `#` or `%`.
pub fn is_comment(line: &str) -> bool
    ensures { result ≡ is_comment line.now }
{
    match line.as_bytes() {
        [first, ..] => *first == b'#' || *first == b'%',
        [] => false,
    }
}

// Reads the edge of a line that has only the two ends.
fn bare_edge(from: &[u8], target: &[u8], form: Form) -> Line
    ensures said { result ≡ bare_edge form from.now target.now }
    ensures in_range { SaysInRange result }
{
    if form.needs_value {
        return Line::BadForm;
    }
    edge_between(from, target, Some(form.weight.unwrap_or(1)))
}

// Reads the edge of a line that has a value.
fn valued_edge(from: &[u8], target: &[u8], value: &[u8], form: Form) -> Line
    ensures said { result ≡ valued_edge form from.now target.now value.now }
    ensures in_range { SaysInRange result }
{
    if !form.takes_value {
        return Line::BadForm;
    }
    edge_between(from, target, value_in(value, form.weight))
}

// Returns the value of every edge, or else reads the field.
fn value_in(value: &[u8], weight: Option<i64>) -> Option<i64>
    ensures { result ≡ value_in weight value.now }
{
    match weight {
        Some(weight) => Some(weight),
        None => number_of(value),
    }
}

/// Reads the ends of an edge that has this value.
pub fn edge_between(from: &[u8], target: &[u8], value: Option<i64>) -> Line
    ensures said { result ≡ edge_between (id_of from.now) (id_of target.now) value }
    ensures in_range { SaysInRange result }
{
    match (id_of(from), id_of(target), value) {
        (Some(from), Some(target), Some(value)) => Line::Said(Edge {
            from,
            target,
            value,
        }),
        _ => Line::BadNumber,
    }
}
