//! One line of a graph file.

ghost use Rattle.std.specs.Prelude.{◌≡◌};
ghost use Rattle.graph.specs.Line.{edge_fields, line_of, vertex_fields};

use line_text::{Fields, id_of, number_of};

/// The meaning of a line.
#[derive(Clone, Copy)]
pub enum Line {
    /// The line is blank, or a comment.
    Blank,
    /// `v ID VALUE`.
    Vertex(u64, i64),
    /// `e FROM TO VALUE`.
    Edge(u64, u64, i64),
    /// The line has none of these forms.
    BadForm,
    /// The line is of the form of a vertex or an edge, and one of its numbers is none, or out of its range.
    BadNumber,
}

/// Reads a line, given without its end.
pub fn line_of(line: &str) -> Line
    ensures { result ≡ line_of line.now }
{
    if line.starts_with('#') {
        return Line::Blank;
    }
    let mut fields = Fields::new(line);
    let Some(name) = fields.next() else {
        return Line::Blank;
    };
    let (Some(first), Some(second)) = (fields.next(), fields.next()) else {
        return Line::BadForm;
    };
    let Some(third) = fields.next() else {
        return vertex_line(name, first, second);
    };
    if fields.next().is_some() {
        return Line::BadForm;
    }
    edge_line(name, first, second, third)
}

fn vertex_line(name: &[u8], id: &[u8], value: &[u8]) -> Line
    ensures { result ≡ vertex_fields name.now id.now value.now }
{
    if name != b"v".as_slice() {
        return Line::BadForm;
    }
    match (id_of(id), number_of(value)) {
        (Some(id), Some(value)) => Line::Vertex(id, value),
        _ => Line::BadNumber,
    }
}

fn edge_line(name: &[u8], from: &[u8], target: &[u8], value: &[u8]) -> Line
    ensures { result ≡ edge_fields name.now from.now target.now value.now }
{
    if name != b"e".as_slice() {
        return Line::BadForm;
    }
    match (id_of(from), id_of(target), number_of(value)) {
        (Some(from), Some(target), Some(value)) => Line::Edge(from, target, value),
        _ => Line::BadNumber,
    }
}
