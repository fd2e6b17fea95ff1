//! Matrix Market files.

ghost use Rattle.std.specs.Prelude.{◌≡◌, ◌≤◌, IfOk, OnOk, codes, nat_eq};
ghost use Rattle.std.specs.List.{starts_with};

use graph::edge_list::{Edges, Form, Line, line_of};
use graph::{GraphFault, MAX_VERTICES};
use line_text::Fields;

/// The first line of a matrix.
#[derive(Clone, Copy)]
pub struct Head {
    /// Whether each entry has a value.
    pub has_values: bool,
    /// Whether each entry is also the entry across the diagonal.
    pub is_symmetric: bool,
}

/// Checks whether a text is a Matrix Market file.
#[tactic(auto, using(std::proofs::lemmas::Str::Pattern::starts_text))]
pub fn is_matrix(text: &str) -> bool
    ensures { result ≡ starts_with nat_eq text.now (codes "%%MatrixMarket") }
{
    text.starts_with("%%MatrixMarket")
}

/// Reads the first line: `%%MatrixMarket matrix coordinate`, then `pattern` or `integer`, then `general` or `symmetric`.
pub fn head_of(text: &str) -> Option<Head> {
    let first = text.lines().next()?;
    let mut fields = Fields::new(first);
    let (_, object, format) = (fields.next()?, fields.next()?, fields.next()?);
    let (field, symmetry) = (fields.next()?, fields.next()?);
    if !object.eq_ignore_ascii_case(b"matrix") || !format.eq_ignore_ascii_case(b"coordinate") {
        return None;
    }
    let has_values = either(field, b"integer", b"pattern")?;
    let is_symmetric = either(symmetry, b"symmetric", b"general")?;
    Some(Head {
        has_values,
        is_symmetric,
    })
}

// Checks whether a word is the first or the second of two, in upper or lower case. Any other word gives `None`.
fn either(word: &[u8], first: &[u8], second: &[u8]) -> Option<bool> {
    if word.eq_ignore_ascii_case(first) {
        return Some(true);
    }
    if word.eq_ignore_ascii_case(second) {
        return Some(false);
    }
    None
}

// The size of a square matrix: its number of rows, and the number of entries still to come.
#[derive(Clone, Copy)]
struct Size {
    side: u64,
    entries: u64,
    ghost small: { side ≤ 1000000 },
}

/// Reads the entries of a square matrix. Each is an edge from its row to its column. Returns the number of rows.
pub fn read_matrix(
    text: &str,
    head: Head,
    weight: Option<i64>,
    edges: &mut Edges,
) -> Result<u64, GraphFault>
    ensures small { IfOk result (λ side. side ≤ 1000000) }
    ensures most { OnOk result (edges.new.most ≡ edges.old.most) }
{
    let form = Form {
        takes_value: head.has_values,
        needs_value: head.has_values,
        weight,
    };
    let mut size: Option<Size> = None;
    let mut last = 1;
    for (index, line) in text.lines().enumerate() {
        last = index + 1;
        size = match size {
            None => size_in(line, last)?,
            Some(size) => Some(read_entry(line, last, form, size, edges)?),
        };
    }
    match size {
        Some(size) if size.entries == 0 => Ok(size.side),
        _ => Err(GraphFault::Line(last)),
    }
}

// Reads the line with the size, unless it is blank or a comment.
fn size_in(line: &str, number: usize) -> Result<Option<Size>, GraphFault> {
    let form = Form {
        takes_value: true,
        needs_value: true,
        weight: None,
    };
    match line_of(line, form) {
        Line::Blank => Ok(None),
        Line::Said(size) => {
            if size.from != size.target {
                return Err(GraphFault::Line(number));
            }
            if size.value < 0 {
                return Err(GraphFault::Number(number));
            }
            if size.from > MAX_VERTICES as u64 {
                return Err(GraphFault::OverLimit(number));
            }
            Ok(Some(Size {
                side: size.from,
                entries: size.value.unsigned_abs(),
            }))
        }
        Line::BadForm => Err(GraphFault::Line(number)),
        Line::BadNumber => Err(GraphFault::Number(number)),
    }
}

// Reads the entry of a line, if it has one. Returns the size with the entries still to come.
fn read_entry(
    line: &str,
    number: usize,
    form: Form,
    size: Size,
    edges: &mut Edges,
) -> Result<Size, GraphFault>
    ensures { OnOk result (edges.new.most ≡ edges.old.most) }
{
    let said = line_of(line, form);
    let Line::Said(edge) = said else {
        edges.add_line(number, said)?;
        return Ok(size);
    };
    if size.entries == 0 {
        return Err(GraphFault::Line(number));
    }
    if edge.from == 0 || edge.target == 0 || edge.from > size.side || edge.target > size.side {
        return Err(GraphFault::UnknownEnd(number));
    }
    edges.add(number, edge)?;
    Ok(Size {
        side: size.side,
        entries: size.entries - 1,
    })
}
