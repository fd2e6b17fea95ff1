//! The line numbers of faults. The lines are read again, so that a graph without a fault keeps no line numbers.

ghost use Rattle.std.specs.Prelude.{◌≡◌};
ghost use Rattle.graph.specs.declared.fault.GraphFault.TheVariants.{OutOfMemory};

use crate::fault::GraphFault;
use crate::line::{Line, line_of};
use std::alloc::{AllocError, Global};

/// Returns the line of the edge that has this many edges before it, or 0 where there is none.
pub fn line_of_edge(text: &str, before: usize) -> usize {
    let mut left = before;
    let mut number = 0usize;
    for line in text.lines() {
        number = number.saturating_add(1);
        if let Line::Edge(..) = line_of(line) {
            if left == 0 {
                return number;
            }
            left -= 1;
        }
    }
    0
}

/// Returns the first fault of a text: this one, or a vertex that is declared twice before its line.
pub fn first_fault(alloc: Global, text: &str, fault: GraphFault) -> GraphFault
    ensures { fault ≡ OutOfMemory → result ≡ OutOfMemory }
{
    let before = match fault {
        GraphFault::Line(line) | GraphFault::Number(line) | GraphFault::OverLimit(line) => line,
        _ => return fault,
    };
    match first_duplicate(alloc, text, before) {
        Ok(Some(line)) => GraphFault::DuplicateVertex(line),
        Ok(None) => fault,
        Err(_) => GraphFault::OutOfMemory,
    }
}

/// Returns the first line before this one that declares a vertex again.
pub fn first_duplicate(
    alloc: Global,
    text: &str,
    before: usize,
) -> Result<Option<usize>, AllocError> {
    let mut declared = declared_before(alloc, text, before)?;
    declared.sort_unstable();
    let mut first: Option<usize> = None;
    for index in 1..declared.len() {
        let (id, line) = declared[index];
        if declared[index - 1].0 == id {
            first = Some(earlier(first, line));
        }
    }
    Ok(first)
}

// Returns the first of two lines, of which there may be only one.
fn earlier(first: Option<usize>, line: usize) -> usize {
    match first {
        Some(first) => first.min(line),
        None => line,
    }
}

// Lists the ids that earlier lines declare, each with its line.
fn declared_before(
    alloc: Global,
    text: &str,
    before: usize,
) -> Result<Vec<(u64, usize)>, AllocError> {
    let mut declared = Vec::new(alloc);
    let mut number = 0usize;
    for line in text.lines() {
        number = number.saturating_add(1);
        if number >= before {
            break;
        }
        if let Line::Vertex(id, _) = line_of(line) {
            declared.push((id, number))?;
        }
    }
    Ok(declared)
}
