//! The errors of reading a graph file and of printing values.

ghost use Rattle.std.specs.Prelude.{◌≡◌, Some};
ghost use Rattle.graph.specs.Faults.{fault_text};
ghost use Rattle.graph.specs.declared.fault.GraphFault.TheVariants as fault;
ghost use Rattle.graph.specs.declared.fault.PrintFault.TheVariants as print_fault;

use line_text::WriteFailure;
use std::alloc::{AllocError, AllocFailed};
use std::{error, fmt};
use thiserror::Error;

/// An error of a graph file, with the number of its line, counted from 1.
///
/// Of several faults the first line's is reported; on one line they are tried in the order `Line`, `Number`, `OverLimit`,
/// `DuplicateVertex`. `UnknownEnd` is looked for last, in a text without any other fault. A fault is printed as its word and
/// the number of its line.
#[derive(Clone, Copy, Debug)]
pub enum GraphFault {
    /// The line is not blank, no comment, no vertex and no edge.
    Line(usize),
    /// The line declares a vertex that an earlier line declares.
    DuplicateVertex(usize),
    /// No line declares the source or the target of the line's edge.
    UnknownEnd(usize),
    /// A field of the line should be a number in its range, and is none.
    Number(usize),
    /// The line has one vertex or edge more than a graph may have.
    OverLimit(usize),
    /// Memory ran out.
    OutOfMemory,
}

impl fmt::Display for GraphFault {
    ghost output = { λ told. Some (fault_text told) };

    fn fmt<W: fmt::Write>(&self, f: &mut fmt::Formatter<W>) -> fmt::Result {
        match self {
            GraphFault::Line(line) => write!(f, "Line {line}"),
            GraphFault::DuplicateVertex(line) => write!(f, "DuplicateVertex {line}"),
            GraphFault::UnknownEnd(line) => write!(f, "UnknownEnd {line}"),
            GraphFault::Number(line) => write!(f, "Number {line}"),
            GraphFault::OverLimit(line) => write!(f, "OverLimit {line}"),
            GraphFault::OutOfMemory => f.write_str("OutOfMemory -"),
        }
    }
}

impl error::Error for GraphFault {}

impl From<AllocError> for GraphFault {
    ghost from_gives = { λ _ told. told ≡ fault.OutOfMemory };

    fn from(_: AllocError) -> GraphFault {
        GraphFault::OutOfMemory
    }
}

impl<T: Drop> From<AllocFailed<T>> for GraphFault {
    ghost from_gives = { λ _ told. told ≡ fault.OutOfMemory };

    fn from(_: AllocFailed<T>) -> GraphFault {
        GraphFault::OutOfMemory
    }
}

/// An error of printing values, of which some may be printed.
#[derive(Clone, Copy, Debug, Error)]
pub enum PrintFault {
    /// The writer failed.
    #[error("writing failed")]
    Device,
    /// Memory ran out.
    #[error("out of memory")]
    OutOfMemory,
}

impl From<AllocError> for PrintFault {
    ghost from_gives = { λ _ told. told ≡ print_fault.OutOfMemory };

    fn from(_: AllocError) -> PrintFault {
        PrintFault::OutOfMemory
    }
}

impl From<WriteFailure> for PrintFault {
    ghost from_gives = { λ _ told. told ≡ print_fault.Device };

    fn from(_: WriteFailure) -> PrintFault {
        PrintFault::Device
    }
}
