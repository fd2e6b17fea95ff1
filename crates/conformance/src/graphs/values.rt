//! Printed values. `NAME: CALLS | TEXT` prints the values of a text's graph to a writer, and shows what the writer took,
//! with `↵` for each line feed, and the fault if there is one.
//!
//! The words before `|` say what each call of the writer does: it takes at most so many bytes, it is `interrupted`, or it
//! `fails`. Each later call takes all bytes.

ghost use Rattle.std.specs.Prelude.{◌≡◌, IfOk, map};
ghost use Rattle.graph.specs.Entry.{IsProper, entries_of};

use conformance_cases::{Line, halves};
use graph::{Graph, PrintFault, Vertex, print_values};
use std::alloc::{AllocError, Global};
use std::io::{self, ErrorKind, Write};

/// A writer, and the words of its next calls.
#[derive(Drop)]
struct Device<'a> {
    calls: &'a str,
    taken: Vec<u8>,
}

impl Write for Device<'_> {
    fn write(&mut self, bytes: &[u8]) -> io::Result<usize> {
        let (call, rest) = halves(self.calls, " ");
        self.calls = rest;
        let most = match call {
            "" => bytes.len(),
            "interrupted" => return Err(ErrorKind::Interrupted.into()),
            "fails" => return Err(ErrorKind::Other.into()),
            _ => call.parse::<usize>().unwrap_or(0),
        };
        let count = bytes.len().min(most);
        self.taken.extend_from_slice(&bytes[..count])?;
        Ok(count)
    }

    fn flush(&mut self) -> io::Result<()> {
        Ok(())
    }
}

/// Writes what a writer takes of the values of a text's graph.
pub fn answer(alloc: Global, case: &str, line: &mut Line) {
    let (calls, text) = case.split_once('|').unwrap_or(("", case));
    match Graph::read(alloc, text.trim_start()) {
        Ok(graph) => {
            if print(alloc, calls.trim(), graph.vertices(), line).is_err() {
                line.cut();
            }
        }
        Err(fault) => line.show(&fault),
    }
}

fn print(alloc: Global, calls: &str, vertices: &[Vertex], line: &mut Line) -> Result<(), AllocError>
    requires { IsProper (entries_of vertices.now) }
{
    let values = values_of(alloc, vertices)?;
    let mut device = Device {
        calls,
        taken: Vec::new(alloc),
    };
    let outcome = print_values(alloc, &values, &mut device);
    tell(&device.taken, outcome, line);
    Ok(())
}

// Returns the vertices without their edges.
fn values_of(alloc: Global, vertices: &[Vertex]) -> Result<Vec<(u64, i64)>, AllocError>
    ensures { IfOk result (λ values.
        values.items ≡ map (λ vertex. (vertex.id, vertex.value)) vertices.now) }
{
    vertices
        .iter()
        .map(|vertex| (vertex.id, vertex.value))
        .collect(alloc)
}

fn tell(taken: &[u8], outcome: Result<(), PrintFault>, line: &mut Line) {
    line.put("\"");
    line.put_lines(str::from_utf8(taken).unwrap_or("no text"), "↵");
    line.put("\"");
    if let Err(fault) = outcome {
        line.add(", ", &fault);
    }
}
