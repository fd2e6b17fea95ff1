//! Printing of a graph.

ghost use Rattle.std.specs.Prelude.{◌≡◌, ◌++◌, IfOk, OnOk, map, string_bytes};
ghost use Rattle.graph.specs.Print.{value_lines};
ghost use Rattle.conversions.specs.graph_import.Graph.{edge_lines, graph_text, value_at, valued};

use graph::{Edge, push_value_line};
use std::alloc::{AllocError, Global};

/// The values of vertices.
#[derive(Clone, Copy)]
pub struct Values {
    /// The vertex whose value is 0, if there is one.
    pub source: Option<u64>,
    /// The value of any other.
    pub other: i64,
}

impl Values {
    /// Returns the value of a vertex.
    pub fn at(self, id: u64) -> i64
        ensures { result ≡ value_at self id }
    {
        match self.source {
            Some(source) if source == id => 0,
            _ => self.other,
        }
    }
}

/// Prints a graph: a line for each vertex, and then one for each edge.
pub fn text_of(
    alloc: Global,
    ids: &[u64],
    values: Values,
    edges: &[Edge],
) -> Result<String, AllocError>
    ensures { IfOk result
        (λ text. string_bytes text ≡ graph_text (map (valued values) ids.now) edges.now) }
{
    let mut text = String::new(alloc);
    put_vertices(&mut text, ids, values)?;
    put_edges(&mut text, edges)?;
    Ok(text)
}

fn put_vertices(text: &mut String, ids: &[u64], values: Values) -> Result<(), AllocError>
    ensures { OnOk result (string_bytes text.new
        ≡ string_bytes text.old ++ value_lines (map (valued values) ids.now)) }
{
    for id in ids {
        push_value_line(text, *id, values.at(*id))?;
    }
    Ok(())
}

fn put_edges(text: &mut String, edges: &[Edge]) -> Result<(), AllocError>
    ensures { OnOk result
        (string_bytes text.new ≡ string_bytes text.old ++ edge_lines edges.now) }
{
    for edge in edges {
        writeln!(text, "e {} {} {}", edge.from, edge.target, edge.value)?;
    }
    Ok(())
}
