//! The graphs of texts: `NAME: TEXT` prints the graph, or why there is none.

use super::tell_vertices;
use conformance_cases::Line;
use graph::Graph;
use std::alloc::Global;

/// Writes the graph of a text.
pub fn answer(alloc: Global, text: &str, line: &mut Line) {
    match Graph::read(alloc, text) {
        Ok(graph) => tell_vertices(graph.vertices(), line),
        Err(fault) => line.show(&fault),
    }
}
