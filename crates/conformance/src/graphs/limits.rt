//! The limits of a graph. `2 vertices, 5 edges` prints the size of the graph of such a text, or why there is none. With `,
//! vertex 0 again on line 2` that line declares vertex 0 instead of its own. It prints `no number` if a
//! count cannot be read.

use conformance_cases::{Line, halves};
use graph::{Graph, Vertex};
use std::alloc::{AllocError, Global};

/// Writes the size of the graph that a case counts out.
pub fn answer(alloc: Global, case: &str, line: &mut Line) {
    let (counts, again) = case
        .split_once(", vertex 0 again on line ")
        .unwrap_or((case, "1"));
    let (vertices, edges) = halves(counts, ", ");
    let counts = (
        count_before(vertices, " vertices"),
        count_before(edges, " edges"),
        count_before(again, ""),
    );
    let (Some(vertices), Some(edges), Some(again)) = counts else {
        return line.put("no number");
    };
    match text_of(alloc, vertices, edges, again) {
        Ok(text) => tell(alloc, text.as_str(), line),
        Err(_) => line.cut(),
    }
}

fn count_before(text: &str, unit: &str) -> Option<u64> {
    text.strip_suffix(unit).unwrap_or(text).parse().ok()
}

// Writes a text with these vertices from 0 on, of which the one on line `again` is 0, and these edges from 0 to itself.
fn text_of(alloc: Global, vertices: u64, edges: u64, again: u64) -> Result<String, AllocError> {
    let mut text = Line::new(alloc);
    for line in 0..vertices {
        let id = if line + 1 == again { 0 } else { line };
        text.add("v ", &id);
        text.put(" 0\n");
    }
    for _ in 0..edges {
        text.put("e 0 0 0\n");
    }
    text.finish()
}

fn tell(alloc: Global, text: &str, line: &mut Line) {
    match Graph::read(alloc, text) {
        Ok(graph) => tell_sizes(graph.vertices(), line),
        Err(fault) => line.show(&fault),
    }
}

fn tell_sizes(vertices: &[Vertex], line: &mut Line) {
    let edges = match vertices {
        [first, ..] => first.edges.len(),
        [] => 0,
    };
    line.show(&vertices.len());
    line.add(" vertices, ", &edges);
    line.put(" edges from the first");
}
