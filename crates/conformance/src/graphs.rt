//! Graph files: the graphs of texts, their limits, the parts of graphs, and printed values.

pub mod fields;
pub mod limits;
pub mod parts;
pub mod texts;
pub mod values;

use conformance_cases::Line;
use graph::Vertex;

/// Writes vertices: `ID VALUE`, and `TARGET:VALUE` for each edge, with `;` between vertices.
pub fn tell_vertices(vertices: &[Vertex], line: &mut Line) {
    if vertices.is_empty() {
        line.put("no vertices");
    }
    for (place, vertex) in vertices.iter().enumerate() {
        line.put(if place == 0 { "" } else { "; " });
        line.show(&vertex.id);
        line.add(" ", &vertex.value);
        tell_edges(&vertex.edges, line);
    }
}

/// Writes edges.
pub fn tell_edges(edges: &[(u64, i64)], line: &mut Line) {
    for (target, value) in edges {
        line.add(" ", target);
        line.add(":", value);
    }
}
