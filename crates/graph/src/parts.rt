//! The parts of a graph.

ghost use Rattle.std.specs.Prelude.{◌≡◌, ◌<◌, List, IfOk, map};
ghost use Rattle.std.specs.List.Sorted.{IsPermutation};
ghost use Rattle.graph.specs.Entry.{Entry, IsProper, entries_of, parts_of};
ghost use Rattle.graph.specs.Parts.{AreParts, all_entries, part_entries};

use crate::graph::Graph;
use crate::partition::{cut_by_id, sort_by_id};
use crate::vertex::Vertex;
use std::alloc::{AllocError, Global};

/// A part of a graph: some of its vertices, with all edges from them.
#[derive(Drop)]
pub struct Part {
    /// The vertices, by rising id.
    pub vertices: Vec<Vertex>,
}

/// Splits a graph into parts, some of which may be empty. The edges are moved, not copied.
pub fn split(alloc: Global, graph: Graph, parts: u32) -> Result<Vec<Part>, AllocError>
    requires { 0 < parts }
    ensures parts { IfOk result (λ split. map part_entries split.items ≡ parts_of parts graph) }
    ensures whole { IfOk result (λ split. IsPermutation (all_entries split.items) graph) }
{
    let mut split = Vec::with_capacity(alloc, parts as usize)?;
    for vertices in cut_by_id(alloc, graph.into_vertices(), parts)? {
        split.push(Part { vertices })?;
    }
    Ok(split)
}

/// Joins the parts of a graph, given in any order. The edges are moved, not copied.
pub fn join(alloc: Global, parts: Vec<Part>) -> Result<Graph, AllocError>
    requires { AreParts parts.items }
    ensures { (graph : List Entry) → IsProper graph → IsPermutation (all_entries parts.items) graph
        → IfOk result (λ joined. joined ≡ graph) }
{
    let mut vertices = together(alloc, parts)?;
    sort_by_id(&mut vertices);
    Ok(Graph::from_vertices(vertices))
}

// Concatenates the vertices of all parts.
fn together(alloc: Global, parts: Vec<Part>) -> Result<Vec<Vertex>, AllocError>
    ensures { IfOk result (λ vertices. entries_of vertices.items ≡ all_entries parts.items) }
{
    let mut vertices = Vec::new(alloc);
    for part in parts {
        let mut others = part.vertices;
        vertices.append(&mut others)?;
    }
    Ok(vertices)
}
