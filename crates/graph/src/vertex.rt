//! Vertices and edges.

use crate::partition::Identified;

/// The greatest number of vertices of a graph.
pub const MAX_VERTICES: usize = 1_000_000;

/// The greatest number of edges of a graph.
pub const MAX_EDGES: usize = 10_000_000;

/// A vertex with its value and the edges from it.
#[derive(Drop)]
pub struct Vertex {
    /// The vertex's id. In a graph it is from 0 to 9,223,372,036,854,775,807.
    pub id: u64,
    /// The vertex's value.
    pub value: i64,
    /// The edges from it, each with its target and its value, in the order of their lines.
    pub edges: Vec<(u64, i64)>,
}

impl Identified for Vertex {
    ghost id = { λ vertex. vertex.id };

    fn id(&self) -> u64 {
        self.id
    }
}

/// An edge, as a line declares it.
#[derive(Clone, Copy)]
pub struct Edge {
    /// The id of its source.
    pub from: u64,
    /// The id of its target.
    pub target: u64,
    /// The edge's value.
    pub value: i64,
}
