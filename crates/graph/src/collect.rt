//! The vertices and edges that the lines of a text declare.

ghost use Rattle.std.specs.Prelude.{◌≡◌, ◌≢◌, ◌++◌, [], IfOk, IfErr, OnOk};
ghost use Rattle.graph.specs.declared.fault.GraphFault.TheVariants.{OutOfMemory};
ghost use Rattle.graph.specs.inside.Collected.{AddsEdge, AddsLine, AddsVertex, CanBeSaid, IsFullOfEdges, IsFullOfVertices, RefusesLine, Says};
ghost use Rattle.graph.specs.Entry.{entry_of};
ghost use Rattle.graph.specs.Said.{lines_of};

use crate::fault::GraphFault;
use crate::line::{Line, line_of};
use crate::vertex::{Edge, MAX_EDGES, MAX_VERTICES, Vertex};
use std::alloc::{AllocError, Global};

/// The vertices and edges of a text, each in the order of their lines. No vertex has its edges yet.
#[derive(Drop)]
pub struct Collected {
    pub vertices: Vec<Vertex>,
    pub edges: Vec<Edge>,
}

/// Collects the vertices and edges of a text.
///
/// It fails at the first fault other than `DuplicateVertex` and `UnknownEnd`, which it does not look for.
pub fn collect(alloc: Global, text: &str) -> Result<Collected, GraphFault>
    ensures says { IfOk result (λ collected. Says (lines_of text.now) collected) }
    ensures only { IfErr result (λ told. told ≢ OutOfMemory → ¬ CanBeSaid (lines_of text.now)) }
{
    let mut collected = Collected {
        vertices: Vec::new(alloc),
        edges: Vec::new(alloc),
    };
    for (index, line) in text.lines().enumerate() {
        collected.add(alloc, index + 1, line_of(line))?;
    }
    Ok(collected)
}

impl Collected {
    /// Makes an empty one, with room for this number of vertices and of edges.
    pub fn with_capacity(
        alloc: Global,
        vertices: usize,
        edges: usize,
    ) -> Result<Collected, AllocError>
        ensures vertices { IfOk result (λ empty. empty.vertices.items ≡ []) }
        ensures edges { IfOk result (λ empty. empty.edges.items ≡ []) }
    {
        let vertices = Vec::with_capacity(alloc, vertices)?;
        let edges = Vec::with_capacity(alloc, edges)?;
        Ok(Collected { vertices, edges })
    }

    /// Moves the vertices and edges of others to the end.
    pub fn append(&mut self, others: &mut Collected) -> Result<(), AllocError>
        ensures vertices { OnOk result
            (self.new.vertices.items ≡ self.old.vertices.items ++ others.old.vertices.items) }
        ensures edges { OnOk result
            (self.new.edges.items ≡ self.old.edges.items ++ others.old.edges.items) }
    {
        self.vertices.append(&mut others.vertices)?;
        self.edges.append(&mut others.edges)
    }

    // Adds the vertex or the edge of a line, which has this number.
    fn add(&mut self, alloc: Global, number: usize, line: Line) -> Result<(), GraphFault>
        ensures says { OnOk result (AddsLine line self.old self.new) }
        ensures only { IfErr result (λ told. told ≢ OutOfMemory → RefusesLine line self.old) }
    {
        match line {
            Line::Blank => Ok(()),
            Line::Vertex(id, value) => {
                let edges = Vec::new(alloc);
                self.add_vertex(number, Vertex { id, value, edges })
            }
            Line::Edge(from, target, value) => self.add_edge(
                number,
                Edge {
                    from,
                    target,
                    value,
                },
            ),
            Line::BadForm => Err(GraphFault::Line(number)),
            Line::BadNumber => Err(GraphFault::Number(number)),
        }
    }

    fn add_vertex(&mut self, number: usize, vertex: Vertex) -> Result<(), GraphFault>
        ensures added { OnOk result (AddsVertex self.old self.new (entry_of vertex)) }
        ensures only { IfErr result (λ told. told ≢ OutOfMemory → IsFullOfVertices self.old) }
    {
        if self.vertices.len() >= MAX_VERTICES {
            return Err(GraphFault::OverLimit(number));
        }
        self.vertices.push(vertex)?;
        Ok(())
    }

    fn add_edge(&mut self, number: usize, edge: Edge) -> Result<(), GraphFault>
        ensures added { OnOk result (AddsEdge self.old self.new edge) }
        ensures only { IfErr result (λ told. told ≢ OutOfMemory → IsFullOfEdges self.old) }
    {
        if self.edges.len() >= MAX_EDGES {
            return Err(GraphFault::OverLimit(number));
        }
        self.edges.push(edge)?;
        Ok(())
    }
}
