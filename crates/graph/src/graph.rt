//! Graphs.

ghost use Rattle.std.specs.Prelude.{◌≡◌, ◌≢◌, List, IfOk, IfErr, MatchResult};
ghost use Rattle.graph.specs.declared.fault.GraphFault.TheVariants.{OutOfMemory};
ghost use Rattle.graph.specs.inside.Collected.{CanBeSaid, Says};
ghost use Rattle.graph.specs.Entry.{Entry, FitsLimits, IsProper, entries_of, entry_of};
ghost use Rattle.graph.specs.Graph.{IsGraphText, IsWithinLimits};
ghost use Rattle.graph.specs.inside.Read.{AreRead, AreSorted, ReadsNoGraph};
ghost use Rattle.graph.specs.Said.{lines_of};

use crate::collect::{Collected, collect};
use crate::fault::GraphFault;
use crate::fault_lines::{first_duplicate, first_fault};
use crate::partition::sort_by_id;
use crate::pieces::collect_in_threads;
use crate::place::place_edges;
use crate::rising::are_rising;
use crate::spread::place_in_threads;
use crate::vertex::Vertex;
use std::alloc::{AllocError, Global};
use std::marker::Model;
use std::thread::Threads;

/// A directed graph with a value at each vertex and each edge.
///
/// Contracts see it as the list of its vertices by rising id, each with its edges in order.
#[derive(Drop)]
pub struct Graph {
    vertices: Vec<Vertex>,
}

impl Model for Graph {
    ghost use Rattle.std.specs.Prelude.{List};
    ghost use Rattle.graph.specs.Entry.{Entry, FitsLimits, IsProper, entries_of};

    ghost Value = { List Entry };

    ghost view = { λ graph. entries_of graph.vertices.items };

    ghost invariant = { λ graph. IsProper (entries_of graph.vertices.items)
        × FitsLimits (entries_of graph.vertices.items) };
}

impl Graph {
    /// Reads a graph file.
    ///
    /// Lines end with a line feed, with or without a carriage return before it; the last line may have no end. Blank lines
    /// and lines that begin with `#` are skipped. `v ID VALUE` declares a vertex, and `e FROM TO VALUE` an edge, whose ends
    /// may be declared after it. Spaces and tabs separate fields. Ids are decimal digits, up to 9,223,372,036,854,775,807.
    /// Values are decimal digits in the range of an `i64`, with an optional `-`.
    ///
    /// Lines are tried from the top, and the faults of a line in this order: `Line`, `Number`, `OverLimit` (more than
    /// 1,000,000 vertices or 10,000,000 edges), `DuplicateVertex`. `UnknownEnd` comes last, at its first line.
    pub fn read(alloc: Global, text: &str) -> Result<Graph, GraphFault>
        ensures found { IfOk result (λ graph. IsGraphText text.now graph
            × IsWithinLimits text.now) }
        // A text that means a graph within the limits is read, unless memory runs out.
        ensures only { (graph : List Entry) → IsGraphText text.now graph → IsWithinLimits text.now
            → MatchResult result (λ read. read ≡ graph) (λ fault. fault ≡ OutOfMemory) }
    {
        let vertices = joined(alloc, text, collect(alloc, text))?;
        Ok(Graph { vertices })
    }

    /// Reads a graph file as `read` does, and a file of 100,000 bytes or more in threads, one for each processor, at most 16.
    ///
    /// The graph or the error is that of `read`, whatever the number of processors.
    pub fn read_in_threads(
        rt: &(impl Threads + Sync),
        alloc: Global,
        text: &str,
    ) -> Result<Graph, GraphFault>
        ensures found { IfOk result (λ graph. IsGraphText text.now graph
            × IsWithinLimits text.now) }
        // A text that means a graph within the limits is read, unless memory runs out.
        ensures only { (graph : List Entry) → IsGraphText text.now graph → IsWithinLimits text.now
            → MatchResult result (λ read. read ≡ graph) (λ fault. fault ≡ OutOfMemory) }
    {
        let collected = collect_in_threads(rt, alloc, text);
        let vertices = joined_in_threads(rt, alloc, text, collected)?;
        Ok(Graph { vertices })
    }

    /// Returns the vertices, by rising id.
    pub fn vertices(&self) -> &[Vertex]
        ensures same { entries_of result.now ≡ self.now }
        ensures proper { IsProper self.now }
        ensures limits { FitsLimits self.now }
    {
        &self.vertices
    }

    /// Turns the graph into its vertices, by rising id.
    pub fn into_vertices(self) -> Vec<Vertex>
        ensures same { entries_of result.items ≡ self }
        ensures proper { IsProper self }
        ensures limits { FitsLimits self }
    {
        self.vertices
    }

    /// Makes a graph of vertices. They have to be sorted by id, with all ids in range and within the limits of a graph.
    pub fn from_vertices(vertices: Vec<Vertex>) -> Graph
        requires proper { IsProper (entries_of vertices.items) }
        requires limits { FitsLimits (entries_of vertices.items) }
        ensures { result ≡ entries_of vertices.items }
    {
        Graph { vertices }
    }

    /// Copies the graph.
    pub fn copy(&self, alloc: Global) -> Result<Graph, AllocError>
        ensures { IfOk result (λ copy. copy ≡ self.now) }
    {
        let vertices = copied(alloc, &self.vertices)?;
        Ok(Graph { vertices })
    }
}

// Joins the vertices and the edges that were collected of a text.
fn joined(
    alloc: Global,
    text: &str,
    collected: Result<Collected, GraphFault>,
) -> Result<Vec<Vertex>, GraphFault>
    requires says { IfOk collected (λ collected. Says (lines_of text.now) collected) }
    requires only { IfErr collected (λ told. told ≢ OutOfMemory
        → ¬ CanBeSaid (lines_of text.now)) }
    ensures found { IfOk result (λ vertices. AreRead text.now (entries_of vertices.items)) }
    ensures only { IfErr result (λ told. told ≢ OutOfMemory → ReadsNoGraph text.now) }
{
    let mut sorted = sort_collected(alloc, text, collected)?;
    place_edges(alloc, text, &sorted.edges, &mut sorted.vertices)?;
    Ok(sorted.vertices)
}

// Joins the vertices and the edges that were collected of a text, in threads where they are many.
fn joined_in_threads(
    rt: &(impl Threads + Sync),
    alloc: Global,
    text: &str,
    collected: Result<Collected, GraphFault>,
) -> Result<Vec<Vertex>, GraphFault>
    requires says { IfOk collected (λ collected. Says (lines_of text.now) collected) }
    requires only { IfErr collected (λ told. told ≢ OutOfMemory
        → ¬ CanBeSaid (lines_of text.now)) }
    ensures found { IfOk result (λ vertices. AreRead text.now (entries_of vertices.items)) }
    ensures only { IfErr result (λ told. told ≢ OutOfMemory → ReadsNoGraph text.now) }
{
    let mut sorted = sort_collected(alloc, text, collected)?;
    place_in_threads(rt, alloc, text, &sorted.edges, &mut sorted.vertices)?;
    Ok(sorted.vertices)
}

// Sorts the vertices that were collected of a text by id, and checks that none is declared twice.
fn sort_collected(
    alloc: Global,
    text: &str,
    collected: Result<Collected, GraphFault>,
) -> Result<Collected, GraphFault>
    requires says { IfOk collected (λ collected. Says (lines_of text.now) collected) }
    requires only { IfErr collected (λ told. told ≢ OutOfMemory
        → ¬ CanBeSaid (lines_of text.now)) }
    ensures found { IfOk result (AreSorted (lines_of text.now)) }
    ensures only { IfErr result (λ told. told ≢ OutOfMemory → ReadsNoGraph text.now) }
{
    let mut sorted = match collected {
        Ok(collected) => collected,
        Err(fault) => return Err(first_fault(alloc, text, fault)),
    };
    sort_by_id(&mut sorted.vertices);
    if !are_rising(&sorted.vertices) {
        let line = first_duplicate(alloc, text, usize::MAX)?;
        return Err(GraphFault::DuplicateVertex(line.unwrap_or(0)));
    }
    Ok(sorted)
}

fn copied(alloc: Global, vertices: &[Vertex]) -> Result<Vec<Vertex>, AllocError>
    ensures { IfOk result (λ copies. entries_of copies.items ≡ entries_of vertices.now) }
{
    let mut copies = Vec::with_capacity(alloc, vertices.len())?;
    for vertex in vertices {
        let copy = copy_of(alloc, vertex)?;
        copies.push_reserved(copy);
    }
    Ok(copies)
}

fn copy_of(alloc: Global, vertex: &Vertex) -> Result<Vertex, AllocError>
    ensures { IfOk result (λ copy. entry_of copy ≡ entry_of vertex.now) }
{
    let edges = Vec::from_slice(alloc, &vertex.edges)?;
    Ok(Vertex {
        id: vertex.id,
        value: vertex.value,
        edges,
    })
}
