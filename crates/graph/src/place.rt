//! Edges given to their source vertices.

ghost use Rattle.std.specs.Prelude.{◌≡◌, ◌≢◌, ◌<◌, ◌≤◌, ◌-◌, ◌↔◌, IsTrue, MatchOption, length, slice_index, IfErr, IfOk, OnOk};
ghost use Rattle.std.specs.List.{All, Contains};
ghost use Rattle.std.specs.List.Sorted.{IsStrictlyIncreasing};
ghost use Rattle.graph.specs.declared.fault.GraphFault.TheVariants.{OutOfMemory};
ghost use Rattle.graph.specs.Entry.{entries_of, ids};
ghost use Rattle.graph.specs.inside.Placed.{HasEnds, HaveEnds, IsFirstUnknown, IsInSpan, LeavesAt, PlacesEdge, PlacesEdges, StandsAt};

use crate::fault::GraphFault;
use crate::fault_lines::line_of_edge;
use crate::partition::ids_of;
use crate::vertex::{Edge, Vertex};
use std::alloc::{AllocError, Global};

/// Appends to each vertex the edges that leave it, in their order.
///
/// The ids rise. It fails with `UnknownEnd` at the first edge whose source or target is no vertex. The text is the one that
/// has the edges; only its line numbers are looked up.
pub fn place_edges(
    alloc: Global,
    text: &str,
    edges: &[Edge],
    vertices: &mut [Vertex],
) -> Result<(), GraphFault>
    requires { IsStrictlyIncreasing (ids (entries_of vertices.old)) }
    ensures placed { OnOk result (PlacesEdges edges.now vertices.old vertices.new) }
    ensures ends { OnOk result (HaveEnds vertices.old edges.now) }
    ensures only { IfErr result (λ told. told ≢ OutOfMemory
        → ¬ HaveEnds vertices.old edges.now) }
{
    if let Some(place) = unknown_edge(alloc, edges, vertices)? {
        return Err(GraphFault::UnknownEnd(line_of_edge(text, place)));
    }
    place_own(alloc, edges, vertices)?;
    Ok(())
}

// Finds the first edge whose source or target is no vertex.
fn unknown_edge(
    alloc: Global,
    edges: &[Edge],
    vertices: &[Vertex],
) -> Result<Option<usize>, AllocError>
    requires { IsStrictlyIncreasing (ids (entries_of vertices.now)) }
    ensures { IfOk result (λ found. MatchOption found (HaveEnds vertices.now edges.now)
        (IsFirstUnknown (ids (entries_of vertices.now)) edges.now)) }
{
    let ids = vertex_ids(alloc, vertices)?;
    Ok(first_unknown(&ids, edges))
}

/// Finds the first edge whose source or target is not among these ids, which rise.
pub fn first_unknown(ids: &[u64], edges: &[Edge]) -> Option<usize>
    requires { IsStrictlyIncreasing ids.now }
    ensures { MatchOption result (All (HasEnds ids.now) edges.now)
        (IsFirstUnknown ids.now edges.now) }
{
    let mut last = 0;
    for index in 0..edges.len() {
        let Some(source) = source_of(ids, last, edges[index]) else {
            return Some(index);
        };
        last = source;
    }
    None
}

/// Appends to each of these vertices the edges that leave it, in their order. The edges of other vertices are left out.
pub fn place_own(alloc: Global, edges: &[Edge], vertices: &mut [Vertex]) -> Result<(), AllocError>
    requires { IsStrictlyIncreasing (ids (entries_of vertices.old)) }
    ensures { OnOk result (PlacesEdges edges.now vertices.old vertices.new) }
{
    let ids = vertex_ids(alloc, vertices)?;
    make_room(alloc, &ids, edges, vertices)?;
    place_among(&ids, edges, vertices)
}

// Places the edges that leave these vertices, given the vertices' ids.
fn place_among(known: &[u64], edges: &[Edge], vertices: &mut [Vertex]) -> Result<(), AllocError>
    requires rising { IsStrictlyIncreasing known.now }
    requires same { known.now ≡ ids (entries_of vertices.old) }
    ensures { OnOk result (PlacesEdges edges.now vertices.old vertices.new) }
{
    let mut last = 0;
    for index in 0..edges.len() {
        let edge = edges[index];
        let Some(source) = place_near(known, last, edge.from) else {
            continue;
        };
        push_edge(vertices, source, edge)?;
        last = source;
    }
    Ok(())
}

// Makes room for the edges that leave each vertex, so that no list of edges grows while they are placed.
fn make_room(
    alloc: Global,
    ids: &[u64],
    edges: &[Edge],
    vertices: &mut [Vertex],
) -> Result<(), AllocError>
    requires { IsStrictlyIncreasing ids.now }
    ensures { OnOk result (entries_of vertices.new ≡ entries_of vertices.old) }
{
    let counts = counts_of(alloc, ids, edges)?;
    for (index, count) in counts.iter().enumerate() {
        give_room(vertices, index, *count)?;
    }
    Ok(())
}

// Makes room for more edges at the vertex in this place, if there is one.
fn give_room(vertices: &mut [Vertex], place: usize, edges: usize) -> Result<(), AllocError>
    ensures { entries_of vertices.new ≡ entries_of vertices.old }
{
    if place >= vertices.len() {
        return Ok(());
    }
    let vertex = &mut vertices[place];
    vertex.edges.reserve_exact(edges)
}

// Counts the edges that leave the vertex of each id.
fn counts_of(alloc: Global, ids: &[u64], edges: &[Edge]) -> Result<Vec<usize>, AllocError>
    requires { IsStrictlyIncreasing ids.now }
{
    let mut counts = Vec::from_elem(alloc, 0usize, ids.len())?;
    let mut last = 0;
    for edge in edges {
        if let Some(source) = place_near(ids, last, edge.from)
            && let Some(count) = counts.get_mut(source)
        {
            *count = count.saturating_add(1);
            last = source;
        }
    }
    Ok(counts)
}

/// Lists the ids of vertices, in their order.
pub fn vertex_ids(alloc: Global, vertices: &[Vertex]) -> Result<Vec<u64>, AllocError>
    ensures { IfOk result (λ found. found.items ≡ ids (entries_of vertices.now)) }
{
    ids_of(alloc, vertices)
}

// Finds the place of an edge's source, if both ends are among these ids, which rise. The place of the last edge's source
// is `last`.
fn source_of(ids: &[u64], last: usize, edge: Edge) -> Option<usize>
    requires { IsStrictlyIncreasing ids.now }
    ensures { MatchOption result (Contains ids.now edge.from → ¬ Contains ids.now edge.target)
        (LeavesAt ids.now edge) }
{
    place_of(ids, edge.target)?;
    place_near(ids, last, edge.from)
}

// Finds the place of an id among ids that rise. It looks at `last` first, since edges of one vertex mostly follow one
// another.
fn place_near(ids: &[u64], last: usize, id: u64) -> Option<usize>
    requires { IsStrictlyIncreasing ids.now }
    ensures { MatchOption result (¬ Contains ids.now id) (StandsAt ids.now id) }
{
    if last < ids.len() && ids[last] == id {
        return Some(last);
    }
    place_of(ids, id)
}

// Finds the place of an id among ids that rise. Where they have no gap, it needs no search.
fn place_of(ids: &[u64], id: u64) -> Option<usize>
    requires { IsStrictlyIncreasing ids.now }
    ensures { MatchOption result (¬ Contains ids.now id) (StandsAt ids.now id) }
{
    if !is_in_span(ids, id) {
        return None;
    }
    let place = place_without_gaps(ids, id);
    if place < ids.len() && ids[place] == id {
        return Some(place);
    }
    ids.binary_search(&id).ok()
}

// Checks that an id is from the first of these ids to the last.
fn is_in_span(ids: &[u64], id: u64) -> bool
    ensures { IsTrue result ↔ IsInSpan ids.now id }
{
    !ids.is_empty() && ids[0] <= id && id <= ids[ids.len() - 1]
}

// Returns the place that an id has where no id is missing before it.
fn place_without_gaps(ids: &[u64], id: u64) -> usize {
    match ids.first() {
        Some(first) => id.wrapping_sub(*first) as usize,
        None => 0,
    }
}

fn push_edge(vertices: &mut [Vertex], source: usize, edge: Edge) -> Result<(), AllocError>
    requires { source < length vertices.old }
    ensures { OnOk result (PlacesEdge source vertices.old vertices.new edge) }
{
    let vertex = &mut vertices[source];
    vertex.edges.push((edge.target, edge.value))?;
    Ok(())
}
