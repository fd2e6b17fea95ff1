//! Edges given to their source vertices in threads, each of which has a stretch of the vertices.

ghost use Rattle.std.specs.Prelude.{◌≢◌, ◌↔◌, IsTrue, IfErr, IfOk, OnOk};
ghost use Rattle.std.specs.List.{All};
ghost use Rattle.std.specs.List.Sorted.{IsStrictlyIncreasing};
ghost use Rattle.std.specs.Thread.{IsSync};
ghost use Rattle.graph.specs.declared.fault.GraphFault.TheVariants.{OutOfMemory};
ghost use Rattle.graph.specs.Entry.{entries_of, ids};
ghost use Rattle.graph.specs.inside.Placed.{HasEnds, HaveEnds, PlacesEdges};

use crate::fault::GraphFault;
use crate::place::{first_unknown, place_edges, place_own, vertex_ids};
use crate::vertex::{Edge, Vertex};
use rayon::current_num_threads;
use rayon::prelude::*;
use std::alloc::{AllocError, Global};
use std::thread::{Threads, join_mut};

// The least number of edges that is worth threads, or asking for the number of processors.
const LEAST_EDGES: usize = 20_000;

// The greatest number of stretches. The thread of each goes over all edges.
const MOST_STRETCHES: usize = 16;

// The number of edges that one call checks.
const EDGES_CHECKED: usize = 4_096;

/// Appends to each vertex the edges that leave it, in their order, and fails, as `place_edges` does. Where the edges are many,
/// the vertices are cut into stretches, one for each processor, and each has a thread.
pub fn place_in_threads(
    rt: &(impl Threads + Sync),
    alloc: Global,
    text: &str,
    edges: &[Edge],
    vertices: &mut [Vertex],
) -> Result<(), GraphFault>
    requires { IsStrictlyIncreasing (ids (entries_of vertices.old)) }
    ensures placed { OnOk result (PlacesEdges edges.now vertices.old vertices.new) }
    ensures ends { OnOk result (HaveEnds vertices.old edges.now) }
    ensures only { IfErr result (λ told. told ≢ OutOfMemory
        → ¬ HaveEnds vertices.old edges.now) }
{
    let count = stretch_count(rt, edges);

    // An edge with an unknown end is looked for from the first on.
    if count < 2 || !have_ends(rt, alloc, edges, vertices)? {
        return place_edges(alloc, text, edges, vertices);
    }
    place_stretches(rt, alloc, count, edges, vertices)?;
    Ok(())
}

// Returns the number of stretches that is worth its threads.
fn stretch_count(rt: &impl Threads, edges: &[Edge]) -> usize {
    if edges.len() < LEAST_EDGES {
        1
    } else {
        current_num_threads(rt).min(MOST_STRETCHES)
    }
}

// Checks in threads that both ends of each edge are vertices.
fn have_ends(
    rt: &(impl Threads + Sync),
    alloc: Global,
    edges: &[Edge],
    vertices: &[Vertex],
) -> Result<bool, AllocError>
    requires { IsStrictlyIncreasing (ids (entries_of vertices.now)) }
    ensures { IfOk result (λ have. IsTrue have ↔ HaveEnds vertices.now edges.now) }
{
    let ids = vertex_ids(alloc, vertices)?;
    Ok(are_among(rt, &ids, edges))
}

// Checks in threads that both ends of each edge are among these ids, which rise.
fn are_among(rt: &(impl Threads + Sync), ids: &[u64], edges: &[Edge]) -> bool
    requires { IsStrictlyIncreasing ids.now }
    ensures { IsTrue result ↔ All (HasEnds ids.now) edges.now }
{
    edges.par_chunks(EDGES_CHECKED).all(
        rt,
        |chunk: &[Edge]| -> bool
            requires { IsStrictlyIncreasing ids.now }
            ensures { IsTrue result ↔ All (HasEnds ids.entry.now) chunk.now }
        { first_unknown(ids, chunk).is_none() },
    )
}

// Places the edges that leave these vertices, which are cut into this number of stretches, each with a thread.
#[cycle(stretches)]
fn place_stretches<R: Threads + Sync>(
    rt: &R,
    alloc: Global,
    count: usize,
    edges: &[Edge],
    vertices: &mut [Vertex],
) -> Result<(), AllocError>
    requires { IsStrictlyIncreasing (ids (entries_of vertices.old)) }
    ensures { OnOk result (PlacesEdges edges.now vertices.old vertices.new) }
{
    if count < 2 {
        return place_own(alloc, edges, vertices);
    }
    let size = vertices.len() / count;
    let (first, others) = vertices.split_at_mut(size);
    place_both(rt, alloc, count - 1, edges, first, others)
}

// Places the edges that leave the vertices of a first stretch, and, side by side, those that leave the others, which are cut
// into this number of stretches.
#[cycle(stretches)]
fn place_both<R: Threads + Sync>(
    rt: &R,
    alloc: Global,
    count: usize,
    edges: &[Edge],
    first: &mut [Vertex],
    others: &mut [Vertex],
) -> Result<(), AllocError>
    requires first_rises { IsStrictlyIncreasing (ids (entries_of first.old)) }
    requires others_rise { IsStrictlyIncreasing (ids (entries_of others.old)) }
    ensures first_placed { OnOk result (PlacesEdges edges.now first.old first.new) }
    ensures others_placed { OnOk result (PlacesEdges edges.now others.old others.new) }
{
    let mut place_first = || -> Result<(), AllocError>
        requires { IsStrictlyIncreasing (ids (entries_of first.now)) }
        ensures { OnOk result (PlacesEdges edges.entry.now first.entry.now first.exit.now) }
    { place_own(alloc, edges, first) };
    let mut place_others = || -> Result<(), AllocError>
        requires { IsSync R.row × IsStrictlyIncreasing (ids (entries_of others.now)) }
        ensures { OnOk result (PlacesEdges edges.entry.now others.entry.now others.exit.now) }
    { place_stretches(rt, alloc, count, edges, others) };
    let (placed, others_placed) = join_mut(rt, &mut place_first, &mut place_others);
    placed?;
    others_placed
}
