//! The vertices and edges of a text, collected in threads, each of which reads a piece of the text.

ghost use Rattle.std.specs.Prelude.{◌≡◌, ◌≢◌, ◌<◌, ◌++◌, length, slice_index, sum_by, vec_len, IfErr, IfOk, IfSome};
ghost use Rattle.graph.specs.declared.fault.GraphFault.TheVariants.{OutOfMemory};
ghost use Rattle.graph.specs.inside.Collected.{CanBeSaid, Says};
ghost use Rattle.graph.specs.inside.Pieces.{AreCollected, IsWhole, edges_in, lines_in, vertices_in};
ghost use Rattle.graph.specs.Said.{lines_of};

use crate::collect::{Collected, collect};
use crate::fault::GraphFault;
use crate::vertex::{MAX_EDGES, MAX_VERTICES};
use rayon::current_num_threads;
use rayon::prelude::*;
use std::alloc::{AllocError, Global};
use std::thread::Threads;

// The least length of a text that is worth threads, or asking for the number of processors, in bytes.
const LEAST_TEXT: usize = 100_000;

// The greatest number of pieces.
const MOST_PIECES: usize = 16;

/// Collects the vertices and edges of a text as `collect` does. A long text is cut at line ends into pieces, one for each
/// processor, and each has a thread.
pub fn collect_in_threads(
    rt: &(impl Threads + Sync),
    alloc: Global,
    text: &str,
) -> Result<Collected, GraphFault>
    ensures says { IfOk result (λ collected. Says (lines_of text.now) collected) }
    ensures only { IfErr result (λ told. told ≢ OutOfMemory → ¬ CanBeSaid (lines_of text.now)) }
{
    let count = piece_count(rt, text);
    if count > 1
        && let Some(collected) = collect_pieces(rt, alloc, text, count)
    {
        return Ok(collected);
    }

    // A text with a fault is read again from its top, so that the first fault is found.
    collect(alloc, text)
}

// Returns the number of pieces that is worth its threads.
fn piece_count(rt: &impl Threads, text: &str) -> usize {
    if text.len() < LEAST_TEXT {
        1
    } else {
        current_num_threads(rt).min(MOST_PIECES)
    }
}

// Collects the vertices and edges of a text by pieces. Returns `None` where a piece has a fault, the pieces have more than a
// graph may have, or memory runs out.
fn collect_pieces(
    rt: &(impl Threads + Sync),
    alloc: Global,
    text: &str,
    count: usize,
) -> Option<Collected>
    ensures { IfSome result (Says (lines_of text.now)) }
{
    let Ok(pieces) = cut_at_lines(alloc, text, count) else {
        return None;
    };
    let Ok(collected) = collect_each(rt, alloc, &pieces) else {
        return None;
    };
    together(alloc, collected)
}

// Cuts a text at line ends into at most this number of pieces, which are about as long as one another.
fn cut_at_lines<'a>(alloc: Global, text: &'a str, count: usize) -> Result<Vec<&'a str>, AllocError>
    ensures { IfOk result (λ pieces. lines_of text.now ≡ lines_in pieces.items) }
{
    let size = text.len() / count.max(1);
    let mut pieces = Vec::with_capacity(alloc, count)?;
    let mut rest = text;
    for turn in 1..count {
        if let Some((piece, others)) = cut_after_line(rest, size) {
            pieces.push(piece)?;
            rest = others;
        }
    }
    pieces.push(rest)?;
    Ok(pieces)
}

// Cuts a text behind the first line that ends at this place or later.
fn cut_after_line(text: &str, place: usize) -> Option<(&str, &str)>
    ensures { IfSome result (λ cut.
        lines_of text.now ≡ lines_of cut.0.now ++ lines_of cut.1.now) }
{
    let feed = line_feed_from(text.as_bytes(), place)?;
    text.split_at_checked(feed + 1)
}

// Finds the first line feed from this place on.
fn line_feed_from(bytes: &[u8], place: usize) -> Option<usize>
    ensures { IfSome result (λ feed.
        (feed < length bytes.now) × (slice_index bytes.now feed ≡ 10)) }
{
    for index in place..bytes.len() {
        if bytes[index] == b'\n' {
            return Some(index);
        }
    }
    None
}

// Collects the vertices and edges of each piece in a thread of its own.
fn collect_each(
    rt: &(impl Threads + Sync),
    alloc: Global,
    pieces: &[&str],
) -> Result<Vec<Collected>, GraphFault>
    ensures { IfOk result (λ collected. AreCollected pieces.now collected.items) }
{
    pieces
        .par_iter()
        .with_min_len(1)
        .map(
            |piece: &&str| -> Result<Collected, GraphFault>
                ensures { IfOk result (Says (lines_of piece.now.now)) }
            { collect(alloc, *piece) },
        )
        .collect::<Result<Vec<Collected>, GraphFault>>(rt, alloc)?
}

// Puts what was collected of pieces together, in their order. Returns `None` where that is more than a graph may have, or
// memory runs out.
fn together(alloc: Global, pieces: Vec<Collected>) -> Option<Collected>
    ensures { IfSome result (IsWhole pieces.items) }
{
    let vertices = vertex_count(&pieces);
    let edges = edge_count(&pieces);
    if vertices > MAX_VERTICES as u128 || edges > MAX_EDGES as u128 {
        return None;
    }
    append_all(alloc, vertices as usize, edges as usize, pieces).ok()
}

// Counts the vertices of all pieces.
fn vertex_count(pieces: &[Collected]) -> u128
    ensures { result ≡ sum_by (λ piece. vec_len piece.vertices) pieces.now }
{
    let mut count = 0u128;
    for piece in pieces {
        count += piece.vertices.len() as u128;
    }
    count
}

// Counts the edges of all pieces.
fn edge_count(pieces: &[Collected]) -> u128
    ensures { result ≡ sum_by (λ piece. vec_len piece.edges) pieces.now }
{
    let mut count = 0u128;
    for piece in pieces {
        count += piece.edges.len() as u128;
    }
    count
}

// Appends what was collected of pieces, in their order. Room for this number of vertices and of edges is made at the start.
fn append_all(
    alloc: Global,
    vertices: usize,
    edges: usize,
    pieces: Vec<Collected>,
) -> Result<Collected, AllocError>
    ensures vertices { IfOk result (λ whole.
        whole.vertices.items ≡ vertices_in pieces.items) }
    ensures edges { IfOk result (λ whole. whole.edges.items ≡ edges_in pieces.items) }
{
    let mut whole = Collected::with_capacity(alloc, vertices, edges)?;
    for piece in pieces {
        let mut next = piece;
        whole.append(&mut next)?;
    }
    Ok(whole)
}
