//! The vertices of a graph, and the shares of its edges.

ghost use Rattle.std.specs.Prelude.{◌≡◌, ◌++◌, ◌<◌, ◌^◌, ◌==◌, ℕ, nat_eq, unwrap_or, count_by, IfOk, OnOk, map};
ghost use Rattle.std.specs.HashMap.{get};
ghost use Rattle.std.specs.List.{range_with_len};
ghost use Rattle.conversions.specs.graph_import.Graph.{AreIdsOf, count_from, ends, from_of, share_of, shared, target_of};

use graph::Edge;
use std::alloc::{AllocError, Global};
use std::collections::HashMap;

/// Lists the ids of all ends and those from 1 to `declared`, in order, each once.
pub fn vertices_of(alloc: Global, declared: u64, edges: &[Edge]) -> Result<Vec<u64>, AllocError>
    requires { declared < 2 ^ 63 }
    ensures { IfOk result (λ ids. AreIdsOf (ends declared edges.now) ids.items) }
{
    let mut ids = ends_of(alloc, declared, edges)?;
    ids.sort_unstable();
    ids.dedup();
    Ok(ids)
}

fn ends_of(alloc: Global, declared: u64, edges: &[Edge]) -> Result<Vec<u64>, AllocError>
    requires { declared < 2 ^ 63 }
    ensures { IfOk result (λ ids. ids.items ≡ ends declared edges.now) }
{
    let mut ids = sources_of(alloc, edges)?;
    add_targets(&mut ids, edges)?;
    add_declared(&mut ids, declared)?;
    Ok(ids)
}

fn sources_of(alloc: Global, edges: &[Edge]) -> Result<Vec<u64>, AllocError>
    ensures { IfOk result (λ ids. ids.items ≡ map from_of edges.now) }
{
    edges.iter().map(|edge| edge.from).collect(alloc)
}

fn add_targets(ids: &mut Vec<u64>, edges: &[Edge]) -> Result<(), AllocError>
    ensures { OnOk result (ids.new.items ≡ ids.old.items ++ map target_of edges.now) }
{
    for edge in edges {
        ids.push(edge.target)?;
    }
    Ok(())
}

fn add_declared(ids: &mut Vec<u64>, declared: u64) -> Result<(), AllocError>
    requires { declared < 2 ^ 63 }
    ensures { OnOk result (ids.new.items ≡ ids.old.items ++ range_with_len 1 declared) }
{
    for id in 0..declared {
        ids.push(id + 1)?;
    }
    Ok(())
}

/// Gives each edge its share of 2^32, which the edges from one source share equally.
pub fn shares_of(alloc: Global, edges: &[Edge]) -> Result<Vec<Edge>, AllocError>
    ensures { IfOk result (λ shares. shares.items ≡ map (shared edges.now) edges.now) }
{
    let counts = counts_of(alloc, edges)?;
    let mut shares = Vec::with_capacity(alloc, edges.len())?;
    for edge in edges {
        let count = counts.get(&edge.from).copied().unwrap_or(0);
        shares.push(Edge {
            from: edge.from,
            target: edge.target,
            value: share_of(count),
        })?;
    }
    Ok(shares)
}

// Counts the edges that leave each vertex.
fn counts_of(alloc: Global, edges: &[Edge]) -> Result<HashMap<u64, u64>, AllocError>
    ensures { IfOk result
        (λ counts. (id : ℕ) → unwrap_or (get nat_eq counts id) 0 ≡ count_from edges.now id) }
{
    let mut counts = HashMap::new(alloc);
    for edge in edges {
        *counts.entry(edge.from)?.or_insert(0) += 1;
    }
    Ok(counts)
}

// Returns the share of each of `count` edges.
fn share_of(count: u64) -> i64
    ensures { result ≡ share_of count }
{
    (WHOLE / count.max(1)) as i64
}

// The sum that the edges from a vertex share.
const WHOLE: u64 = 4_294_967_296;
