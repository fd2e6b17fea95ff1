//! Reading the vertices of a checkpoint.

ghost use Rattle.std.specs.Prelude.{◌≡◌, map};
ghost use Rattle.checkpoint.specs.Reading.{Gives, is_rising, items_at, signed_at, vertex_at, vertices_at};
ghost use Rattle.job_state.specs.State.{state_id};

use crate::fault::CheckpointFault;
use crate::numbers::{Item, items, u8_at, u64_at};
use inbox::Inbox;
use job_state::VertexState;
use std::alloc::Global;

// An inbox holds this many messages without an allocation.
const FEW: u64 = 4;

// Reads this many messages. Up to `FEW` of them need no allocation.
fn read_inbox(alloc: Global, count: u64, bytes: &[u8]) -> Result<(Inbox, &[u8]), CheckpointFault>
    ensures { Gives (λ x. (x.0, x.1.now)) result (items_at signed_at count bytes.now) }
{
    if count <= FEW {
        return read_few(alloc, count, bytes);
    }
    let (messages, rest) = items::<i64>(alloc, count, bytes)?;
    Ok((Inbox::from(messages), rest))
}

fn read_few(alloc: Global, count: u64, bytes: &[u8]) -> Result<(Inbox, &[u8]), CheckpointFault>
    ensures { Gives (λ x. (x.0, x.1.now)) result (items_at signed_at count bytes.now) }
{
    let mut inbox = Inbox::empty(alloc);
    let mut rest = bytes;
    for _ in 0..count {
        let (message, after) = i64::read(rest)?;
        inbox.push(message)?;
        rest = after;
    }
    Ok((inbox, rest))
}

// Reads a vertex. Returns it with whether its active byte is 0 or 1.
#[tactic(auto, unfolding(crate::specs::Reading::vertex_at))]
fn read_vertex(alloc: Global, bytes: &[u8]) -> Result<((VertexState, bool), &[u8]), CheckpointFault>
    ensures { Gives (λ x. (x.0, x.1.now)) result (vertex_at bytes.now) }
{
    let (id, rest) = u64_at(bytes)?;
    let (value, rest) = i64::read(rest)?;
    let (active, rest) = u8_at(rest)?;
    let (count, rest) = u64_at(rest)?;
    let (inbox, rest) = read_inbox(alloc, count, rest)?;
    let vertex = VertexState {
        id,
        value,
        active: active == 1,
        inbox,
    };
    Ok(((vertex, active <= 1), rest))
}

/// Reads this many vertices. Returns them with whether each active byte is 0 or 1.
pub fn read_vertices(
    alloc: Global,
    count: u32,
    bytes: &[u8],
) -> Result<((Vec<VertexState>, bool), &[u8]), CheckpointFault>
    ensures { Gives (λ x. ((x.0.0.items, x.0.1), x.1.now)) result (vertices_at count bytes.now) }
{
    // A vertex has at least 25 bytes, so no more room is made than there are vertices.
    let room = (bytes.len() / 25).min(count as usize);
    let mut all = Vec::with_capacity(alloc, room)?;
    let mut told = true;
    let mut rest = bytes;
    for _ in 0..count {
        let ((vertex, is_told), after) = read_vertex(alloc, rest)?;
        all.push(vertex)?;
        told &= is_told;
        rest = after;
    }
    Ok(((all, told), rest))
}

/// Returns whether each id is below the next.
pub fn are_rising(vertices: &[VertexState]) -> bool
    ensures { result ≡ is_rising (map state_id vertices.now) }
{
    for index in 1..vertices.len() {
        let last = vertices[index - 1].id;
        let next = vertices[index].id;
        if next <= last {
            return false;
        }
    }
    true
}
