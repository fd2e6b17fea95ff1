//! Reading a state from its checkpoint.

ghost use Rattle.std.specs.Prelude.{◌≡◌, ◌+◌, ◌^◌, ◌<◌, ◌≤◌, length, IfOk, MatchResult};
ghost use Rattle.checkpoint.specs.Checkpoint.{IsCheckpointOf};
ghost use Rattle.checkpoint.specs.Reading.{Gives, adds_up, content_at, head_at, in_order, sealed_at, state_of, told_at};
ghost use Rattle.std.specs.List.{sum};
ghost use Rattle.job_state.specs.State.{Standing, capped};
ghost use Rattle.job_state.specs.Totals.{standing_of};

use crate::digest::digest_of;
use crate::fault::CheckpointFault;
use crate::numbers::{Item, aggregators, items, u32_at};
use crate::vertices::{are_rising, read_vertices};
use job_state::{State, Totals, VertexState};
use std::alloc::Global;

// The first four bytes of each checkpoint.
const MAGIC: [u8; 4] = *b"PGCK";

// The fields that both versions have behind the version.
#[derive(Clone, Copy)]
struct Head {
    superstep: u32,
    dropped: u128,
    units: u128,
    aggregates: [i64; 8],
}

#[tactic(auto, unfolding(crate::specs::Reading::head_at))]
fn read_head(bytes: &[u8]) -> Result<(Head, &[u8]), CheckpointFault>
    ensures { Gives (λ x. (x.0, x.1.now)) result (head_at bytes.now) }
{
    let (superstep, rest) = u32_at(bytes)?;
    let (dropped, rest) = u128::read(rest)?;
    let (units, rest) = u128::read(rest)?;
    let (aggregates, rest) = aggregators(rest)?;
    let head = Head {
        superstep,
        dropped,
        units,
        aggregates,
    };
    Ok((head, rest))
}

// Reads the first superstep of units, and the units of each superstep from there on.
#[tactic(auto, unfolding(crate::specs::Reading::told_at))]
fn read_told(
    alloc: Global,
    version: u32,
    superstep: u32,
    bytes: &[u8],
) -> Result<((u32, Vec<u128>), &[u8]), CheckpointFault>
    ensures { Gives (λ x. ((x.0.0, x.0.1.items), x.1.now)) result
        (told_at version superstep bytes.now) }
{
    if version == 1 {
        return Ok(((superstep, Vec::new(alloc)), bytes));
    }
    let (since, rest) = u32_at(bytes)?;
    if rest.len() < 4 {
        return Err(CheckpointFault::Truncated);
    }
    if superstep < since {
        return Err(CheckpointFault::Order);
    }
    let (told, rest) = items::<u128>(alloc, u64::from(superstep - since), rest)?;
    Ok(((since, told), rest))
}

// Adds up units. The sum stops at 2^128 - 1.
fn capped_sum(units: &[u128]) -> u128
    ensures { result ≡ capped (sum units.now) }
{
    let mut total = 0u128;
    for own in units {
        total = total.saturating_add(*own);
    }
    total
}

// Returns whether the total is at least the sum of the units, and equal to it if they begin with superstep 0.
fn adds_up(totals: &Totals) -> bool
    ensures { result ≡ adds_up totals.now.since totals.now.by_superstep.items totals.now.units }
{
    let sum = capped_sum(&totals.by_superstep);
    sum <= totals.units && (totals.since != 0 || totals.units == sum)
}

// Makes the state, or refuses it with `Order`.
fn state_in(
    alloc: Global,
    ordered: bool,
    totals: Totals,
    aggregates: [i64; 8],
    vertices: Vec<VertexState>,
) -> Result<State, CheckpointFault>
    requires told { totals.since + length totals.by_superstep.items ≡ totals.superstep }
    requires few { length vertices.items < 2 ^ 32 }
    ensures { Gives (λ state. state) result
        (in_order ordered (standing_of totals aggregates vertices.items)) }
{
    if ordered && are_rising(&vertices) && adds_up(&totals) {
        Ok(State::of(alloc, totals, aggregates, vertices)?)
    } else {
        Err(CheckpointFault::Order)
    }
}

// Reads the state behind the version, which has to take up all of the bytes.
#[tactic(auto, unfolding(crate::specs::Reading::content_at))]
fn read_content(alloc: Global, version: u32, bytes: &[u8]) -> Result<State, CheckpointFault>
    ensures { Gives (λ state. state) result (content_at version bytes.now) }
{
    let (head, rest) = read_head(bytes)?;
    let ((since, by_superstep), rest) = read_told(alloc, version, head.superstep, rest)?;
    let (count, rest) = u32_at(rest)?;
    let ((vertices, told), rest) = read_vertices(alloc, count, rest)?;
    let totals = Totals {
        superstep: head.superstep,
        since,
        by_superstep,
        units: head.units,
        dropped: head.dropped,
    };
    let ordered = told && rest.is_empty();
    state_in(alloc, ordered, totals, head.aggregates, vertices)
}

// Reads a state from the bytes before the digest, and compares the digest.
#[tactic(auto, unfolding(crate::specs::Reading::sealed_at, crate::specs::Checkpoint::magic))]
fn read_sealed(alloc: Global, body: &[u8], seal: &[u8]) -> Result<State, CheckpointFault>
    requires { 8 ≤ length body.now }
    ensures { Gives (λ state. state) result (sealed_at body.now seal.now) }
{
    if body[..4] != MAGIC[..] {
        return Err(CheckpointFault::Header);
    }
    let (version, rest) = u32_at(&body[4..])?;
    if version != 1 && version != 2 {
        return Err(CheckpointFault::Version);
    }
    if seal != &digest_of(body)[..] {
        return Err(CheckpointFault::Digest);
    }
    read_content(alloc, version, rest)
}

#[tactic(auto, unfolding(crate::specs::Reading::state_of))]
fn read_state(alloc: Global, bytes: &[u8]) -> Result<State, CheckpointFault>
    ensures { Gives (λ state. state) result (state_of bytes.now) }
{
    if bytes.len() < 40 {
        return Err(CheckpointFault::Truncated);
    }
    let (body, seal) = bytes.split_at(bytes.len() - 32);
    read_sealed(alloc, body, seal)
}

/// Reads a state from its checkpoint, of version 1 or 2.
///
/// A state of version 1 has no units of single supersteps. `CheckpointFault` says which of several faults is reported.
pub fn read(alloc: Global, bytes: &[u8]) -> Result<State, CheckpointFault>
    // What is read is a state, and the bytes are its checkpoint.
    ensures found { IfOk result (IsCheckpointOf bytes.now) }
    // If the bytes are the checkpoint of a state, that state is read, unless memory runs out.
    ensures only { (state : Standing) → IsCheckpointOf bytes.now state
        → MatchResult result (λ read. read ≡ state) (λ fault. fault ≡ CheckpointFault.OutOfMemory) }
    // The fault that is reported.
    ensures fault { Gives (λ state. state) result (state_of bytes.now) }
{
    read_state(alloc, bytes)
}
