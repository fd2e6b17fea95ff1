//! Writing a state as its checkpoint.

ghost use Rattle.std.specs.Prelude.{◌≡◌, ◌<◌, ◌^◌, ◌++◌, ℕ, List, length, map, FitsSigned, IfOk, OnOk};
ghost use Rattle.std.specs.Int.{w64};
ghost use Rattle.std.specs.List.{AllByRecursion, flat_map};
ghost use Rattle.checkpoint.specs.Numbers.{number, signed};
ghost use Rattle.checkpoint.specs.Checkpoint.{Fits, HeadFits, IsCheckpointOf, VertexFits, checkpoint_bytes, head_bytes, told_bytes, vertex_bytes, vertices_bytes};

use crate::digest::digest_of;
use byteorder::{ByteOrder, LittleEndian};
use job_state::{State, VertexState};
use std::alloc::{AllocError, Global};

/// A value with a spelling in checkpoints.
pub trait Spelled {
    ghost spelling: { Self → List ℕ };

    /// Whether each number in it fits its width.
    ghost fits: { Self → Type 0 };

    /// Appends the spelling. `Err` is out of memory.
    fn put(&self, out: &mut Vec<u8>) -> Result<(), AllocError>
        ensures appended { OnOk result (out.new.items ≡ out.old.items ++ spelling self.now) }
        ensures fits { OnOk result (fits self.now) };
}

#[tactic(auto, unfolding(crate::specs::Numbers::number))]
fn put_u8(out: &mut Vec<u8>, n: u8) -> Result<(), AllocError>
    ensures { OnOk result (out.new.items ≡ out.old.items ++ number 1 n) }
{
    out.push(n)?;
    Ok(())
}

#[tactic(auto, unfolding(crate::specs::Numbers::number))]
fn put_u32(out: &mut Vec<u8>, n: u32) -> Result<(), AllocError>
    ensures { OnOk result (out.new.items ≡ out.old.items ++ number 4 n) }
{
    let mut bytes = [0; 4];
    LittleEndian::write_u32(&mut bytes, n);
    out.extend_from_slice(&bytes)?;
    Ok(())
}

#[tactic(auto, unfolding(crate::specs::Numbers::number))]
fn put_u64(out: &mut Vec<u8>, n: u64) -> Result<(), AllocError>
    ensures { OnOk result (out.new.items ≡ out.old.items ++ number 8 n) }
{
    let mut bytes = [0; 8];
    LittleEndian::write_u64(&mut bytes, n);
    out.extend_from_slice(&bytes)?;
    Ok(())
}

impl Spelled for u128 {
    ghost spelling = { number 16 };

    ghost fits = { λ n. n < 2 ^ 128 };

    #[tactic(auto, unfolding(crate::specs::Numbers::number))]
    fn put(&self, out: &mut Vec<u8>) -> Result<(), AllocError> {
        let mut bytes = [0; 16];
        LittleEndian::write_u128(&mut bytes, *self);
        out.extend_from_slice(&bytes)?;
        Ok(())
    }
}

impl Spelled for i64 {
    ghost spelling = { signed };

    ghost fits = { FitsSigned w64 };

    #[tactic(auto, unfolding(crate::specs::Numbers::number))]
    fn put(&self, out: &mut Vec<u8>) -> Result<(), AllocError> {
        let mut bytes = [0; 8];
        LittleEndian::write_i64(&mut bytes, *self);
        out.extend_from_slice(&bytes)?;
        Ok(())
    }
}

impl Spelled for VertexState {
    ghost spelling = { vertex_bytes };

    ghost fits = { VertexFits };

    #[tactic(auto, unfolding(crate::specs::Checkpoint::vertex_bytes))]
    fn put(&self, out: &mut Vec<u8>) -> Result<(), AllocError> {
        put_u64(out, self.id)?;
        self.value.put(out)?;
        put_u8(out, u8::from(self.active))?;
        let messages = self.inbox.as_slice();
        put_u64(out, messages.len() as u64)?;
        put_all(out, messages)
    }
}

// Appends one spelling after another.
fn put_all<T: Spelled>(out: &mut Vec<u8>, items: &[T]) -> Result<(), AllocError>
    ensures appended { OnOk result (out.new.items
        ≡ out.old.items ++ flat_map T.spelling items.now) }
    ensures fits { OnOk result (AllByRecursion T.fits items.now) }
{
    for item in items {
        item.put(out)?;
    }
    Ok(())
}

#[tactic(auto, unfolding(crate::specs::Checkpoint::head_bytes, crate::specs::Checkpoint::magic))]
fn put_head(out: &mut Vec<u8>, state: &State) -> Result<(), AllocError>
    ensures appended { OnOk result (out.new.items ≡ out.old.items ++ head_bytes 2 state.now) }
    ensures fits { OnOk result (HeadFits state.now) }
{
    out.extend_from_slice(b"PGCK")?;
    put_u32(out, 2)?;
    put_u32(out, state.superstep())?;
    state.dropped().put(out)?;
    state.units().put(out)?;
    put_all(out, &state.aggregates())
}

#[tactic(auto, unfolding(crate::specs::Checkpoint::told_bytes))]
fn put_told(out: &mut Vec<u8>, state: &State) -> Result<(), AllocError>
    ensures appended { OnOk result (out.new.items ≡ out.old.items ++ told_bytes state.now) }
    ensures fits { OnOk result (AllByRecursion (λ n. n < 2 ^ 128) state.now.by_superstep) }
{
    put_u32(out, state.since())?;
    put_all(out, state.by_superstep())
}

#[tactic(auto, unfolding(crate::specs::Checkpoint::vertices_bytes))]
fn put_vertices(out: &mut Vec<u8>, vertices: &[&VertexState]) -> Result<(), AllocError>
    requires { length vertices.now < 2 ^ 32 }
    ensures appended { OnOk result (out.new.items
        ≡ out.old.items ++ vertices_bytes (map (λ vertex. vertex.now) vertices.now)) }
    ensures fits { OnOk result
        (AllByRecursion VertexFits (map (λ vertex. vertex.now) vertices.now)) }
{
    put_u32(out, vertices.len() as u32)?;
    for vertex in vertices {
        vertex.put(out)?;
    }
    Ok(())
}

// Returns the length of the checkpoint in bytes, up to the greatest `usize`.
fn room(state: &State, vertices: &[&VertexState]) -> usize {
    let told = state.by_superstep().len().saturating_mul(16);
    let mut room = told.saturating_add(148);
    for vertex in vertices {
        let messages = vertex.inbox.as_slice().len();
        room = room.saturating_add(messages.saturating_mul(8).saturating_add(25));
    }
    room
}

/// Writes the checkpoint of a state, of version 2. `Err` is out of memory.
pub fn write(alloc: Global, state: &State) -> Result<Vec<u8>, AllocError>
    ensures bytes { IfOk result (λ bytes. bytes.items ≡ checkpoint_bytes state.now) }
    ensures checkpoint { IfOk result (λ bytes. IsCheckpointOf bytes.items state.now) }
{
    let vertices = state.in_order(alloc)?;
    let mut out = Vec::with_capacity(alloc, room(state, &vertices))?;
    put_head(&mut out, state)?;
    put_told(&mut out, state)?;
    put_vertices(&mut out, &vertices)?;
    let seal = digest_of(&out);
    out.extend_from_slice(&seal)?;
    Ok(out)
}
