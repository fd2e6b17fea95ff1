//! Saving states, and loading them again.

ghost use Rattle.std.specs.Prelude.{◌≡◌, ◌⊎◌, ℕ, List, map, true, false, Some, IfOk, MatchOption};
ghost use Rattle.checkpoint.specs.Keep.{HasFailed};
ghost use Rattle.control.specs.Events.{saving};
ghost use Rattle.book.specs.inside.DeviceResults.{IsSaveResult};
ghost use Rattle.control.specs.Machine.{is_saved_now};
ghost use Rattle.control.specs.declared.job_status.DeviceResult.{DeviceResult};
ghost use Rattle.book.specs.inside.Loading.{HasIds, IsLoaded, IsNotOf};

use checkpoint::{CheckpointFault, Device, Keep, KeepFault, read, write};
use control::{Control, DeviceResult};
use std::alloc::{AllocError, Global};
use superstep::{State, VertexState};

// Saves a state, and returns how it went.
fn save<K: Keep, R: Device + AllocGlobal>(
    rt: &R,
    alloc: Global,
    keep: &mut K,
    state: &State,
) -> DeviceResult
    ensures { IsSaveResult state.now (K.honest keep.old) (K.honest keep.new)
        (K.saved keep.old) (K.saved keep.new) (K.may_load keep.old) (K.may_load keep.new)
        (K.faults keep.old) (K.faults keep.new) result }
{
    let Ok(bytes) = write(alloc, state) else {
        return DeviceResult::NoMemory;
    };
    match keep.save(rt, state.superstep(), &bytes) {
        Ok(()) => DeviceResult::Good,
        Err(KeepFault::Device) => DeviceResult::Failed,
        Err(KeepFault::OutOfMemory) => DeviceResult::NoMemory,
    }
}

/// Saves the state of the new superstep, if a save is due.
pub fn save_if_due<K: Keep, R: Device + AllocGlobal>(
    rt: &R,
    alloc: Global,
    control: &mut Control,
    keep: &mut K,
    state: &State,
)
    ensures told { (told : DeviceResult) × (control.new ≡ saving told control.old)
        × (is_saved_now control.old ≡ true
        → IsSaveResult state.now (K.honest keep.old) (K.honest keep.new)
        (K.saved keep.old) (K.saved keep.new) (K.may_load keep.old) (K.may_load keep.new)
        (K.faults keep.old) (K.faults keep.new) told) }
    ensures same { is_saved_now control.old ≡ false → keep.new ≡ keep.old }
{
    if control.is_saved_now() {
        let told = save(rt, alloc, keep, state);
        control.note_save(told);
    }
}

// Returns whether these are the ids of the vertices.
fn have_ids(vertices: &[&VertexState], ids: &[u64]) -> bool
    ensures those { result ≡ true → HasIds (map (λ vertex. vertex.now) vertices.now) ids.now }
    ensures others { result ≡ false
        → HasIds (map (λ vertex. vertex.now) vertices.now) ids.now → ⊥ }
{
    if vertices.len() != ids.len() {
        return false;
    }
    for i in 0..vertices.len() {
        if vertices[i].id != ids[i] {
            return false;
        }
    }
    true
}

// Reads a state from these bytes, and returns it if it is of this superstep and has these ids.
fn read_state(
    alloc: Global,
    bytes: &[u8],
    superstep: u32,
    ids: &[u64],
) -> Result<Option<State>, AllocError>
    ensures { IfOk result (λ found. MatchOption found
        (IsNotOf superstep ids.now bytes.now) (IsLoaded superstep ids.now bytes.now)) }
{
    match read(alloc, bytes) {
        Ok(state) => {
            if state.superstep() == superstep && have_ids(&state.in_order(alloc)?, ids) {
                Ok(Some(state))
            } else {
                Ok(None)
            }
        }
        Err(CheckpointFault::OutOfMemory) => Err(AllocError),
        Err(_) => Ok(None),
    }
}

/// Loads the last saved state, which is of this superstep and has these ids. `None`: the device failed, or the bytes
/// are not the checkpoint of such a state.
pub fn load<K: Keep, R: Device + AllocGlobal>(
    rt: &R,
    alloc: Global,
    keep: &mut K,
    superstep: u32,
    ids: &[u64],
) -> Result<Option<State>, AllocError>
    requires { K.saved keep.old ≡ Some superstep }
    ensures honest { K.honest keep.new ≡ K.honest keep.old }
    ensures saved { K.saved keep.new ≡ K.saved keep.old }
    ensures same { (bytes : List ℕ) → K.may_load keep.new bytes → K.may_load keep.old bytes }
    ensures found { IfOk result (λ found. MatchOption found
        (HasFailed (K.faults keep.old) (K.faults keep.new)
        ⊎ ((bytes : List ℕ) × K.may_load keep.old bytes × IsNotOf superstep ids.now bytes))
        (λ state. (bytes : List ℕ)
        × K.may_load keep.old bytes × IsLoaded superstep ids.now bytes state)) }
{
    match keep.load(rt, superstep) {
        Ok(bytes) => read_state(alloc, &bytes, superstep, ids),
        Err(KeepFault::Device) => Ok(None),
        Err(KeepFault::OutOfMemory) => Err(AllocError),
    }
}
