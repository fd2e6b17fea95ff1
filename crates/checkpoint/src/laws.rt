//! Laws of checkpoints and Keeps.

ghost use Rattle.std.specs.Prelude.{◌≡◌, ◌+◌, ◌*◌, ◌⊎◌, ℕ, List, Ok, length};
ghost use Rattle.std.specs.List.{sum_by};
ghost use Rattle.checkpoint.specs.Checkpoint.{Collide, Fits, IsCheckpointOf, checkpoint_bytes, content_of, older_bytes, seal_of};
ghost use Rattle.checkpoint.specs.Keep.{LoadsNothingElse};
ghost use Rattle.checkpoint.specs.Memory.{IsHeld, superstep_in};
ghost use Rattle.checkpoint.specs.Reading.{state_of};
ghost use Rattle.job_state.specs.State.{IsState, Standing};

/// Proves that the checkpoint of a state is read as that state. In version 1 this holds if the state has no units of
/// single supersteps.
pub fn what_is_written_is_read()
    ensures newer { (state : Standing) → IsState state → Fits state
        → state_of (checkpoint_bytes state) ≡ Ok state }
    ensures older { (state : Standing) → IsState state → Fits state
        → state.since ≡ state.superstep → state_of (older_bytes state) ≡ Ok state }
{}

/// Proves that bytes are the checkpoint of at most one state.
pub fn a_checkpoint_is_of_one_state()
    ensures { (bytes : List ℕ) (one other : Standing) → IsCheckpointOf bytes one
        → IsCheckpointOf bytes other → one ≡ other }
{}

/// Gives the length of a checkpoint in bytes.
pub fn a_checkpoint_is_so_long()
    ensures newer { (state : Standing) → length state.aggregates ≡ 8
        → length (checkpoint_bytes state)
        ≡ 148 + 16 * length state.by_superstep
        + sum_by (λ vertex. 25 + 8 * length vertex.inbox) state.vertices }
    ensures older { (state : Standing) → length state.aggregates ≡ 8
        → length (older_bytes state)
        ≡ 144 + sum_by (λ vertex. 25 + 8 * length vertex.inbox) state.vertices }
{}

/// Proves that a Keep in memory loads only what was saved.
pub fn a_memory_keep_loads_nothing_else()
    ensures { LoadsNothingElse superstep_in IsHeld }
{}

/// Proves that two checkpoints with one seal are equal, or that their contents collide under SHA-256. So if a Keep on
/// disk loads bytes that `read` accepts, they are the saved ones, unless the two collide.
pub fn a_seal_is_of_one_checkpoint()
    ensures { (bytes other : List ℕ) (one two : Standing) → IsCheckpointOf bytes one
        → IsCheckpointOf other two → seal_of other ≡ seal_of bytes
        → (other ≡ bytes) ⊎ Collide (content_of other) (content_of bytes) }
{}
