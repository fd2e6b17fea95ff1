//! The states that a book goes on with, also after a loss.

ghost use Rattle.std.specs.Prelude.{◌≡◌, true, IfOk};
ghost use Rattle.superstep.specs.State.{HasIdsOf};
ghost use Rattle.control.specs.Events.{loading, slicing};
ghost use Rattle.book.specs.Saving.{IsFullStateAt, IsLoadResult, KeepsFor};
ghost use Rattle.control.specs.Machine.{is_running, saved_or_first};
ghost use Rattle.control.specs.declared.job_status.DeviceResult.{DeviceResult};
ghost use Rattle.book.specs.inside.Book.{AreIdsOf};
ghost use Rattle.book.specs.inside.Recovery.{IsFirst, IsHeldOf, StandsBack, has_room};

use crate::job_data::JobData;
use crate::parts::Parts;
use crate::saving::load;
use checkpoint::{Device, Keep, a_checkpoint_is_of_one_state};
use control::{Control, JobStatus};
use std::alloc::{AllocError, Global};
use superstep::{Job, Origin, Place, State, first_state};

/// Turns a state into the book's data: its parts if the job goes on, and all of it otherwise.
pub fn hold<J: Origin>(alloc: Global, job: &Job, control: &mut Control, state: State) -> JobData<J>
    requires job { J.work ≡ job.now }
    requires fits { HasIdsOf job.now state }
    requires at { J.honest control.old.epoch ≡ true
        → IsFullStateAt J.work state.superstep state }
    ensures control { control.new ≡ slicing (has_room result) control.old }
    ensures held { IsHeldOf job.now.settings.parts control.old control.new state result }
{
    match control.ending() {
        JobStatus::Running => match Parts::of(alloc, job, control.epoch(), state) {
            Ok(parts) => JobData::Parts(parts),
            Err(_) => {
                control.fail(Place::Slice);
                JobData::Nothing
            }
        },
        JobStatus::Finished | JobStatus::Limit => JobData::Whole(state),
        JobStatus::Fault(_) => JobData::Nothing,
    }
}

// Makes the data of the state before superstep 0, after a loss.
fn hold_first<J: Origin>(alloc: Global, job: &Job, control: &mut Control) -> JobData<J>
    requires job { J.work ≡ job.now }
    requires running { is_running control.old.ending ≡ true }
    ensures control { control.new ≡ slicing (has_room result) control.old }
    ensures held { StandsBack job.now.settings.parts 0 control.new result }
{
    match first_state(alloc, job) {
        Ok(state) => hold(alloc, job, control, state),
        Err(_) => {
            control.fail(Place::Slice);
            JobData::Nothing
        }
    }
}

/// Turns the state before superstep 0 into the data of a new book.
pub fn hold_opened<J: Origin>(
    alloc: Global,
    job: &Job,
    state: State,
    quiet: bool,
) -> Result<JobData<J>, AllocError>
    requires job { J.work ≡ job.now }
    requires fits { HasIdsOf job.now state }
    requires at { J.honest 0 ≡ true → IsFullStateAt J.work state.superstep state }
    ensures { IfOk result (IsFirst job.now.settings.parts quiet state) }
{
    if quiet {
        return Ok(JobData::Whole(state));
    }
    let parts = Parts::of(alloc, job, 0, state)?;
    Ok(JobData::Parts(parts))
}

/// Makes the data after a loss: of the last saved state, or of superstep 0 if there is none or it cannot be loaded.
pub fn put_back<J: Origin, K: Keep, R: Device + AllocGlobal>(
    rt: &R,
    alloc: Global,
    job: &Job,
    ids: &[u64],
    control: &mut Control,
    keep: &mut K,
) -> JobData<J>
    requires job { J.work ≡ job.now }
    requires ids { AreIdsOf job.now ids.now }
    requires running { is_running control.old.ending ≡ true }
    requires back { control.old.superstep ≡ saved_or_first control.old.saved }
    requires keep { KeepsFor J.work (λ _. J.honest control.old.epoch) (K.honest keep.old)
        (K.saved keep.old) (K.may_load keep.old) control.old }
    ensures told { (told : DeviceResult)
        × (control.new
        ≡ slicing (has_room result) (loading control.old.saved told control.old))
        × IsLoadResult J.work (K.honest keep.old) (K.honest keep.new) (K.saved keep.old)
        (K.saved keep.new) (K.may_load keep.old) (K.may_load keep.new) (K.faults keep.old)
        (K.faults keep.new) control.old.saved told }
    ensures held { StandsBack job.now.settings.parts control.new.superstep control.new result }
{
    a_checkpoint_is_of_one_state();
    let Some(superstep) = control.saved() else {
        return hold_first(alloc, job, control);
    };
    match load(rt, alloc, keep, superstep, ids) {
        Ok(Some(state)) => hold(alloc, job, control, state),
        Ok(None) => {
            control.restart();
            hold_first(alloc, job, control)
        }
        Err(_) => {
            control.fail(Place::Load);
            JobData::Nothing
        }
    }
}
