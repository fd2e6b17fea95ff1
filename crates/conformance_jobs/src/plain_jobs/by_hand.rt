//! The first superstep of a job, made step by step, with a copy in place of each part's result.

ghost use Rattle.std.specs.Prelude.{◌≡◌, ℕ, false, IfOk};
ghost use Rattle.superstep.specs.Tasks.{IsRow, stamps_of};
ghost use Rattle.superstep.specs.inside.Running.{slice_of};

use crate::checkpoints::tell_state;
use compute::run_task;
use conformance_cases::Line;
use interp::Scratch;
use std::alloc::{AllocError, Global};
use std::marker::Brand;
use std::thread::Threads;
use superstep::{Done, Job, Origin, Slice, State, Task, barrier, first_state, slices, totals_of};

/// Writes the state after the superstep.
pub fn tell_first_superstep(rt: &(impl Threads + Sync), alloc: Global, job: &Job, line: &mut Line) {
    let Ok(mut scratch) = Scratch::new(alloc, job.verified()) else {
        return line.cut();
    };
    match state_of_copies::<Brand>(rt, alloc, job, &mut scratch) {
        Ok(state) => tell_state(alloc, &state, line),
        Err(_) => line.cut(),
    }
}

fn state_of_copies<J: Origin>(
    rt: &(impl Threads + Sync),
    alloc: Global,
    job: &Job,
    scratch: &mut Scratch,
) -> Result<State, AllocError>
    requires job { J.work ≡ job.now }
    requires honest { (epoch : ℕ) → J.honest epoch ≡ false }
    requires fits { scratch.old ≡ job.now.«module» }
{
    // Each setting is in its range, so superstep 0 comes before the limit.
    let _settings = job.settings();
    let state = first_state(alloc, job)?;
    let totals = totals_of(alloc, &state)?;
    let aggregates = state.aggregates();
    let slices = slices::<J>(alloc, job, state)?;
    let copies = copies(alloc, job, slices, aggregates, scratch)?;
    barrier(rt, alloc, job, totals, copies)
}

// Runs each slice and copies its result.
fn copies<J: Origin>(
    alloc: Global,
    job: &Job,
    slices: Vec<Slice<J>>,
    aggregates: [i64; 8],
    scratch: &mut Scratch,
) -> Result<Vec<Done<J>>, AllocError>
    requires job { J.work ≡ job.now }
    requires honest { (epoch : ℕ) → J.honest epoch ≡ false }
    requires fits { scratch.old ≡ job.now.«module» }
    requires all { slices.items ≡ stamps_of 0 0 job.now.settings.parts }
    ensures { IfOk result (λ copies. IsRow job.now.settings.parts 0 copies.items) }
{
    let mut copies = Vec::with_capacity(alloc, slices.len())?;
    for slice in slices {
        let copy = copy_of(alloc, job, slice, aggregates, scratch)?;
        copies.push(copy)?;
    }
    Ok(copies)
}

// Runs a slice and copies its result.
fn copy_of<J: Origin>(
    alloc: Global,
    job: &Job,
    slice: Slice<J>,
    aggregates: [i64; 8],
    scratch: &mut Scratch,
) -> Result<Done<J>, AllocError>
    requires job { J.work ≡ job.now }
    requires honest { (epoch : ℕ) → J.honest epoch ≡ false }
    requires fits { scratch.old ≡ job.now.«module» }
    ensures kept { scratch.new ≡ scratch.old }
    ensures same { IfOk result (λ copy. slice_of copy ≡ slice) }
{
    let task = Task::new(slice.epoch(), slice, aggregates);
    match run_task(alloc, job, task, scratch) {
        Ok(done) => done.copy(alloc),
        Err(_) => Err(AllocError),
    }
}
