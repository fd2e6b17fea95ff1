//! Jobs over steps of their workers. `NAME: KEEP; PARTS WORKERS EVERY LIMIT LEASE; MODULE; GRAPH; STEPS` prints the lines
//! of a replay with the units of each superstep, or the job's fault. Then it prints the number of bytes of the last save,
//! and the first of them. KEEP is one of:
//! * `sound`;
//! * `fails N`: the device fails at the N-th call of save and load;
//! * `changes N`: byte N of what is loaded is another;
//! * `loads HEX`: these bytes are loaded.
//!
//! There are three other forms:
//! * `doubled`: a copy of each result comes right after it, and another one after the next loss. The lines of the replay are
//!   printed;
//! * `losses`: a worker is lost before each of the steps, and the other works to the end;
//! * `drawn N`: this many lists of steps are drawn.
//!
//! The last two print how many of their lists end as the run on one machine does.

mod doubles;
pub mod faulty_keep;
pub mod sweeps;

use crate::spelled_jobs::{job_in, tell_fault};
use checkpoint::Device;
use conformance_cases::{CaseFiles, Line, bytes, halves};
use doubles::doubled;
use faulty_keep::{FaultyKeep, Wrong};
use plain_commands::{steps_of, trace_text};
use rollback::{Step, Trace, simulate};
use std::alloc::{AllocError, Global};
use std::thread::Threads;
use superstep::Job;
use sweeps::{tell_drawn, tell_losses};

// The answer to a case with a number that is none.
const NO_NUMBER: &str = "no number";

/// Writes the answer to a case.
pub fn answer(
    rt: &(impl CaseFiles + Device + AllocGlobal + Threads + Sync),
    case: &str,
    line: &mut Line,
) {
    let (keep, job, steps) = parts_of(case);
    match job_in(rt, job) {
        Ok(Ok(job)) => tell_job(rt, rt.alloc(), keep, &job, steps, line),
        Ok(Err(fault)) => tell_fault(fault, line),
        Err(error) => line.show(&error),
    }
}

// Splits a case into the Keep, the job and the steps.
fn parts_of(case: &str) -> (&str, &str, &str) {
    let (keep, rest) = halves(case, "; ");
    let (job, steps) = rest.rsplit_once("; ").unwrap_or((rest, ""));
    (keep, job, steps)
}

fn tell_job<R: Device + AllocGlobal + Threads + Sync>(
    rt: &R,
    alloc: Global,
    keep: &str,
    job: &Job,
    steps: &str,
    line: &mut Line,
) {
    match steps_of(alloc, steps) {
        Ok(steps) => tell_steps(rt, alloc, keep, job, &steps, line),
        Err(fault) => line.show(&fault),
    }
}

fn tell_steps<R: Device + AllocGlobal + Threads + Sync>(
    rt: &R,
    alloc: Global,
    keep: &str,
    job: &Job,
    steps: &[Step],
    line: &mut Line,
) {
    let (word, rest) = halves(keep, " ");
    match word {
        "doubled" => doubled(rt, alloc, job, steps, line),
        "losses" => tell_losses(rt, alloc, job, steps, line),
        "drawn" => match rest.parse::<u32>() {
            Ok(lists) => tell_drawn(rt, alloc, job, lists, line),
            Err(_) => line.put(NO_NUMBER),
        },
        _ => match wrong_of(alloc, word, rest) {
            Ok(Some(wrong)) => {
                let mut keep = FaultyKeep::new(alloc, wrong);
                tell_simulated(rt, alloc, job, &mut keep, steps, line);
            }
            Ok(None) => line.put(NO_NUMBER),
            Err(_) => line.cut(),
        },
    }
}

// Returns what is wrong with the Keep, or nothing where a number is none.
fn wrong_of(alloc: Global, word: &str, rest: &str) -> Result<Option<Wrong>, AllocError> {
    Ok(match word {
        "fails" => match rest.parse::<u64>() {
            Ok(calls) => Some(Wrong::Fails(calls)),
            Err(_) => None,
        },
        "changes" => match rest.parse::<usize>() {
            Ok(place) => Some(Wrong::Changes(place)),
            Err(_) => None,
        },
        "loads" => Some(Wrong::Loads(bytes(alloc, rest)?)),
        _ => Some(Wrong::Nothing),
    })
}

fn tell_simulated<R: Device + AllocGlobal + Threads + Sync>(
    rt: &R,
    alloc: Global,
    job: &Job,
    keep: &mut FaultyKeep,
    steps: &[Step],
    line: &mut Line,
) {
    match simulate(rt, alloc, job, keep, steps) {
        Ok(trace) => tell_trace(alloc, &trace, line),
        Err(fault) => tell_fault(fault, line),
    }
    tell_saved(keep.last(), line);
}

/// Writes the lines of a replay on one line.
pub fn tell_trace(alloc: Global, trace: &Trace, line: &mut Line) {
    match trace_text(alloc, trace, true) {
        Ok(text) => line.put_lines(text.as_str(), "↵"),
        Err(_) => line.cut(),
    }
}

fn tell_saved(bytes: &[u8], line: &mut Line) {
    line.add(" saved ", &bytes.len());
    line.put(" bytes");
    for byte in bytes.iter().take(12) {
        line.put(" ");
        line.byte(*byte);
    }
}
