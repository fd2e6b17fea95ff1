//! Jobs on one machine. `NAME: PARTS WORKERS EVERY LIMIT LEASE; MODULE; GRAPH` prints the values, how the job ended and in
//! which superstep, its units, those of each superstep, and the number of messages to no vertex. If a setting is out of its
//! range, it prints that one.
//!
//! With `copied` after the settings it prints the state after the first superstep, made of copies of the parts' results.

mod by_hand;

use crate::spelled_jobs::{job_in, tell_fault};
use by_hand::tell_first_superstep;
use conformance_cases::{CaseFiles, Line};
use plain_run::one_machine;
use std::alloc::Global;
use std::thread::Threads;
use superstep::{EndReason, Job, JobEnd};

/// Writes how a case's job ends, or its state after the first superstep.
pub fn answer(rt: &(impl CaseFiles + AllocGlobal + Threads + Sync), case: &str, line: &mut Line) {
    match job_in(rt, case) {
        Ok(Ok(job)) if case.contains(" copied; ") => {
            tell_first_superstep(rt, rt.alloc(), &job, line)
        }
        Ok(Ok(job)) => run(rt, rt.alloc(), &job, line),
        Ok(Err(fault)) => tell_fault(fault, line),
        Err(error) => line.show(&error),
    }
}

fn run(rt: &(impl Threads + Sync), alloc: Global, job: &Job, line: &mut Line) {
    match one_machine(rt, alloc, job) {
        Ok(ended) => tell(&ended, line),
        Err(_) => line.cut(),
    }
}

fn tell(ended: &JobEnd, line: &mut Line) {
    for (id, value) in &ended.values {
        line.add("v ", id);
        line.add(" ", value);
        line.put(", ");
    }
    line.put(match ended.how {
        EndReason::Finished => "finished",
        EndReason::Limit => "limit",
    });
    line.add(" supersteps ", &ended.superstep);
    line.add(" units ", &ended.units);
    line.add(" dropped ", &ended.dropped);
    line.add(", since ", &ended.since);
    for units in &ended.by_superstep {
        line.add(" ", units);
    }
}
