//! Jobs in threads. `NAME: GATE; PARTS WORKERS EVERY LIMIT LEASE; MODULE; GRAPH` prints how the job ends, compared with the
//! run on one machine. GATE is one of:
//! * `lets`: nobody is lost;
//! * `W:S` or `W:S again`: worker W is lost in superstep S, and may join again;
//! * `watched W:S` or `watched W:S again`: the same, and whether the worker has begun a task since is printed too;
//! * `holds`: part 0 is held until part 1 has begun;
//! * `ticks`: time passes;
//! * `late`: worker 1 is lost by its lease with its first task and then by its gate, and would join again; whether it has begun a task
//!   since is printed too;
//! * `driven`: a coordinator is driven that has no thread beside it;
//! * `led`: the calls of a coordinator and of a worker are made one after another;
//! * `losses`: the worker that takes a part in a superstep is lost with it, for each part in each superstep; and a device
//!   fails at each call in turn.
//!
//! `N times GATE` runs the job N times.

mod by_hand;
pub mod gates;

use crate::simulations::faulty_keep::{FaultyKeep, Wrong};
use crate::simulations::sweeps::are_alike;
use crate::spelled_jobs::{job_in, tell_fault};
use book::Report;
use checkpoint::{Device, Keep, MemoryKeep};
use conformance_cases::{CaseFiles, Line, halves};
use gates::{LateGate, Plan, PlannedGate, WatchedGate};
use plain_run::one_machine;
use run_views::{Loss, LossGate};
use std::alloc::Global;
use std::sync::Wait;
use std::thread::Threads;
use superstep::{Job, JobEnd, JobFault};
use workers::{Gate, NoLoss, run_in_threads};

// How many calls of a device fail in turn.
const CALLS: u64 = 4;

/// Writes the answer to a case.
pub fn answer<R: CaseFiles + Device + AllocGlobal + Threads + Wait + Sync>(
    rt: &R,
    case: &str,
    line: &mut Line,
) {
    let (gate, job) = halves(case, "; ");
    match job_in(rt, job) {
        Ok(Ok(job)) => tell_job(rt, rt.alloc(), gate, &job, line),
        Ok(Err(fault)) => tell_fault(fault, line),
        Err(error) => line.show(&error),
    }
}

// How a job in threads ended, compared with the run on one machine.
#[derive(Clone, Copy)]
enum End {
    Alike(Counts),
    Otherwise(Counts),
    NoWorkers,
    AnotherFault,
}

// The losses of a job that ended well.
#[derive(Clone, Copy)]
struct Counts {
    epoch: u64,
    missed: u64,
    restarts: u64,
}

impl End {
    fn of(ended: &Result<Report, JobFault>, plain: &JobEnd) -> End {
        match ended {
            Ok(report) => End::of_report(report, plain),
            Err(JobFault::NoWorkers) => End::NoWorkers,
            Err(_) => End::AnotherFault,
        }
    }

    fn of_report(report: &Report, plain: &JobEnd) -> End {
        let counts = Counts {
            epoch: report.epoch,
            missed: report.missed,
            restarts: report.restarts,
        };
        if are_alike(&report.ended, plain) {
            End::Alike(counts)
        } else {
            End::Otherwise(counts)
        }
    }

    fn is_alike(self) -> bool {
        matches!(self, End::Alike(_))
    }

    fn word(self) -> &'static str {
        match self {
            End::Alike(_) => "alike",
            End::Otherwise(_) => "otherwise",
            End::NoWorkers => "no workers",
            End::AnotherFault => "another fault",
        }
    }

    // Writes the word with the counts of the report.
    fn tell(self, line: &mut Line) {
        line.put(self.word());
        match self {
            End::Alike(counts) | End::Otherwise(counts) => {
                line.add(", epoch ", &counts.epoch);
                line.add(" missed ", &counts.missed);
                line.add(" restarts ", &counts.restarts);
            }
            _ => {}
        }
    }
}

fn tell_job<R: Device + AllocGlobal + Threads + Wait + Sync>(
    rt: &R,
    alloc: Global,
    gate: &str,
    job: &Job,
    line: &mut Line,
) {
    match one_machine(rt, alloc, job) {
        Ok(plain) => tell_beside(rt, alloc, gate, job, &plain, line),
        Err(_) => line.cut(),
    }
}

// What the words of a gate ask for.
#[derive(Clone, Copy)]
enum Asked<'a> {
    Holds,
    Ticks,
    Late,
    Driven,
    Led,
    Losses,
    // the gate of these words, so many times
    Times(u32, &'a str),
    Watched(&'a str),
    // the gate of these words
    Ends(&'a str),
    // a number that is none
    NoNumber,
}

// Returns what the words ask for.
fn asked_by(words: &str) -> Asked<'_> {
    if let Some((times, gate)) = words.split_once(" times ") {
        return match times.parse::<u32>() {
            Ok(times) => Asked::Times(times, gate),
            Err(_) => Asked::NoNumber,
        };
    }
    if let Some(gate) = words.strip_prefix("watched ") {
        return Asked::Watched(gate);
    }
    match words {
        "holds" => Asked::Holds,
        "ticks" => Asked::Ticks,
        "late" => Asked::Late,
        "driven" => Asked::Driven,
        "led" => Asked::Led,
        "losses" => Asked::Losses,
        _ => Asked::Ends(words),
    }
}

fn tell_beside<R: Device + AllocGlobal + Threads + Wait + Sync>(
    rt: &R,
    alloc: Global,
    words: &str,
    job: &Job,
    plain: &JobEnd,
    line: &mut Line,
) {
    match asked_by(words) {
        Asked::Holds => tell_held(rt, alloc, job, plain, line),
        Asked::Ticks => line.put(ticked(rt, alloc, job, plain)),
        Asked::Late => tell_late(rt, alloc, job, plain, line),
        Asked::Driven => driven(rt, alloc, job, plain).tell(line),
        Asked::Led => tell_led(rt, alloc, job, line),
        Asked::Losses => tell_losses(rt, alloc, job, plain, line),
        Asked::Times(times, gate) => tell_repeated(rt, alloc, job, gate, times, plain, line),
        Asked::Watched(gate) => tell_watched(rt, alloc, job, gate, plain, line),
        Asked::Ends(gate) => ended_by(rt, alloc, job, gate, plain).tell(line),
        Asked::NoNumber => line.put("no number"),
    }
}

fn driven<R: Device + AllocGlobal + Threads + Wait + Sync>(
    rt: &R,
    alloc: Global,
    job: &Job,
    plain: &JobEnd,
) -> End {
    End::of(&by_hand::driven(rt, alloc, job), plain)
}

// Runs a job whose states are in this Keep.
fn end_with<K: Keep + Drop, G: Gate + Sync, R: Device + AllocGlobal + Threads + Wait + Sync>(
    rt: &R,
    alloc: Global,
    job: &Job,
    keep: K,
    gate: &G,
    plain: &JobEnd,
) -> End {
    let ended = run_in_threads(rt, alloc, job, keep, gate);
    End::of(&ended, plain)
}

// Runs a job whose states are in memory.
fn end_of<G: Gate + Sync, R: Device + AllocGlobal + Threads + Wait + Sync>(
    rt: &R,
    alloc: Global,
    job: &Job,
    gate: &G,
    plain: &JobEnd,
) -> End {
    end_with(rt, alloc, job, MemoryKeep::new(alloc), gate, plain)
}

// Runs a job whose worker is lost as the words say.
fn ended_by<R: Device + AllocGlobal + Threads + Wait + Sync>(
    rt: &R,
    alloc: Global,
    job: &Job,
    words: &str,
    plain: &JobEnd,
) -> End {
    let gate = gate_of(words);
    if gate.loss.is_some() {
        end_of(rt, alloc, job, &gate, plain)
    } else {
        end_of(rt, alloc, job, &NoLoss, plain)
    }
}

// Returns the gate that the words name. Nobody is lost if they name no worker.
fn gate_of(words: &str) -> LossGate {
    let (loss, again) = halves(words, " ");
    LossGate::new(Loss::read(loss), again == "again")
}

fn tell_repeated<R: Device + AllocGlobal + Threads + Wait + Sync>(
    rt: &R,
    alloc: Global,
    job: &Job,
    gate: &str,
    times: u32,
    plain: &JobEnd,
    line: &mut Line,
) {
    let mut alike = 0u32;
    for _ in 0..times {
        let end = ended_by(rt, alloc, job, gate, plain);
        alike = alike.saturating_add(u32::from(end.is_alike()));
    }
    line.show(&alike);
    line.add(" of ", &times);
    line.put(" alike");
}

fn tell_held<R: Device + AllocGlobal + Threads + Wait + Sync>(
    rt: &R,
    alloc: Global,
    job: &Job,
    plain: &JobEnd,
    line: &mut Line,
) {
    let gate = PlannedGate::new(Plan::Holds);
    let end = end_of(rt, alloc, job, &gate, plain);
    line.put(gate.how_met());
    line.put(", ");
    line.put(end.word());
}

// Shows whether a lost worker has come back.
fn tell_watched<R: Device + AllocGlobal + Threads + Wait + Sync>(
    rt: &R,
    alloc: Global,
    job: &Job,
    words: &str,
    plain: &JobEnd,
    line: &mut Line,
) {
    let gate = WatchedGate::new(gate_of(words));
    let end = end_of(rt, alloc, job, &gate, plain);
    line.put(came_word(gate.has_come_back()));
    line.put(end.word());
}

fn came_word(has_come_back: bool) -> &'static str {
    if has_come_back {
        "back again, "
    } else {
        "gone for good, "
    }
}

// Shows whether a worker has come back that was lost by its lease and then by its gate.
fn tell_late<R: Device + AllocGlobal + Threads + Wait + Sync>(
    rt: &R,
    alloc: Global,
    job: &Job,
    plain: &JobEnd,
    line: &mut Line,
) {
    let gate = LateGate::new(job.settings().lease as u64);
    let end = end_of(rt, alloc, job, &gate, plain);
    line.put(came_word(gate.has_come_back()));
    end.tell(line);
}

// Returns whether a job ends alike, with no save missed, or without workers.
fn ticked<R: Device + AllocGlobal + Threads + Wait + Sync>(
    rt: &R,
    alloc: Global,
    job: &Job,
    plain: &JobEnd,
) -> &'static str {
    let gate = PlannedGate::new(Plan::Ticks);
    match end_of(rt, alloc, job, &gate, plain) {
        End::Alike(counts) if counts.missed == 0 => "alike or no workers",
        End::NoWorkers => "alike or no workers",
        _ => "otherwise",
    }
}

fn tell_led<R: Device + AllocGlobal + Threads + Wait + Sync>(
    rt: &R,
    alloc: Global,
    job: &Job,
    line: &mut Line,
) {
    let mut words = Line::new(alloc);
    match by_hand::led(rt, alloc, job, &mut words) {
        Ok(()) => line.append(&words),
        Err(_) => line.put("a fault"),
    }
}

// Loses the worker that takes a part in a superstep, for each part in each superstep.
fn tell_losses<R: Device + AllocGlobal + Threads + Wait + Sync>(
    rt: &R,
    alloc: Global,
    job: &Job,
    plain: &JobEnd,
    line: &mut Line,
) {
    for superstep in 0..plain.superstep {
        for part in 0..job.settings().parts {
            let plan = Plan::Loses { superstep, part };
            line.show(&failing(rt, alloc, job, plan, plain));
            line.put(" ");
        }
    }
    line.add("of ", &CALLS);
    line.put(" alike each");
}

// Counts the devices failing at one call with which a job ends alike.
fn failing<R: Device + AllocGlobal + Threads + Wait + Sync>(
    rt: &R,
    alloc: Global,
    job: &Job,
    plan: Plan,
    plain: &JobEnd,
) -> u64 {
    let mut alike = 0u64;
    for call in 0..CALLS {
        let keep = FaultyKeep::new(alloc, Wrong::Fails(call));
        let gate = PlannedGate::new(plan);
        let end = end_with(rt, alloc, job, keep, &gate, plain);
        alike = alike.saturating_add(u64::from(end.is_alike()));
    }
    alike
}
