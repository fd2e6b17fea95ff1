//! Many lists of steps of one job.

use checkpoint::{Device, MemoryKeep};
use conformance_cases::Line;
use plain_run::one_machine;
use rollback::{Outcome, Step, simulate};
use std::alloc::{AllocError, Global};
use std::thread::Threads;
use superstep::{EndReason, Job, JobEnd, JobFault};

// How many steps a drawn list has.
const STEPS: usize = 64;

// Where a list of steps leads.
#[derive(Clone, Copy)]
enum Way {
    Open,
    // to the end of the run on one machine
    Alike,
    WithoutWorkers,
    Other,
}

// Where lists of steps lead.
#[derive(Clone, Copy)]
struct Tally {
    lists: u64,
    open: u64,
    alike: u64,
    without_workers: u64,
    others: u64,
}

impl Tally {
    fn new() -> Tally {
        Tally {
            lists: 0,
            open: 0,
            alike: 0,
            without_workers: 0,
            others: 0,
        }
    }

    fn count(&mut self, way: Way) {
        self.lists = self.lists.saturating_add(1);
        match way {
            Way::Open => self.open = self.open.saturating_add(1),
            Way::Alike => self.alike = self.alike.saturating_add(1),
            Way::WithoutWorkers => self.without_workers = self.without_workers.saturating_add(1),
            Way::Other => self.others = self.others.saturating_add(1),
        }
    }
}

/// Loses worker 0 or 1 before each of the steps; then the other works as long as it takes. Writes how many of the lists end
/// as the run on one machine.
pub fn tell_losses<R: Device + AllocGlobal + Threads + Sync>(
    rt: &R,
    alloc: Global,
    job: &Job,
    steps: &[Step],
    line: &mut Line,
) {
    let Ok(plain) = one_machine(rt, alloc, job) else {
        return line.cut();
    };
    let mut tally = Tally::new();
    for place in 0..steps.len() {
        for worker in 0..2 {
            match lossy(alloc, &steps[..place], worker) {
                Ok(lossy) => tally.count(way_of(rt, alloc, job, &lossy, &plain)),
                Err(_) => line.cut(),
            }
        }
    }
    line.show(&tally.alike);
    line.add(" of ", &tally.lists);
    line.put(" end alike");
}

// Makes a list of the steps, a loss of the worker, and works of the other to the end.
fn lossy(alloc: Global, steps: &[Step], worker: u32) -> Result<Vec<Step>, AllocError> {
    let mut lossy = Vec::from_slice(alloc, steps)?;
    lose(&mut lossy, worker)?;
    Ok(lossy)
}

fn lose(steps: &mut Vec<Step>, worker: u32) -> Result<(), AllocError> {
    steps.push(Step::Lose(worker))?;
    let length = steps.len().saturating_add(STEPS);
    steps.resize(length, Step::Work(u32::from(worker == 0)))
}

// Returns where the steps lead, compared with the run on one machine.
fn way_of<R: Device + AllocGlobal + Threads + Sync>(
    rt: &R,
    alloc: Global,
    job: &Job,
    steps: &[Step],
    plain: &JobEnd,
) -> Way {
    let mut keep = MemoryKeep::new(alloc);
    match simulate(rt, alloc, job, &mut keep, steps) {
        Ok(trace) => way_to(&trace.outcome, plain),
        Err(JobFault::NoWorkers) => Way::WithoutWorkers,
        Err(_) => Way::Other,
    }
}

fn way_to(outcome: &Outcome, plain: &JobEnd) -> Way {
    match outcome {
        Outcome::Open(_) => Way::Open,
        Outcome::Ended(report) if are_alike(&report.ended, plain) => Way::Alike,
        Outcome::Ended(_) => Way::Other,
    }
}

/// Returns whether a job ended like another.
pub fn are_alike(ended: &JobEnd, plain: &JobEnd) -> bool {
    have_finished(ended) == have_finished(plain)
        && ended.superstep == plain.superstep
        && ended.values.as_slice() == plain.values.as_slice()
        && ended.units == plain.units
        && ended.dropped == plain.dropped
        && ended.by_superstep.as_slice() == plain.by_superstep.as_slice()
}

fn have_finished(ended: &JobEnd) -> bool {
    matches!(ended.how, EndReason::Finished)
}

/// Draws lists of steps by a fixed seed. Writes where they lead.
pub fn tell_drawn<R: Device + AllocGlobal + Threads + Sync>(
    rt: &R,
    alloc: Global,
    job: &Job,
    lists: u32,
    line: &mut Line,
) {
    let Ok(plain) = one_machine(rt, alloc, job) else {
        return line.cut();
    };
    let mut draw = Draw { state: 1 };
    let mut tally = Tally::new();
    for _ in 0..lists {
        match draw.steps(alloc) {
            Ok(steps) => tally.count(way_of(rt, alloc, job, &steps, &plain)),
            Err(_) => line.cut(),
        }
    }
    tell(tally, line);
}

fn tell(tally: Tally, line: &mut Line) {
    line.show(&tally.lists);
    line.put(" lists");
    line.put(words_if(tally.open, ", some are open"));
    line.put(words_if(tally.alike, ", some end alike"));
    line.put(words_if(tally.without_workers, ", some lose all workers"));
    line.add(", ", &tally.others);
    line.put(" end otherwise");
}

fn words_if(count: u64, words: &'static str) -> &'static str {
    if count > 0 { words } else { "" }
}

// Numbers by a linear congruence, with Knuth's multiplier for 64 bits.
#[derive(Drop)]
struct Draw {
    state: u64,
}

impl Draw {
    fn below(&mut self, most: u64) -> u64 {
        self.state = self
            .state
            .wrapping_mul(6364136223846793005)
            .wrapping_add(1442695040888963407);
        (self.state >> 33).checked_rem(most).unwrap_or(0)
    }

    fn steps(&mut self, alloc: Global) -> Result<Vec<Step>, AllocError> {
        let mut steps = Vec::new(alloc);
        for _ in 0..STEPS {
            steps.push(self.step())?;
        }
        Ok(steps)
    }

    // Draws a step. Works are most likely. Of the workers 0 and 1 exist, and 2 is named now and then.
    fn step(&mut self) -> Step {
        let worker = self.worker();
        match self.below(16) {
            0 => Step::Lose(worker),
            1 | 2 => Step::Join(worker),
            3 => Step::Tick,
            4..=6 => Step::Take(worker),
            _ => Step::Work(worker),
        }
    }

    fn worker(&mut self) -> u32 {
        match self.below(32) {
            0 => 2,
            1..=16 => 1,
            _ => 0,
        }
    }
}
