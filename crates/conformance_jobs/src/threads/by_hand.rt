//! A job whose coordinator and worker are led by hand, one call after another in one thread.

ghost use Rattle.std.specs.Prelude.{◌≡◌, ◌<◌};
ghost use Rattle.coordinator.specs.Coordinator.{staff};

use book::{Book, Event, Report};
use checkpoint::{Device, MemoryKeep};
use conformance_cases::Line;
use std::alloc::Global;
use std::marker::Brand;
use std::sync::Wait;
use std::thread::Threads;
use superstep::{Job, JobFault, Origin, Place};
use workers::{Coordinator, Hub, Message, WorkerPass};

/// Drives the coordinator of a job with no vertices. The worker and the ticker have said bye before.
pub fn driven<R: Wait + Threads + Sync + Device + AllocGlobal>(
    rt: &R,
    alloc: Global,
    job: &Job,
) -> Result<Report, JobFault> {
    driven_as::<Brand, R>(rt, alloc, job)
}

fn driven_as<J: Origin, R: Wait + Threads + Sync + Device + AllocGlobal>(
    rt: &R,
    alloc: Global,
    job: &Job,
) -> Result<Report, JobFault>
    requires { J.work ≡ job.now }
{
    let mut keep = MemoryKeep::new(alloc);
    let (mut coordinator, mut passes, ticker) = Hub::open::<J, MemoryKeep>(alloc, job, &keep)?;
    let book = match Book::open(alloc, job) {
        Ok(book) => book,
        Err(fault) => {
            drop(ticker);
            return Err(fault);
        }
    };
    let ticked = ticker.bye(rt);
    let worked = match passes.pop() {
        Some(pass) => pass.bye(rt),
        None => Err(JobFault::NoWorkers),
    };
    let driven = coordinator.drive(rt, book, &mut keep);
    // (their ends live as long as the coordinator sends)
    drop(ticked);
    drop(worked);
    driven
}

/// Returns what becomes of the first task of the only worker, in words: it is offered and taken, the worker fails, is
/// stopped, and says bye.
pub fn led<R: Wait + Threads + Sync + Device + AllocGlobal>(
    rt: &R,
    alloc: Global,
    job: &Job,
    words: &mut Line,
) -> Result<(), JobFault> {
    led_as::<Brand, R>(rt, alloc, job, words)
}

#[tactic(auto, using(crate::proofs::Led::staffed))]
fn led_as<J: Origin, R: Wait + Threads + Sync + Device + AllocGlobal>(
    rt: &R,
    alloc: Global,
    job: &Job,
    words: &mut Line,
) -> Result<(), JobFault>
    requires { J.work ≡ job.now }
{
    if job.settings().workers == 0 {
        return Err(JobFault::NoWorkers);
    }
    let keep = MemoryKeep::new(alloc);
    let (mut coordinator, mut passes, ticker) = Hub::open::<J, MemoryKeep>(alloc, job, &keep)?;
    let mut book = match Book::open(alloc, job) {
        Ok(book) => book,
        Err(fault) => {
            drop(ticker);
            return Err(fault);
        }
    };
    offer(rt, &mut coordinator, &mut book, words);
    if let Some(mut pass) = passes.pop() {
        fail(rt, &mut pass, words);
        note(words, event_word(coordinator.take_event(rt)));
        let _stopped = coordinator.stop(rt);
        note(words, order_word(&mut pass, rt));
        let _worked = pass.bye(rt);
    }
    note(words, event_word(coordinator.take_event(rt)));
    let _ticked = ticker.bye(rt);
    note(words, event_word(coordinator.take_event(rt)));
    Ok(())
}

// Offers the worker its first task.
fn offer<J: Origin, R: Wait>(
    rt: &R,
    coordinator: &mut Coordinator<J>,
    book: &mut Book<J>,
    words: &mut Line,
)
    requires { 0 < staff coordinator.old }
{
    let Some(task) = book.next_task(0) else {
        return note(words, "no task");
    };
    match coordinator.offer(rt, 0, task) {
        Ok(()) => note(words, "offered"),
        Err(_) => note(words, "not offered"),
    }
}

// Takes the task, and reports that there was no memory for it.
fn fail<J: Origin, R: Wait>(rt: &R, pass: &mut WorkerPass<J>, words: &mut Line) {
    note(words, order_word(pass, rt));
    let failed = Event::Failed(pass.worker(), Place::Call);
    match pass.hand_in(rt, failed) {
        Ok(()) => note(words, "handed in"),
        Err(_) => note(words, "not handed in"),
    }
}

fn order_word<J: Origin, R: Wait>(pass: &mut WorkerPass<J>, rt: &R) -> &'static str {
    match pass.take(rt) {
        Ok(Some(_)) => "taken",
        Ok(None) => "stopped",
        Err(_) => "closed",
    }
}

fn event_word<J: Origin>(taken: Result<Message<J>, JobFault>) -> &'static str {
    match taken {
        Ok(Message::Event(Event::Failed(..))) => "failed",
        Ok(Message::Event(_)) => "another event",
        Ok(Message::Bye(_)) => "bye",
        Err(_) => "closed",
    }
}

fn note(words: &mut Line, word: &str) {
    words.gap(", ");
    words.put(word);
}
