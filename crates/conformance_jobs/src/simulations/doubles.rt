//! Results that come more than once.

ghost use Rattle.std.specs.Prelude.{◌≡◌, false};
ghost use Rattle.book.specs.Saving.{KeepsFor};

use super::tell_trace;
use crate::spelled_jobs::tell_fault;
use book::{Answer, Book, Event, JobStatus, Report};
use checkpoint::{Device, Keep, MemoryKeep};
use compute::run_task;
use conformance_cases::Line;
use interp::Scratch;
use rollback::{Outcome, Step, StepAnswer, Trace};
use std::alloc::{AllocError, Global};
use std::marker::Brand;
use std::mem;
use std::thread::Threads;
use superstep::{Done, Job, Origin, Task};

// The tools to do tasks with, the answers so far, and the results that have not come yet.
#[derive(Drop)]
struct Hand<'a, J: Origin> {
    alloc: Global,
    job: &'a Job,
    scratch: Scratch<'a>,
    answers: Vec<StepAnswer>,
    // the last one comes next
    results: Vec<Sent<J>>,
}

// A worker's result, or a copy of it.
#[derive(Drop)]
struct Sent<J: Origin> {
    worker: u32,
    done: Done<J>,
}

/// Runs a job over these works and losses. A copy of each result comes right after it, and another one after the next loss.
pub fn doubled<R: Device + AllocGlobal + Threads + Sync>(
    rt: &R,
    alloc: Global,
    job: &Job,
    steps: &[Step],
    line: &mut Line,
) {
    doubled_as::<Brand, MemoryKeep, R>(rt, alloc, job, &mut MemoryKeep::new(alloc), steps, line);
}

// Runs it for a job that a type names, whose Keep is not trusted.
fn doubled_as<J: Origin, K: Keep, R: Device + AllocGlobal + Threads + Sync>(
    rt: &R,
    alloc: Global,
    job: &Job,
    keep: &mut K,
    steps: &[Step],
    line: &mut Line,
)
    requires job { J.work ≡ job.now }
    requires honest { J.honest 1 ≡ false }
{
    match Book::<J>::open(alloc, job) {
        Ok(book) => doubled_in(rt, alloc, job, book, keep, steps, line),
        Err(fault) => tell_fault(fault, line),
    }
}

// Runs it over the open book.
fn doubled_in<J: Origin, K: Keep, R: Device + AllocGlobal + Threads + Sync>(
    rt: &R,
    alloc: Global,
    job: &Job,
    mut book: Book<J>,
    keep: &mut K,
    steps: &[Step],
    line: &mut Line,
)
    requires job { J.work ≡ job.now }
    requires keep { KeepsFor J.work J.honest (K.honest keep.old) (K.saved keep.old)
        (K.may_load keep.old) book }
{
    match answers_of(rt, alloc, job, &mut book, keep, steps) {
        Ok(answers) => tell_ended(alloc, answers, book, line),
        Err(_) => line.cut(),
    }
}

// Returns the answers to the steps.
fn answers_of<J: Origin, K: Keep, R: Device + AllocGlobal + Threads + Sync>(
    rt: &R,
    alloc: Global,
    job: &Job,
    book: &mut Book<J>,
    keep: &mut K,
    steps: &[Step],
) -> Result<Vec<StepAnswer>, AllocError>
    requires job { J.work ≡ job.now }
    requires keep { KeepsFor J.work J.honest (K.honest keep.old) (K.saved keep.old)
        (K.may_load keep.old) book.old }
{
    let scratch = Scratch::new(alloc, job.verified())?;
    let mut hand = Hand {
        alloc,
        job,
        scratch,
        answers: Vec::new(alloc),
        results: Vec::new(alloc),
    };
    let gone = go_over(rt, &mut hand, book, keep, steps);
    let answers = mem::replace(&mut hand.answers, Vec::new(alloc));
    drop(hand);
    match gone {
        Ok(()) => Ok(answers),
        Err(error) => Err(error),
    }
}

fn go_over<J: Origin, K: Keep, R: Device + AllocGlobal + Threads + Sync>(
    rt: &R,
    hand: &mut Hand<J>,
    book: &mut Book<J>,
    keep: &mut K,
    steps: &[Step],
) -> Result<(), AllocError>
    requires job { J.work ≡ hand.old.job.now }
    requires fits { hand.old.scratch ≡ hand.old.job.now.«module» }
    requires keep { KeepsFor J.work J.honest (K.honest keep.old) (K.saved keep.old)
        (K.may_load keep.old) book.old }
{
    for step in steps {
        match *step {
            Step::Work(worker) => work(rt, hand, book, keep, worker)?,
            Step::Lose(worker) => lose(rt, hand, book, keep, worker)?,
            _ => {}
        }
    }
    Ok(())
}

// Does the worker's next task. Its result comes twice, and one more copy is left.
fn work<J: Origin, K: Keep, R: Device + AllocGlobal + Threads + Sync>(
    rt: &R,
    hand: &mut Hand<J>,
    book: &mut Book<J>,
    keep: &mut K,
    worker: u32,
) -> Result<(), AllocError>
    requires job { J.work ≡ hand.old.job.now }
    requires fits { hand.old.scratch ≡ hand.old.job.now.«module» }
    requires keep { KeepsFor J.work J.honest (K.honest keep.old) (K.saved keep.old)
        (K.may_load keep.old) book.old }
    ensures job { J.work ≡ hand.new.job.now }
    ensures fits { hand.new.scratch ≡ hand.new.job.now.«module» }
    ensures keep { KeepsFor J.work J.honest (K.honest keep.new) (K.saved keep.new)
        (K.may_load keep.new) book.new }
{
    let Some(task) = book.next_task(worker) else {
        return Ok(());
    };
    do_task(hand, worker, task)?;
    bring(rt, hand, book, keep)?;
    bring(rt, hand, book, keep)
}

// Loses the worker. Then the copies that are left come.
fn lose<J: Origin, K: Keep, R: Device + AllocGlobal + Threads + Sync>(
    rt: &R,
    hand: &mut Hand<J>,
    book: &mut Book<J>,
    keep: &mut K,
    worker: u32,
) -> Result<(), AllocError>
    requires job { J.work ≡ hand.old.job.now }
    requires fits { hand.old.scratch ≡ hand.old.job.now.«module» }
    requires keep { KeepsFor J.work J.honest (K.honest keep.old) (K.saved keep.old)
        (K.may_load keep.old) book.old }
    ensures job { J.work ≡ hand.new.job.now }
    ensures fits { hand.new.scratch ≡ hand.new.job.now.«module» }
    ensures keep { KeepsFor J.work J.honest (K.honest keep.new) (K.saved keep.new)
        (K.may_load keep.new) book.new }
{
    tell(rt, &mut hand.answers, book, keep, Event::Lost(worker))?;
    for _ in 0..hand.results.len() {
        bring(rt, hand, book, keep)?;
    }
    Ok(())
}

// Does a task. Its result comes next, and two copies of it after it.
fn do_task<J: Origin>(hand: &mut Hand<J>, worker: u32, task: Task<J>) -> Result<(), AllocError>
    requires job { J.work ≡ hand.old.job.now }
    requires fits { hand.old.scratch ≡ hand.old.job.now.«module» }
    ensures job { J.work ≡ hand.new.job.now }
    ensures fits { hand.new.scratch ≡ hand.new.job.now.«module» }
{
    match run_task(hand.alloc, hand.job, task, &mut hand.scratch) {
        Ok(done) => push_thrice(hand.alloc, worker, done, &mut hand.results),
        Err(_) => Err(AllocError),
    }
}

fn push_thrice<J: Origin>(
    alloc: Global,
    worker: u32,
    done: Done<J>,
    results: &mut Vec<Sent<J>>,
) -> Result<(), AllocError> {
    let copied = push_copies(alloc, worker, &done, results);
    results.push(Sent { worker, done })?;
    copied
}

fn push_copies<J: Origin>(
    alloc: Global,
    worker: u32,
    done: &Done<J>,
    results: &mut Vec<Sent<J>>,
) -> Result<(), AllocError> {
    for _ in 0..2 {
        let done = done.copy(alloc)?;
        results.push(Sent { worker, done })?;
    }
    Ok(())
}

// Brings the next result.
fn bring<J: Origin, K: Keep, R: Device + AllocGlobal + Threads + Sync>(
    rt: &R,
    hand: &mut Hand<J>,
    book: &mut Book<J>,
    keep: &mut K,
) -> Result<(), AllocError>
    requires job { J.work ≡ hand.old.job.now }
    requires fits { hand.old.scratch ≡ hand.old.job.now.«module» }
    requires keep { KeepsFor J.work J.honest (K.honest keep.old) (K.saved keep.old)
        (K.may_load keep.old) book.old }
    ensures job { J.work ≡ hand.new.job.now }
    ensures fits { hand.new.scratch ≡ hand.new.job.now.«module» }
    ensures keep { KeepsFor J.work J.honest (K.honest keep.new) (K.saved keep.new)
        (K.may_load keep.new) book.new }
{
    let Some(Sent { worker, done }) = hand.results.pop() else {
        return Ok(());
    };
    tell(rt, &mut hand.answers, book, keep, Event::Done(worker, done))
}

// Notes the answer to an event. A fault is the end.
fn tell<J: Origin, K: Keep, R: Device + AllocGlobal + Threads + Sync>(
    rt: &R,
    answers: &mut Vec<StepAnswer>,
    book: &mut Book<J>,
    keep: &mut K,
    event: Event<J>,
) -> Result<(), AllocError>
    requires keep { KeepsFor J.work J.honest (K.honest keep.old) (K.saved keep.old)
        (K.may_load keep.old) book.old }
    ensures keep { KeepsFor J.work J.honest (K.honest keep.new) (K.saved keep.new)
        (K.may_load keep.new) book.new }
{
    let answer = match book.accept(rt, event, keep) {
        Ok(answer) => answer,
        Err(_) => Answer::Ended,
    };
    answers.push(StepAnswer::Said(answer))?;
    Ok(())
}

fn tell_ended<J: Origin>(alloc: Global, answers: Vec<StepAnswer>, book: Book<J>, line: &mut Line) {
    match ended(book) {
        Ok(report) => {
            let outcome = Outcome::Ended(report);
            tell_trace(alloc, &Trace { answers, outcome }, line);
        }
        Err(word) => line.put(word),
    }
}

fn ended<J: Origin>(book: Book<J>) -> Result<Report, &'static str> {
    match book.status().end {
        JobStatus::Finished | JobStatus::Limit => match book.report() {
            Ok(report) => Ok(report),
            Err(fault) => Err(fault.word()),
        },
        _ => Err("the job goes on"),
    }
}
