//! Whole runs of a job over lists of steps.

ghost use Rattle.std.specs.Prelude.{◌≡◌, ◌<◌, ℕ, length, replicate, slice_index_or, slice_set, Bool, true, None, Result, option_map, IfErr, IfOk};
ghost use Rattle.superstep.specs.Job.{Meaning};
ghost use Rattle.superstep.specs.Tasks.{AreUnitsAt, trusts};
ghost use Rattle.job_state.specs.declared.fault.JobFault.{JobFault};
ghost use Rattle.book.specs.Book.{IsStep};
ghost use Rattle.control.specs.Stamps.{stamp_of, task_out};
ghost use Rattle.control.specs.Events.{accepted};
ghost use Rattle.checkpoint.specs.Keep.{LoadsNothingElse};
ghost use Rattle.book.specs.Saving.{IsKeptStep, KeepsFor};
ghost use Rattle.book.specs.Calm.{NeverFails};
ghost use Rattle.book.specs.inside.Counts.{HasSameCounts};
ghost use Rattle.control.specs.Machine.{is_free};
ghost use Rattle.rollback.specs.Simulation.{CallsStayWithin, IsCalm, IsOutcomeAt, IsSimStep, IsSimulated, IsSimulatedOver, RanOver, brought, emptied, said};
ghost use Rattle.rollback.specs.inside.Simulating.{AreAnswersTo, IsRunnerOf, sim_of, stamps};
ghost use Rattle.control.specs.declared.answer.Answer.{Answer};
ghost use Rattle.rollback.specs.declared.simulation.Step.TheVariants.{Join, Take, Work};

use book::{Book, Report};
use checkpoint::{Device, Keep};
use compute::run_task;
use control::{Answer, Event, JobStatus};
use interp::Scratch;
use semantics::{calls_are_a_function, calls_end};
use std::alloc::{AllocError, Global};
use std::marker::Brand;
use std::mem;
use std::thread::Threads;
use superstep::{Job, JobFault, Origin, Place, Task};

/// A step of a job's workers. Workers are numbered from 0.
#[derive(Clone, Copy)]
pub enum Step {
    /// The worker takes a task, and holds it.
    Take(u32),
    /// The worker does the task that it holds, or takes one first, and returns the result.
    Work(u32),
    /// The worker is lost. It still holds its task.
    Lose(u32),
    /// One tick passes.
    Tick,
    /// The worker joins again. If it is not alive and does not wait, it drops its task first.
    Join(u32),
}

/// The answer to a step.
#[derive(Clone, Copy)]
pub enum StepAnswer {
    /// The worker holds a task already, or there is none for it.
    Idle,
    /// The worker was assigned the task of this part.
    Handed(u32),
    /// This is the answer to the step's event.
    Said(Answer),
}

/// The outcome of a list of steps.
#[derive(Drop)]
pub enum Outcome {
    /// The job goes on, at this superstep.
    Open(u32),
    /// The job has ended, with an answer.
    Ended(Report),
}

/// The answer to each step, and the outcome.
#[derive(Drop)]
pub struct Trace {
    /// The answers to the steps, in their order.
    pub answers: Vec<StepAnswer>,
    /// The outcome after the last step.
    pub outcome: Outcome,
}

// The tools of a job's tasks.
#[derive(Drop)]
struct TaskRunner<'a> {
    alloc: Global,
    job: &'a Job,
    scratch: Scratch<'a>,
}

// Does a task, and returns the event that reports it.
fn done_by<J: Origin>(runner: &mut TaskRunner, worker: u32, task: Task<J>) -> Event<J>
    requires runner { IsRunnerOf J.work runner.old }
    ensures runner { IsRunnerOf J.work runner.new }
    ensures told { (ran : Bool) × (units : ℕ)
        × (stamp_of result ≡ brought ran units worker (task_out task))
        × (ran ≡ true → J.honest task.epoch ≡ true
        → AreUnitsAt J.work task.superstep task.part units) }
{
    match run_task(runner.alloc, runner.job, task, &mut runner.scratch) {
        Ok(done) => Event::Done(worker, done),
        Err(lost) => Event::Failed(worker, lost.place),
    }
}

// Gives the book an event, and returns the step's answer.
fn tell<J: Origin, K: Keep, R: Threads + Sync + Device + AllocGlobal>(
    rt: &R,
    book: &mut Book<J>,
    keep: &mut K,
    event: Event<J>,
) -> StepAnswer
    requires keep { KeepsFor J.work J.honest (K.honest keep.old) (K.saved keep.old)
        (K.may_load keep.old) book.old }
    ensures step { (reply : Result Answer JobFault) × (result ≡ said reply)
        × IsStep J.work J.honest (λ heard. accepted heard book.old (stamp_of event))
        book.old book.new reply }
    ensures keep { KeepsFor J.work J.honest (K.honest keep.new) (K.saved keep.new)
        (K.may_load keep.new) book.new }
    ensures kept { IsKeptStep K.honest K.saved K.may_load K.faults J.work J.honest
        book.old book.new keep.old keep.new }
{
    match book.accept(rt, event, keep) {
        Ok(answer) => StepAnswer::Said(answer),
        Err(_) => StepAnswer::Said(Answer::Ended),
    }
}

fn holds_none<J: Origin>(held: &[Option<Task<J>>], worker: usize) -> bool
    requires { worker < length held.now }
    ensures { result ≡ is_free (slice_index_or (stamps held.now) worker None) }
{
    held[worker].is_none()
}

// Takes the task that the worker held.
fn let_go<J: Origin>(held: &mut [Option<Task<J>>], worker: usize) -> Option<Task<J>>
    ensures held { option_map task_out result ≡ slice_index_or (stamps held.old) worker None }
    ensures after { stamps held.new ≡ slice_set (stamps held.old) worker None }
{
    if worker < held.len() {
        mem::replace(&mut held[worker], None)
    } else {
        None
    }
}

// Drops the task of a worker that is not alive and does not wait.
fn empty_if_gone<J: Origin>(book: &Book<J>, held: &mut [Option<Task<J>>], worker: u32)
    ensures { stamps held.new ≡ emptied book.now (stamps held.old) worker }
{
    if !book.is_gone(worker) {
        return;
    }
    let_go(held, worker as usize);
}

fn take<J: Origin>(book: &mut Book<J>, held: &mut [Option<Task<J>>], worker: u32) -> StepAnswer
    ensures step { IsSimStep J.work J.honest (Take worker) (sim_of book.old held.old)
        (sim_of book.new held.new) result }
    ensures saved { book.new.saved ≡ book.old.saved }
    ensures counts { HasSameCounts book.old book.new }
{
    if !book.is_running() {
        return StepAnswer::Said(Answer::Ended);
    }
    let index = worker as usize;
    if index >= held.len() {
        return StepAnswer::Said(Answer::Stale);
    }
    if !holds_none(held, index) {
        return StepAnswer::Idle;
    }
    let Some(task) = book.next_task(worker) else {
        return StepAnswer::Idle;
    };
    let part = task.part();
    held[index] = Some(task);
    StepAnswer::Handed(part)
}

fn work<J: Origin, K: Keep, R: Threads + Sync + Device + AllocGlobal>(
    rt: &R,
    runner: &mut TaskRunner,
    book: &mut Book<J>,
    held: &mut [Option<Task<J>>],
    keep: &mut K,
    worker: u32,
) -> StepAnswer
    requires runner { IsRunnerOf J.work runner.old }
    requires keep { KeepsFor J.work J.honest (K.honest keep.old) (K.saved keep.old)
        (K.may_load keep.old) book.old }
    ensures runner { IsRunnerOf J.work runner.new }
    ensures step { IsSimStep J.work J.honest (Work worker) (sim_of book.old held.old)
        (sim_of book.new held.new) result }
    ensures keep { KeepsFor J.work J.honest (K.honest keep.new) (K.saved keep.new)
        (K.may_load keep.new) book.new }
    ensures kept { IsKeptStep K.honest K.saved K.may_load K.faults J.work J.honest
        book.old book.new keep.old keep.new }
{
    if let Some(task) = let_go(held, worker as usize) {
        let event = done_by(runner, worker, task);
        return tell(rt, book, keep, event);
    }
    if !book.is_running() {
        return StepAnswer::Said(Answer::Ended);
    }
    if worker as usize >= held.len() {
        return StepAnswer::Said(Answer::Stale);
    }
    let Some(task) = book.next_task(worker) else {
        return StepAnswer::Idle;
    };
    let event = done_by(runner, worker, task);
    tell(rt, book, keep, event)
}

fn join<J: Origin, K: Keep, R: Threads + Sync + Device + AllocGlobal>(
    rt: &R,
    book: &mut Book<J>,
    held: &mut [Option<Task<J>>],
    keep: &mut K,
    worker: u32,
) -> StepAnswer
    requires keep { KeepsFor J.work J.honest (K.honest keep.old) (K.saved keep.old)
        (K.may_load keep.old) book.old }
    ensures step { IsSimStep J.work J.honest (Join worker) (sim_of book.old held.old)
        (sim_of book.new held.new) result }
    ensures keep { KeepsFor J.work J.honest (K.honest keep.new) (K.saved keep.new)
        (K.may_load keep.new) book.new }
    ensures kept { IsKeptStep K.honest K.saved K.may_load K.faults J.work J.honest
        book.old book.new keep.old keep.new }
{
    empty_if_gone(book, held, worker);
    tell(rt, book, keep, Event::Joined(worker))
}

fn step_of<J: Origin, K: Keep, R: Threads + Sync + Device + AllocGlobal>(
    rt: &R,
    runner: &mut TaskRunner,
    book: &mut Book<J>,
    held: &mut [Option<Task<J>>],
    keep: &mut K,
    step: Step,
) -> StepAnswer
    requires runner { IsRunnerOf J.work runner.old }
    requires keep { KeepsFor J.work J.honest (K.honest keep.old) (K.saved keep.old)
        (K.may_load keep.old) book.old }
    ensures runner { IsRunnerOf J.work runner.new }
    ensures step { IsSimStep J.work J.honest step (sim_of book.old held.old)
        (sim_of book.new held.new) result }
    ensures keep { KeepsFor J.work J.honest (K.honest keep.new) (K.saved keep.new)
        (K.may_load keep.new) book.new }
    ensures kept { IsKeptStep K.honest K.saved K.may_load K.faults J.work J.honest
        book.old book.new keep.old keep.new }
{
    match step {
        Step::Take(worker) => take(book, held, worker),
        Step::Work(worker) => work(rt, runner, book, held, keep, worker),
        Step::Lose(worker) => tell(rt, book, keep, Event::Lost(worker)),
        Step::Tick => tell(rt, book, keep, Event::Tick),
        Step::Join(worker) => join(rt, book, held, keep, worker),
    }
}

// Runs the steps, one after another, and writes down each answer.
fn run<J: Origin, K: Keep, R: Threads + Sync + Device + AllocGlobal>(
    rt: &R,
    runner: &mut TaskRunner,
    book: &mut Book<J>,
    held: &mut [Option<Task<J>>],
    keep: &mut K,
    steps: &[Step],
    answers: &mut [StepAnswer],
)
    requires same { length answers.old ≡ length steps.now }
    requires runner { IsRunnerOf J.work runner.old }
    requires keep { KeepsFor J.work J.honest (K.honest keep.old) (K.saved keep.old)
        (K.may_load keep.old) book.old }
    ensures ran { RanOver (IsKeptStep K.honest K.saved K.may_load K.faults J.work J.honest)
        J.work J.honest steps.now (sim_of book.old held.old) keep.old answers.new
        (sim_of book.new held.new) keep.new }
    ensures keep { KeepsFor J.work J.honest (K.honest keep.new) (K.saved keep.new)
        (K.may_load keep.new) book.new }
{
    for i in 0..steps.len() {
        answers[i] = step_of(rt, runner, book, held, keep, steps[i]);
    }
}

// Returns how the job has ended, or the superstep that it is at.
fn outcome_of<J: Origin>(book: Book<J>) -> Result<Outcome, JobFault>
    ensures { IsOutcomeAt J.work J.honest book.entry book.entry.ending result }
{
    let status = book.status();
    match status.end {
        JobStatus::Running => Ok(Outcome::Open(status.superstep)),
        JobStatus::Finished | JobStatus::Limit => {
            let report = book.report()?;
            Ok(Outcome::Ended(report))
        }
        JobStatus::Fault(fault) => Err(fault),
    }
}

fn empty_hands<J: Origin>(alloc: Global, workers: u32) -> Result<Vec<Option<Task<J>>>, AllocError>
    ensures { IfOk result (λ held. stamps held.items ≡ replicate workers None) }
{
    let mut held = Vec::with_capacity(alloc, workers as usize)?;
    for worker in 0..workers {
        let _nothing_yet = worker;
        held.push(None)?;
    }
    Ok(held)
}

// Runs the steps, before which no worker holds a task, and returns the answers.
fn answers_to<J: Origin, K: Keep, R: Threads + Sync + Device + AllocGlobal>(
    rt: &R,
    runner: &mut TaskRunner,
    book: &mut Book<J>,
    keep: &mut K,
    steps: &[Step],
) -> Result<Vec<StepAnswer>, AllocError>
    requires runner { IsRunnerOf J.work runner.old }
    requires keep { KeepsFor J.work J.honest (K.honest keep.old) (K.saved keep.old)
        (K.may_load keep.old) book.old }
    ensures answered { IfOk result (λ answers.
        AreAnswersTo (IsKeptStep K.honest K.saved K.may_load K.faults J.work J.honest)
        J.work J.honest steps.now book.old book.new keep.old keep.new answers.items) }
    ensures keep { KeepsFor J.work J.honest (K.honest keep.new) (K.saved keep.new)
        (K.may_load keep.new) book.new }
    ensures untouched { IfErr result (λ _. keep.new ≡ keep.old) }
{
    let mut held = empty_hands(runner.alloc, runner.job.settings().workers)?;
    let mut answers = vec![in runner.alloc; StepAnswer::Idle; steps.len()]?;
    run(rt, runner, book, &mut held, keep, steps, &mut answers);
    Ok(answers)
}

// Simulates the job whose tasks the runner does.
fn simulate_by<J: Origin, K: Keep, R: Threads + Sync + Device + AllocGlobal>(
    rt: &R,
    runner: &mut TaskRunner,
    keep: &mut K,
    steps: &[Step],
) -> Result<Trace, JobFault>
    requires runner { IsRunnerOf J.work runner.old }
    requires honest { J.honest ≡ trusts (K.honest keep.old) }
    ensures kept { IsSimulatedOver K.honest K.saved K.may_load K.faults J.work J.honest
        steps.now keep.old keep.new result }
    ensures trust { J.honest 1 ≡ true → K.honest keep.new ≡ true }
{
    let mut book = Book::<J>::open(runner.alloc, runner.job)?;
    let Ok(answers) = answers_to(rt, runner, &mut book, keep, steps) else {
        return Err(JobFault::OutOfMemory(Place::Open));
    };
    let outcome = outcome_of(book)?;
    Ok(Trace { answers, outcome })
}

// Does the same for a job that a type names.
fn simulate_as<J: Origin, K: Keep, R: Threads + Sync + Device + AllocGlobal>(
    rt: &R,
    alloc: Global,
    job: &Job,
    keep: &mut K,
    steps: &[Step],
) -> Result<Trace, JobFault>
    requires job { J.work ≡ job.now }
    requires honest { J.honest ≡ trusts (K.honest keep.old) }
    ensures kept { IsSimulatedOver K.honest K.saved K.may_load K.faults J.work J.honest
        steps.now keep.old keep.new result }
    ensures trust { J.honest 1 ≡ true → K.honest keep.new ≡ true }
{
    let Ok(scratch) = Scratch::new(alloc, job.verified()) else {
        return Err(JobFault::OutOfMemory(Place::Call));
    };
    let mut runner = TaskRunner {
        alloc,
        job,
        scratch,
    };
    simulate_by::<J, K, R>(rt, &mut runner, keep, steps)
}

// Proves that calls of the job's module stay within their bound, whatever they are given.
fn calls_stay_within(job: &Job)
    ensures calls { CallsStayWithin job.now.«module» }
    ensures meaning { Meaning job.now }
{
    calls_end();
    calls_are_a_function();
    job.settings();
    let _module = job.verified().module();
}

/// Runs a job over these steps, in which workers take tasks, do them, are lost and join again, and time passes.
///
/// An `Err` is the fault that ended the job: `NoWorkers`, or `OutOfMemory` with its place. The place is `Open` or
/// `Call` before the first step, and `Report` for the report. The Keep is then as saves and loads left it.
pub fn simulate<K: Keep, R: Threads + Sync + Device + AllocGlobal>(
    rt: &R,
    alloc: Global,
    job: &Job,
    keep: &mut K,
    steps: &[Step],
) -> Result<Trace, JobFault>
    // No call meets a trap or a missing operand, and each stays within its bound.
    ensures calls { CallsStayWithin job.now.«module» }
    // So their outcomes are a function, and there is a plain run of the job's graph.
    ensures meaning { Meaning job.now }
    // The answers and the outcome are those of the control model. A job that has ended has the plain run's answer, if
    // the Keep is honest or the job is still in epoch 0, so that nothing was loaded.
    ensures simulated { IsSimulated job.now (trusts (K.honest keep.old)) steps.now result }
    // Each step leaves the Keep as its save or its load left it, or as it was.
    ensures kept { IsSimulatedOver K.honest K.saved K.may_load K.faults job.now
        (trusts (K.honest keep.old)) steps.now keep.old keep.new result }
    // If the Keep loads only what was saved and its device never fails, no save is missed and the job never begins
    // again.
    ensures calm { LoadsNothingElse K.saved K.may_load → NeverFails K.faults
        → IfOk result (λ trace. IsCalm trace.outcome) }
    // An honest Keep stays honest.
    ensures trust { K.honest keep.old ≡ true → K.honest keep.new ≡ true }
{
    calls_stay_within(job);
    simulate_as::<Brand, K, R>(rt, alloc, job, keep, steps)
}
