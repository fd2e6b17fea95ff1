//! The event loop, which drives a job to its end.

ghost use Rattle.std.specs.Prelude.{◌≡◌, ◌<◌, ◌+◌, ◌∷◌, false, true, map, vec_len, ℕ, IfErr, IfOk, OnErr, OnOk};
ghost use Rattle.book.specs.Saving.{IsKeptStep, KeepsFor};
ghost use Rattle.control.specs.Machine.{is_running};
ghost use Rattle.coordinator.specs.JobAnswers.{HasSpent, IsAnswerAt, IsDriveFault, IsLeftBy, RanFromOver, WhereEnded};
ghost use Rattle.coordinator.specs.Steps.{Steps};
ghost use Rattle.hub_ends.specs.Verdicts.{AreUntold, sends_on, told_on};
ghost use Rattle.coordinator.specs.inside.EventLoop.{IsOver, IsUnspent};
ghost use Rattle.coordinator.specs.inside.Told.{IsToldNext, StepsDue, StepsTold, ToldFrom, due_by, lost_in};
ghost use Rattle.hub_ends.specs.Hub.{HasByes, IsSameHub, IsStopped, IsUnused, handed, received, staff};
ghost use Rattle.hub_ends.specs.Orders.{at, tasks_in};

use book::{Answer, Book, Event, JobStatus, Report};
use checkpoint::{Device, Keep};
use hub_ends::{Closed, CoordinatorEnds, Message, VerdictSender};
use std::sync::Wait;
use std::thread::Threads;
use superstep::{JobFault, Origin};

// The workers that may be free once an event was taken.
#[derive(Clone, Copy)]
enum Free {
    Nobody,
    One(u32),
    All,
}

// The verdict that is due to a worker which has reported a loss.
#[derive(Clone, Copy)]
struct Due {
    worker: u32,
    // whether the loss was counted and the job goes on
    counted: bool,
}

// What follows a message that was taken: the workers that may be free then, and the verdict that is due.
#[derive(Clone, Copy)]
struct Taken {
    free: Free,
    due: Option<Due>,
}

// Returns who is free if the superstep stays the same, the worker that returned a result, and whom the event reports as lost.
fn named_by<J: Origin>(event: &Event<J>) -> (Free, Option<u32>)
    ensures { result.1 ≡ lost_in event.now }
{
    match event {
        Event::Done(worker, _) => (Free::One(*worker), None),
        Event::Lost(worker) => (Free::Nobody, Some(*worker)),
        Event::Failed(..) | Event::Joined(_) | Event::Tick => (Free::Nobody, None),
    }
}

// Returns who is free after this answer: with a new superstep or epoch, all workers are.
fn free_after(freed: Free, answer: Result<Answer, JobFault>) -> Free {
    match answer {
        Ok(Answer::Taken) | Ok(Answer::Stale) => freed,
        Ok(Answer::Advanced(_)) | Ok(Answer::RolledBack(_)) => Free::All,
        Ok(Answer::Ended) | Err(_) => Free::Nobody,
    }
}

// Returns the verdict on a loss, by the answer to it.
fn verdict_on(lost: Option<u32>, answer: &Result<Answer, JobFault>) -> Option<Due>
    ensures { result ≡ due_by lost answer.now }
{
    match lost {
        Some(worker) => Some(Due {
            worker,
            counted: matches!(answer, Ok(Answer::RolledBack(_))),
        }),
        None => None,
    }
}

// Tells a worker that listens the verdict that is due to it.
fn tell_due<R: Wait>(
    rt: &R,
    verdicts: &mut Vec<VerdictSender>,
    due: Option<Due>,
) -> Result<(), Closed>
    ensures told { OnOk result
        (IsToldNext (map told_on verdicts.old.items) (map told_on verdicts.new.items) due) }
    ensures linked { map sends_on verdicts.new.items ≡ map sends_on verdicts.old.items }
    ensures lines { vec_len verdicts.new ≡ vec_len verdicts.old }
{
    let Some(due) = due else {
        return Ok(());
    };
    let worker = due.worker as usize;
    if worker >= verdicts.len() {
        return Ok(());
    }
    let sender = &mut verdicts[worker];
    sender.tell(rt, due.counted)
}

fn goes_on<J: Origin>(book: &Book<J>) -> bool
    ensures { result ≡ is_running book.now.ending }
{
    matches!(book.status().end, JobStatus::Running)
}

// Returns the report or the fault of a job that has ended.
fn answer_of<J: Origin>(book: Book<J>) -> Result<Report, JobFault>
    requires { is_running book.ending ≡ false }
    ensures { IsAnswerAt J.work J.honest book.entry book.entry.ending result }
{
    let status = book.status();
    match status.end {
        JobStatus::Running => unreachable!(),
        JobStatus::Finished | JobStatus::Limit => {
            let report = book.report()?;
            Ok(report)
        }
        JobStatus::Fault(fault) => {
            drop(book);
            Err(fault)
        }
    }
}

// Sends the worker its next task, if the book has one for it.
fn offer_next<J: Origin, R: Wait>(
    rt: &R,
    ends: &mut CoordinatorEnds<J>,
    book: &mut Book<J>,
    worker: u32,
) -> Result<(), Closed>
    requires { worker < staff ends.old }
    ensures steps { OnOk result (Steps J.work J.honest book.old book.new
        (received ends.old) (received ends.new) (handed ends.old) (handed ends.new)) }
    ensures received { received ends.new ≡ received ends.old }
    ensures saved { book.new.saved ≡ book.old.saved }
    ensures hub { IsSameHub ends.old ends.new }
{
    match book.next_task(worker) {
        Some(task) => ends.offer(rt, worker as usize, task),
        None => Ok(()),
    }
}

// Sends each worker its next task, if the book has one for it.
fn offer_all<J: Origin, R: Wait>(
    rt: &R,
    ends: &mut CoordinatorEnds<J>,
    book: &mut Book<J>,
) -> Result<(), Closed>
    ensures steps { OnOk result (Steps J.work J.honest book.old book.new
        (received ends.old) (received ends.new) (handed ends.old) (handed ends.new)) }
    ensures received { received ends.new ≡ received ends.old }
    ensures saved { book.new.saved ≡ book.old.saved }
    ensures hub { IsSameHub ends.old ends.new }
{
    let workers = ends.workers() as u32;
    for worker in 0..workers {
        offer_next(rt, ends, book, worker)?;
    }
    Ok(())
}

// Sends free workers their next tasks.
fn offer_free<J: Origin, R: Wait>(
    rt: &R,
    ends: &mut CoordinatorEnds<J>,
    book: &mut Book<J>,
    free: Free,
) -> Result<(), Closed>
    ensures steps { OnOk result (Steps J.work J.honest book.old book.new
        (received ends.old) (received ends.new) (handed ends.old) (handed ends.new)) }
    ensures received { received ends.new ≡ received ends.old }
    ensures saved { book.new.saved ≡ book.old.saved }
    ensures hub { IsSameHub ends.old ends.new }
{
    match free {
        Free::Nobody => Ok(()),
        Free::One(worker) => {
            if worker as usize >= ends.workers() {
                return Ok(());
            }
            offer_next(rt, ends, book, worker)
        }
        Free::All => offer_all(rt, ends, book),
    }
}

// Takes one message, and gives it to the book if it is an event. Returns who may be free then, and the verdict that is
// due if the event is a loss.
fn take_one<J: Origin, K: Keep, R: Wait + Threads + Sync + Device + AllocGlobal>(
    rt: &R,
    ends: &mut CoordinatorEnds<J>,
    book: &mut Book<J>,
    keep: &mut K,
) -> Result<Taken, Closed>
    requires keep { KeepsFor J.work J.honest (K.honest keep.old) (K.saved keep.old)
        (K.may_load keep.old) book.old }
    ensures steps { IfOk result (λ taken. StepsDue
        (IsKeptStep K.honest K.saved K.may_load K.faults J.work J.honest)
        J.work J.honest book.old book.new (received ends.old) (received ends.new)
        (handed ends.old) (handed ends.new) keep.old keep.new taken.due) }
    ensures keep { KeepsFor J.work J.honest (K.honest keep.new) (K.saved keep.new)
        (K.may_load keep.new) book.new }
    ensures err { OnErr result
        ((received ends.new ≡ received ends.old) × (keep.new ≡ keep.old)) }
    ensures handed { handed ends.new ≡ handed ends.old }
    ensures hub { IsSameHub ends.old ends.new }
{
    match ends.take_event(rt)? {
        Message::Event(event) => {
            let (freed, lost) = named_by(&event);
            let answer = book.accept(rt, event, keep);
            let due = verdict_on(lost, &answer);
            Ok(Taken {
                free: free_after(freed, answer),
                due,
            })
        }
        Message::Bye(_) => Ok(Taken {
            free: Free::Nobody,
            due: None,
        }),
    }
}

// Sends free workers their next tasks while the job runs. Once it has ended, stops all, unless they were stopped
// before.
fn offer_or_stop<J: Origin, R: Wait>(
    rt: &R,
    ends: &mut CoordinatorEnds<J>,
    book: &mut Book<J>,
    free: Free,
    stopped: &mut bool,
) -> Result<(), Closed>
    requires stopped { stopped.old ≡ true → IsOver book.old ends.old }
    ensures steps { OnOk result (Steps J.work J.honest book.old book.new
        (received ends.old) (received ends.new) (handed ends.old) (handed ends.new)) }
    ensures received { received ends.new ≡ received ends.old }
    ensures saved { book.new.saved ≡ book.old.saved }
    ensures stopped { OnOk result (stopped.new ≡ true → IsOver book.new ends.new) }
    ensures hub { IsSameHub ends.old ends.new }
{
    if goes_on(book) {
        return offer_free(rt, ends, book, free);
    }
    if !*stopped {
        ends.stop(rt)?;
        *stopped = true;
    }
    Ok(())
}

// Runs the job to its end: sends tasks, takes messages, and tells workers that listen of their losses. Then stops all,
// and takes messages until every sender has said bye.
fn run_out<J: Origin, K: Keep, R: Wait + Threads + Sync + Device + AllocGlobal>(
    rt: &R,
    ends: &mut CoordinatorEnds<J>,
    book: &mut Book<J>,
    keep: &mut K,
    verdicts: &mut Vec<VerdictSender>,
) -> Result<(), Closed>
    requires keep { KeepsFor J.work J.honest (K.honest keep.old) (K.saved keep.old)
        (K.may_load keep.old) book.old }
    requires untold { AreUntold (map told_on verdicts.old.items) }
    ensures steps { OnOk result (StepsTold
        (IsKeptStep K.honest K.saved K.may_load K.faults J.work J.honest)
        J.work J.honest book.old book.new (received ends.old) (received ends.new)
        (handed ends.old) (handed ends.new) keep.old keep.new
        (map told_on verdicts.new.items)) }
    ensures linked { map sends_on verdicts.new.items ≡ map sends_on verdicts.old.items }
    ensures lines { vec_len verdicts.new ≡ vec_len verdicts.old }
    ensures keep { OnOk result (KeepsFor J.work J.honest (K.honest keep.new)
        (K.saved keep.new) (K.may_load keep.new) book.new) }
    ensures left { IsLeftBy K.honest K.saved K.may_load K.faults J.work J.honest
        book.old (received ends.old) (received ends.new) keep.old keep.new }
    ensures ended { OnOk result (is_running book.new.ending ≡ false) }
    ensures byes { OnOk result (HasByes (staff ends.new) (received ends.new)) }
    ensures stopped { OnOk result ((w : ℕ) → w < staff ends.new → IsStopped ends.new w) }
    ensures hub { IsSameHub ends.old ends.new }
{
    let mut free = Free::All;
    let mut stopped = false;
    for _ in rt.forever() {
        offer_or_stop(rt, ends, book, free, &mut stopped)?;
        if stopped && ends.all_gone() {
            return Ok(());
        }
        let taken = take_one(rt, ends, book, keep)?;
        tell_due(rt, verdicts, taken.due)?;
        free = taken.free;
    }
    unreachable!()
}

/// Drives a job to its end, stops all, waits for every bye, and returns the report. It tells each worker that listens, the
/// first ones by their numbers, which of its losses were counted. If a channel is closed, it stops all and returns `Closed`.
pub fn drive<J: Origin, K: Keep, R: Wait + Threads + Sync + Device + AllocGlobal>(
    rt: &R,
    ends: &mut CoordinatorEnds<J>,
    mut book: Book<J>,
    keep: &mut K,
    verdicts: &mut Vec<VerdictSender>,
) -> Result<Report, JobFault>
    requires unused { IsUnused ends.old }
    requires workers { staff ends.old ≡ J.work.settings.workers }
    requires book { IsUnspent J.work book }
    requires keep { KeepsFor J.work J.honest (K.honest keep.old) (K.saved keep.old)
        (K.may_load keep.old) book }
    requires untold { AreUntold (map told_on verdicts.old.items) }
    ensures ran { WhereEnded result
        (RanFromOver K.honest K.saved K.may_load K.faults J.work J.honest book.entry
        (received ends.new) (handed ends.new) keep.old keep.new result) }
    ensures told { WhereEnded result
        (ToldFrom J.work J.honest book.entry (received ends.new) (handed ends.new)
        (map told_on verdicts.new.items) result) }
    ensures linked { map sends_on verdicts.new.items ≡ map sends_on verdicts.old.items }
    ensures lines { vec_len verdicts.new ≡ vec_len verdicts.old }
    ensures left { IsLeftBy K.honest K.saved K.may_load K.faults J.work J.honest
        book.entry (received ends.old) (received ends.new) keep.old keep.new }
    ensures byes { WhereEnded result (HasByes (staff ends.new) (received ends.new)) }
    ensures stopped { WhereEnded result
        ((w : ℕ) → w < staff ends.new → IsStopped ends.new w) }
    ensures spent { IfOk result (HasSpent (staff ends.new) (received ends.new)) }
    ensures refused { IfErr result IsDriveFault }
    ensures hub { IsSameHub ends.old ends.new }
{
    match run_out(rt, ends, &mut book, keep, verdicts) {
        Ok(()) => answer_of(book),
        Err(_) => {
            drop(book);
            let _closed = ends.stop(rt);
            Err(JobFault::Closed)
        }
    }
}
