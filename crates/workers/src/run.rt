//! Running a job in threads.

ghost use Rattle.std.specs.Thread.{IsSync};
ghost use Rattle.std.specs.Prelude.{◌≡◌, ◌<◌, false, true, map, vec_len, IfErr, IfOk, Some};
ghost use Rattle.control.specs.Machine.{count_set};
ghost use Rattle.book.specs.Saving.{HasLeft, KeepsFor};
ghost use Rattle.checkpoint.specs.Keep.{LoadsNothingElse};
ghost use Rattle.book.specs.Calm.{NeverFails};
ghost use Rattle.coordinator.specs.JobAnswers.{HasSpent, IsCalmReport, IsDriveFault, IsRunFault, EndedOver, EndedOverOwn, LoadsMadeAt, RanFromKeep, RanOn, RanOnOwn, WhereEnded, WhereRefused, WhereRun, has_ended};
ghost use Rattle.coordinator.specs.Coordinator as lent;
ghost use Rattle.workers.specs.Settled as settled;
ghost use Rattle.hub_ends.specs.Hub.{HasByes, IsNewHubOf, IsSameHub, IsUnused, handed, received, staff};
ghost use Rattle.coordinator.specs.Joining.{JoinedFrom, JoinedOn, JoinedOver};
ghost use Rattle.worker_threads.specs.Threads.{AreThreadsOf, HasSettled};
ghost use Rattle.hub_ends.specs.Verdicts.{AreUntold, sends_on, told_on};
ghost use Rattle.coordinator.specs.inside.EventLoop.{IsUnspent};
ghost use Rattle.worker_threads.specs.inside.Joins.{AreLinked};
ghost use Rattle.workers.specs.inside.Spawned.{EndsSpawned};

use book::{Book, Report};
use checkpoint::{Device, Keep};
use coordinator::{Coordinator, drive};
use hub_ends::{CoordinatorEnds, Receipts, TickPass, VerdictSender, WorkerPass};
use std::alloc::Global;
use std::sync::Wait;
use std::thread;
use std::thread::Threads;
use superstep::{Job, JobFault, Origin, Place};
use worker_loops::Gate;
use worker_threads::{HubThreads, settle_all, spawn_all};

// Returns whether the job was driven to its end.
fn was_driven(answer: &Result<Report, JobFault>) -> bool
    ensures { result ≡ has_ended answer.now }
{
    match answer {
        Ok(_) | Err(JobFault::OutOfMemory(_)) | Err(JobFault::NoWorkers) => true,
        Err(JobFault::Settings(_)) | Err(JobFault::ThreadRefused) | Err(JobFault::Closed) => false,
    }
}

// Drives the job to its end, joins all threads, and compares their receipts. Workers that wait for a verdict hear at the
// latest at its end that none comes.
fn drive_all<J: Origin, K: Keep, R: Wait + Threads + Sync + Device + AllocGlobal>(
    rt: &R,
    ends: &mut CoordinatorEnds<J>,
    spawned: HubThreads<J>,
    mut verdicts: Vec<VerdictSender>,
    book: Book<J>,
    keep: &mut K,
) -> (Option<Receipts<J>>, Result<Report, JobFault>)
    requires unused { IsUnused ends.old }
    requires workers { staff ends.old ≡ J.work.settings.workers }
    requires book { IsUnspent J.work book }
    requires keep { KeepsFor J.work J.honest (K.honest keep.old) (K.saved keep.old)
        (K.may_load keep.old) book }
    requires spawned { AreThreadsOf ends.old spawned }
    requires lines { vec_len verdicts ≡ staff ends.old }
    requires linked { AreLinked (map sends_on verdicts.items) 0 spawned.workers.items }
    requires untold { AreUntold (map told_on verdicts.items) }
    ensures ran { WhereEnded result.1
        (RanFromKeep K.honest K.saved K.may_load K.faults J.work J.honest book.entry
        (received ends.new) (handed ends.new) keep.old result.1) }
    ensures joins { WhereEnded result.1 (JoinedFrom J.work J.honest book.entry
        (received ends.new) (handed ends.new) result.1) }
    ensures byes { WhereEnded result.1 (HasByes (staff ends.new) (received ends.new)) }
    ensures spent { IfOk result.1 (HasSpent (staff ends.new) (received ends.new)) }
    ensures epoch { spawned.ticker.promise.loses ≡ false → count_set book.entry.waiting ≡ 0
        → IfOk result.1 (λ report. report.epoch ≡ book.entry.epoch) }
    ensures settled { WhereEnded result.1 (HasSettled ends.new result.0) }
    ensures refused { IfErr result.1 IsDriveFault }
    ensures hub { IsSameHub ends.old ends.new }
{
    let answer = drive(rt, ends, book, keep, &mut verdicts);
    if !was_driven(&answer) {
        drop(spawned);
        return (None, answer);
    }
    match settle_all(rt, ends, spawned, &mut verdicts) {
        Ok(receipts) => (Some(receipts), answer),
        Err(_) => {
            drop(answer);
            (None, Err(JobFault::Closed))
        }
    }
}

// Starts all threads in a scope and drives the job to its end. Returns the ends with the receipts of the threads. If a
// thread cannot be started, the running ones are stopped. Each sends only its bye, for which the channel has room, and
// the scope joins them.
fn run_spawned<
    J: Origin + Send + Sync,
    K: Keep + Drop,
    G: Gate + Sync,
    R: Wait + Threads + Sync + Device + AllocGlobal,
>(
    rt: &R,
    alloc: Global,
    job: &Job,
    gate: &G,
    ends: CoordinatorEnds<J>,
    passes: Vec<WorkerPass<J>>,
    ticker: TickPass<J>,
    book: Book<J>,
    keep: K,
) -> (
    CoordinatorEnds<J>,
    Option<Receipts<J>>,
    Result<Report, JobFault>,
)
    requires job { J.work ≡ job.now }
    requires hub { IsNewHubOf J.work.settings.workers ends passes ticker }
    requires book { IsUnspent J.work book }
    requires keep { KeepsFor J.work J.honest (K.honest keep) (K.saved keep) (K.may_load keep) book }
    ensures { EndsSpawned K.honest K.saved K.may_load K.faults J.work J.honest
        (G.loses gate.now) ends book.entry keep result.0 result.1 result.2 }
{
    thread::scope(
        thread::scope_env(),
        rt,
        |scope|
            // A closure knows of the bounds only what it requires.
            requires sync { IsSync R.row × IsSync G.row }
            requires job { J.work ≡ job.now }
            requires hub { IsNewHubOf J.work.settings.workers ends passes ticker }
            requires book { IsUnspent J.work book }
            requires keep { KeepsFor J.work J.honest (K.honest keep) (K.saved keep)
                (K.may_load keep) book }
            ensures { EndsSpawned K.honest K.saved K.may_load K.faults J.work J.honest
                (G.loses gate.entry.now) ends book.entry keep result.0 result.1 result.2 }
        {
            let mut mine = ends;
            let mut keep = keep;
            match spawn_all(scope, rt, alloc, job, gate, &mine, passes, ticker) {
                Ok((spawned, verdicts)) => {
                    let (receipts, answer) = drive_all(
                        rt, &mut mine, spawned, verdicts, book, &mut keep,
                    );
                    (mine, receipts, answer)
                }
                Err(_) => {
                    drop(book);
                    let _stopped = mine.stop(rt);
                    (mine, None, Err(JobFault::ThreadRefused))
                }
            }
        },
    )
}

/// Runs a job in threads, one for each worker and one for the ticker. Returns what the job ended with.
///
/// Its precondition: the coordinator and the passes are those of one unused hub of this job, and the Keep is like the
/// one that the hub was opened with. `OutOfMemory` of `Open`, for the book, comes before any thread is started.
/// `ThreadRefused`: a thread could not be started, perhaps as memory ran out. The started ones were stopped and joined,
/// and no task was sent or event received. `Closed`: a channel's other end is gone.
pub fn run_job<
    J: Origin + Send + Sync,
    K: Keep + Drop,
    G: Gate + Sync,
    R: Wait + Threads + Sync + Device + AllocGlobal,
>(
    rt: &R,
    alloc: Global,
    job: &Job,
    coordinator: &mut Coordinator<J>,
    passes: Vec<WorkerPass<J>>,
    ticker: TickPass<J>,
    keep: K,
    gate: &G,
) -> Result<Report, JobFault>
    requires job { J.work ≡ job.now }
    requires hub { lent.IsNewHub job.now.settings.workers coordinator.old passes ticker }
    requires keep { J.honest 1 ≡ true → K.honest keep ≡ true }
    // There is one list of assignments and events, of what was sent and received, over which the job ended so.
    ensures ran { WhereRun result
        (EndedOver J.work J.honest (lent.received coordinator.new)
        (lent.handed coordinator.new) result) }
    // Each assignment and each event of it leaves the Keep as its save or its load left it, or as it was.
    ensures kept { WhereRun result
        (EndedOverOwn K.honest K.saved K.may_load K.faults J.work J.honest
        (lent.received coordinator.new) (lent.handed coordinator.new) keep result) }
    // In one such list each worker sends events for the tasks that it was assigned alone: one result at most for each, whose units
    // are those of the plain run if its epoch is trusted. Each join of a worker comes right after a loss that it reported and that
    // was counted. So a worker that was lost by its lease never joins again.
    ensures joins { WhereRun result
        (JoinedOver J.work J.honest (lent.received coordinator.new)
        (lent.handed coordinator.new) result) }
    // If the Keep loads only what was saved and its device never fails, no save is missed and the job never begins again.
    ensures calm { LoadsNothingElse K.saved K.may_load → NeverFails K.faults
        → IfOk result IsCalmReport }
    ensures byes { WhereRun result
        (HasByes (lent.staff coordinator.new) (lent.received coordinator.new)) }
    ensures spent { IfOk result
        (HasSpent (lent.staff coordinator.new) (lent.received coordinator.new)) }
    ensures handed_in { IfOk result (settled.HasHandedIn coordinator.new) }
    // If the gate may lose nobody, the job ends in the epoch in which it began, so nothing is loaded.
    ensures epoch { G.loses gate.now ≡ false → IfOk result (λ report. report.epoch ≡ 0) }
    // All that the threads sent was received, once and in order, and what workers took is what they were sent.
    ensures settled { WhereRun result (settled.IsSettled coordinator.new) }
    ensures idle { WhereRefused result (settled.IsIdle coordinator.new) }
    ensures refused { IfErr result IsRunFault }
    ensures hub { lent.IsSameHub coordinator.old coordinator.new }
{
    let Ok(book) = Book::open(alloc, job) else {
        drop(ticker);
        return Err(JobFault::OutOfMemory(Place::Open));
    };
    let Some(ends) = coordinator.ends.take() else {
        drop(book);
        drop(ticker);
        return Err(JobFault::Closed);
    };
    let (ends, receipts, answer) = run_spawned(
        rt, alloc, job, gate, ends, passes, ticker, book, keep,
    );
    coordinator.ends = Some(ends);
    coordinator.receipts = receipts;
    answer
}

/// Runs a job in threads as `run_job` does, but goes on where an earlier run of it has left off: before a superstep whose state
/// the Keep has. It begins as after a loss of all workers, by loading that state, or with superstep 0 where it can't be had,
/// which counts as a restart.
///
/// It asks besides that the superstep is the Keep's last and below the limit, and, where the hub was opened with an honest Keep,
/// that what it may load is the job's state there. It refuses as `run_job` does.
pub fn resume_job<
    J: Origin + Send + Sync,
    K: Keep + Drop,
    G: Gate + Sync,
    R: Wait + Threads + Sync + Device + AllocGlobal,
>(
    rt: &R,
    alloc: Global,
    job: &Job,
    coordinator: &mut Coordinator<J>,
    passes: Vec<WorkerPass<J>>,
    ticker: TickPass<J>,
    keep: K,
    gate: &G,
    superstep: u32,
) -> Result<Report, JobFault>
    requires job { J.work ≡ job.now }
    requires hub { lent.IsNewHub job.now.settings.workers coordinator.old passes ticker }
    requires early { superstep < job.now.settings.limit }
    requires saved { K.saved keep ≡ Some superstep }
    requires keep { J.honest 0 ≡ true → K.honest keep ≡ true }
    requires left { J.honest 0 ≡ true → HasLeft J.work (K.may_load keep) superstep }
    // There is one list of hands and events from that state on, of what was handed out and received, over which the job ended so.
    ensures ran { WhereRun result
        (RanOn J.work J.honest superstep (lent.received coordinator.new)
        (lent.handed coordinator.new) result) }
    // The load at its start, and each assignment and each event, leave the Keep as a save or a load left it, or as it was.
    ensures kept { WhereRun result
        (RanOnOwn K.honest K.saved K.may_load K.faults J.work J.honest superstep
        (lent.received coordinator.new) (lent.handed coordinator.new) keep result) }
    // In one such list each worker sends events for the tasks that it was assigned alone, and joins again only right after a loss
    // that it reported and that was counted.
    ensures joins { WhereRun result
        (JoinedOn J.work J.honest superstep (lent.received coordinator.new)
        (lent.handed coordinator.new) result) }
    // If the Keep loads only what was saved and its device never fails, and what it may load is a checkpoint of a state that
    // fits there, no save is missed and the job never begins again.
    ensures calm { LoadsNothingElse K.saved K.may_load → NeverFails K.faults
        → LoadsMadeAt J.work (K.may_load keep) superstep → IfOk result IsCalmReport }
    ensures byes { WhereRun result
        (HasByes (lent.staff coordinator.new) (lent.received coordinator.new)) }
    ensures spent { IfOk result
        (HasSpent (lent.staff coordinator.new) (lent.received coordinator.new)) }
    ensures handed_in { IfOk result (settled.HasHandedIn coordinator.new) }
    ensures settled { WhereRun result (settled.IsSettled coordinator.new) }
    ensures idle { WhereRefused result (settled.IsIdle coordinator.new) }
    ensures refused { IfErr result IsRunFault }
    ensures hub { lent.IsSameHub coordinator.old coordinator.new }
{
    let mut keep = keep;
    let Ok(book) = Book::resume(rt, alloc, job, &mut keep, superstep) else {
        drop(ticker);
        return Err(JobFault::OutOfMemory(Place::Open));
    };
    let Some(ends) = coordinator.ends.take() else {
        drop(book);
        drop(ticker);
        return Err(JobFault::Closed);
    };
    let (ends, receipts, answer) = run_spawned(
        rt, alloc, job, gate, ends, passes, ticker, book, keep,
    );
    coordinator.ends = Some(ends);
    coordinator.receipts = receipts;
    answer
}
