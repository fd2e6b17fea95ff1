//! The audit after a job: threads are joined, and their receipts compared with what was received and sent.

ghost use Rattle.std.specs.Prelude.{◌≡◌, ◌<◌, ◌+◌, false, map, slice_get, vec_len, vec_capacity, IfOk, OnOk, Some};
ghost use Rattle.hub_ends.specs.Hub.{IsSameHub, handed, received, staff};
ghost use Rattle.worker_threads.specs.Threads.{AreSettled, AreThreadsOf, IsSpawned, IsSettledHub};
ghost use Rattle.hub_ends.specs.Verdicts.{sends_on, told_on};
ghost use Rattle.worker_threads.specs.inside.Epochs.{AreSteady, IsSteadyHub};
ghost use Rattle.worker_threads.specs.inside.Joins.{AreJoined, AreLinked, line_of};

use crate::thread_promises::{HubThreads, WorkerThread};
use hub_ends::{CoordinatorEnds, Receipts, VerdictSender, WorkerReceipt};
use std::thread::Threads;
use superstep::{JobFault, Origin};
use worker_loops::WorkerEnd;

// Joins the thread of the next worker, and compares its receipt, and what it heard of its losses.
fn settle_one<J: Origin, R: Threads>(
    rt: &R,
    ends: &mut CoordinatorEnds<J>,
    thread: WorkerThread<J>,
    receipts: &mut Vec<WorkerReceipt<J>>,
    verdicts: &mut Vec<VerdictSender>,
) -> Result<(), JobFault>
    requires spawned { IsSpawned ends.old (vec_len receipts.old) thread }
    requires worker { vec_len receipts.old < staff ends.old }
    requires room { vec_len receipts.old < vec_capacity receipts.old }
    requires settled { AreSettled ends.old 0 receipts.old.items }
    requires lines { vec_len verdicts.old ≡ staff ends.old }
    requires line { slice_get (map sends_on verdicts.old.items) (vec_len receipts.old)
        ≡ Some (line_of thread) }
    requires joined { AreJoined J.work J.honest
        (map told_on verdicts.old.items) 0 receipts.old.items }
    ensures settled { OnOk result (AreSettled ends.new 0 receipts.new.items) }
    ensures joined { OnOk result
        (AreJoined J.work J.honest (map told_on verdicts.new.items) 0 receipts.new.items) }
    ensures told { map told_on verdicts.new.items ≡ map told_on verdicts.old.items }
    ensures linked { map sends_on verdicts.new.items ≡ map sends_on verdicts.old.items }
    ensures lines { vec_len verdicts.new ≡ vec_len verdicts.old }
    ensures steady { thread.promise.loses ≡ false → AreSteady receipts.old.items
        → OnOk result (AreSteady receipts.new.items) }
    ensures len { OnOk result (vec_len receipts.new ≡ vec_len receipts.old + 1) }
    ensures room { OnOk result (vec_capacity receipts.new ≡ vec_capacity receipts.old) }
    ensures received { received ends.new ≡ received ends.old }
    ensures handed { handed ends.new ≡ handed ends.old }
    ensures hub { IsSameHub ends.old ends.new }
{
    let end = thread.join(rt)?;
    let WorkerEnd { receipt, reader } = end;
    let receipt = ends.settle(receipt);
    let sender = &mut verdicts[receipts.len()];
    sender.compare(reader);
    receipts.push_reserved(receipt);
    Ok(())
}

/// Joins all threads, and compares their receipts with what was received and sent, and what workers heard of their losses with what
/// they were told.
pub fn settle_all<J: Origin, R: Threads>(
    rt: &R,
    ends: &mut CoordinatorEnds<J>,
    spawned: HubThreads<J>,
    verdicts: &mut Vec<VerdictSender>,
) -> Result<Receipts<J>, JobFault>
    requires spawned { AreThreadsOf ends.old spawned }
    requires lines { vec_len verdicts.old ≡ staff ends.old }
    requires linked { AreLinked (map sends_on verdicts.old.items) 0 spawned.workers.items }
    ensures settled { IfOk result (IsSettledHub ends.new) }
    ensures steady { spawned.ticker.promise.loses ≡ false → IfOk result IsSteadyHub }
    ensures joined { IfOk result (λ receipts.
        AreJoined J.work J.honest (map told_on verdicts.new.items) 0 receipts.workers.items) }
    ensures told { map told_on verdicts.new.items ≡ map told_on verdicts.old.items }
    ensures received { received ends.new ≡ received ends.old }
    ensures handed { handed ends.new ≡ handed ends.old }
    ensures hub { IsSameHub ends.old ends.new }
{
    let (ticker, workers, mut receipts) = spawned.into_parts();
    let receipt = ticker.join(rt)?;
    let ticker = ends.settle_ticker(receipt);
    for thread in workers {
        settle_one(rt, ends, thread, &mut receipts, verdicts)?;
    }
    Ok(Receipts {
        ticker,
        workers: receipts,
    })
}
