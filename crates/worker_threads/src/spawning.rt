//! Starting the threads of a hub.

ghost use Rattle.std.specs.Prelude.{◌≡◌, [], false, map, vec_len, IfErr, IfOk};
ghost use Rattle.job_state.specs.declared.fault.JobFault.TheVariants.{ThreadRefused};
ghost use Rattle.hub_ends.specs.Hub.{AreNewPasses, IsNewPass, IsNewTicker, channels_of, staff};
ghost use Rattle.hub_ends.specs.Passes.{ticked};
ghost use Rattle.worker_threads.specs.Threads.{AreOfGate, AreSpawned, AreThreadsOf, IsSpawned, IsSpawnedTicker};
ghost use Rattle.hub_ends.specs.Verdicts.{AreUntold, sends_on, told_on};
ghost use Rattle.worker_threads.specs.inside.Joins.{AreLinked, line_of};
ghost use Rattle.worker_threads.specs.inside.Works.{AreUnused, EndsTicks, EndsWork};

use crate::thread_promises::{HubThreads, TickThread, TickerPromise, WorkerPromise, WorkerThread};
use hub_ends::{CoordinatorEnds, TickPass, TickReceipt, VerdictSender, WorkerPass};
use std::alloc::Global;
use std::snapshot::Snapshot;
use std::sync::Wait;
use std::thread::Scope;
use superstep::{Job, JobFault, Origin};
use worker_loops::{Gate, WorkerEnd, tick_all, work_all};

/// Starts the threads of a hub: those of the workers and then the ticker's. Returns them, and the channel end on which each
/// worker is told of its losses. `ThreadRefused`, its only fault: one cannot be started.
pub fn spawn_all<'s, E, J: Origin + Send + Sync + 's, G: Gate + Sync + 's, R: Wait + Sync + 's>(
    scope: &Scope<'s, E>,
    rt: &'s R,
    alloc: Global,
    job: &'s Job,
    gate: &'s G,
    ends: &CoordinatorEnds<J>,
    passes: Vec<WorkerPass<J>>,
    ticker: TickPass<J>,
) -> Result<(HubThreads<J>, Vec<VerdictSender>), JobFault>
    requires job { J.work ≡ job.now }
    requires passes { AreNewPasses (channels_of ends.now) 0 passes.items }
    requires all { vec_len passes ≡ staff ends.now }
    requires ticker { IsNewTicker (channels_of ends.now) ticker }
    ensures spawned { IfOk result (λ pair. AreThreadsOf ends.now pair.0) }
    ensures gate { IfOk result (λ pair. pair.0.ticker.promise.loses ≡ G.loses gate.now) }
    ensures linked { IfOk result (λ pair.
        AreLinked (map sends_on pair.1.items) 0 pair.0.workers.items) }
    ensures lines { IfOk result (λ pair. vec_len pair.1 ≡ staff ends.now) }
    ensures untold { IfOk result (λ pair. AreUntold (map told_on pair.1.items)) }
    ensures refused { IfErr result (λ fault. fault ≡ ThreadRefused) }
{
    let Ok(receipts) = Vec::with_capacity(alloc, passes.len()) else {
        drop(ticker);
        return Err(JobFault::ThreadRefused);
    };
    let Ok((workers, verdicts)) = spawn_workers(scope, rt, alloc, job, gate, ends, passes) else {
        drop(ticker);
        return Err(JobFault::ThreadRefused);
    };
    let ticker = spawn_ticker(scope, rt, gate, ends, ticker)?;
    Ok((
        HubThreads {
            ticker,
            workers,
            receipts,
        },
        verdicts,
    ))
}

// Starts a thread for each worker.
fn spawn_workers<'s, E, J: Origin + Send + Sync + 's, G: Gate + Sync + 's, R: Wait + Sync + 's>(
    scope: &Scope<'s, E>,
    rt: &'s R,
    alloc: Global,
    job: &'s Job,
    gate: &'s G,
    ends: &CoordinatorEnds<J>,
    passes: Vec<WorkerPass<J>>,
) -> Result<(Vec<WorkerThread<J>>, Vec<VerdictSender>), JobFault>
    requires job { J.work ≡ job.now }
    requires passes { AreNewPasses (channels_of ends.now) 0 passes.items }
    ensures spawned { IfOk result (λ pair. AreSpawned ends.now 0 pair.0.items) }
    ensures gate { IfOk result (λ pair. AreOfGate (G.loses gate.now) pair.0.items) }
    ensures all { IfOk result (λ pair. vec_len pair.0 ≡ vec_len passes) }
    ensures linked { IfOk result (λ pair. AreLinked (map sends_on pair.1.items) 0 pair.0.items) }
    ensures lines { IfOk result (λ pair. vec_len pair.1 ≡ vec_len passes) }
    ensures untold { IfOk result (λ pair. AreUntold (map told_on pair.1.items)) }
    ensures refused { IfErr result (λ fault. fault ≡ ThreadRefused) }
{
    let Ok(mut threads) = Vec::with_capacity(alloc, passes.len()) else {
        return Err(JobFault::ThreadRefused);
    };
    let Ok(mut verdicts) = Vec::with_capacity(alloc, passes.len()) else {
        return Err(JobFault::ThreadRefused);
    };
    for pass in passes {
        let (thread, sender) = spawn_worker(scope, rt, alloc, job, gate, ends, pass)?;
        threads.push_reserved(thread);
        verdicts.push_reserved(sender);
    }
    Ok((threads, verdicts))
}

// Starts the thread of a worker, with a channel on which it is told of its losses.
fn spawn_worker<'s, E, J: Origin + Send + Sync + 's, G: Gate + Sync + 's, R: Wait + Sync + 's>(
    scope: &Scope<'s, E>,
    rt: &'s R,
    alloc: Global,
    job: &'s Job,
    gate: &'s G,
    ends: &CoordinatorEnds<J>,
    pass: WorkerPass<J>,
) -> Result<(WorkerThread<J>, VerdictSender), JobFault>
    requires job { J.work ≡ job.now }
    requires pass { IsNewPass (channels_of ends.now) pass.worker pass }
    ensures spawned { IfOk result (λ pair. IsSpawned ends.now pass.worker pair.0) }
    ensures gate { IfOk result (λ pair. pair.0.promise.loses ≡ G.loses gate.now) }
    ensures line { IfOk result (λ pair. line_of pair.0 ≡ sends_on pair.1) }
    ensures untold { IfOk result (λ pair. told_on pair.1 ≡ []) }
    ensures refused { IfErr result (λ fault. fault ≡ ThreadRefused) }
{
    let Ok((reader, sender)) = VerdictSender::open(alloc) else {
        return Err(JobFault::ThreadRefused);
    };
    let promise = promise_of(gate, ends, pass.worker(), &sender);
    let work = move || -> Result<WorkerEnd<J>, JobFault>
        requires job { J.work ≡ job.now }
        requires unused { AreUnused pass reader }
        ensures { IfOk result
            (EndsWork J.work J.honest (G.loses gate.entry.now) pass reader) }
    { work_all(rt, alloc, job, gate, pass, reader) };
    match scope.spawn_with(promise, work) {
        Ok(thread) => Ok((thread, sender)),
        Err(_) => Err(JobFault::ThreadRefused),
    }
}

// What a worker's thread promises, which is told of its losses by this sender.
fn promise_of<J: Origin, G: Gate>(
    gate: &G,
    ends: &CoordinatorEnds<J>,
    worker: u32,
    sender: &VerdictSender,
) -> WorkerPromise<J>
    ensures worker { result.worker ≡ worker }
    ensures hub { result.hub.value ≡ ends.now }
    ensures line { result.line.value ≡ sender.now }
    ensures loses { result.loses ≡ G.loses gate.now }
{
    WorkerPromise {
        worker,
        hub: Snapshot::of(ends),
        line: Snapshot::of(sender),
        loses: gate.may_lose(),
    }
}

// Starts the ticker's thread.
fn spawn_ticker<'s, E, J: Origin + Send + Sync + 's, G: Gate + Sync + 's, R: Wait + Sync + 's>(
    scope: &Scope<'s, E>,
    rt: &'s R,
    gate: &'s G,
    ends: &CoordinatorEnds<J>,
    pass: TickPass<J>,
) -> Result<TickThread<J>, JobFault>
    requires { IsNewTicker (channels_of ends.now) pass }
    ensures spawned { IfOk result (IsSpawnedTicker ends.now) }
    ensures gate { IfOk result (λ thread. thread.promise.loses ≡ G.loses gate.now) }
    ensures refused { IfErr result (λ fault. fault ≡ ThreadRefused) }
{
    let promise = TickerPromise {
        hub: Snapshot::of(ends),
        loses: gate.may_lose(),
    };
    let work = move || -> Result<TickReceipt<J>, JobFault>
        requires { ticked pass ≡ [] }
        ensures { IfOk result (EndsTicks (G.loses gate.entry.now) pass) }
    { tick_all(rt, gate, pass) };
    match scope.spawn_with(promise, work) {
        Ok(thread) => Ok(thread),
        Err(_) => Err(JobFault::ThreadRefused),
    }
}
