//! Running a job in threads over a hub of its own.

ghost use Rattle.std.specs.Prelude.{◌≡◌, ◌<◌, false, true, IfErr, IfOk, Some};
ghost use Rattle.book.specs.Saving.{HasLeft};
ghost use Rattle.superstep.specs.Ending.{IsEndOf};
ghost use Rattle.superstep.specs.Tasks.{trusts};
ghost use Rattle.checkpoint.specs.Keep.{LoadsNothingElse};
ghost use Rattle.book.specs.Calm.{NeverFails};
ghost use Rattle.coordinator.specs.JobAnswers.{IsCalmReport, IsKeptRun, IsKeptRunOn, IsRunFault, LoadsMadeAt, WhereBegun};

use crate::run::{resume_job, run_job};
use book::Report;
use checkpoint::{Device, Keep};
use coordinator::Hub;
use std::alloc::Global;
use std::marker::Brand;
use std::sync::Wait;
use std::thread::Threads;
use superstep::{Job, JobFault, Origin};
use worker_loops::Gate;

// Does the same for a job that a type names.
fn run_as<
    J: Origin + Send + Sync,
    K: Keep + Drop,
    G: Gate + Sync,
    R: Wait + Threads + Sync + Device + AllocGlobal,
>(rt: &R, alloc: Global, job: &Job, keep: K, gate: &G) -> Result<Report, JobFault>
    requires job { J.work ≡ job.now }
    requires honest { J.honest ≡ trusts (K.honest keep) }
    ensures answer { IfOk result (λ report. J.honest report.epoch ≡ true
        → IsEndOf J.work report.ended) }
    ensures since { IfOk result (λ report. J.honest report.epoch ≡ true
        → report.ended.since ≡ 0) }
    ensures kept { WhereBegun result
        (IsKeptRun K.honest K.saved K.may_load K.faults J.work J.honest keep result) }
    ensures calm { LoadsNothingElse K.saved K.may_load → NeverFails K.faults
        → IfOk result IsCalmReport }
    ensures epoch { G.loses gate.now ≡ false → IfOk result (λ report. report.epoch ≡ 0) }
    ensures refused { IfErr result IsRunFault }
{
    let (mut coordinator, passes, ticker) = Hub::open::<J, K>(alloc, job, &keep)?;
    let answer = run_job(rt, alloc, job, &mut coordinator, passes, ticker, keep, gate);
    drop(coordinator);
    answer
}

/// Runs a job in threads over a hub of its own. Its states are saved in this Keep, and its workers are lost as the gate
/// says. Returns what the job ended with. If the Keep is honest, or if nothing was loaded, as the job ended in epoch 0, that
/// is the end of the plain run, with the units of each superstep from the first on.
///
/// Its faults are those of `Hub::open` and `run_job`.
pub fn run_in_threads<
    K: Keep + Drop,
    G: Gate + Sync,
    R: Wait + Threads + Sync + Device + AllocGlobal,
>(rt: &R, alloc: Global, job: &Job, keep: K, gate: &G) -> Result<Report, JobFault>
    ensures answer { IfOk result (λ report. trusts (K.honest keep) report.epoch ≡ true
        → IsEndOf job.now report.ended) }
    ensures since { IfOk result (λ report. trusts (K.honest keep) report.epoch ≡ true
        → report.ended.since ≡ 0) }
    // The job ended over one list of assignments and events, of which each leaves the Keep as its save or its load left it, or
    // as it was. In it each worker sends one result at most for each task that it was assigned. So its units are those of tasks that
    // it did.
    ensures kept { WhereBegun result
        (IsKeptRun K.honest K.saved K.may_load K.faults job.now (trusts (K.honest keep)) keep
        result) }
    // If the Keep loads only what was saved and its device never fails, no save is missed and the job never begins again.
    ensures calm { LoadsNothingElse K.saved K.may_load → NeverFails K.faults
        → IfOk result IsCalmReport }
    // If the gate may lose nobody, the job ends in epoch 0, whatever its Keep is.
    ensures epoch { G.loses gate.now ≡ false → IfOk result (λ report. report.epoch ≡ 0) }
    ensures refused { IfErr result IsRunFault }
{
    run_as::<Brand, K, G, R>(rt, alloc, job, keep, gate)
}

// The same for a job that a type names.
fn resume_as<
    J: Origin + Send + Sync,
    K: Keep + Drop,
    G: Gate + Sync,
    R: Wait + Threads + Sync + Device + AllocGlobal,
>(rt: &R, alloc: Global, job: &Job, keep: K, gate: &G, superstep: u32) -> Result<Report, JobFault>
    requires job { J.work ≡ job.now }
    requires honest { J.honest ≡ (λ _. K.honest keep) }
    requires early { superstep < job.now.settings.limit }
    requires saved { K.saved keep ≡ Some superstep }
    requires left { K.honest keep ≡ true → HasLeft job.now (K.may_load keep) superstep }
    ensures answer { K.honest keep ≡ true
        → IfOk result (λ report. IsEndOf J.work report.ended) }
    ensures since { K.honest keep ≡ true → IfOk result (λ report. report.ended.since ≡ 0) }
    ensures kept { WhereBegun result
        (IsKeptRunOn K.honest K.saved K.may_load K.faults J.work J.honest superstep keep result) }
    ensures calm { LoadsNothingElse K.saved K.may_load → NeverFails K.faults
        → LoadsMadeAt J.work (K.may_load keep) superstep → IfOk result IsCalmReport }
    ensures refused { IfErr result IsRunFault }
{
    let (mut coordinator, passes, ticker) = Hub::open::<J, K>(alloc, job, &keep)?;
    let answer = resume_job(
        rt,
        alloc,
        job,
        &mut coordinator,
        passes,
        ticker,
        keep,
        gate,
        superstep,
    );
    drop(coordinator);
    answer
}

/// Runs a job in threads as `run_in_threads` does, but goes on where an earlier run of it has left off: before the superstep of the
/// Keep's last save, which has to be below the limit. It answers what the job ended with: where the Keep is honest and what it may
/// load is the job's state there, what the plain run from superstep 0 on ends with.
///
/// It refuses as `Hub::open` and `resume_job` do.
pub fn resume_in_threads<
    K: Keep + Drop,
    G: Gate + Sync,
    R: Wait + Threads + Sync + Device + AllocGlobal,
>(rt: &R, alloc: Global, job: &Job, keep: K, gate: &G, superstep: u32) -> Result<Report, JobFault>
    requires early { superstep < job.now.settings.limit }
    requires saved { K.saved keep ≡ Some superstep }
    requires left { K.honest keep ≡ true → HasLeft job.now (K.may_load keep) superstep }
    ensures answer { K.honest keep ≡ true
        → IfOk result (λ report. IsEndOf job.now report.ended) }
    ensures since { K.honest keep ≡ true → IfOk result (λ report. report.ended.since ≡ 0) }
    // The same from the load at its start on.
    ensures kept { WhereBegun result
        (IsKeptRunOn K.honest K.saved K.may_load K.faults job.now (λ _. K.honest keep) superstep
        keep result) }
    // If the Keep loads only what was saved and its device never fails, and what it may load is a checkpoint of a state that
    // fits there, no save is missed and the job never begins again.
    ensures calm { LoadsNothingElse K.saved K.may_load → NeverFails K.faults
        → LoadsMadeAt job.now (K.may_load keep) superstep → IfOk result IsCalmReport }
    ensures refused { IfErr result IsRunFault }
{
    resume_as::<Brand, K, G, R>(rt, alloc, job, keep, gate, superstep)
}
