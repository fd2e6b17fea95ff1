//! The loops of the workers' threads and of the ticker's.

ghost use Rattle.std.specs.Prelude.{◌≡◌, ◌+◌, ◌∷◌, [], false, true, IfErr, IfOk, IfSome, OnOk};
ghost use Rattle.superstep.specs.Tasks.{AreUnitsAt};
ghost use Rattle.job_state.specs.declared.fault.JobFault.TheVariants.{Closed};
ghost use Rattle.job_state.specs.declared.fault.Place.TheVariants.{Call};
ghost use Rattle.control.specs.declared.control.Out.{Out};
ghost use Rattle.control.specs.Stamps.{stamp_of, task_out};
ghost use Rattle.hub_ends.specs.Messages.{AddsJoins, event_sender, is_joined, is_lost};
ghost use Rattle.hub_ends.specs.Passes.{IsReceipt, IsSamePass, IsTickReceipt, handed_in, taken, ticked};
ghost use Rattle.worker_loops.specs.Returns.{IsReturnOf};
ghost use Rattle.worker_loops.specs.Numbers.{stamps_in};
ghost use Rattle.worker_loops.specs.Counted.{JoinsAfterLoss};
ghost use Rattle.hub_ends.specs.Verdicts.{heard_on, reads_on};
ghost use Rattle.worker_loops.specs.inside.Epochs.{IsSteady, IsSteadyTicker, may_renew, renews};
ghost use Rattle.worker_loops.specs.inside.Joins.{AddsCounted, HasJoined};
ghost use Rattle.worker_loops.specs.inside.Returning.{AddsReturn, AddsReturns, HasReturned};

use crate::gate::{Gate, Turn, Worked};
use compute::run_task;
use control::Event;
use hub_ends::{TickPass, TickReceipt, VerdictReader, WorkerPass, WorkerReceipt};
use interp::Scratch;
use std::alloc::Global;
use std::sync::Wait;
use superstep::{Done, Found, Job, JobFault, Origin, Place, Task, TaskLost};

/// The ends of a worker that has said bye.
#[derive(Drop)]
pub struct WorkerEnd<J: Origin> {
    pub receipt: WorkerReceipt<J>,
    pub reader: VerdictReader,
}

// Runs a task. The scratch is made for the first one.
fn work_on<'a, J: Origin>(
    alloc: Global,
    job: &'a Job,
    task: Task<J>,
    scratch: &mut Option<Scratch<'a>>,
) -> Result<Done<J>, TaskLost>
    requires job { J.work ≡ job.now }
    requires fits { IfSome scratch.old (λ scratch. scratch ≡ job.now.«module») }
    ensures fits { IfSome scratch.new (λ scratch. scratch ≡ job.now.«module») }
    ensures epoch { IfOk result (λ done. done.epoch ≡ task.epoch) }
    ensures superstep { IfOk result (λ done. done.superstep ≡ task.superstep) }
    ensures part { IfOk result (λ done. done.part ≡ task.part) }
    ensures units { IfOk result (λ done. J.honest task.epoch ≡ true
        → AreUnitsAt J.work task.superstep task.part done.units) }
    ensures lost { IfErr result (λ lost. lost.place ≡ Call) }
{
    if scratch.is_none() {
        let Ok(made) = Scratch::new(alloc, job.verified()) else {
            return Err(TaskLost { place: Place::Call });
        };
        *scratch = Some(made);
    }
    match scratch {
        Some(scratch) => run_task(alloc, job, task, scratch),
        None => unreachable!(),
    }
}

// Runs a task, and returns the event that reports it.
fn outcome<'a, J: Origin>(
    alloc: Global,
    job: &'a Job,
    worker: u32,
    task: Task<J>,
    scratch: &mut Option<Scratch<'a>>,
) -> Event<J>
    requires job { J.work ≡ job.now }
    requires fits { IfSome scratch.old (λ scratch. scratch ≡ job.now.«module») }
    ensures own { event_sender result ≡ worker + 1 }
    ensures work { is_joined result ≡ false }
    ensures stays { is_lost result ≡ false }
    ensures steady { may_renew (stamp_of result) ≡ false }
    ensures returns { IsReturnOf J.work J.honest (task_out task) (stamp_of result ∷ []) }
    ensures fits { IfSome scratch.new (λ scratch. scratch ≡ job.now.«module») }
{
    match work_on(alloc, job, task, scratch) {
        Ok(done) => Event::Done(worker, done),
        Err(lost) => Event::Failed(worker, lost.place),
    }
}

// What the task finds in its part, where the gate asks for it.
fn found_by<J: Origin, G: Gate>(gate: &G, task: &Task<J>) -> Option<Found> {
    if gate.counts() {
        Some(task.found())
    } else {
        None
    }
}

// Shows the gate what the worker did for a task that found this, if it did it.
fn show<J: Origin, G: Gate, R: Wait>(
    rt: &R,
    gate: &G,
    worker: u32,
    found: Option<Found>,
    event: &Event<J>,
) {
    if let Event::Done(_, done) = event {
        let work = Worked {
            epoch: done.epoch(),
            superstep: done.superstep(),
            part: done.part(),
            units: done.units(),
            sent: done.sent(),
            found,
        };
        gate.worked(rt, worker, work);
    }
}

// Reports the worker as lost, and as joined again if the gate says so and the loss was counted. A worker that was lost
// before, by its lease, does not join. Returns whether it is lost for good.
fn be_lost<J: Origin, G: Gate, R: Wait>(
    rt: &R,
    gate: &G,
    pass: &mut WorkerPass<J>,
    reader: &mut VerdictReader,
) -> Result<bool, JobFault>
    ensures same { IsSamePass pass.old pass.new }
    ensures joins { OnOk result (AddsJoins (handed_in pass.old) (handed_in pass.new)) }
    ensures taken { taken pass.new ≡ taken pass.old }
    ensures returns { OnOk result ((task : Out)
        → AddsReturn J.work J.honest task (handed_in pass.old) (handed_in pass.new)) }
    ensures counted { OnOk result (AddsCounted (handed_in pass.old) (handed_in pass.new)
        (heard_on reader.old) (heard_on reader.new)) }
    ensures line { reads_on reader.new ≡ reads_on reader.old }
{
    let worker = pass.worker();
    pass.hand_in(rt, Event::Lost(worker))?;
    let again = gate.again(worker);
    let counted = reader.hear(rt)?;
    if !again {
        return Ok(true);
    }
    if !counted {
        return Ok(false);
    }
    pass.hand_in(rt, Event::Joined(worker))?;
    Ok(false)
}

// Works on one task, or is lost with it, as the gate says. A worker that is lost for good drops it. Returns whether the worker is
// lost for good.
fn work_one<'a, J: Origin, G: Gate, R: Wait>(
    rt: &R,
    alloc: Global,
    job: &'a Job,
    gate: &G,
    lost: bool,
    pass: &mut WorkerPass<J>,
    reader: &mut VerdictReader,
    task: Task<J>,
    scratch: &mut Option<Scratch<'a>>,
) -> Result<bool, JobFault>
    requires job { J.work ≡ job.now }
    requires fits { IfSome scratch.old (λ scratch. scratch ≡ job.now.«module») }
    ensures fits { IfSome scratch.new (λ scratch. scratch ≡ job.now.«module») }
    ensures same { IsSamePass pass.old pass.new }
    ensures joins { OnOk result (AddsJoins (handed_in pass.old) (handed_in pass.new)) }
    ensures taken { taken pass.new ≡ taken pass.old }
    ensures returns { OnOk result (AddsReturn J.work J.honest (task_out task)
        (handed_in pass.old) (handed_in pass.new)) }
    ensures counted { OnOk result (AddsCounted (handed_in pass.old) (handed_in pass.new)
        (heard_on reader.old) (heard_on reader.new)) }
    ensures steady { G.loses gate.now ≡ false → OnOk result
        (renews (stamps_in (handed_in pass.new)) ≡ renews (stamps_in (handed_in pass.old))) }
    ensures line { reads_on reader.new ≡ reads_on reader.old }
{
    if lost {
        drop(task);
        return Ok(true);
    }
    let worker = pass.worker();
    match gate.before(worker, task.superstep(), task.part()) {
        Turn::Go => {
            let found = found_by(gate, &task);
            let event = outcome(alloc, job, worker, task, scratch);
            show(rt, gate, worker, found, &event);
            pass.hand_in(rt, event)?;
            Ok(false)
        }
        Turn::Lose => {
            drop(task);
            be_lost(rt, gate, pass, reader)
        }
    }
}

// Takes tasks until the worker is stopped. As the gate says, it works on each task or is lost with it, and sends the
// event.
fn work_until_stopped<'a, J: Origin, G: Gate, R: Wait>(
    rt: &R,
    alloc: Global,
    job: &'a Job,
    gate: &G,
    pass: &mut WorkerPass<J>,
    reader: &mut VerdictReader,
    scratch: &mut Option<Scratch<'a>>,
) -> Result<(), JobFault>
    requires job { J.work ≡ job.now }
    requires fits { IfSome scratch.old (λ scratch. scratch ≡ job.now.«module») }
    ensures same { IsSamePass pass.old pass.new }
    ensures joins { OnOk result (AddsJoins (handed_in pass.old) (handed_in pass.new)) }
    ensures returns { OnOk result (AddsReturns J.work J.honest (taken pass.old) (taken pass.new)
        (handed_in pass.old) (handed_in pass.new)) }
    ensures counted { OnOk result (AddsCounted (handed_in pass.old) (handed_in pass.new)
        (heard_on reader.old) (heard_on reader.new)) }
    ensures steady { G.loses gate.now ≡ false → OnOk result
        (renews (stamps_in (handed_in pass.new)) ≡ renews (stamps_in (handed_in pass.old))) }
    ensures line { reads_on reader.new ≡ reads_on reader.old }
{
    let mut lost = false;
    for _ in rt.forever() {
        let Some(task) = pass.take(rt)? else {
            return Ok(());
        };
        lost = work_one(rt, alloc, job, gate, lost, pass, reader, task, scratch)?;
    }
    unreachable!()
}

/// Runs a worker's loop. It asks the gate before each task, works on it or is lost with it, and sends the event. It joins
/// again only after a loss that was counted. Once it is lost for good, it drops all tasks. When it is stopped, it says bye.
pub fn work_all<J: Origin, G: Gate, R: Wait>(
    rt: &R,
    alloc: Global,
    job: &Job,
    gate: &G,
    mut pass: WorkerPass<J>,
    mut reader: VerdictReader,
) -> Result<WorkerEnd<J>, JobFault>
    requires job { J.work ≡ job.now }
    requires new { handed_in pass ≡ [] }
    requires untaken { taken pass ≡ [] }
    requires unheard { heard_on reader ≡ [] }
    ensures whose { IfOk result (λ end. IsReceipt pass end.receipt) }
    ensures joins { IfOk result (λ end. JoinsAfterLoss end.receipt) }
    ensures counted { IfOk result HasJoined }
    ensures returned { IfOk result (λ end. HasReturned J.work J.honest end.receipt) }
    ensures steady { G.loses gate.now ≡ false → IfOk result (λ end. IsSteady end.receipt) }
    ensures line { IfOk result (λ end. reads_on end.reader ≡ reads_on reader) }
{
    let mut scratch = None;
    let worked = work_until_stopped(rt, alloc, job, gate, &mut pass, &mut reader, &mut scratch);
    drop(scratch);
    match worked {
        Ok(()) => {
            let receipt = pass.bye(rt)?;
            Ok(WorkerEnd { receipt, reader })
        }
        Err(fault) => {
            drop(pass);
            Err(fault)
        }
    }
}

/// Runs the ticker's loop. It asks the gate before each tick, until the gate says no or the coordinator has stopped
/// all. Then it says bye.
pub fn tick_all<J: Origin, G: Gate, R: Wait>(
    rt: &R,
    gate: &G,
    mut pass: TickPass<J>,
) -> Result<TickReceipt<J>, JobFault>
    requires new { ticked pass ≡ [] }
    ensures whose { IfOk result (IsTickReceipt pass) }
    ensures steady { G.loses gate.now ≡ false → IfOk result IsSteadyTicker }
    ensures refused { IfErr result (λ fault. fault ≡ Closed) }
{
    for n in 1..u64::MAX {
        if pass.stopped() || !gate.tick(n) {
            break;
        }
        pass.tick(rt)?;
    }
    pass.bye(rt)
}
