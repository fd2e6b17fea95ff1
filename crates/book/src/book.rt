//! The book of a running job.

ghost use Rattle.std.specs.Prelude.{◌≡◌, ◌<◌, true, false, length, map, Bool, None, Some, IfOk, IfErr, IfSome};
ghost use Rattle.job_state.specs.State.{state_id};
ghost use Rattle.job_state.specs.declared.fault.JobFault.TheVariants.{OutOfMemory};
ghost use Rattle.job_state.specs.declared.fault.Place.TheVariants.{Open, Report as Reporting};
ghost use Rattle.control.specs.declared.control.Out.{Out};
ghost use Rattle.book.specs.Book.{IsQuietAt, IsReport, IsStatus, IsStep, is_gone};
ghost use Rattle.control.specs.Stamps.{done_out, stamp_of, task_out};
ghost use Rattle.control.specs.Events.{accepted, after_end, done_step, on_event, shut};
ghost use Rattle.control.specs.Events.Stamp.{DoneBy, FailedBy, JoinedBy, LostBy, Ticked};
ghost use Rattle.book.specs.Saving.{HasLeft, IsBegun, IsCaused, IsSavedOrLeft, KeepsFor, MayLoadAfter};
ghost use Rattle.control.specs.Machine.{all_set, hand, handed, has_answer, is_running, opened, task_of};
ghost use Rattle.book.specs.inside.Book.{AreIdsOf};
ghost use Rattle.book.specs.inside.EventStep.{IsEventStep, IsSteady};

use crate::job_data::{JobData, bring_back, hand_out};
use crate::recovery::{hold, hold_opened, put_back};
use crate::replies::{advanced_reply, ended_reply, rolled_reply};
use crate::report::{Report, Status, report_of};
use crate::saving::save_if_due;
use checkpoint::{Device, Keep};
use control::{Answer, Control, Event, Out};
use std::alloc::{AllocError, Global};
use std::marker::Model;
use std::mem;
use std::thread::Threads;
use superstep::{Done, Job, JobFault, Origin, Place, State, Task, VertexState, first_state};

/// The book of a running job. It assigns the parts of a superstep to workers, takes their results, and closes the
/// superstep when all are done. It saves states, and goes back to the last one when workers are lost. In contracts its
/// model is the control model.
pub struct Book<'a, J: Origin> {
    alloc: Global,
    job: &'a Job,
    ids: Vec<u64>,
    control: Control,
    job_data: JobData<J>,
}

impl<'a, J: Origin> Drop for Book<'a, J> {
    fn drop(self) {
        let Book {
            alloc: _,
            job: _job,
            ids: _,
            control: _,
            job_data: _,
        } = self;
    }
}

impl<'a, J: Origin> Model for Book<'a, J> {
    ghost use Rattle.control.specs.Machine.{Machine};
    ghost use Rattle.book.specs.inside.Book.{IsBook};

    ghost Value = { Machine };

    ghost view = { λ book. book.control };

    ghost invariant = { λ book.
        IsBook J.work J.honest book.job.now book.control book.ids.items book.job_data };
}

fn open_book<'a, J: Origin>(alloc: Global, job: &'a Job) -> Result<Book<'a, J>, AllocError>
    requires job { J.work ≡ job.now }
    ensures { IfOk result (λ book. (quiet : Bool) × IsQuietAt J.work 0 quiet
        × (book ≡ opened job.now.settings quiet)) }
{
    let state = first_state(alloc, job)?;
    let ids = ids_of(alloc, &state.in_order(alloc)?)?;
    let quiet = state.is_quiet();
    let control = Control::new(alloc, job.settings(), quiet)?;
    let job_data = hold_opened(alloc, job, state, quiet)?;
    Ok(Book {
        alloc,
        job,
        ids,
        control,
        job_data,
    })
}

fn ids_of(alloc: Global, vertices: &[&VertexState]) -> Result<Vec<u64>, AllocError>
    ensures { IfOk result (λ ids. ids.items ≡ map (λ vertex. state_id vertex.now) vertices.now) }
{
    vertices.iter().map(|vertex| vertex.id).collect(alloc)
}

// The ids of a job's vertices, by rising id.
fn ids_of_job(alloc: Global, job: &Job) -> Result<Vec<u64>, AllocError>
    ensures { IfOk result (λ ids. AreIdsOf job.now ids.items) }
{
    job.settings();
    let state = first_state(alloc, job)?;
    let vertices = state.in_order(alloc)?;
    ids_of(alloc, &vertices)
}

fn resume_book<'a, J: Origin, K: Keep, R: Device + AllocGlobal>(
    rt: &R,
    alloc: Global,
    job: &'a Job,
    keep: &mut K,
    superstep: u32,
) -> Result<Book<'a, J>, AllocError>
    requires job { J.work ≡ job.now }
    requires early { superstep < job.now.settings.limit }
    requires saved { K.saved keep.old ≡ Some superstep }
    requires trusts { J.honest 0 ≡ true → K.honest keep.old ≡ true }
    requires left { J.honest 0 ≡ true → HasLeft J.work (K.may_load keep.old) superstep }
    ensures { IfOk result (IsBegun J.work J.honest (K.honest keep.old) (K.honest keep.new)
        (K.saved keep.old) (K.saved keep.new) (K.may_load keep.old) (K.may_load keep.new)
        (K.faults keep.old) (K.faults keep.new) superstep) }
{
    let ids = ids_of_job(alloc, job)?;
    let mut control = Control::resumed(alloc, job.settings(), superstep)?;
    let job_data = put_back(rt, alloc, job, &ids, &mut control, keep);
    Ok(Book {
        alloc,
        job,
        ids,
        control,
        job_data,
    })
}

// Returns the task of this result.
fn out_of<J: Origin>(done: &Done<J>) -> Out
    ensures { result ≡ done_out done.now }
{
    Out {
        epoch: done.epoch(),
        superstep: done.superstep(),
        part: done.part(),
    }
}

impl<'a, J: Origin> Book<'a, J> {
    /// Opens the book of a job, before superstep 0. It fails only if memory runs out: `OutOfMemory` of `Open`.
    pub fn open(alloc: Global, job: &'a Job) -> Result<Book<'a, J>, JobFault>
        requires job { J.work ≡ job.now }
        ensures opened { IfOk result (λ book. (quiet : Bool) × IsQuietAt J.work 0 quiet
            × (book ≡ opened job.now.settings quiet)) }
        ensures refused { IfErr result (λ fault. fault ≡ OutOfMemory Open) }
    {
        match open_book(alloc, job) {
            Ok(book) => Ok(book),
            Err(_) => Err(JobFault::OutOfMemory(Place::Open)),
        }
    }

    /// The book of a job that goes on where an earlier run of it has left off: before a superstep whose state the Keep has. It
    /// begins as after a loss of all: it loads the state, or begins with superstep 0 where that can't be had, which counts as a
    /// restart. Want of memory for that ends the job.
    ///
    /// It asks that the superstep is the Keep's last and below the limit. The only refusal is that there is no memory, to `Open`
    /// it.
    pub fn resume<K: Keep, R: Device + AllocGlobal>(
        rt: &R,
        alloc: Global,
        job: &'a Job,
        keep: &mut K,
        superstep: u32,
    ) -> Result<Book<'a, J>, JobFault>
        requires job { J.work ≡ job.now }
        requires early { superstep < job.now.settings.limit }
        requires saved { K.saved keep.old ≡ Some superstep }
        requires trusts { J.honest 0 ≡ true → K.honest keep.old ≡ true }
        requires left { J.honest 0 ≡ true → HasLeft J.work (K.may_load keep.old) superstep }
        ensures begun { IfOk result (IsBegun J.work J.honest (K.honest keep.old) (K.honest keep.new)
            (K.saved keep.old) (K.saved keep.new) (K.may_load keep.old) (K.may_load keep.new)
            (K.faults keep.old) (K.faults keep.new) superstep) }
        ensures refused { IfErr result (λ fault. fault ≡ OutOfMemory Open) }
    {
        match resume_book(rt, alloc, job, keep, superstep) {
            Ok(book) => Ok(book),
            Err(_) => Err(JobFault::OutOfMemory(Place::Open)),
        }
    }

    /// Assigns the worker its next task, if it is alive, has no task, and one of its parts is not done. It allocates
    /// nothing.
    pub fn next_task(&mut self, worker: u32) -> Option<Task<J>>
        ensures none { result ≡ None → (self.new ≡ self.old) × (hand self.old worker ≡ None) }
        ensures some { IfSome result (λ task. (hand self.old worker ≡ Some task.part)
            × (self.new ≡ handed self.old worker task.part)
            × (task_out task ≡ task_of self.old task.part)) }
    {
        let index = worker as usize;
        if index >= self.control.workers() {
            return None;
        }
        let part = self.control.hand(index)?;
        let epoch = self.control.epoch();
        let task = hand_out(&mut self.job_data, part, epoch);
        self.control.hand_out(index, part);
        Some(task)
    }

    /// Returns what the job ended with, which has to be `Finished` or `Limit`. It fails only if memory runs out:
    /// `OutOfMemory` of `Report`.
    pub fn report(self) -> Result<Report, JobFault>
        requires { has_answer self.ending ≡ true }
        ensures report { IfOk result (IsReport J.work J.honest self.entry) }
        ensures refused { IfErr result (λ fault. fault ≡ OutOfMemory Reporting) }
    {
        let Book {
            alloc,
            job: _,
            ids: _,
            control,
            job_data,
        } = self;
        let state = job_data.into_state();
        match report_of(alloc, &state, control) {
            Ok(report) => Ok(report),
            Err(_) => Err(JobFault::OutOfMemory(Place::Report)),
        }
    }

    /// Returns whether the job runs.
    pub fn is_running(&self) -> bool
        ensures { result ≡ is_running self.now.ending }
    {
        self.control.is_running()
    }

    /// Returns whether this worker exists, is not alive and does not wait.
    pub fn is_gone(&self, worker: u32) -> bool
        ensures { result ≡ is_gone self.now worker }
    {
        (worker as usize) < self.control.workers() && self.control.is_gone(worker as usize)
    }

    /// Returns the status of the job. It allocates nothing.
    pub fn status(&self) -> Status
        ensures { IsStatus self.now result }
    {
        Status {
            superstep: self.control.superstep(),
            epoch: self.control.epoch(),
            missed: self.control.missed(),
            restarts: self.control.restarts(),
            end: self.control.ending(),
        }
    }

    // Closes the superstep, of which all parts are done.
    fn close<K: Keep, R: Threads + Sync + Device + AllocGlobal>(
        &mut self,
        rt: &R,
        keep: &mut K,
    ) -> Result<Answer, JobFault>
        requires running { is_running self.old.ending ≡ true }
        requires done { all_set self.old.done ≡ true }
        requires keep { KeepsFor J.work J.honest (K.honest keep.old) (K.saved keep.old)
            (K.may_load keep.old) self.old }
        ensures { IsEventStep J.work J.honest
            (λ heard. shut heard self.old)
            self.old self.new (K.honest keep.old) (K.honest keep.new)
            (K.saved keep.old) (K.saved keep.new) (K.may_load keep.old) (K.may_load keep.new)
            (K.faults keep.old) (K.faults keep.new) result }
    {
        let parts = mem::replace(&mut self.job_data, JobData::Nothing).into_parts();
        let Ok(state) = parts.merge(rt, self.alloc, self.job) else {
            self.control.fail(Place::Merge);
            return Err(JobFault::OutOfMemory(Place::Merge));
        };
        self.control.close(state.is_quiet());
        save_if_due(rt, self.alloc, &mut self.control, keep, &state);
        self.job_data = hold(self.alloc, self.job, &mut self.control, state);
        self.control.welcome();
        advanced_reply(&self.control)
    }

    // Counts a result of a worker that exists, or leaves it out.
    fn count_done<K: Keep, R: Threads + Sync + Device + AllocGlobal>(
        &mut self,
        rt: &R,
        worker: usize,
        done: Done<J>,
        keep: &mut K,
    ) -> Result<Answer, JobFault>
        requires worker { worker < length self.old.alive }
        requires running { is_running self.old.ending ≡ true }
        requires keep { KeepsFor J.work J.honest (K.honest keep.old) (K.saved keep.old)
            (K.may_load keep.old) self.old }
        ensures { IsEventStep J.work J.honest
            (λ heard. done_step heard self.old worker (done_out done))
            self.old self.new (K.honest keep.old) (K.honest keep.new)
            (K.saved keep.old) (K.saved keep.new) (K.may_load keep.old) (K.may_load keep.new)
            (K.faults keep.old) (K.faults keep.new) result }
    {
        let task = out_of(&done);
        if !self.control.counts(worker, task) {
            self.control.leave_out(worker, task);
            return Ok(Answer::Stale);
        }
        self.control.free(worker);
        bring_back(&mut self.job_data, done);
        if self.control.finish(task.part) {
            self.close(rt, keep)
        } else {
            Ok(Answer::Taken)
        }
    }

    fn on_done<K: Keep, R: Threads + Sync + Device + AllocGlobal>(
        &mut self,
        rt: &R,
        worker: usize,
        done: Done<J>,
        keep: &mut K,
    ) -> Result<Answer, JobFault>
        requires running { is_running self.old.ending ≡ true }
        requires keep { KeepsFor J.work J.honest (K.honest keep.old) (K.saved keep.old)
            (K.may_load keep.old) self.old }
        ensures { IsEventStep J.work J.honest
            (λ heard. on_event heard self.old (DoneBy worker (done_out done) done.units))
            self.old self.new (K.honest keep.old) (K.honest keep.new)
            (K.saved keep.old) (K.saved keep.new) (K.may_load keep.old) (K.may_load keep.new)
            (K.faults keep.old) (K.faults keep.new) result }
    {
        if worker >= self.control.workers() {
            return Ok(Answer::Stale);
        }
        self.control.charge(worker, done.units());
        self.count_done(rt, worker, done, keep)
    }

    fn on_failed(&mut self, worker: usize, place: Place) -> Result<Answer, JobFault>
        requires running { is_running self.old.ending ≡ true }
        ensures step { IsStep J.work J.honest
            (λ heard. on_event heard self.old (FailedBy worker place))
            self.old self.new result }
        ensures steady { IsSteady self.old self.new }
    {
        if worker >= self.control.workers() {
            return Ok(Answer::Stale);
        }
        if !self.control.is_busy(worker) {
            return Ok(Answer::Stale);
        }
        self.control.fail(place);
        self.job_data = JobData::Nothing;
        Err(JobFault::OutOfMemory(place))
    }

    fn on_joined(&mut self, worker: usize) -> Result<Answer, JobFault>
        requires running { is_running self.old.ending ≡ true }
        ensures step { IsStep J.work J.honest (λ heard. on_event heard self.old (JoinedBy worker))
            self.old self.new result }
        ensures steady { IsSteady self.old self.new }
    {
        if worker >= self.control.workers() {
            return Ok(Answer::Stale);
        }
        if !self.control.may_join(worker) {
            return Ok(Answer::Stale);
        }
        self.control.let_wait(worker);
        Ok(Answer::Taken)
    }

    fn on_lost<K: Keep, R: Threads + Sync + Device + AllocGlobal>(
        &mut self,
        rt: &R,
        worker: usize,
        keep: &mut K,
    ) -> Result<Answer, JobFault>
        requires running { is_running self.old.ending ≡ true }
        requires keep { KeepsFor J.work J.honest (K.honest keep.old) (K.saved keep.old)
            (K.may_load keep.old) self.old }
        ensures { IsEventStep J.work J.honest
            (λ heard. on_event heard self.old (LostBy worker))
            self.old self.new (K.honest keep.old) (K.honest keep.new)
            (K.saved keep.old) (K.saved keep.new) (K.may_load keep.old) (K.may_load keep.new)
            (K.faults keep.old) (K.faults keep.new) result }
    {
        if worker >= self.control.workers() {
            return Ok(Answer::Stale);
        }
        if !self.control.is_alive(worker) {
            return Ok(Answer::Stale);
        }
        // The data is of no use. Dropping it makes room for the state that is loaded.
        self.job_data = JobData::Nothing;
        if !self.control.lose(worker) {
            return Err(JobFault::NoWorkers);
        }
        self.job_data = put_back(rt, self.alloc, self.job, &self.ids, &mut self.control, keep);
        rolled_reply(&self.control)
    }

    fn on_tick<K: Keep, R: Threads + Sync + Device + AllocGlobal>(
        &mut self,
        rt: &R,
        keep: &mut K,
    ) -> Result<Answer, JobFault>
        requires running { is_running self.old.ending ≡ true }
        requires keep { KeepsFor J.work J.honest (K.honest keep.old) (K.saved keep.old)
            (K.may_load keep.old) self.old }
        ensures { IsEventStep J.work J.honest
            (λ heard. on_event heard self.old Ticked)
            self.old self.new (K.honest keep.old) (K.honest keep.new)
            (K.saved keep.old) (K.saved keep.new) (K.may_load keep.old) (K.may_load keep.new)
            (K.faults keep.old) (K.faults keep.new) result }
    {
        self.control.grow_older();
        if !self.control.is_some_overdue() {
            return Ok(Answer::Taken);
        }
        // The data is of no use. Dropping it makes room for the state that is loaded.
        self.job_data = JobData::Nothing;
        if !self.control.lose_overdue() {
            return Err(JobFault::NoWorkers);
        }
        self.job_data = put_back(rt, self.alloc, self.job, &self.ids, &mut self.control, keep);
        rolled_reply(&self.control)
    }

    // Answers an event after the end, when only the units of workers change.
    fn note_after_end(&mut self, event: Event<J>) -> Result<Answer, JobFault>
        requires over { is_running self.old.ending ≡ false }
        ensures step { IsStep J.work J.honest (λ heard. accepted heard self.old (stamp_of event))
            self.old self.new result }
        ensures steady { IsSteady self.old self.new }
    {
        let Event::Done(worker, done) = event else {
            return ended_reply(&self.control);
        };
        self.charge_late(worker, done.units());
        ended_reply(&self.control)
    }

    // Adds the units of a result that comes after the end, if the job has an answer.
    fn charge_late(&mut self, worker: u32, units: u128)
        ensures machine { (task : Out) → self.new
            ≡ after_end self.old (DoneBy worker task units) }
        ensures superstep { self.new.superstep ≡ self.old.superstep }
        ensures steady { IsSteady self.old self.new }
    {
        if !self.control.has_answer() {
            return;
        }
        if worker as usize >= self.control.workers() {
            return;
        }
        self.control.charge(worker as usize, units);
    }

    /// Takes an event, and answers it. The Keep has to have what the book counts as saved.
    ///
    /// It allocates only when it closes a superstep or rolls back. The faults are `NoWorkers`, and `OutOfMemory` of
    /// `Merge`, `Save`, `Load`, `Slice` or the place of a `Failed`. A fault ends the job, and each later event returns
    /// it again.
    pub fn accept<K: Keep, R: Threads + Sync + Device + AllocGlobal>(
        &mut self,
        rt: &R,
        event: Event<J>,
        keep: &mut K,
    ) -> Result<Answer, JobFault>
        requires keep { KeepsFor J.work J.honest (K.honest keep.old) (K.saved keep.old)
            (K.may_load keep.old) self.old }
        // The answer and the control are those of the control model.
        ensures step { IsStep J.work J.honest (λ heard. accepted heard self.old (stamp_of event))
            self.old self.new result }
        ensures keep { KeepsFor J.work J.honest (K.honest keep.new) (K.saved keep.new)
            (K.may_load keep.new) self.new }
        ensures cause { IsCaused J.work self.old self.new (K.faults keep.old) (K.faults keep.new)
            (K.may_load keep.old) }
        ensures left { IsSavedOrLeft self.old self.new (K.saved keep.old) (K.saved keep.new) }
        ensures loads { MayLoadAfter J.work self.old self.new (K.may_load keep.old)
            (K.may_load keep.new) }
    {
        if !self.control.is_running() {
            return self.note_after_end(event);
        }
        match event {
            Event::Done(worker, done) => self.on_done(rt, worker as usize, done, keep),
            Event::Failed(worker, place) => self.on_failed(worker as usize, place),
            Event::Lost(worker) => self.on_lost(rt, worker as usize, keep),
            Event::Joined(worker) => self.on_joined(worker as usize),
            Event::Tick => self.on_tick(rt, keep),
        }
    }
}
