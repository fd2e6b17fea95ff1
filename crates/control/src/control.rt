//! The control of a book: the control model in code, with a method for each of its operations.

ghost use Rattle.std.specs.Prelude.{◌≡◌, ◌<◌, ◌≤◌, ◌^◌, ◌||◌, not, nat_lt, true, length, IfOk, IfSome};
ghost use Rattle.job_state.specs.declared.fault.JobFault.TheVariants.{OutOfMemory};
ghost use Rattle.control.specs.Machine.{
  aged,
  all_set,
  charged,
  closed,
  count_set,
  counts,
  ended_by,
  expired,
  finished,
  freed,
  hand,
  handed,
  has_answer,
  is_alive,
  is_busy,
  is_out,
  is_running,
  is_saved_now,
  is_waiting,
  lost,
  may_join,
  opened,
  restarted,
  resumed,
  waits,
  welcomed,
  ending_at,
};
ghost use Rattle.control.specs.Events.{after_loss, after_save, stale_done};
ghost use Rattle.control.specs.inside.Control.{epochs_there, epochs_used};
ghost use Rattle.control.specs.inside.Sound.{IsOpen};

use crate::flags::{are_all_set, clear, count_set, join};
use crate::job_status::{DeviceResult, JobStatus};
use crate::leases::{count_in_time, keep_in_time, least_part, make_older};
use job_state::{JobFault, Place, Settings};
use std::alloc::{AllocError, Global};
use std::marker::Model;

/// A task that was assigned to a worker.
#[derive(Clone, Copy)]
pub struct Out {
    pub epoch: u64,
    pub superstep: u32,
    pub part: u32,
}

/// The control of a book: worker, epoch and superstep numbers without data. In contracts its model is `Machine`.
pub struct Control {
    settings: Settings,
    superstep: u32,
    epoch: u64,
    done: Vec<bool>,
    alive: Vec<bool>,
    waiting: Vec<bool>,
    out: Vec<Option<Out>>,
    age: Vec<u32>,
    spent: Vec<u128>,
    saved: Option<u32>,
    missed: u64,
    restarts: u64,
    ending: JobStatus,
}

impl Drop for Control {
    fn drop(self) {
        let Control {
            settings: _,
            superstep: _,
            epoch: _,
            done: _,
            alive: _,
            waiting: _,
            out: _,
            age: _,
            spent: _,
            saved: _,
            missed: _,
            restarts: _,
            ending: _,
        } = self;
    }
}

impl Model for Control {
    ghost use Rattle.control.specs.Machine.{Machine};
    ghost use Rattle.control.specs.inside.Control.{IsInRange, machine_of};

    ghost Value = { Machine };

    ghost view = { machine_of };

    ghost invariant = { λ control. IsInRange (machine_of control) };
}

impl Control {
    /// Makes the control before superstep 0, which is quiet or not.
    pub fn new(alloc: Global, settings: Settings, quiet: bool) -> Result<Control, AllocError>
        requires parts { settings.parts ≤ 2 ^ 20 }
        requires workers { settings.workers ≤ 2 ^ 20 }
        requires every { 0 < settings.every }
        ensures { IfOk result (λ control. control ≡ opened settings quiet) }
    {
        let workers = settings.workers as usize;
        let done = vec![in alloc; false; settings.parts as usize]?;
        let alive = vec![in alloc; true; workers]?;
        let waiting = vec![in alloc; false; workers]?;
        let out = vec![in alloc; None; workers]?;
        let age = vec![in alloc; 0; workers]?;
        let spent = vec![in alloc; 0; workers]?;
        Ok(Control {
            settings,
            superstep: 0,
            epoch: 0,
            done,
            alive,
            waiting,
            out,
            age,
            spent,
            saved: None,
            missed: 0,
            restarts: 0,
            ending: ending_at(quiet, 0, settings.limit),
        })
    }

    /// The control before a superstep, not quiet, whose state was saved by an earlier run.
    pub fn resumed(alloc: Global, settings: Settings, superstep: u32) -> Result<Control, AllocError>
        requires parts { settings.parts ≤ 2 ^ 20 }
        requires workers { settings.workers ≤ 2 ^ 20 }
        requires every { 0 < settings.every }
        requires early { superstep < settings.limit }
        ensures { IfOk result (λ control. control ≡ resumed settings superstep) }
    {
        let mut control = Control::new(alloc, settings, false)?;
        control.superstep = superstep;
        control.saved = Some(superstep);
        control.ending = JobStatus::Running;
        Ok(control)
    }

    pub fn superstep(&self) -> u32
        ensures { result ≡ self.now.superstep }
    {
        self.superstep
    }

    pub fn epoch(&self) -> u64
        ensures { result ≡ self.now.epoch }
    {
        self.epoch
    }

    pub fn missed(&self) -> u64
        ensures { result ≡ self.now.missed }
    {
        self.missed
    }

    pub fn restarts(&self) -> u64
        ensures { result ≡ self.now.restarts }
    {
        self.restarts
    }

    pub fn saved(&self) -> Option<u32>
        ensures { result ≡ self.now.saved }
    {
        self.saved
    }

    pub fn ending(&self) -> JobStatus
        ensures { result ≡ self.now.ending }
    {
        self.ending
    }

    pub fn is_running(&self) -> bool
        ensures { result ≡ is_running self.now.ending }
    {
        matches!(self.ending, JobStatus::Running)
    }

    pub fn has_answer(&self) -> bool
        ensures { result ≡ has_answer self.now.ending }
    {
        matches!(self.ending, JobStatus::Finished | JobStatus::Limit)
    }

    pub fn workers(&self) -> usize
        ensures { result ≡ length self.now.alive }
    {
        self.alive.len()
    }

    /// Returns the units of each worker.
    pub fn into_spent(self) -> Vec<u128>
        ensures { result.items ≡ self.spent }
    {
        let Control {
            settings: _,
            superstep: _,
            epoch: _,
            done: _,
            alive: _,
            waiting: _,
            out: _,
            age: _,
            spent,
            saved: _,
            missed: _,
            restarts: _,
            ending: _,
        } = self;
        spent
    }

    pub fn is_alive(&self, worker: usize) -> bool
        requires { worker < length self.now.alive }
        ensures { result ≡ is_alive self.now worker }
    {
        self.alive[worker]
    }

    /// Returns whether the worker is not alive and does not wait.
    pub fn is_gone(&self, worker: usize) -> bool
        requires { worker < length self.now.alive }
        ensures { result ≡ not (is_alive self.now worker || is_waiting self.now worker) }
    {
        !self.alive[worker] && !self.waiting[worker]
    }

    /// Returns the part that the worker is assigned next.
    pub fn hand(&self, worker: usize) -> Option<u32>
        requires { worker < length self.now.alive }
        ensures hand { result ≡ hand self.now worker }
        ensures in_range { IfSome result (IsOpen self.now.done) }
    {
        if self.is_running() && (self.alive[worker] && self.out[worker].is_none()) {
            let count = count_set(&self.alive);
            let place = count_set(&self.alive[..worker]);
            let part = least_part(count, place, &self.done)?;
            Some(part as u32)
        } else {
            None
        }
    }

    /// Assigns this part to the worker.
    pub fn hand_out(&mut self, worker: usize, part: u32)
        requires { worker < length self.old.alive }
        ensures { self.new ≡ handed self.old worker part }
    {
        let task = Out {
            epoch: self.epoch,
            superstep: self.superstep,
            part,
        };
        self.out[worker] = Some(task);
        self.age[worker] = 0;
    }

    /// Returns whether this is the task that the worker has.
    pub fn is_out(&self, worker: usize, task: Out) -> bool
        requires { worker < length self.now.alive }
        ensures { result ≡ is_out self.now worker task }
    {
        match self.out[worker] {
            Some(other) => {
                other.epoch == task.epoch
                    && (other.superstep == task.superstep && other.part == task.part)
            }
            None => false,
        }
    }

    /// Returns whether a result of this task counts.
    pub fn counts(&self, worker: usize, task: Out) -> bool
        requires { worker < length self.now.alive }
        ensures { result ≡ counts self.now worker task }
    {
        self.alive[worker] && (self.is_out(worker, task) && task.epoch == self.epoch)
    }

    /// Takes the task from the worker.
    pub fn free(&mut self, worker: usize)
        requires { worker < length self.old.alive }
        ensures { self.new ≡ freed self.old worker }
    {
        self.out[worker] = None;
    }

    /// Leaves out a result of this task. If it is the worker's task, the worker then has none.
    pub fn leave_out(&mut self, worker: usize, task: Out)
        requires { worker < length self.old.alive }
        ensures { self.new ≡ stale_done self.old worker task }
    {
        if self.is_out(worker, task) {
            self.free(worker);
        }
    }

    /// Adds to the worker's units.
    pub fn charge(&mut self, worker: usize, units: u128)
        requires { worker < length self.old.alive }
        ensures { self.new ≡ charged self.old worker units }
    {
        self.spent[worker] = self.spent[worker].saturating_add(units);
    }

    /// Marks the part as done. Returns whether all are.
    pub fn finish(&mut self, part: u32) -> bool
        requires { part < length self.old.done }
        ensures after { self.new ≡ finished self.old part }
        ensures all { result ≡ all_set self.new.done }
    {
        self.done[part as usize] = true;
        are_all_set(&self.done)
    }

    /// Goes on to the next superstep, which is quiet or not.
    pub fn close(&mut self, quiet: bool)
        requires { is_running self.old.ending ≡ true }
        ensures { self.new ≡ closed quiet self.old }
    {
        self.superstep += 1;
        clear(&mut self.done);
        self.ending = ending_at(quiet, self.superstep, self.settings.limit);
    }

    /// Returns whether the state of this superstep is due to be saved.
    pub fn is_saved_now(&self) -> bool
        ensures { result ≡ is_saved_now self.now }
    {
        matches!(self.ending, JobStatus::Running) && self.superstep % self.settings.every == 0
    }

    /// Notes how a save went.
    pub fn note_save(&mut self, told: DeviceResult)
        ensures { self.new ≡ after_save told self.old }
    {
        match told {
            DeviceResult::Good => self.saved = Some(self.superstep),
            DeviceResult::Failed => self.missed = self.missed.saturating_add(1),
            DeviceResult::NoMemory => self.ending = JobStatus::Fault(JobFault::OutOfMemory(
                Place::Save,
            )),
        }
    }

    /// Lets waiting workers join in a new epoch, if the job goes on.
    pub fn welcome(&mut self)
        ensures { self.new ≡ welcomed self.old }
    {
        if self.is_running() && 0 < count_set(&self.waiting) {
            join(&mut self.alive, &self.waiting);
            clear(&mut self.waiting);
            self.epoch += 1;
        }
    }

    // Begins a new epoch, in which the remaining and the waiting workers do all parts again. Returns whether there are
    // any.
    fn begin_anew(&mut self) -> bool
        requires running { is_running self.old.ending ≡ true }
        requires epochs { epochs_used self.old < epochs_there self.old }
        ensures after { self.new ≡ after_loss self.old }
        ensures left { result ≡ is_running self.new.ending }
    {
        join(&mut self.alive, &self.waiting);
        clear(&mut self.waiting);
        if 0 < count_set(&self.alive) {
            self.epoch += 1;
            clear(&mut self.done);
            self.superstep = self.saved.unwrap_or(0);
            true
        } else {
            self.ending = JobStatus::Fault(JobFault::NoWorkers);
            false
        }
    }

    /// Loses the worker. Returns whether the job goes on, in a new epoch.
    pub fn lose(&mut self, worker: usize) -> bool
        requires in_range { worker < length self.old.alive }
        requires alive { is_alive self.old worker ≡ true }
        requires running { is_running self.old.ending ≡ true }
        ensures after { self.new ≡ after_loss (lost self.old worker) }
        ensures left { result ≡ is_running self.new.ending }
    {
        self.alive[worker] = false;
        self.begin_anew()
    }

    /// Makes the tasks of alive workers one tick older.
    pub fn grow_older(&mut self)
        ensures { self.new ≡ aged self.old }
    {
        make_older(&self.alive, &self.out, &mut self.age);
    }

    /// Returns whether some worker has had its task for the whole lease.
    pub fn is_some_overdue(&self) -> bool
        ensures { result ≡ nat_lt (count_set (expired self.now).alive) (count_set self.now.alive) }
    {
        count_in_time(self.settings.lease, &self.out, &self.age, &self.alive)
            < count_set(&self.alive)
    }

    /// Loses all overdue workers at once. Returns whether the job goes on, in a new epoch.
    pub fn lose_overdue(&mut self) -> bool
        requires running { is_running self.old.ending ≡ true }
        requires some { count_set (expired self.old).alive < count_set self.old.alive }
        ensures after { self.new ≡ after_loss (expired self.old) }
        ensures left { result ≡ is_running self.new.ending }
    {
        keep_in_time(self.settings.lease, &self.out, &self.age, &mut self.alive);
        self.begin_anew()
    }

    /// Begins again with superstep 0, as the last saved state could not be loaded.
    pub fn restart(&mut self)
        requires { is_running self.old.ending ≡ true }
        ensures { self.new ≡ restarted self.old }
    {
        self.superstep = 0;
        self.saved = None;
        self.restarts = self.restarts.saturating_add(1);
    }

    /// Ends the job, as memory ran out at this place.
    pub fn fail(&mut self, place: Place)
        ensures { self.new ≡ ended_by (OutOfMemory place) self.old }
    {
        self.ending = JobStatus::Fault(JobFault::OutOfMemory(place));
    }

    /// Returns whether the worker is alive and has a task.
    pub fn is_busy(&self, worker: usize) -> bool
        requires { worker < length self.now.alive }
        ensures { result ≡ is_busy self.now.alive self.now.out worker }
    {
        self.alive[worker] && self.out[worker].is_some()
    }

    pub fn may_join(&self, worker: usize) -> bool
        requires { worker < length self.now.alive }
        ensures { result ≡ may_join self.now worker }
    {
        !self.alive[worker] && (!self.waiting[worker] && self.epoch < 0x1_0000_0000)
    }

    /// Lets the worker wait for a new epoch.
    pub fn let_wait(&mut self, worker: usize)
        requires in_range { worker < length self.old.alive }
        requires may { may_join self.old worker ≡ true }
        ensures { self.new ≡ waits self.old worker }
    {
        self.out[worker] = None;
        self.waiting[worker] = true;
    }
}

// Returns the status of a job at a superstep, quiet or not.
fn ending_at(quiet: bool, superstep: u32, limit: u32) -> JobStatus
    ensures { result ≡ ending_at quiet superstep limit }
{
    if quiet {
        JobStatus::Finished
    } else if superstep < limit {
        JobStatus::Running
    } else {
        JobStatus::Limit
    }
}
