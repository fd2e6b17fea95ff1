//! The coordinator of a job.

ghost use Rattle.std.specs.Prelude.{◌≡◌, ◌<◌, ◌+◌, ◌++◌, ◌∷◌, [], ℕ, true, IfOk, IfErr, OnOk, OnErr};
ghost use Rattle.job_state.specs.declared.fault.JobFault.TheVariants.{Closed};
ghost use Rattle.checkpoint.specs.Keep.{LoadsNothingElse};
ghost use Rattle.book.specs.Calm.{NeverFails};
ghost use Rattle.coordinator.specs.JobAnswers.{HasSpent, IsCalmReport, IsDriveFault, IsLeftBy, IsOpened, EndedOver, EndedOverKeep, WhereEnded};
ghost use Rattle.hub_ends.specs.Messages.{sender_of};
ghost use Rattle.hub_ends.specs.declared.order.Order.TheVariants.{Do};

use crate::event_loop::drive;
use book::{Book, Report};
use checkpoint::{Device, Keep};
use hub_ends::{CoordinatorEnds, Message, Receipts, TickReceipt, WorkerReceipt};
use std::sync::Wait;
use std::thread::Threads;
use superstep::{JobFault, Origin, Task};

/// The coordinator of a job. It sends tasks to workers and receives messages.
///
/// It has its channel ends, except while `workers::run_job` lends them to its threads. After a job has run to its end, it
/// has the receipts of all senders.
pub struct Coordinator<J: Origin> {
    pub ends: Option<CoordinatorEnds<J>>,
    pub receipts: Option<Receipts<J>>,
}

impl<J: Origin> Drop for Coordinator<J> {
    fn drop(self) {
        let Coordinator {
            ends: _,
            receipts: _,
        } = self;
    }
}

impl<J: Origin> Coordinator<J> {
    ghost use Rattle.coordinator.specs.Coordinator.{IsReceiptOf, IsSameHub, IsSettledBy, IsStopped, IsTickReceiptOf, IsTickerSettledBy, IsUnused, handed, received, staff};
    ghost use Rattle.hub_ends.specs.Hub.{HasByes};
    ghost use Rattle.hub_ends.specs.Orders.{at, tasks_in, with_order};
    ghost use Rattle.hub_ends.specs.Passes.{handed_in_by, taken_by, ticked_by};

    /// Sends a task to a worker. It waits while the worker's channel is full. `Closed`: the worker's end is gone, or
    /// the worker was stopped.
    pub fn offer<R: Wait>(&mut self, rt: &R, worker: u32, task: Task<J>) -> Result<(), JobFault>
        requires { worker < staff self.old }
        ensures handed { OnOk result
            (handed self.new ≡ with_order (handed self.old) worker (Do task)) }
        ensures refused { IfErr result (λ fault. fault ≡ Closed) }
        ensures err { OnErr result (handed self.new ≡ handed self.old) }
        ensures received { received self.new ≡ received self.old }
        ensures hub { IsSameHub self.old self.new }
    {
        match &mut self.ends {
            Some(ends) => match ends.offer(rt, worker as usize, task) {
                Ok(()) => Ok(()),
                Err(_) => Err(JobFault::Closed),
            },
            None => {
                drop(task);
                Err(JobFault::Closed)
            }
        }
    }

    /// Waits for the next message and returns it. The message is from a sender that exists. `Closed`: every sender's
    /// end is gone.
    pub fn take_event<R: Wait>(&mut self, rt: &R) -> Result<Message<J>, JobFault>
        ensures received { IfOk result (λ message.
            received self.new ≡ received self.old ++ message ∷ []) }
        ensures known { IfOk result (λ message. sender_of message < staff self.old + 1) }
        ensures refused { IfErr result (λ fault. fault ≡ Closed) }
        ensures err { OnErr result (received self.new ≡ received self.old) }
        ensures handed { handed self.new ≡ handed self.old }
        ensures hub { IsSameHub self.old self.new }
    {
        match &mut self.ends {
            Some(ends) => match ends.take_event(rt) {
                Ok(message) => Ok(message),
                Err(_) => Err(JobFault::Closed),
            },
            None => Err(JobFault::Closed),
        }
    }

    /// Stops the ticker and all workers, even if the channel of one is closed. A worker is stopped once. `Closed`: the
    /// end of one of them is gone.
    pub fn stop<R: Wait>(&mut self, rt: &R) -> Result<(), JobFault>
        ensures stopped { OnOk result ((w : ℕ) → w < staff self.new → IsStopped self.new w) }
        ensures tasks { (w : ℕ)
            → tasks_in (at (handed self.new) w) ≡ tasks_in (at (handed self.old) w) }
        ensures refused { IfErr result (λ fault. fault ≡ Closed) }
        ensures received { received self.new ≡ received self.old }
        ensures hub { IsSameHub self.old self.new }
    {
        match &mut self.ends {
            Some(ends) => match ends.stop(rt) {
                Ok(()) => Ok(()),
                Err(_) => Err(JobFault::Closed),
            },
            None => Err(JobFault::Closed),
        }
    }

    /// Compares a worker's receipt with what was received and sent: its messages and its tasks came once and in order.
    /// The call changes nothing.
    pub fn settle(&mut self, receipt: WorkerReceipt<J>) -> WorkerReceipt<J>
        requires worker { receipt.worker < staff self.old }
        requires hub { IsReceiptOf self.old receipt }
        ensures settled { IsSettledBy self.new receipt.worker result }
        ensures handed_in { handed_in_by result ≡ handed_in_by receipt }
        ensures taken { taken_by result ≡ taken_by receipt }
        ensures received { received self.new ≡ received self.old }
        ensures handed { handed self.new ≡ handed self.old }
        ensures hub { IsSameHub self.old self.new }
    {
        match &mut self.ends {
            Some(ends) => ends.settle(receipt),
            None => receipt,
        }
    }

    /// Compares the ticker's receipt with what was received: its ticks came once and in order. The call changes
    /// nothing.
    pub fn settle_ticker(&mut self, receipt: TickReceipt<J>) -> TickReceipt<J>
        requires { IsTickReceiptOf self.old receipt }
        ensures settled { IsTickerSettledBy self.new result }
        ensures ticked { ticked_by result ≡ ticked_by receipt }
        ensures received { received self.new ≡ received self.old }
        ensures handed { handed self.new ≡ handed self.old }
        ensures hub { IsSameHub self.old self.new }
    {
        match &mut self.ends {
            Some(ends) => ends.settle_ticker(receipt),
            None => receipt,
        }
    }

    /// Drives a job to its end, stops the ticker and all workers, and waits for every bye. Returns what the job ended
    /// with.
    ///
    /// The hub and the book have to be unused and of this job, and the Keep like the one that the hub was opened with.
    /// At the start, and after each event, it sends tasks to workers that may be free. If a channel is closed, it stops
    /// all and returns `Closed`.
    pub fn drive<K: Keep, R: Wait + Threads + Sync + Device + AllocGlobal>(
        &mut self,
        rt: &R,
        book: Book<J>,
        keep: &mut K,
    ) -> Result<Report, JobFault>
        requires unused { IsUnused self.old }
        requires workers { staff self.old ≡ J.work.settings.workers }
        requires book { IsOpened J.work book }
        requires keep { J.honest 1 ≡ true → K.honest keep.old ≡ true }
        // There is one list of assignments and events, of what was sent and received, over which the job ended so.
        ensures ran { WhereEnded result
            (EndedOver J.work J.honest (received self.new) (handed self.new) result) }
        // Each assignment and each event of it leaves the Keep as its save or its load left it, or as it was.
        ensures kept { WhereEnded result (EndedOverKeep K.honest K.saved K.may_load K.faults
            J.work J.honest (received self.new) (handed self.new) keep.old keep.new result) }
        // Wherever the job stops, what was received leads the Keep there.
        ensures left { IsLeftBy K.honest K.saved K.may_load K.faults J.work J.honest
            book.entry (received self.old) (received self.new) keep.old keep.new }
        // If the Keep loads only what was saved and its device never fails, no save is missed and the job never begins
        // again.
        ensures calm { LoadsNothingElse K.saved K.may_load → NeverFails K.faults
            → IfOk result IsCalmReport }
        ensures byes { WhereEnded result (HasByes (staff self.new) (received self.new)) }
        ensures stopped { WhereEnded result
            ((w : ℕ) → w < staff self.new → IsStopped self.new w) }
        ensures spent { IfOk result (HasSpent (staff self.new) (received self.new)) }
        ensures refused { IfErr result IsDriveFault }
        ensures hub { IsSameHub self.old self.new }
    {
        match &mut self.ends {
            Some(ends) => {
                let mut nobody = Vec::new(rt.alloc());
                drive(rt, ends, book, keep, &mut nobody)
            }
            None => {
                drop(book);
                Err(JobFault::Closed)
            }
        }
    }
}
