//! The coordinator's ends of all channels.

ghost use Rattle.std.specs.Prelude.{◌≡◌, ◌<◌, ◌≤◌, ◌+◌, ◌++◌, ◌∷◌, [], ℕ, false, true, vec_len, slice_index_or, IfOk, OnOk, OnErr};
ghost use Rattle.hub_ends.specs.ChannelEnds.{received_by, senders_of};
ghost use Rattle.hub_ends.specs.Messages.{closes, sender_of};
ghost use Rattle.hub_ends.specs.Orders.{stops};
ghost use Rattle.hub_ends.specs.Protocol.{has_bye, of};
ghost use Rattle.hub_ends.specs.declared.order.Order.TheVariants.{Do};

use crate::channel_ends::ReceivingEnd;
use crate::closed::Closed;
use crate::message::Message;
use crate::order::Order;
use crate::pass::{TickReceipt, WorkerReceipt};
use crate::task_channel::TaskChannel;
use std::alloc::Global;
use std::sync::atomic::{AtomicBool, Ordering};
use std::sync::{Arc, Wait};
use superstep::{Origin, Task};

/// The coordinator's ends of all channels.
pub struct CoordinatorEnds<J: Origin> {
    pub(crate) events: ReceivingEnd<Message<J>>,
    /// One for each worker.
    pub(crate) task_channels: Vec<TaskChannel<J>>,
    /// Whether each sender has said bye.
    pub(crate) gone: Vec<bool>,
    /// The flag that stops the ticker.
    pub(crate) stopped: Arc<AtomicBool, Global>,
    pub ghost few: { vec_len task_channels ≤ 64 },
    pub ghost senders: { senders_of events ≡ vec_len task_channels + 1 },
    pub ghost gone_len: { vec_len gone ≡ vec_len task_channels + 1 },
    pub ghost gone_is: { (p : ℕ) → p < vec_len task_channels + 1 → slice_index_or gone.items p false
        ≡ has_bye closes (of sender_of p (received_by events)) },
}

impl<J: Origin> Drop for CoordinatorEnds<J> {
    fn drop(self) {
        let CoordinatorEnds {
            events: _,
            task_channels: _,
            gone: _,
            stopped: _,
        } = self;
    }
}

impl<J: Origin> CoordinatorEnds<J> {
    ghost use Rattle.hub_ends.specs.Passes.{handed_in_by, taken_by, ticked_by};
    ghost use Rattle.hub_ends.specs.Hub.{HasByes, IsReceiptOn, IsSameHub, IsSettled, IsStopped, IsTickReceiptOn, IsTickerSettled, channels_of, handed, received, staff};
    ghost use Rattle.hub_ends.specs.Orders.{at, tasks_in, with_order};

    /// Returns the number of workers.
    pub fn workers(&self) -> usize
        ensures number { result ≡ staff self.now }
        ensures few { result ≤ 64 }
    {
        self.task_channels.len()
    }

    /// Sends a task to a worker. It waits while the worker's channel is full.
    pub fn offer<R: Wait>(&mut self, rt: &R, worker: usize, task: Task<J>) -> Result<(), Closed>
        requires { worker < staff self.old }
        ensures handed { OnOk result
            (handed self.new ≡ with_order (handed self.old) worker (Do task)) }
        ensures err { OnErr result (handed self.new ≡ handed self.old) }
        ensures received { received self.new ≡ received self.old }
        ensures hub { IsSameHub self.old self.new }
    {
        let task_channel = &mut self.task_channels[worker];
        task_channel.send(rt, Order::Do(task))
    }

    /// Waits for the next message and returns it. The message is from a sender that exists.
    pub fn take_event<R: Wait>(&mut self, rt: &R) -> Result<Message<J>, Closed>
        ensures received { IfOk result (λ message.
            received self.new ≡ received self.old ++ message ∷ []) }
        ensures known { IfOk result (λ message. sender_of message < staff self.old + 1) }
        ensures err { OnErr result (received self.new ≡ received self.old) }
        ensures handed { handed self.new ≡ handed self.old }
        ensures hub { IsSameHub self.old self.new }
    {
        match self.events.receive(rt) {
            Ok(message) => {
                if let Message::Bye(sender) = &message {
                    self.gone[sender.number()] = true;
                }
                Ok(message)
            }
            Err(closed) => Err(closed),
        }
    }

    /// Returns whether every sender has said bye.
    pub fn all_gone(&self) -> bool
        ensures { result ≡ true → HasByes (staff self.now) (received self.now) }
    {
        for gone in &self.gone {
            if !*gone {
                return false;
            }
        }
        true
    }

    // Stops one worker, unless it was stopped before.
    fn stop_one<R: Wait>(&mut self, rt: &R, worker: usize) -> Result<(), Closed>
        requires { worker < staff self.old }
        ensures stopped { OnOk result (IsStopped self.new worker) }
        ensures kept { (w : ℕ) → IsStopped self.old w → IsStopped self.new w }
        ensures tasks { (w : ℕ)
            → tasks_in (at (handed self.new) w) ≡ tasks_in (at (handed self.old) w) }
        ensures received { received self.new ≡ received self.old }
        ensures hub { IsSameHub self.old self.new }
    {
        let task_channel = &mut self.task_channels[worker];
        task_channel.stop(rt)
    }

    /// Stops the ticker and all workers, even if the channel of one is closed.
    pub fn stop<R: Wait>(&mut self, rt: &R) -> Result<(), Closed>
        ensures stopped { OnOk result ((w : ℕ) → w < staff self.new → IsStopped self.new w) }
        ensures tasks { (w : ℕ)
            → tasks_in (at (handed self.new) w) ≡ tasks_in (at (handed self.old) w) }
        ensures received { received self.new ≡ received self.old }
        ensures hub { IsSameHub self.old self.new }
    {
        self.stopped.store(true, Ordering::SeqCst);
        let mut answer = Ok(());
        for worker in 0..self.task_channels.len() {
            if self.stop_one(rt, worker).is_err() {
                answer = Err(Closed);
            }
        }
        answer
    }

    /// Compares the ticker's receipt with what was received: its ticks came once and in order.
    pub fn settle_ticker(&mut self, receipt: TickReceipt<J>) -> TickReceipt<J>
        requires { IsTickReceiptOn (channels_of self.old) receipt }
        ensures settled { IsTickerSettled self.new result }
        ensures same { ticked_by result ≡ ticked_by receipt }
        ensures received { received self.new ≡ received self.old }
        ensures handed { handed self.new ≡ handed self.old }
        ensures hub { IsSameHub self.old self.new }
    {
        let TickReceipt { events } = receipt;
        let events = self.events.compare(events);
        TickReceipt { events }
    }

    /// Compares a worker's receipt with what was received and sent: its messages and its tasks came once and in order.
    pub fn settle(&mut self, receipt: WorkerReceipt<J>) -> WorkerReceipt<J>
        requires worker { receipt.worker < staff self.old }
        requires hub { IsReceiptOn (channels_of self.old) receipt.worker receipt }
        ensures settled { IsSettled self.new receipt.worker result }
        ensures handed_in { handed_in_by result ≡ handed_in_by receipt }
        ensures taken { taken_by result ≡ taken_by receipt }
        ensures received { received self.new ≡ received self.old }
        ensures handed { handed self.new ≡ handed self.old }
        ensures hub { IsSameHub self.old self.new }
    {
        let WorkerReceipt {
            worker,
            events,
            orders,
        } = receipt;
        let events = self.events.compare(events);
        let task_channel = &mut self.task_channels[worker as usize];
        let orders = task_channel.compare(orders);
        WorkerReceipt {
            worker,
            events,
            orders,
        }
    }
}
