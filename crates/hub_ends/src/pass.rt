//! The passes of workers and the ticker, which are their channel ends, and their receipts after a bye.

ghost use Rattle.std.specs.Prelude.{◌≡◌, ◌+◌, ◌++◌, ◌∷◌, [], false, IfOk, IfErr, OnOk, OnErr};
ghost use Rattle.job_state.specs.declared.fault.JobFault.TheVariants.{Closed};
ghost use Rattle.control.specs.declared.event.Event.TheVariants.{Tick};
ghost use Rattle.hub_ends.specs.ChannelEnds.{number_of, sent_by};
ghost use Rattle.hub_ends.specs.Messages.{closes, event_sender};
ghost use Rattle.hub_ends.specs.Orders.{order_of};
ghost use Rattle.hub_ends.specs.Protocol.{has_bye};
ghost use Rattle.hub_ends.specs.declared.message.Message.TheVariants.{Bye, Event as Happened};
ghost use Rattle.hub_ends.specs.declared.message.Sender.TheVariants.{Ticker, Worker};

use crate::channel_ends::{ReceivingEnd, SendingEnd};
use crate::message::{Message, Sender};
use crate::order::Order;
use control::Event;
use std::alloc::Global;
use std::sync::atomic::{AtomicBool, Ordering};
use std::sync::{Arc, Wait};
use superstep::{JobFault, Origin, Task};

/// The ends of a worker: with them it takes tasks and sends events.
pub struct WorkerPass<J: Origin> {
    pub(crate) worker: u32,
    pub(crate) events: SendingEnd<Message<J>>,
    pub(crate) orders: ReceivingEnd<Order<J>>,
    pub ghost number: { number_of events ≡ worker + 1 },
    pub ghost open: { has_bye closes (sent_by events) ≡ false },
}

impl<J: Origin> Drop for WorkerPass<J> {
    fn drop(self) {
        let WorkerPass {
            worker: _,
            events: _,
            orders: _,
        } = self;
    }
}

/// The receipt of a worker that has said bye: what it sent and what it took.
#[derive(Drop)]
pub struct WorkerReceipt<J: Origin> {
    pub worker: u32,
    pub(crate) events: SendingEnd<Message<J>>,
    pub(crate) orders: ReceivingEnd<Order<J>>,
    pub ghost number: { number_of events ≡ worker + 1 },
}

/// The end of the ticker.
pub struct TickPass<J: Origin> {
    pub(crate) events: SendingEnd<Message<J>>,
    pub(crate) stopped: Arc<AtomicBool, Global>,
    pub ghost number: { number_of events ≡ 0 },
    pub ghost open: { has_bye closes (sent_by events) ≡ false },
}

impl<J: Origin> Drop for TickPass<J> {
    fn drop(self) {
        let TickPass {
            events: _,
            stopped: _,
        } = self;
    }
}

/// The receipt of the ticker that has said bye: what it sent.
#[derive(Drop)]
pub struct TickReceipt<J: Origin> {
    pub(crate) events: SendingEnd<Message<J>>,
    pub ghost number: { number_of events ≡ 0 },
}

impl<J: Origin> WorkerPass<J> {
    ghost use Rattle.hub_ends.specs.Passes.{IsReceipt, IsSamePass, handed_in, handed_in_by, taken, taken_by, worker_of};

    /// Returns the worker's number.
    pub fn worker(&self) -> u32
        ensures { result ≡ worker_of self.now }
    {
        self.worker
    }

    /// Waits for the next task and returns it, or `None` if the coordinator stopped this worker. `Closed`: the
    /// coordinator is gone.
    pub fn take<R: Wait>(&mut self, rt: &R) -> Result<Option<Task<J>>, JobFault>
        ensures taken { IfOk result (λ task.
            taken self.new ≡ taken self.old ++ order_of task ∷ []) }
        ensures refused { IfErr result (λ fault. fault ≡ Closed) }
        ensures err { OnErr result (taken self.new ≡ taken self.old) }
        ensures handed_in { handed_in self.new ≡ handed_in self.old }
        ensures same { IsSamePass self.old self.new }
    {
        match self.orders.receive(rt) {
            Ok(Order::Do(task)) => Ok(Some(task)),
            Ok(Order::Stop) => Ok(None),
            Err(_) => Err(JobFault::Closed),
        }
    }

    /// Sends an event of this worker. It waits while the channel is full. `Closed`: the coordinator is gone.
    pub fn hand_in<R: Wait>(&mut self, rt: &R, event: Event<J>) -> Result<(), JobFault>
        requires { event_sender event ≡ worker_of self.old + 1 }
        ensures handed_in { OnOk result
            (handed_in self.new ≡ handed_in self.old ++ Happened event ∷ []) }
        ensures refused { IfErr result (λ fault. fault ≡ Closed) }
        ensures err { OnErr result (handed_in self.new ≡ handed_in self.old) }
        ensures taken { taken self.new ≡ taken self.old }
        ensures same { IsSamePass self.old self.new }
    {
        match self.events.send(rt, Message::Event(event)) {
            Ok(()) => Ok(()),
            Err(_) => Err(JobFault::Closed),
        }
    }

    /// Says bye, after which the worker sends nothing. `Closed`: the coordinator is gone.
    pub fn bye<R: Wait>(self, rt: &R) -> Result<WorkerReceipt<J>, JobFault>
        ensures handed_in { IfOk result (λ receipt.
            handed_in_by receipt ≡ handed_in self ++ Bye (Worker (worker_of self)) ∷ []) }
        ensures taken { IfOk result (λ receipt. taken_by receipt ≡ taken self) }
        ensures whose { IfOk result (IsReceipt self) }
        ensures refused { IfErr result (λ fault. fault ≡ Closed) }
    {
        let WorkerPass {
            worker,
            mut events,
            orders,
        } = self;
        match events.send(rt, Message::Bye(Sender::Worker(worker))) {
            Ok(()) => Ok(WorkerReceipt {
                worker,
                events,
                orders,
            }),
            Err(_) => {
                drop(events);
                drop(orders);
                Err(JobFault::Closed)
            }
        }
    }
}

impl<J: Origin> TickPass<J> {
    ghost use Rattle.hub_ends.specs.Passes.{IsSameTicker, IsTickReceipt, ticked, ticked_by};

    /// Returns whether the coordinator has stopped all. Nothing is claimed of the answer.
    pub fn stopped(&self) -> bool {
        self.stopped.load(Ordering::SeqCst)
    }

    /// Sends one tick. It waits while the channel is full. `Closed`: the coordinator is gone.
    pub fn tick<R: Wait>(&mut self, rt: &R) -> Result<(), JobFault>
        ensures ticked { OnOk result (ticked self.new ≡ ticked self.old ++ Happened Tick ∷ []) }
        ensures refused { IfErr result (λ fault. fault ≡ Closed) }
        ensures err { OnErr result (ticked self.new ≡ ticked self.old) }
        ensures same { IsSameTicker self.old self.new }
    {
        match self.events.send(rt, Message::Event(Event::Tick)) {
            Ok(()) => Ok(()),
            Err(_) => Err(JobFault::Closed),
        }
    }

    /// Says bye, after which the ticker sends nothing. `Closed`: the coordinator is gone.
    pub fn bye<R: Wait>(self, rt: &R) -> Result<TickReceipt<J>, JobFault>
        ensures ticked { IfOk result (λ receipt.
            ticked_by receipt ≡ ticked self ++ Bye Ticker ∷ []) }
        ensures whose { IfOk result (IsTickReceipt self) }
        ensures refused { IfErr result (λ fault. fault ≡ Closed) }
    {
        let TickPass {
            mut events,
            stopped: _,
        } = self;
        match events.send(rt, Message::Bye(Sender::Ticker)) {
            Ok(()) => Ok(TickReceipt { events }),
            Err(_) => {
                drop(events);
                Err(JobFault::Closed)
            }
        }
    }
}
