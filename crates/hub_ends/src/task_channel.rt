//! The coordinator's end of the channel of one worker's tasks.

ghost use Rattle.std.specs.Prelude.{◌≡◌, ◌⊎◌, ◌<◌, ◌++◌, ◌∷◌, [], true, IfOk, OnOk, OnErr};
ghost use Rattle.hub_ends.specs.Channel.{room_of};
ghost use Rattle.hub_ends.specs.ChannelEnds.{IsSameReader, number_of, received_by, sent_by, source_of};
ghost use Rattle.hub_ends.specs.Orders.{coordinator, stops};
ghost use Rattle.hub_ends.specs.Protocol.{IsOnceInOrder, has_bye};
ghost use Rattle.hub_ends.specs.declared.order.Order.TheVariants.{Stop};

use crate::channel_ends::{ReceivingEnd, SendingEnd};
use crate::closed::Closed;
use crate::order::Order;
use std::alloc::{AllocError, Global};
use std::sync::Wait;
use superstep::Origin;

/// The coordinator's end of the channel of one worker's tasks.
pub struct TaskChannel<J: Origin> {
    pub(crate) orders: SendingEnd<Order<J>>,
    /// Whether the worker was sent `Stop`.
    pub(crate) stopped: bool,
    pub ghost number: { number_of orders ≡ 0 },
    pub ghost stopped_is: { has_bye stops (sent_by orders) ≡ stopped },
}

impl<J: Origin> Drop for TaskChannel<J> {
    fn drop(self) {
        let TaskChannel {
            orders: _,
            stopped: _,
        } = self;
    }
}

impl<J: Origin> TaskChannel<J> {
    ghost use Rattle.hub_ends.specs.TaskChannels.{channel_on, sent_on};

    /// Opens the channel of a worker's tasks, with room for this many orders. Returns the worker's end and the
    /// coordinator's.
    pub fn open(
        alloc: Global,
        capacity: usize,
    ) -> Result<(ReceivingEnd<Order<J>>, TaskChannel<J>), AllocError>
        requires { 0 < capacity }
        ensures sent { IfOk result (λ ends. sent_on ends.1 ≡ []) }
        ensures received { IfOk result (λ ends. received_by ends.0 ≡ []) }
        ensures channel { IfOk result (λ ends. channel_on ends.1 ≡ source_of ends.0) }
        ensures room { IfOk result (λ ends. room_of (channel_on ends.1) ≡ capacity) }
    {
        let (taken, orders) = ReceivingEnd::open(alloc, capacity)?;
        Ok((
            taken,
            TaskChannel {
                orders,
                stopped: false,
            },
        ))
    }

    /// Sends an order. It waits while the channel is full. After a `Stop` it sends nothing and returns `Closed`.
    pub fn send<R: Wait>(&mut self, rt: &R, order: Order<J>) -> Result<(), Closed>
        ensures sent { OnOk result (sent_on self.new ≡ sent_on self.old ++ order ∷ []) }
        ensures err { OnErr result (sent_on self.new ≡ sent_on self.old) }
        ensures channel { channel_on self.new ≡ channel_on self.old }
    {
        if self.stopped {
            return Err(Closed);
        }
        let stops = order.stops();
        self.orders.send(rt, order)?;
        self.stopped = stops;
        Ok(())
    }

    /// Sends the worker `Stop`, unless it was sent before.
    pub fn stop<R: Wait>(&mut self, rt: &R) -> Result<(), Closed>
        ensures stopped { OnOk result (has_bye stops (sent_on self.new) ≡ true) }
        ensures sent { (sent_on self.new ≡ sent_on self.old)
            ⊎ (sent_on self.new ≡ sent_on self.old ++ Stop ∷ []) }
        ensures channel { channel_on self.new ≡ channel_on self.old }
    {
        if self.stopped {
            return Ok(());
        }
        self.send(rt, Order::Stop)
    }

    /// Compares what the worker took with what it was sent: it is a beginning of that, and all of it once the worker
    /// took the `Stop`. The call changes nothing.
    pub fn compare(&mut self, taken: ReceivingEnd<Order<J>>) -> ReceivingEnd<Order<J>>
        requires { channel_on self.old ≡ source_of taken }
        ensures order { IsOnceInOrder coordinator stops 0 (sent_on self.old) (received_by taken) }
        ensures taken { IsSameReader taken result × (received_by result ≡ received_by taken) }
        ensures sent { sent_on self.new ≡ sent_on self.old }
        ensures channel { channel_on self.new ≡ channel_on self.old }
    {
        self.orders.compare(taken)
    }
}
