//! The orders to workers.

use crate::protocol::Signed;
use superstep::{Origin, Task};

/// An order to a worker.
#[derive(Drop)]
pub enum Order<J: Origin> {
    Do(Task<J>),
    /// No further task comes.
    Stop,
}

impl<J: Origin> Order<J> {
    ghost use Rattle.std.specs.Prelude.{◌≡◌};
    ghost use Rattle.hub_ends.specs.Orders.{stops};

    /// Returns whether no further task comes.
    pub(crate) fn stops(&self) -> bool
        ensures { result ≡ stops self.now }
    {
        match self {
            Order::Do(_) => false,
            Order::Stop => true,
        }
    }
}

impl<J: Origin> Signed for Order<J> {
    ghost use Rattle.hub_ends.specs.Orders.{coordinator, stops};

    ghost from = { coordinator };

    ghost closes = { stops };
}
