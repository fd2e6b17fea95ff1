//! Messages to the coordinator, and their senders.

use crate::protocol::Signed;
use control::Event;
use superstep::Origin;

/// A sender to the coordinator.
#[derive(Clone, Copy)]
pub enum Sender {
    Ticker,
    /// The worker of this number.
    Worker(u32),
}

/// A message to the coordinator.
#[derive(Drop)]
pub enum Message<J: Origin> {
    /// Something happened to the job.
    Event(Event<J>),
    /// The sender sends nothing more.
    Bye(Sender),
}

impl Sender {
    ghost use Rattle.std.specs.Prelude.{◌≡◌};
    ghost use Rattle.hub_ends.specs.Messages.{sender_number};

    /// Returns its number among the senders.
    pub(crate) fn number(&self) -> usize
        ensures { result ≡ sender_number self.now }
    {
        match self {
            Sender::Ticker => 0,
            Sender::Worker(worker) => *worker as usize + 1,
        }
    }
}

impl<J: Origin> Signed for Message<J> {
    ghost use Rattle.hub_ends.specs.Messages.{closes, sender_of};

    ghost from = { sender_of };

    ghost closes = { closes };
}
