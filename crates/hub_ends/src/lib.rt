//! Channels with several senders and one reader, which receives the messages of each sender once and in order; and the ends of a hub's
//! channels, which its coordinator, its workers and its ticker hold, with the messages between them.
#![tactic(auto)]

mod channel_ends;
mod closed;
mod coordinator_ends;
mod hub;
mod message;
mod order;
mod pass;
mod protocol;
mod receipts;
mod task_channel;
mod verdict;
mod view;

pub use channel_ends::{ReceivingEnd, SendingEnd};
pub use closed::Closed;
pub use coordinator_ends::CoordinatorEnds;
pub use hub::{Rows, connect, new_rows};
pub use message::{Message, Sender};
pub use order::Order;
pub use pass::{TickPass, TickReceipt, WorkerPass, WorkerReceipt};
pub use protocol::Signed;
pub use receipts::Receipts;
pub use task_channel::TaskChannel;
pub use verdict::{Verdict, VerdictReader, VerdictSender};
