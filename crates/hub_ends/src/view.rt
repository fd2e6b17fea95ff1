//! The knowledge of a channel's passes.

use std::collections::LinkedList;

/// The knowledge of a pass: all that its sender sent, or all that its reader received. It exists in contracts only.
pub struct View<M> {
    pub sends: bool,
    /// Its number among the senders.
    pub from: u32,
    pub sent: LinkedList<M>,
    pub reads: bool,
    /// The number of senders.
    pub senders: u32,
    pub received: LinkedList<M>,
}
