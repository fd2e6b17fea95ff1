//! Inboxes: the messages that were sent to each vertex in the superstep before (Pregel 2010, 2).
//!
//! Pregel leaves the order of messages open. Here they are sorted by source: those of the lesser id come first, and those of
//! one source are in the order of sending.
#![tactic(auto)]

mod all_parts;
mod arrivals;
mod blocks;
mod filing;
mod grid;
mod inboxes;
mod laws;
mod letters;
mod mail;
mod merging;
mod outbox;
mod shares;
mod slips;
mod streams;

pub use all_parts::{merge_own_parts, merge_parts};
pub use arrivals::{Arrival, merge_few};
pub use inboxes::Inbox;
pub use laws::{
    drops_add_up_over_sources, inboxes_are_concatenated_by_source,
    letters_are_delivered_once_or_drop, letters_can_be_ordered, letters_drop_alike_in_any_order,
    letters_have_one_order, letters_keep_their_order_in_any_lists, sources_send_in_any_order,
};
pub use letters::Letter;
pub use mail::letter_count;
pub use merging::merge;
pub use outbox::Outbox;
