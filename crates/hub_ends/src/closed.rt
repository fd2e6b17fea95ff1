//! The one fault of a channel.

/// The fault that the other end of the channel is gone.
#[derive(Clone, Copy)]
pub struct Closed;
