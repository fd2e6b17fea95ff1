//! The protocol of a channel with several senders and one reader, and the steps that keep it.

ghost use Rattle.std.specs.Prelude.{ℕ, Bool, List, [], ◌≡◌, ◌+◌};
ghost use Rattle.hub_ends.specs.Protocol.{Delivers, IsOnceInOrder, Takes};
ghost use Rattle.hub_ends.specs.Views.{both, reader, reader_in, sender, sender_in, spent, with_sent};

use crate::view::View;
use crossbeam_channel::protocol::{Join, Lesson, Outcome, Protocol, Split};

/// A message that names its sender and says whether it is that sender's last.
pub trait Signed: Drop {
    ghost from: { Self → ℕ };

    ghost closes: { Self → Bool };
}

/// The protocol: for each sender, the received messages followed by those in the channel are what it sent.
pub struct InOrder;

impl<M: Signed> Protocol<M, View<M>> for InOrder {
    ghost holds = { Delivers M.from M.closes };

    ghost first = { reader 0 [] };
}

/// A new sender, with the next number.
pub struct NewSender;

impl<M> Split<View<M>> for NewSender {
    ghost left = { λ v. reader (v.senders + 1) v.received };

    ghost right = { λ v. sender v.senders [] };
}

/// The step in which the reader takes in a sender and gives it back.
pub struct WithSender;

impl<M> Join<View<M>> for WithSender {
    ghost both = { λ v w. both v w };

    ghost spent = { spent };
}

impl<M> Split<View<M>> for WithSender {
    ghost left = { reader_in };

    ghost right = { sender_in };
}

/// The step in which a sender takes in the reader and gives it back.
pub struct WithReader;

impl<M> Join<View<M>> for WithReader {
    ghost both = { λ v w. both w v };

    ghost spent = { spent };
}

impl<M> Split<View<M>> for WithReader {
    ghost left = { sender_in };

    ghost right = { reader_in };
}

/// A send.
pub struct Send;

impl<M: Signed> Outcome<M, View<M>> for Send {
    ghost then = { λ v m w. w ≡ with_sent v m };
}

impl<M: Signed> Lesson<M, View<M>> for Send {
    ghost fact = { λ v items. Unit {0} };
}

/// A receive.
pub struct Receive;

impl<M: Signed> Outcome<M, View<M>> for Receive {
    ghost then = { λ v m w. Takes M.from v m w };
}

impl<M: Signed> Lesson<M, View<M>> for Receive {
    ghost fact = { λ v items. Unit {0} };
}

/// The fact that a reader and a sender in one pass learn: that sender's messages came once and in order.
pub struct OnceInOrder;

impl<M: Signed> Lesson<M, View<M>> for OnceInOrder {
    ghost fact = { λ v items. IsOnceInOrder M.from M.closes v.from v.sent v.received };
}
