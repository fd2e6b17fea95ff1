//! The ends of a channel with several senders and one reader.

ghost use Rattle.std.specs.Prelude.{◌≡◌, ◌<◌, ◌+◌, ◌++◌, ◌∷◌, [], false, IfOk, OnOk, OnErr};
ghost use Rattle.crossbeam_channel.specs.Claims.{view, IsSeatAt};
ghost use Rattle.crossbeam_channel.specs.Ends.{sends_on, receives_on};
ghost use Rattle.hub_ends.specs.Channel.{room_of};
ghost use Rattle.hub_ends.specs.Protocol.{IsOnceInOrder, has_bye};
ghost use Rattle.hub_ends.specs.Views.{reader, sender};

use crate::closed::Closed;
use crate::protocol::{
    InOrder, NewSender, OnceInOrder, Receive, Send, Signed, WithReader, WithSender,
};
use crate::view::View;
use crossbeam_channel::{Pass, RuledReceiver, RuledSender, bounded_with};
use std::alloc::{AllocError, Global};
use std::sync::Wait;

/// The end of a sender.
pub struct SendingEnd<M: Signed> {
    to: RuledSender<M, View<M>, InOrder>,
    pass: Pass<M, View<M>>,
    pub ghost tied: { IsSeatAt (sends_on to) pass },
    pub ghost role: { view pass ≡ sender (view pass).from (view pass).sent },
}

impl<M: Signed> Drop for SendingEnd<M> {
    fn drop(self) {
        let SendingEnd { to: _, pass: _ } = self;
    }
}

/// The end of the reader.
pub struct ReceivingEnd<M: Signed> {
    from: RuledReceiver<M, View<M>, InOrder>,
    pass: Pass<M, View<M>>,
    pub ghost tied: { IsSeatAt (receives_on from) pass },
    pub ghost role: { view pass ≡ reader (view pass).senders (view pass).received },
}

impl<M: Signed> Drop for ReceivingEnd<M> {
    fn drop(self) {
        let ReceivingEnd { from: _, pass: _ } = self;
    }
}

impl<M: Signed> SendingEnd<M> {
    ghost use Rattle.hub_ends.specs.ChannelEnds.{IsSameReader, IsSameSender, channel_of, number_of, received_by, sent_by, source_of};

    // Returns the channel's sender, and the pass.
    fn into_parts(self) -> (RuledSender<M, View<M>, InOrder>, Pass<M, View<M>>)
        ensures to { result.0 ≡ self.to }
        ensures pass { result.1 ≡ self.pass }
    {
        let SendingEnd { to, pass } = self;
        (to, pass)
    }

    /// Sends a message. It waits while the channel is full. A sender that has said bye must not send again.
    pub fn send<R: Wait>(&mut self, rt: &R, message: M) -> Result<(), Closed>
        requires from { M.from message ≡ number_of self.old }
        requires open { has_bye M.closes (sent_by self.old) ≡ false }
        ensures sent { OnOk result (sent_by self.new ≡ sent_by self.old ++ message ∷ []) }
        ensures err { OnErr result (sent_by self.new ≡ sent_by self.old) }
        ensures same { IsSameSender self.old self.new }
    {
        match self.to.send_as::<Send, R>(rt, &mut self.pass, message) {
            Ok(()) => Ok(()),
            Err(_) => Err(Closed),
        }
    }

    /// Does the same as `ReceivingEnd::compare`, but borrows the sender and takes the reader.
    pub fn compare(&mut self, reader: ReceivingEnd<M>) -> ReceivingEnd<M>
        requires { channel_of self.old ≡ source_of reader }
        ensures in_order { IsOnceInOrder M.from M.closes (number_of self.old)
            (sent_by self.old) (received_by reader) }
        ensures reader { IsSameReader reader result }
        ensures received { received_by result ≡ received_by reader }
        ensures sent { sent_by self.new ≡ sent_by self.old }
        ensures same { IsSameSender self.old self.new }
    {
        let (from, pass) = reader.into_parts();
        self.to.absorb::<WithReader>(&mut self.pass, pass);
        self.to.learn_as::<OnceInOrder>(&mut self.pass);
        let pass = self.to.another::<WithReader>(&mut self.pass);
        ReceivingEnd { from, pass }
    }
}

impl<M: Signed> ReceivingEnd<M> {
    ghost use Rattle.hub_ends.specs.ChannelEnds.{IsNewSender, IsSameReader, IsSameSender, channel_of, number_of, received_by, senders_of, sent_by, source_of};

    // Returns the channel's receiver, and the pass.
    fn into_parts(self) -> (RuledReceiver<M, View<M>, InOrder>, Pass<M, View<M>>)
        ensures from { result.0 ≡ self.from }
        ensures pass { result.1 ≡ self.pass }
    {
        let ReceivingEnd { from, pass } = self;
        (from, pass)
    }

    /// Opens a channel with room for this many messages, and its first sender.
    pub fn open(
        alloc: Global,
        capacity: usize,
    ) -> Result<(ReceivingEnd<M>, SendingEnd<M>), AllocError>
        requires { 0 < capacity }
        ensures sender { IfOk result (λ ends. IsNewSender (source_of ends.0) 0 ends.1) }
        ensures senders { IfOk result (λ ends. senders_of ends.0 ≡ 1) }
        ensures received { IfOk result (λ ends. received_by ends.0 ≡ []) }
        ensures room { IfOk result (λ ends. room_of (source_of ends.0) ≡ capacity) }
    {
        let (to, from, mut pass) = bounded_with::<M, View<M>, InOrder, Global>(alloc, capacity)?;
        let first = to.another::<NewSender>(&mut pass);
        Ok((ReceivingEnd { from, pass }, SendingEnd { to, pass: first }))
    }

    /// Adds a sender with the next number, beside one that exists. If memory runs out, nothing changes.
    pub fn add_sender(&mut self, beside: &SendingEnd<M>) -> Result<SendingEnd<M>, AllocError>
        requires { channel_of beside.now ≡ source_of self.old }
        ensures sender { IfOk result (IsNewSender (source_of self.old) (senders_of self.old)) }
        ensures senders { OnOk result (senders_of self.new ≡ senders_of self.old + 1) }
        ensures err { OnErr result (senders_of self.new ≡ senders_of self.old) }
        ensures received { received_by self.new ≡ received_by self.old }
        ensures channel { source_of self.new ≡ source_of self.old }
    {
        let to = beside.to.try_clone()?;
        let pass = to.another::<NewSender>(&mut self.pass);
        Ok(SendingEnd { to, pass })
    }

    /// Receives a message. It waits while the channel is empty. The message is from a sender that exists.
    pub fn receive<R: Wait>(&mut self, rt: &R) -> Result<M, Closed>
        ensures received { IfOk result (λ message.
            received_by self.new ≡ received_by self.old ++ message ∷ []) }
        ensures known { IfOk result (λ message. M.from message < senders_of self.old) }
        ensures err { OnErr result (received_by self.new ≡ received_by self.old) }
        ensures same { IsSameReader self.old self.new }
    {
        match self.from.recv_as::<Receive, R>(rt, &mut self.pass) {
            Ok(message) => Ok(message),
            Err(_) => Err(Closed),
        }
    }

    /// Compares what was received from this sender with what it sent: it is a beginning of that, and all of it once the
    /// sender's last message was received. The call changes nothing.
    pub fn compare(&mut self, sender: SendingEnd<M>) -> SendingEnd<M>
        requires { channel_of sender ≡ source_of self.old }
        ensures in_order { IsOnceInOrder M.from M.closes (number_of sender)
            (sent_by sender) (received_by self.old) }
        ensures sender { IsSameSender sender result }
        ensures sent { sent_by result ≡ sent_by sender }
        ensures received { received_by self.new ≡ received_by self.old }
        ensures same { IsSameReader self.old self.new }
    {
        let (to, pass) = sender.into_parts();
        to.absorb::<WithSender>(&mut self.pass, pass);
        to.learn_as::<OnceInOrder>(&mut self.pass);
        let pass = to.another::<WithSender>(&mut self.pass);
        SendingEnd { to, pass }
    }
}
