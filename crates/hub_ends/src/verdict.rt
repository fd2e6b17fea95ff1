//! The channel on which a worker hears which of its losses were counted.

ghost use Rattle.std.specs.Prelude.{◌≡◌, ◌++◌, ◌∷◌, [], IfOk, OnOk};
ghost use Rattle.hub_ends.specs.ChannelEnds.{number_of};

use crate::channel_ends::{ReceivingEnd, SendingEnd};
use crate::closed::Closed;
use crate::protocol::Signed;
use std::alloc::{AllocError, Global};
use std::sync::Wait;
use superstep::JobFault;

/// What the coordinator says of a loss that a worker has reported.
#[derive(Drop)]
pub struct Verdict {
    /// Whether the loss was counted and the job goes on.
    pub counted: bool,
}

impl Signed for Verdict {
    ghost use Rattle.hub_ends.specs.Verdicts.{from_coordinator, never_closes};

    ghost from = { from_coordinator };

    ghost closes = { never_closes };
}

/// The worker's end: it hears the verdict of each of its losses, in order.
#[derive(Drop)]
pub struct VerdictReader {
    pub(crate) verdicts: ReceivingEnd<Verdict>,
}

/// The coordinator's end.
pub struct VerdictSender {
    pub(crate) verdicts: SendingEnd<Verdict>,
    pub ghost number: { number_of verdicts ≡ 0 },
}

impl Drop for VerdictSender {
    fn drop(self) {
        let VerdictSender { verdicts: _ } = self;
    }
}

impl VerdictReader {
    ghost use Rattle.hub_ends.specs.Verdicts.{heard_on, reads_on};

    /// Waits for the next verdict, and returns whether the loss was counted. `Closed`: the coordinator is gone.
    pub fn hear<R: Wait>(&mut self, rt: &R) -> Result<bool, JobFault>
        ensures heard { IfOk result (λ counted.
            heard_on self.new ≡ heard_on self.old ++ counted ∷ []) }
        ensures line { reads_on self.new ≡ reads_on self.old }
    {
        match self.verdicts.receive(rt) {
            Ok(verdict) => Ok(verdict.counted),
            Err(_) => Err(JobFault::Closed),
        }
    }
}

impl VerdictSender {
    ghost use mathlib.Core.List.{IsPrefix};
    ghost use Rattle.hub_ends.specs.Verdicts.{heard_on, reads_on, sends_on, told_on};

    /// Opens a channel with room for one verdict. A worker hears the verdict of each loss before it reports another.
    pub fn open(alloc: Global) -> Result<(VerdictReader, VerdictSender), AllocError>
        ensures heard { IfOk result (λ ends. heard_on ends.0 ≡ []) }
        ensures told { IfOk result (λ ends. told_on ends.1 ≡ []) }
        ensures line { IfOk result (λ ends. reads_on ends.0 ≡ sends_on ends.1) }
    {
        let (reads, sends) = ReceivingEnd::open(alloc, 1)?;
        Ok((
            VerdictReader { verdicts: reads },
            VerdictSender { verdicts: sends },
        ))
    }

    /// Tells the worker whether its loss was counted. It waits while the channel is full.
    pub fn tell<R: Wait>(&mut self, rt: &R, counted: bool) -> Result<(), Closed>
        ensures told { OnOk result (told_on self.new ≡ told_on self.old ++ counted ∷ []) }
        ensures line { sends_on self.new ≡ sends_on self.old }
    {
        self.verdicts.send(rt, Verdict { counted })
    }

    /// Compares what the worker heard with what it was told: it is a prefix of that. The call changes nothing.
    pub fn compare(&mut self, reader: VerdictReader)
        requires { sends_on self.old ≡ reads_on reader }
        ensures prefix { IsPrefix (heard_on reader) (told_on self.old) }
        ensures told { told_on self.new ≡ told_on self.old }
        ensures line { sends_on self.new ≡ sends_on self.old }
    {
        let VerdictReader { verdicts } = reader;
        let _verdicts = self.verdicts.compare(verdicts);
    }
}
