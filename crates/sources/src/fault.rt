//! The faults of commands.

ghost use Rattle.std.specs.Prelude.{◌≡◌};
ghost use Rattle.sources.specs.Refusal.{status_of};
ghost use Rattle.sources.specs.declared.fault.CommandFault.TheVariants as command;

use bounded_profile::ProfileFault;
use call_lines::InputFault;
use checkpoint::CheckpointFault;
use graph::GraphFault;
use std::alloc::AllocError;
use superstep::{JobFault, Setting};
use validate::ValidFault;
use wasm_decode::{DecodeFault, EncodeFault};
use wat_asm::TextFault;

/// The reason why a command is refused or fails. Every step can run out of memory, and reports that as its own fault. Its
/// `Display` is the line that is printed, without the line feed.
#[derive(Drop)]
pub enum CommandFault<'a> {
    /// The bytes spell no module.
    Decode(DecodeFault),
    /// The text is no module.
    Text(TextFault),
    /// The module is not valid.
    Invalid(ValidFault),
    /// The module is not in the bounded profile.
    Unbounded(ProfileFault),
    /// The text is no input of a call.
    Input(InputFault),
    /// Memory ran out during the call.
    Run,
    /// The text of the worker to lose is not `W:S`.
    Loss,
    /// The text is no graph.
    Graph(GraphFault),
    /// This is the first setting that is out of its range.
    Settings(Setting),
    /// The module's size is greater than it may be.
    MaxSize,
    /// The states that are kept in a folder are none with which the job may go on.
    Resume,
    /// The job ended by this fault.
    Job(JobFault),
    /// The bytes are no checkpoint.
    Checkpoint(CheckpointFault),
    /// The shortest encoding of the module takes more than 1,048,576 bytes.
    Encode(EncodeFault),
    /// The file at this path cannot be read, or is not in UTF-8 where it has to be.
    Unread(&'a str),
    /// The file at this path cannot be written.
    Unwritable(&'a str),
    /// Memory ran out for the content of a file or for the answer.
    OutOfMemory,
}

/// Returns the exit status of the process: 4 for a fault of a file, 3 for a job that ended with a fault, and 1 for any
/// other fault.
pub fn status_of(fault: &CommandFault) -> u8
    ensures { result ≡ status_of fault.now }
{
    match fault {
        CommandFault::Unread(_) | CommandFault::Unwritable(_) => 4,
        CommandFault::Job(_) => 3,
        _ => 1,
    }
}

impl From<DecodeFault> for CommandFault<'_> {
    ghost from_gives = { λ cause fault. fault ≡ command.Decode cause };

    fn from(cause: DecodeFault) -> Self {
        CommandFault::Decode(cause)
    }
}

impl From<TextFault> for CommandFault<'_> {
    ghost from_gives = { λ cause fault. fault ≡ command.Text cause };

    fn from(cause: TextFault) -> Self {
        CommandFault::Text(cause)
    }
}

impl From<ValidFault> for CommandFault<'_> {
    ghost from_gives = { λ cause fault. fault ≡ command.Invalid cause };

    fn from(cause: ValidFault) -> Self {
        CommandFault::Invalid(cause)
    }
}

impl From<ProfileFault> for CommandFault<'_> {
    ghost from_gives = { λ cause fault. fault ≡ command.Unbounded cause };

    fn from(cause: ProfileFault) -> Self {
        CommandFault::Unbounded(cause)
    }
}

impl From<InputFault> for CommandFault<'_> {
    ghost from_gives = { λ cause fault. fault ≡ command.Input cause };

    fn from(cause: InputFault) -> Self {
        CommandFault::Input(cause)
    }
}

impl From<GraphFault> for CommandFault<'_> {
    ghost from_gives = { λ cause fault. fault ≡ command.Graph cause };

    fn from(cause: GraphFault) -> Self {
        CommandFault::Graph(cause)
    }
}

impl From<CheckpointFault> for CommandFault<'_> {
    ghost from_gives = { λ cause fault. fault ≡ command.Checkpoint cause };

    fn from(cause: CheckpointFault) -> Self {
        CommandFault::Checkpoint(cause)
    }
}

impl From<EncodeFault> for CommandFault<'_> {
    ghost from_gives = { λ cause fault. fault ≡ command.Encode cause };

    fn from(cause: EncodeFault) -> Self {
        CommandFault::Encode(cause)
    }
}

impl From<AllocError> for CommandFault<'_> {
    ghost from_gives = { λ _ fault. fault ≡ command.OutOfMemory };

    fn from(_: AllocError) -> Self {
        CommandFault::OutOfMemory
    }
}
