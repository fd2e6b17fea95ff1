//! The answers to events.

ghost use Rattle.std.specs.Prelude.{◌≡◌};
ghost use Rattle.control.specs.Events.{advanced, reply_of, rolled};
ghost use Rattle.control.specs.declared.answer.Answer.TheVariants.{Ended};

use control::{Answer, Control, JobStatus};
use superstep::JobFault;

/// Answers an event that closed a superstep.
pub fn advanced_reply(control: &Control) -> Result<Answer, JobFault>
    ensures { result ≡ reply_of (advanced control.now) }
{
    match control.ending() {
        JobStatus::Running => Ok(Answer::Advanced(control.superstep())),
        JobStatus::Finished | JobStatus::Limit => Ok(Answer::Ended),
        JobStatus::Fault(fault) => Err(fault),
    }
}

/// Answers an event that lost workers.
pub fn rolled_reply(control: &Control) -> Result<Answer, JobFault>
    ensures { result ≡ reply_of (rolled control.now) }
{
    match control.ending() {
        JobStatus::Running => Ok(Answer::RolledBack(control.superstep())),
        JobStatus::Finished | JobStatus::Limit => Ok(Answer::Ended),
        JobStatus::Fault(fault) => Err(fault),
    }
}

/// Answers an event after the end.
pub fn ended_reply(control: &Control) -> Result<Answer, JobFault>
    ensures { result ≡ reply_of (control.now, Ended) }
{
    match control.ending() {
        JobStatus::Fault(fault) => Err(fault),
        _ => Ok(Answer::Ended),
    }
}
