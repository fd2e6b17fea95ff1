//! The data of a job, as its book holds it.

ghost use Rattle.std.specs.Prelude.{◌≡◌, ◌≤◌, ℕ};
ghost use Rattle.book.specs.inside.Book.{HasWhole};
ghost use Rattle.book.specs.inside.Parts.{Placement, moved, returned};
ghost use Rattle.book.specs.inside.Parts.Spot.{Gone};
ghost use Rattle.book.specs.inside.JobData.{HasHome, Runs, FitsPart};

use crate::parts::Parts;
use superstep::{Done, Origin, State, Task};

/// The data of a job, as its book holds it.
pub enum JobData<J: Origin> {
    /// The parts, while the job runs.
    Parts(Parts<J>),
    /// The state that the job ended with.
    Whole(State),
    /// Nothing, if the job has no answer.
    Nothing,
}

impl<J: Origin> Drop for JobData<J> {
    fn drop(self) {
        match self {
            JobData::Parts(_) | JobData::Whole(_) | JobData::Nothing => {}
        }
    }
}

impl<J: Origin> JobData<J> {
    /// Returns the parts of a running job.
    pub fn into_parts(self) -> Parts<J>
        requires { Runs self (λ _. Unit {0}) }
        ensures { self ≡ JobData.Parts result }
    {
        match self {
            JobData::Parts(parts) => parts,
            JobData::Whole(_) | JobData::Nothing => unreachable!(),
        }
    }

    /// Returns the state that a job ended with.
    pub fn into_state(self) -> State
        requires { HasWhole self }
        ensures { self ≡ JobData.Whole result }
    {
        match self {
            JobData::Whole(state) => state,
            JobData::Parts(_) | JobData::Nothing => unreachable!(),
        }
    }
}

/// Takes the slice of a part that is here, as a task. It allocates nothing.
pub fn hand_out<J: Origin>(job_data: &mut JobData<J>, part: u32, epoch: u64) -> Task<J>
    requires home { HasHome job_data.old part }
    requires later { Runs job_data.old (λ placement. placement.epoch ≤ epoch) }
    ensures epoch { result.epoch ≡ epoch }
    ensures part { result.part ≡ part }
    ensures superstep { Runs job_data.old (λ placement. result.superstep ≡ placement.superstep) }
    ensures after { Runs job_data.old (λ placement.
        job_data.new ≡ JobData.Parts (moved placement part Gone)) }
{
    match job_data {
        JobData::Parts(parts) => parts.hand_out(part, epoch),
        _ => unreachable!(),
    }
}

/// Puts a result in the slot of its part. It allocates nothing.
pub fn bring_back<J: Origin>(job_data: &mut JobData<J>, done: Done<J>)
    requires { FitsPart job_data.old done }
    ensures { Runs job_data.old (λ placement.
        job_data.new ≡ JobData.Parts (returned placement done.part done.epoch)) }
{
    match job_data {
        JobData::Parts(parts) => parts.bring_back(done),
        _ => unreachable!(),
    }
}
