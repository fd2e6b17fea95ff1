//! The errors of a job.

ghost use Rattle.std.specs.Prelude.{◌≡◌, Some};
ghost use Rattle.job_state.specs.Faults.{fault_word};

use crate::settings::Setting;
use std::error::Error;
use std::fmt;

/// The work during which memory ran out.
#[derive(Clone, Copy, Debug)]
pub enum Place {
    /// The graph was split into parts, or a job, a book or a hub was opened.
    Open,
    /// A compute call was run, or the room for a module's calls was made.
    Call,
    /// A state was taken apart into slices, or the state of superstep 0 was made again.
    Slice,
    /// A barrier made inboxes of letters, or added to the totals.
    Merge,
    /// A state was written and saved.
    Save,
    /// A state was loaded and read.
    Load,
    /// Channels were made.
    Channel,
    /// The report of a job's end was made.
    Report,
}

/// An error of a job, which then has no answer. It is printed as its word.
#[derive(Clone, Copy, Debug)]
pub enum JobFault {
    /// Memory ran out during this work.
    OutOfMemory(Place),
    /// All workers are lost.
    NoWorkers,
    /// A setting is out of its range. This is the first one, in the order of `Settings`.
    Settings(Setting),
    /// A thread could not be started.
    ThreadRefused,
    /// The other end of a channel is gone.
    Closed,
}

impl JobFault {
    /// Returns the fault's word, as it is printed.
    pub fn word(self) -> &'static str
        ensures { result.now ≡ fault_word self }
    {
        match self {
            JobFault::OutOfMemory(_) => "OutOfMemory",
            JobFault::NoWorkers => "NoWorkers",
            JobFault::Settings(_) => "Settings",
            JobFault::ThreadRefused => "ThreadRefused",
            JobFault::Closed => "Closed",
        }
    }
}

impl fmt::Display for JobFault {
    ghost output = { λ fault. Some (fault_word fault) };

    fn fmt<W: fmt::Write>(&self, f: &mut fmt::Formatter<W>) -> fmt::Result {
        f.write_str(self.word())
    }
}

impl Error for JobFault {}
