//! A request's settings on a machine with this many processors.

ghost use Rattle.std.specs.Prelude.{◌≡◌};
ghost use Rattle.requests.specs.Machine.{chosen, request_on, run_on, settings_on};

use crate::request::{Cores, JobRequest, Request, RunRequest};
use job_state::Settings;

// The most workers that a job may have.
const MOST_WORKERS: u32 = 64;

// The number of parts for each worker, where a job uses all cores.
const PARTS_OF_WORKER: u32 = 4;

impl Cores {
    /// Returns a job's settings on a machine with this many processors.
    ///
    /// A job that uses all cores has a worker for each processor, at most 64, and four parts for each of these. A number of
    /// workers or parts that the words give stays, and so does any other setting.
    pub fn settings_on(self, processors: u32, settings: Settings) -> Settings
        ensures { result ≡ settings_on processors self settings }
    {
        if !self.all {
            return settings;
        }
        let workers = processors.min(MOST_WORKERS);
        Settings {
            parts: chosen(self.parts_given, settings.parts, workers * PARTS_OF_WORKER),
            workers: chosen(self.workers_given, settings.workers, workers),
            ..settings
        }
    }
}

// Returns the number if the words give it, else the other one.
fn chosen(given: bool, number: u32, otherwise: u32) -> u32
    ensures { result ≡ chosen given number otherwise }
{
    if given { number } else { otherwise }
}

impl<'a> RunRequest<'a> {
    /// Returns the run with its settings on a machine with this many processors.
    pub fn on_machine(self, processors: u32) -> RunRequest<'a>
        ensures { result ≡ run_on processors self.entry }
    {
        let settings = self.cores.settings_on(processors, self.job.settings);
        let job = JobRequest {
            settings,
            ..self.job
        };
        RunRequest { job, ..self }
    }
}

impl<'a> Request<'a> {
    /// Returns the request on a machine with this many processors. Only the settings of a run depend on it.
    pub fn on_machine(self, processors: u32) -> Request<'a>
        ensures { result ≡ request_on processors self.entry }
    {
        match self {
            Request::Run(asked) => Request::Run(asked.on_machine(processors)),
            _ => self,
        }
    }
}
