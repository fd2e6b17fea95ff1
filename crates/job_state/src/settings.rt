//! The settings of a job.

ghost use Rattle.std.specs.Prelude.{◌≡◌};
ghost use Rattle.job_state.specs.Settings.{first_bad, is_up_to};

/// The settings of a job: its parts and workers, how often it saves its state, and where it ends.
#[derive(Clone, Copy)]
pub struct Settings {
    /// The number of the graph's parts, from 1 to 256.
    pub parts: u32,
    /// The number of workers, from 1 to 64.
    pub workers: u32,
    /// The state is saved before each superstep whose number is a multiple of this, from 1 to 1,000.
    pub every: u32,
    /// The superstep at which the job ends if it has not finished before, from 1 to 1,000,000.
    pub limit: u32,
    /// The number of ticks that a worker may take for a task, from 1 to 1,000,000.
    pub lease: u32,
}

/// One of the settings.
#[derive(Clone, Copy, Debug)]
pub enum Setting {
    Parts,
    Workers,
    Every,
    Limit,
    Lease,
}

impl Settings {
    /// Finds the first setting that is out of its range, in the order of the fields.
    pub fn first_bad(&self) -> Option<Setting>
        ensures { result ≡ first_bad self.now }
    {
        if !is_up_to(256, self.parts) {
            Some(Setting::Parts)
        } else if !is_up_to(64, self.workers) {
            Some(Setting::Workers)
        } else if !is_up_to(1_000, self.every) {
            Some(Setting::Every)
        } else if !is_up_to(1_000_000, self.limit) {
            Some(Setting::Limit)
        } else if !is_up_to(1_000_000, self.lease) {
            Some(Setting::Lease)
        } else {
            None
        }
    }
}

fn is_up_to(most: u32, n: u32) -> bool
    ensures { result ≡ is_up_to most n }
{
    1 <= n && n <= most
}
