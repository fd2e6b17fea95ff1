//! The answers to the events of a job.

/// The answer to an event.
#[derive(Clone, Copy)]
pub enum Answer {
    /// The event counts, and the superstep is the same.
    Taken,
    /// It closed a superstep, and this one is next.
    Advanced(u32),
    /// Workers were lost, and the job is back at this superstep.
    RolledBack(u32),
    /// The event is of a task that does not count, or of a worker that cannot send it.
    Stale,
    /// The job has ended, or ends by this event.
    Ended,
}
