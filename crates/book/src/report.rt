//! The status and the report of a book.

ghost use Rattle.std.specs.Prelude.{IfOk};
ghost use Rattle.book.specs.inside.Reporting.{IsReportIn};

use control::{Control, JobStatus};
use std::alloc::{AllocError, Global};
use superstep::{JobEnd, State, tell_end};

/// The status of a book.
#[derive(Clone, Copy)]
pub struct Status {
    pub superstep: u32,
    /// It grows with each loss, and when waiting workers join.
    pub epoch: u64,
    /// The number of states that the device failed to save.
    pub missed: u64,
    /// How often the job began again with superstep 0, as the last saved state could not be loaded.
    pub restarts: u64,
    pub end: JobStatus,
}

/// The end of a job, and the counts of its losses and its workers' units.
pub struct Report {
    pub ended: JobEnd,
    /// It grew with each loss, and when waiting workers joined.
    pub epoch: u64,
    /// The number of states that the device failed to save.
    pub missed: u64,
    /// How often the job began again with superstep 0, as the last saved state could not be loaded.
    pub restarts: u64,
    /// The units of each worker, each up to 2^128 - 1.
    pub spent: Vec<u128>,
}

impl Drop for Report {
    fn drop(self) {
        let Report {
            ended: _,
            epoch: _,
            missed: _,
            restarts: _,
            spent: _,
        } = self;
    }
}

/// Makes the report of a job that ended with this state.
pub fn report_of(alloc: Global, state: &State, control: Control) -> Result<Report, AllocError>
    ensures { IfOk result (IsReportIn state.now control) }
{
    let ended = tell_end(alloc, state)?;
    Ok(Report {
        ended,
        epoch: control.epoch(),
        missed: control.missed(),
        restarts: control.restarts(),
        spent: control.into_spent(),
    })
}
