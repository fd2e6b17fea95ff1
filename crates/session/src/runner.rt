//! The ways of running the jobs of a session.

ghost use Rattle.std.specs.Prelude.{IfOk};
ghost use Rattle.superstep.specs.Ending.{IsEndOf};
ghost use Rattle.session.specs.Runs.{Runs};

use book::Report;
use superstep::{Job, JobFault};

/// A way of running the jobs of a session.
pub trait Runner {
    /// The ways in which its runs may end.
    ghost runs: { Self → Runs };

    /// Whether it may run jobs.
    ghost can_run: { Self → Type 0 };

    /// Runs a job. Its report has the end of the plain run on one machine.
    fn run(&self, job: &Job) -> Result<Report, JobFault>
        requires { can_run self.now }
        ensures end { (runs self.now).may_end job.now result }
        ensures answer { IfOk result (λ report. IsEndOf job.now report.ended) };
}
