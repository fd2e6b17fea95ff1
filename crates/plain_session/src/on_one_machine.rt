//! Serving a session whose jobs run on this machine.

ghost use Rattle.std.specs.Prelude.{◌≡◌};
ghost use Rattle.sources.specs.Disk.{Stays};
ghost use Rattle.session.specs.Maps.{nothing};
ghost use Rattle.session.specs.Runs.{EndsAs};
ghost use Rattle.session.specs.Serving.{Serves};
ghost use Rattle.plain_session.specs.Runs.{IsPlainEnd, plain};

use book::Report;
use plain_run::one_machine;
use session::{Runner, ServeFault, serve};
use sources::Files;
use std::alloc::Global;
use std::io::{Read, Write};
use std::thread::Threads;
use superstep::{Job, JobFault, Place};

/// The runner of jobs on this machine, by a function that runs a job so. No worker is lost, and no state is saved.
#[derive(Drop)]
pub struct PlainRunner<F> {
    run_job: F,
}

impl<F> PlainRunner<F> {
    /// Makes a runner of a function that runs a job on this machine.
    pub fn new(run_job: F) -> PlainRunner<F>
        ensures { result.run_job ≡ run_job }
    {
        PlainRunner { run_job }
    }
}

impl<F: Fn(&Job) -> Result<Report, JobFault>> Runner for PlainRunner<F> {
    ghost runs = { λ _. plain };

    ghost can_run = { λ runner. EndsAs plain F.Fn runner.run_job };

    fn run(&self, job: &Job) -> Result<Report, JobFault> {
        (self.run_job)(job)
    }
}

/// Serves a session as `serve` does. Each job runs on this machine, superstep after superstep. It waits for nobody.
///
/// A run fails only if memory runs out, always with the place `Call`.
pub fn serve_on_one_machine<R: Read, W: Write, F: Files>(
    rt: &(impl Threads + Sync),
    alloc: Global,
    reader: &mut R,
    writer: &mut W,
    files: &mut F,
) -> Result<(), ServeFault>
    ensures served { Serves (F.disk files.old) plain nothing (R.remaining reader.old)
        (R.remaining reader.new) (W.contents writer.old) (W.contents writer.new) result }
    ensures files { Stays (F.disk files.old) (F.disk files.new) }
{
    let run = |job: &Job| -> Result<Report, JobFault>
        ensures { IsPlainEnd job.now result }
    { run_plainly(rt, alloc, job) };
    serve(rt, alloc, reader, writer, files, &PlainRunner::new(run))
}

fn run_plainly<R: Threads + Sync>(rt: &R, alloc: Global, job: &Job) -> Result<Report, JobFault>
    ensures { IsPlainEnd job.now result }
{
    match one_machine(rt, alloc, job) {
        Ok(ended) => Ok(Report {
            ended,
            epoch: 0,
            missed: 0,
            restarts: 0,
            spent: Vec::new(alloc),
        }),
        Err(_) => Err(JobFault::OutOfMemory(Place::Call)),
    }
}
