//! Serving a session whose jobs run in threads.

ghost use Rattle.std.specs.Prelude.{◌≡◌};
ghost use Rattle.sources.specs.Disk.{Stays};
ghost use Rattle.session.specs.Maps.{nothing};
ghost use Rattle.session.specs.Runs.{EndsAs};
ghost use Rattle.session.specs.Serving.{Serves};
ghost use Rattle.threaded_session.specs.Runs.{IsThreadedEnd, threaded};

use book::Report;
use checkpoint::{Device, MemoryKeep, a_memory_keep_loads_nothing_else};
use session::{Runner, ServeFault, serve};
use sources::Files;
use std::alloc::Global;
use std::io::{Read, Write};
use std::sync::Wait;
use std::thread::Threads;
use superstep::{Job, JobFault};
use workers::{Gate, run_in_threads};

/// The runner of jobs in threads, by a function that runs a job so.
#[derive(Drop)]
pub struct JobRunner<F> {
    run_job: F,
}

impl<F> JobRunner<F> {
    /// Makes a runner of a function that runs a job in threads.
    pub fn new(run_job: F) -> JobRunner<F>
        ensures { result.run_job ≡ run_job }
    {
        JobRunner { run_job }
    }
}

// It waits where the function does.
impl<F: Fn(&Job) -> Result<Report, JobFault>> Runner for JobRunner<F> {
    ghost runs = { λ _. threaded };

    ghost can_run = { λ runner. EndsAs threaded F.Fn runner.run_job };

    fn run(&self, job: &Job) -> Result<Report, JobFault> {
        (self.run_job)(job)
    }
}

/// Serves a session as `serve` does. Each job runs in threads. States are kept in memory, where no save fails, and workers are lost as the
/// gate says. A run fails as `run_in_threads` does.
pub fn serve_in_threads<R: Read, W: Write, F: Files, G: Gate + Sync>(
    rt: &(impl Wait + Threads + Sync + Device + AllocGlobal),
    alloc: Global,
    reader: &mut R,
    writer: &mut W,
    files: &mut F,
    gate: &G,
) -> Result<(), ServeFault>
    ensures served { Serves (F.disk files.old) threaded nothing (R.remaining reader.old)
        (R.remaining reader.new) (W.contents writer.old) (W.contents writer.new) result }
    ensures files { Stays (F.disk files.old) (F.disk files.new) }
{
    let run = |job: &Job| -> Result<Report, JobFault>
        ensures { IsThreadedEnd job.now result }
    { run_with_threads(rt, alloc, job, gate) };
    serve(rt, alloc, reader, writer, files, &JobRunner::new(run))
}

fn run_with_threads<G: Gate + Sync, R: Wait + Threads + Sync + Device + AllocGlobal>(
    rt: &R,
    alloc: Global,
    job: &Job,
    gate: &G,
) -> Result<Report, JobFault>
    ensures { IsThreadedEnd job.now result }
{
    a_memory_keep_loads_nothing_else();
    run_in_threads(rt, alloc, job, MemoryKeep::new(alloc), gate)
}
