//! The job of a module and a graph in two files.

ghost use Rattle.std.specs.Prelude.{◌≡◌, MatchResult};
ghost use Rattle.sources.specs.Disk.{Stays};
ghost use Rattle.plain_commands.specs.Opening.{IsJobAt, IsUnopened};
ghost use Rattle.sources.specs.Jobs.{IsJobOf, RefusesSettings};
ghost use Rattle.plain_commands.specs.inside.Answering.{opening_fault};

use crate::sizes::load_within;
use graph::Graph;
use requests::JobRequest;
use sources::{CommandFault, Files, read_graph};
use std::alloc::Global;
use std::thread::Threads;
use superstep::{Job, JobFault, Settings};
use verified::Verified;

/// The job of the module in one file over the graph in another.
pub fn job_of<'a, F: Files>(
    rt: &(impl Threads + Sync),
    alloc: Global,
    asked: JobRequest<'a>,
    files: &mut F,
) -> Result<Job, CommandFault<'a>>
    ensures found { MatchResult result (IsJobAt (F.disk files.old) asked.entry)
        (IsUnopened (F.disk files.old) asked.entry) }
    ensures kept { Stays (F.disk files.old) (F.disk files.new) }
{
    let verified = load_within(alloc, asked.module, files)?;
    let graph = read_graph(rt, alloc, asked.graph, files)?;
    open(alloc, verified, graph, asked.settings)
}

// The job of a module over a graph. `Settings` names the first setting that is out of its range.
fn open<'a>(
    alloc: Global,
    verified: Verified,
    graph: Graph,
    settings: Settings,
) -> Result<Job, CommandFault<'a>>
    ensures opened { MatchResult result (IsJobOf verified graph settings)
        (RefusesSettings settings) }
{
    match Job::new(alloc, verified, graph, settings) {
        Ok(job) => Ok(job),
        Err(fault) => Err(opening_fault(fault)),
    }
}

// A job that was not opened has a setting out of its range, or no memory.
fn opening_fault<'a>(fault: JobFault) -> CommandFault<'a>
    ensures { result ≡ opening_fault fault }
{
    match fault {
        JobFault::Settings(setting) => CommandFault::Settings(setting),
        _ => CommandFault::OutOfMemory,
    }
}
