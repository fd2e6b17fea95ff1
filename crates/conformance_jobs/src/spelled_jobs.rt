//! Jobs, as cases spell them.

use anyhow::{Result, bail};
use conformance_cases::{CaseFiles, Line, halves, spelled};
use graph::Graph;
use sources::{Source, load};
use std::num::ParseIntError;
use superstep::{Job, JobFault, Settings};
use verified::Verified;

/// Makes the job of `PARTS WORKERS EVERY LIMIT LEASE; MODULE; GRAPH`, or returns the setting that is out of its range.
/// MODULE is a file. GRAPH is a file, or the text of a graph.
pub fn job_in(rt: &(impl CaseFiles + AllocGlobal), case: &str) -> Result<Result<Job, JobFault>> {
    let (settings, rest) = halves(case, "; ");
    let (module, graph) = halves(rest, "; ");
    let settings = settings_of(settings)?;
    job_over(rt, module, graph_in(rt, graph)?, settings)
}

fn job_over(
    rt: &(impl CaseFiles + AllocGlobal),
    module: &str,
    graph: Graph,
    settings: Settings,
) -> Result<Result<Job, JobFault>> {
    match verified_in(rt, module) {
        Ok(verified) => Ok(Job::new(rt.alloc(), verified, graph, settings)),
        Err(error) => Err(error),
    }
}

fn settings_of(text: &str) -> Result<Settings, ParseIntError> {
    let mut words = text.split_ascii_whitespace();
    Ok(Settings {
        parts: number_of(words.next())?,
        workers: number_of(words.next())?,
        every: number_of(words.next())?,
        limit: number_of(words.next())?,
        lease: number_of(words.next())?,
    })
}

fn number_of(word: Option<&str>) -> Result<u32, ParseIntError> {
    word.unwrap_or("").parse::<u32>()
}

fn graph_in(rt: &(impl CaseFiles + AllocGlobal), graph: &str) -> Result<Graph> {
    let text = text_in(rt, graph)?;
    Ok(Graph::read(rt.alloc(), text.as_str())?)
}

// Reads the text of a file, or spells out the text itself.
fn text_in(rt: &(impl CaseFiles + AllocGlobal), graph: &str) -> Result<String> {
    if graph.ends_with(".txt") {
        rt.text_of(graph)
    } else {
        Ok(spelled(rt.alloc(), graph)?)
    }
}

fn verified_in(rt: &(impl CaseFiles + AllocGlobal), path: &str) -> Result<Verified> {
    let source = Source::Text(rt.text_of(path)?);
    match load(rt.alloc(), &source) {
        Ok(verified) => Ok(verified),
        Err(_) => bail!("no module of the profile is in {path}"),
    }
}

/// Writes a fault in words.
pub fn tell_fault(fault: JobFault, line: &mut Line) {
    match fault {
        JobFault::Settings(setting) => {
            line.put("settings ");
            line.debug(&setting);
        }
        JobFault::OutOfMemory(place) => {
            line.show(&fault);
            line.put(" ");
            line.debug(&place);
        }
        _ => line.show(&fault),
    }
}
