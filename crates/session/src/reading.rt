//! Modules and graphs from files.

ghost use Rattle.std.specs.Prelude.{MatchResult};
ghost use Rattle.sources.specs.Disk.{Stays};
ghost use Rattle.sources.specs.Source.{RefusesLoad};
ghost use Rattle.sources.specs.Reading.{IsLoadedAt, IsNoGraphAt, IsReadAt, IsRefusedAt};
ghost use Rattle.session.specs.inside.SeenLines.{reply_text};
ghost use Rattle.session.specs.inside.Seen.{IsToldOf};

use crate::refusals::refusal;
use crate::reply::Reply;
use graph::Graph;
use sources::{Files, load_file, read_graph};
use std::alloc::Global;
use std::thread::Threads;
use verified::Verified;

/// Loads the module in a file, or returns the reply that refuses it. If the path ends in `.wat`, the file is text; any
/// other file is binary.
pub fn module_at<F: Files>(alloc: Global, path: &str, files: &mut F) -> Result<Verified, Reply>
    ensures found { MatchResult result (IsLoadedAt (F.disk files.old) path.now)
        (λ reply. IsToldOf (IsRefusedAt (F.disk files.old) path.now RefusesLoad)
        (reply_text reply)) }
    ensures kept { Stays (F.disk files.old) (F.disk files.new) }
{
    match load_file(alloc, path, files) {
        Ok(verified) => Ok(verified),
        Err(fault) => Err(refusal(alloc, &fault)),
    }
}

/// Reads the graph in a file, or returns the reply that refuses it.
pub fn graph_at<F: Files>(
    rt: &(impl Threads + Sync),
    alloc: Global,
    path: &str,
    files: &mut F,
) -> Result<Graph, Reply>
    ensures found { MatchResult result (IsReadAt (F.disk files.old) path.now)
        (λ reply. IsToldOf (IsNoGraphAt (F.disk files.old) path.now) (reply_text reply)) }
    ensures kept { Stays (F.disk files.old) (F.disk files.new) }
{
    match read_graph(rt, alloc, path, files) {
        Ok(graph) => Ok(graph),
        Err(fault) => Err(refusal(alloc, &fault)),
    }
}
