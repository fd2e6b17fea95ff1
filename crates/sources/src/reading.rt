//! The modules and graphs in files.

ghost use Rattle.std.specs.Prelude.{MatchResult};
ghost use Rattle.sources.specs.Disk.{Stays};
ghost use Rattle.sources.specs.Modules.{IsModuleAt};
ghost use Rattle.sources.specs.Reading.{IsLoadedAt, IsNoGraphAt, IsReadAt, IsRefusedAt};
ghost use Rattle.sources.specs.Source.{RefusesLoad, RefusesModule};

use crate::fault::CommandFault;
use crate::file_contents::{read_source, read_text};
use crate::files::Files;
use crate::modules::{load, module_of};
use graph::Graph;
use std::alloc::Global;
use std::thread::Threads;
use verified::Verified;
use wasm_ast::Module;

/// Reads the module in a file.
pub fn read_module<'a, F: Files>(
    alloc: Global,
    path: &'a str,
    files: &mut F,
) -> Result<Module, CommandFault<'a>>
    ensures found { MatchResult result (IsModuleAt (F.disk files.old) path.now)
        (IsRefusedAt (F.disk files.old) path.now RefusesModule) }
    ensures kept { Stays (F.disk files.old) (F.disk files.new) }
{
    let source = read_source(alloc, path, files)?;
    module_of(alloc, &source)
}

/// Loads the module in a file: reads and verifies it.
pub fn load_file<'a, F: Files>(
    alloc: Global,
    path: &'a str,
    files: &mut F,
) -> Result<Verified, CommandFault<'a>>
    ensures found { MatchResult result (IsLoadedAt (F.disk files.old) path.now)
        (IsRefusedAt (F.disk files.old) path.now RefusesLoad) }
    ensures kept { Stays (F.disk files.old) (F.disk files.new) }
{
    let source = read_source(alloc, path, files)?;
    load(alloc, &source)
}

/// Reads the graph in a file, a long one in threads.
pub fn read_graph<'a, F: Files>(
    rt: &(impl Threads + Sync),
    alloc: Global,
    path: &'a str,
    files: &mut F,
) -> Result<Graph, CommandFault<'a>>
    ensures found { MatchResult result (IsReadAt (F.disk files.old) path.now)
        (IsNoGraphAt (F.disk files.old) path.now) }
    ensures kept { Stays (F.disk files.old) (F.disk files.new) }
{
    let text = read_text(alloc, path, files)?;
    let graph = Graph::read_in_threads(rt, alloc, text.as_str())?;
    Ok(graph)
}
