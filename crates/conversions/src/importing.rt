//! The command that makes a graph file of a file of edges.

ghost use Rattle.std.specs.Prelude.{◌≡◌, IfErr, IfOk, MatchResult, OnErr, OnOk, string_bytes};
ghost use Rattle.sources.specs.Disk.{Stays};
ghost use Rattle.call_lines.specs.OutputLines.{IfText};
ghost use Rattle.conversions.specs.Importing.{IsImportedAt, IsNoImportAt, IsNotImported, IsUnwritten, PrintsImport, PrintsMade, TriesImport, import_line, files_of, names_written, plan_in};
ghost use Rattle.sources.specs.Writing.{TriesAll, WritesAll};
ghost use Rattle.conversions.specs.Causes.{StaysBeforeWriting};

use crate::graph_import::{Imported, Plan, format_of, import};
use line_text::TextBuilder;
use requests::ImportRequest;
use sources::{CommandFault, Files, read_text, write};
use std::alloc::{AllocError, Global};

/// Writes the edges in one file to another as a graph file, and the names of their ends, where they have names, to a third.
pub fn import_file<'a, F: Files>(
    alloc: Global,
    asked: ImportRequest<'a>,
    files: &mut F,
) -> Result<String, CommandFault<'a>>
    ensures answered { IfText result
        (PrintsImport (F.disk files.old) (F.disk files.new) asked.entry) }
    ensures refused { IfErr result (IsNotImported (F.disk files.old) asked.entry) }
    ensures before { IfErr result (StaysBeforeWriting (F.disk files.old) (F.disk files.new)) }
    ensures tried { OnErr result (TriesImport (F.disk files.old) (F.disk files.new) asked.entry) }
{
    let made = made_in(alloc, asked, files)?;
    write_made(alloc, &made, asked, files)
}

// Imports the edges in a file.
fn made_in<'a, F: Files>(
    alloc: Global,
    asked: ImportRequest<'a>,
    files: &mut F,
) -> Result<Imported, CommandFault<'a>>
    ensures found { MatchResult result (IsImportedAt (F.disk files.old) asked.entry)
        (IsNoImportAt (F.disk files.old) asked.entry) }
    ensures kept { Stays (F.disk files.old) (F.disk files.new) }
{
    let text = read_text(alloc, asked.edges, files)?;
    let format = format_of(asked.edges);
    let made = import(alloc, text.as_str(), format, plan_of(asked))?;
    Ok(made)
}

fn plan_of<'a>(asked: ImportRequest<'a>) -> Plan<'a>
    ensures { result ≡ plan_in asked.entry }
{
    Plan {
        undirected: asked.undirected,
        names: asked.names.is_some(),
        value: asked.value,
        source: asked.source,
        weight: asked.weight,
        share: asked.share,
    }
}

// Writes the result, and returns the answer with the numbers of vertices and edges.
fn write_made<'a, F: Files>(
    alloc: Global,
    made: &Imported,
    asked: ImportRequest<'a>,
    files: &mut F,
) -> Result<String, CommandFault<'a>>
    ensures answered { IfText result
        (PrintsMade (F.disk files.old) (F.disk files.new) asked.entry made.now) }
    ensures refused { IfErr result (IsUnwritten asked.entry) }
    ensures tried { OnErr result
        (TriesAll (files_of asked.entry made.now) (F.disk files.old) (F.disk files.new)) }
{
    let told = counts_text(alloc, made.vertices, made.edges)?;
    write_names(made, asked, files)?;
    write(asked.graph, made.text.as_bytes(), files)?;
    Ok(told)
}

// Writes the names of the vertices, if they have names.
fn write_names<'a, F: Files>(
    made: &Imported,
    asked: ImportRequest<'a>,
    files: &mut F,
) -> Result<(), CommandFault<'a>>
    ensures written { OnOk result (WritesAll (names_written asked.entry.names made.now.names)
        (F.disk files.old) (F.disk files.new)) }
    ensures refused { IfErr result (IsUnwritten asked.entry) }
    ensures tried { OnErr result (TriesAll (names_written asked.entry.names made.now.names)
        (F.disk files.old) (F.disk files.new)) }
{
    let Some(path) = asked.names else {
        return Ok(());
    };
    let Some(list) = &made.names else {
        return Ok(());
    };
    write(path, list.as_bytes(), files)
}

fn counts_text(alloc: Global, vertices: usize, edges: usize) -> Result<String, AllocError>
    ensures { IfOk result (λ text. string_bytes text ≡ import_line vertices edges) }
{
    let mut text = TextBuilder::new(alloc);
    text.put("ok ");
    text.show(&vertices);
    text.put(" ");
    text.show(&edges);
    text.put("\n");
    text.finish()
}
