//! The texts of replies.

ghost use Rattle.std.specs.Prelude.{◌≡◌, ◌≤◌, IfOk, length, string_bytes};
ghost use Rattle.graph.specs.Entry.{edge_count, entries_of};
ghost use Rattle.call_lines.specs.OutputLines.{IfText};
ghost use Rattle.session.specs.Replies.{failed_line, graph_line, job_line, module_line, run_line, values_text};
ghost use Rattle.session.specs.inside.SeenLines.{IsModuleLine, run_end_line};

use book::Report;
use call_lines::{end_word, push_values};
use graph::{Graph, MAX_EDGES, Vertex};
use line_text::TextBuilder;
use std::alloc::{AllocError, Global};
use superstep::{JobEnd, JobFault};
use verified::Verified;

/// Writes `ok module NAME S`, with the size of the module.
pub fn module_text(alloc: Global, name: &str, verified: &Verified) -> Result<String, AllocError>
    ensures { IfText result (IsModuleLine name.now verified.now) }
{
    sized_text(alloc, name, verified.size())
}

fn sized_text(alloc: Global, name: &str, size: u32) -> Result<String, AllocError>
    ensures { IfOk result (λ text. string_bytes text ≡ module_line name.now size) }
{
    let mut text = TextBuilder::new(alloc);
    text.put("ok module ");
    text.put(name);
    text.put(" ");
    text.show(&size);
    text.put("\n");
    text.finish()
}

/// Writes `ok graph NAME VERTICES EDGES`.
pub fn graph_text(alloc: Global, name: &str, graph: &Graph) -> Result<String, AllocError>
    ensures { IfOk result (λ text. string_bytes text
        ≡ graph_line name.now (length graph.now) (edge_count graph.now)) }
{
    let vertices = graph.vertices();
    counted_text(alloc, name, vertices.len(), count_edges(vertices))
}

// Counts the edges of all vertices.
fn count_edges(vertices: &[Vertex]) -> usize
    requires { edge_count (entries_of vertices.now) ≤ MAX_EDGES }
    ensures { result ≡ edge_count (entries_of vertices.now) }
{
    let mut count = 0;
    for vertex in vertices {
        count += vertex.edges.len();
    }
    count
}

fn counted_text(
    alloc: Global,
    name: &str,
    vertices: usize,
    edges: usize,
) -> Result<String, AllocError>
    ensures { IfOk result (λ text. string_bytes text ≡ graph_line name.now vertices edges) }
{
    let mut text = TextBuilder::new(alloc);
    text.put("ok graph ");
    text.put(name);
    text.put(" ");
    text.show(&vertices);
    text.put(" ");
    text.show(&edges);
    text.put("\n");
    text.finish()
}

/// Writes `ok job NAME`.
pub fn job_text(alloc: Global, name: &str) -> Result<String, AllocError>
    ensures { IfOk result (λ text. string_bytes text ≡ job_line name.now) }
{
    let mut text = TextBuilder::new(alloc);
    text.put("ok job ");
    text.put(name);
    text.put("\n");
    text.finish()
}

/// Writes how a run ended: `ok run NAME finished S`, `ok run NAME limit S`, or `no 13 WORD` with the word of its fault.
pub fn end_text(
    alloc: Global,
    name: &str,
    end: &Result<Report, JobFault>,
) -> Result<String, AllocError>
    ensures { IfOk result (λ text. string_bytes text ≡ run_end_line name.now end.now) }
{
    match end {
        Ok(report) => run_text(alloc, name, &report.ended),
        Err(fault) => failed_text(alloc, *fault),
    }
}

fn run_text(alloc: Global, name: &str, ended: &JobEnd) -> Result<String, AllocError>
    ensures { IfOk result (λ text. string_bytes text ≡ run_line name.now ended.now) }
{
    let mut text = TextBuilder::new(alloc);
    text.put("ok run ");
    text.put(name);
    text.put(" ");
    text.put(end_word(ended.how));
    text.put(" ");
    text.show(&ended.superstep);
    text.put("\n");
    text.finish()
}

fn failed_text(alloc: Global, fault: JobFault) -> Result<String, AllocError>
    ensures { IfOk result (λ text. string_bytes text ≡ failed_line fault) }
{
    let mut text = TextBuilder::new(alloc);
    text.put("no 13 ");
    text.show(&fault);
    text.put("\n");
    text.finish()
}

/// Writes the values that a job ended with, one a line, and a line with a point.
pub fn values_text(alloc: Global, ended: &JobEnd) -> Result<String, AllocError>
    ensures { IfOk result (λ text. string_bytes text ≡ values_text ended.now) }
{
    let mut text = TextBuilder::new(alloc);
    push_values(&mut text, &ended.values);
    text.put(".\n");
    text.finish()
}
