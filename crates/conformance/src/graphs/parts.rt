//! The parts of graphs. `FILE in 3 parts` prints the number of vertices of each part of a file's graph, and the graph that
//! the parts join to. `FILE copied` prints a copy. `7 among 3 parts` prints the part of an id.

ghost use Rattle.std.specs.Prelude.{◌<◌, IfSome};

use super::tell_vertices;
use anyhow::Result;
use conformance_cases::{CaseFiles, Line, halves};
use graph::{Graph, Part, join, part_of, split};
use std::alloc::{AllocError, Global};

/// Writes the part of an id, or the parts or the copy of a file's graph.
pub fn answer(rt: &(impl CaseFiles + AllocGlobal), case: &str, line: &mut Line) {
    if let Some((id, parts)) = case.split_once(" among ") {
        return tell_part(id, parts, line);
    }
    let (path, parts) = halves(case, " ");
    match read(rt, path) {
        Ok(graph) => tell(rt.alloc(), graph, parts, line),
        Err(error) => line.show(&error),
    }
}

fn tell_part(id: &str, parts: &str, line: &mut Line) {
    let Some(count) = count_in(parts) else {
        return line.put("no parts");
    };
    match id.parse::<u64>() {
        Ok(id) => line.show(&part_of(id, count)),
        Err(_) => line.put("no id"),
    }
}

fn read(rt: &(impl CaseFiles + AllocGlobal), path: &str) -> Result<Graph> {
    let text = rt.text_of(path)?;
    Ok(Graph::read(rt.alloc(), &text)?)
}

// Reads the number before the word `parts`, if there is one.
fn count_in(text: &str) -> Option<u32>
    ensures { IfSome result (λ count. 0 < count) }
{
    let Some(number) = text.strip_suffix(" parts") else {
        return None;
    };
    match number.parse::<u32>() {
        Ok(count) if count > 0 => Some(count),
        _ => None,
    }
}

fn tell(alloc: Global, graph: Graph, parts: &str, line: &mut Line) {
    match count_in(parts.strip_prefix("in ").unwrap_or(parts)) {
        Some(count) => tell_parts(alloc, graph, count, line),
        None if parts == "copied" => tell_joined(graph.copy(alloc), line),
        None => line.put("no parts"),
    }
}

fn tell_joined(graph: Result<Graph, AllocError>, line: &mut Line) {
    match graph {
        Ok(graph) => tell_vertices(graph.vertices(), line),
        Err(_) => line.cut(),
    }
}

fn tell_parts(alloc: Global, graph: Graph, count: u32, line: &mut Line)
    requires { 0 < count }
{
    match split(alloc, graph, count) {
        Ok(parts) => {
            tell_counts(&parts, line);
            tell_joined(join(alloc, parts), line);
        }
        Err(_) => line.cut(),
    }
}

// Writes the number of vertices of each part.
fn tell_counts(parts: &[Part], line: &mut Line) {
    for part in parts {
        line.show(&part.vertices.len());
        line.put(" ");
    }
    line.put("vertices, together ");
}
