//! Import of one file.

ghost use Rattle.std.specs.Prelude.{◌≡◌, ◌≤◌, false, None, [], FitsSigned, IfOk, IfSome, OnOk, map, string_bytes};
ghost use Rattle.std.specs.Int.{w64};
ghost use Rattle.line_text.specs.Number.{id_of};
ghost use Rattle.conversions.specs.graph_import.Graph.{graph_text, valued, weighed};
ghost use Rattle.conversions.specs.graph_import.Import.{GivesSource, GivesValues, IsImport, IsNumbered, IsRead, SaysEdges, list_form};
ghost use Rattle.conversions.specs.declared.graph_import.writing.Values.{Values};

use crate::graph_import::list::{read_list, read_names};
use crate::graph_import::matrix::{head_of, is_matrix, read_matrix};
use crate::graph_import::names::Names;
use crate::graph_import::plan::{Format, Plan};
use crate::graph_import::reading::Reading;
use crate::graph_import::table::{Weight, read_table};
use crate::graph_import::vertices::{shares_of, vertices_of};
use crate::graph_import::writing::{Values, text_of};
use graph::edge_list::{Edges, Form};
use graph::{Edge, GraphFault, MAX_EDGES, MAX_VERTICES};
use line_text::{id_of, number_of};
use std::alloc::{AllocError, Global};
use std::collections::HashSet;

/// A graph file, made by an import.
#[derive(Drop)]
pub struct Imported {
    /// Its text.
    pub text: String,
    /// A line `ID NAME` for each name, by rising ids, where the ends are names.
    pub names: Option<String>,
    /// The number of its vertices.
    pub vertices: usize,
    /// The number of its edges.
    pub edges: usize,
}

/// Makes a graph file of a text.
///
/// Each error has a line, counted from 1. Line 0 is for the plan.
///
/// * `Line`: the line is not of its format; or a table lacks the heading; or a matrix is of no supported kind, or has more or
///   fewer entries than its size.
/// * `Number`: a field is no number in its range; with line 0, the plan's value is none.
/// * `UnknownEnd`: an entry of a matrix is outside of it; with line 0, the plan's source is no vertex.
/// * `OverLimit`: the line has one edge or vertex more than a graph may have.
pub fn import(alloc: Global, text: &str, format: Format, plan: Plan) -> Result<Imported, GraphFault>
    ensures { IfOk result (IsImport text.now format plan.entry) }
{
    let reading = read(alloc, text, format, plan, MAX_EDGES)?;
    let ids = vertices_of(alloc, reading.declared, &reading.edges.items)?;
    if ids.len() > MAX_VERTICES {
        return Err(line_past(alloc, text, format, plan, &reading.edges.items));
    }
    let text = text_for(alloc, &ids, &reading, plan)?;
    Ok(Imported {
        text,
        vertices: ids.len(),
        edges: reading.edges.items.len(),
        names: list_of(reading.names),
    })
}

fn list_of(names: Option<Names>) -> Option<String> {
    match names {
        Some(names) => Some(names.list),
        None => None,
    }
}

// Reads a text with at most `most` edges.
fn read(
    alloc: Global,
    text: &str,
    format: Format,
    plan: Plan,
    most: usize,
) -> Result<Reading, GraphFault>
    ensures read { IfOk result (λ reading.
        IsRead text.now format plan.entry reading.declared reading.edges.items.items) }
    ensures most { IfOk result (λ reading. reading.edges.most ≡ most) }
{
    let mut edges = Edges::new(alloc, plan.undirected, most);
    let mut names = no_names(alloc, plan.names);
    let declared = read_by(alloc, text, format, plan, &mut edges, &mut names)?;
    Ok(Reading {
        edges,
        names,
        declared,
    })
}

// Reads a text. Returns how many ids from 1 on are vertices, whether an edge has them or not.
fn read_by(
    alloc: Global,
    text: &str,
    format: Format,
    plan: Plan,
    edges: &mut Edges,
    names: &mut Option<Names>,
) -> Result<u64, GraphFault>
    requires edges { edges.old.items.items ≡ [] }
    requires both_ways { edges.old.both_ways ≡ plan.undirected }
    requires names { plan.names ≡ false → names.old ≡ None }
    ensures read { IfOk result (λ declared.
        IsRead text.now format plan.entry declared edges.new.items.items) }
    ensures small { IfOk result (λ declared. declared ≤ 1000000) }
    ensures most { OnOk result (edges.new.most ≡ edges.old.most) }
{
    match format {
        Format::Table(delimiter) => {
            read_table(alloc, text, delimiter, weight_of(plan), edges, names)?;
            Ok(0)
        }
        Format::Lines => read_lines(alloc, text, plan, edges, names),
    }
}

fn no_names(alloc: Global, wanted: bool) -> Option<Names>
    ensures { wanted ≡ false → result ≡ None }
{
    if wanted {
        Some(Names::new(alloc))
    } else {
        None
    }
}

// Reads an edge list or a matrix.
fn read_lines(
    alloc: Global,
    text: &str,
    plan: Plan,
    edges: &mut Edges,
    names: &mut Option<Names>,
) -> Result<u64, GraphFault>
    requires edges { edges.old.items.items ≡ [] }
    requires both_ways { edges.old.both_ways ≡ plan.undirected }
    requires names { plan.names ≡ false → names.old ≡ None }
    ensures read { IfOk result (λ declared. IsNumbered text.now plan.entry
        → SaysEdges text.now plan.entry declared edges.new.items.items) }
    ensures small { IfOk result (λ declared. declared ≤ 1000000) }
    ensures most { OnOk result (edges.new.most ≡ edges.old.most) }
{
    let Some(form) = form_of(plan) else {
        return Err(GraphFault::Line(1));
    };
    if is_matrix(text) {
        return read_entries(text, form.weight, edges);
    }
    match names {
        None => read_list(text, form, edges)?,
        Some(names) => read_names(alloc, text, form, edges, names)?,
    }
    Ok(0)
}

fn read_entries(text: &str, weight: Option<i64>, edges: &mut Edges) -> Result<u64, GraphFault>
    ensures small { IfOk result (λ declared. declared ≤ 1000000) }
    ensures most { OnOk result (edges.new.most ≡ edges.old.most) }
{
    let Some(head) = head_of(text) else {
        return Err(GraphFault::Line(1));
    };
    edges.both_ways = edges.both_ways || head.is_symmetric;
    read_matrix(text, head, weight, edges)
}

// Returns the form of an edge list's lines, unless the weight is the name of a column.
fn form_of(plan: Plan) -> Option<Form>
    ensures { IfSome result (λ form. form ≡ list_form plan.entry) }
{
    let weight = match plan.weight {
        None => None,
        Some(word) => Some(number_of(word.as_bytes())?),
    };
    Some(Form {
        takes_value: true,
        needs_value: false,
        weight,
    })
}

fn weight_of<'a>(plan: Plan<'a>) -> Weight<'a> {
    match plan.weight {
        None => Weight::Number(1),
        Some(word) => match number_of(word.as_bytes()) {
            Some(value) => Weight::Number(value),
            None => Weight::Column(word),
        },
    }
}

// Prints the graph of these vertices and the edges that were read.
fn text_for(alloc: Global, ids: &[u64], reading: &Reading, plan: Plan) -> Result<String, GraphFault>
    ensures { IfOk result (λ text. (values : Values) × FitsSigned w64 values.other
        × GivesValues ids.now plan.entry values
        × (string_bytes text ≡ graph_text (map (valued values) ids.now)
        (weighed plan.entry.share reading.now.edges.items.items))) }
{
    let values = values_of(ids, &reading.names, plan)?;
    let text = text_by(alloc, ids, values, &reading.edges.items, plan.share)?;
    Ok(text)
}

fn text_by(
    alloc: Global,
    ids: &[u64],
    values: Values,
    edges: &[Edge],
    shares: bool,
) -> Result<String, AllocError>
    ensures { IfOk result (λ text. string_bytes text
        ≡ graph_text (map (valued values) ids.now) (weighed shares edges.now)) }
{
    if !shares {
        return text_of(alloc, ids, values, edges);
    }
    let shared = shares_of(alloc, edges)?;
    text_of(alloc, ids, values, &shared)
}

// Finds the values of the vertices. The plan's source has to be one of them.
fn values_of(ids: &[u64], names: &Option<Names>, plan: Plan) -> Result<Values, GraphFault>
    ensures gives { IfOk result (GivesValues ids.now plan.entry) }
    ensures fits { IfOk result (λ values. FitsSigned w64 values.other) }
{
    let source = known_source(ids, names, plan)?;
    let other = match plan.value {
        Some(word) => number_of(word.as_bytes()),
        None => Some(if plan.source.is_some() { -1 } else { 0 }),
    };
    match other {
        Some(other) => Ok(Values { source, other }),
        None => Err(GraphFault::Number(0)),
    }
}

// Finds the plan's source, if it has one. The source has to be a vertex.
fn known_source(ids: &[u64], names: &Option<Names>, plan: Plan) -> Result<Option<u64>, GraphFault>
    ensures { IfOk result (GivesSource ids.now plan.entry.names plan.entry.source) }
{
    let Some(word) = plan.source else {
        return Ok(None);
    };
    match source_of(names, plan.names, word) {
        Some(source) if ids.contains(&source) => Ok(Some(source)),
        _ => Err(GraphFault::UnknownEnd(0)),
    }
}

// Returns the id of a source, if it has one.
fn source_of(names: &Option<Names>, has_names: bool, word: &str) -> Option<u64>
    ensures { has_names ≡ false → result ≡ id_of word.now }
{
    if !has_names {
        return id_of(word.as_bytes());
    }
    match names {
        Some(names) => names.find(word).map(u64::from),
        None => None,
    }
}

// Returns the fault of the line whose edge has one vertex more than a graph may have.
fn line_past(alloc: Global, text: &str, format: Format, plan: Plan, edges: &[Edge]) -> GraphFault {
    let Ok(count) = edges_before(alloc, edges) else {
        return GraphFault::OutOfMemory;
    };
    match read(alloc, text, format, plan, count) {
        Ok(_) => GraphFault::OverLimit(0),
        Err(fault) => fault,
    }
}

// Counts the edges before the first one that has a vertex too many.
fn edges_before(alloc: Global, edges: &[Edge]) -> Result<usize, AllocError> {
    let mut met = HashSet::new(alloc);
    for (index, edge) in edges.iter().enumerate() {
        met.insert(edge.from)?;
        met.insert(edge.target)?;
        if met.len() > MAX_VERTICES {
            return Ok(index);
        }
    }
    Ok(edges.len())
}
