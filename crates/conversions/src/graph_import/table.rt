//! Tables with a heading.

ghost use Rattle.std.specs.Prelude.{◌≡◌, OnOk};

use crate::graph_import::names::Names;
use csv::{ByteRecord, Error, ErrorKind, Reader, ReaderBuilder, Trim};
use graph::GraphFault;
use graph::edge_list::{Edges, edge_between};
use line_text::number_of;
use std::alloc::Global;

/// The source of the edges' values.
#[derive(Clone, Copy)]
pub enum Weight<'a> {
    /// One value for all edges.
    Number(i64),
    /// The column with this heading.
    Column(&'a str),
}

// The source of the edges' values, with a column's place in each record.
#[derive(Clone, Copy)]
enum Value {
    Number(i64),
    Place(usize),
}

/// Reads the edges of a table. The first two columns are the ends.
pub fn read_table(
    alloc: Global,
    text: &str,
    delimiter: u8,
    weight: Weight,
    edges: &mut Edges,
    names: &mut Option<Names>,
) -> Result<(), GraphFault>
    ensures { OnOk result (edges.new.most ≡ edges.old.most) }
{
    let mut reader = ReaderBuilder::new()
        .delimiter(delimiter)
        .has_headers(false)
        .trim(Trim::All)
        .from_reader(alloc, text.as_bytes());
    let mut record = ByteRecord::new(alloc);
    if !next_record(&mut reader, &mut record)? {
        return Err(GraphFault::Line(1));
    }
    let value = heading_of(&record, weight)?;
    read_records(alloc, &mut reader, &mut record, value, edges, names)
}

// Reads the records after the heading.
fn read_records(
    alloc: Global,
    reader: &mut Reader<&[u8]>,
    record: &mut ByteRecord,
    value: Value,
    edges: &mut Edges,
    names: &mut Option<Names>,
) -> Result<(), GraphFault>
    ensures { OnOk result (edges.new.most ≡ edges.old.most) }
{
    for turn in 0..u64::MAX {
        if !next_record(reader, record)? {
            return Ok(());
        }
        add_record(alloc, record, value, edges, names)?;
    }
    Ok(())
}

// Adds the edge of a record.
fn add_record(
    alloc: Global,
    record: &ByteRecord,
    value: Value,
    edges: &mut Edges,
    names: &mut Option<Names>,
) -> Result<(), GraphFault>
    ensures { OnOk result (edges.new.most ≡ edges.old.most) }
{
    let line = line_of(record);
    let (Some(from), Some(target)) = (record.get(0), record.get(1)) else {
        return Err(GraphFault::Line(line));
    };
    let value = value_in(record, value);
    let Some(names) = names else {
        return edges.add_line(line, edge_between(from, target, value));
    };
    let Some(value) = value else {
        return Err(GraphFault::Number(line));
    };
    let edge = names.edge(alloc, line, (from, target), value)?;
    edges.add(line, edge)
}

// Returns the value of a record's edge, or `None` where its field is no number.
fn value_in(record: &ByteRecord, value: Value) -> Option<i64> {
    match value {
        Value::Number(value) => Some(value),
        Value::Place(place) => number_of(record.get(place)?),
    }
}

// Finds the source of the values by the heading. It has at least two columns, of which the first is no number.
fn heading_of(record: &ByteRecord, weight: Weight) -> Result<Value, GraphFault> {
    let line = line_of(record);
    let (Some(first), Some(_)) = (record.get(0), record.get(1)) else {
        return Err(GraphFault::Line(line));
    };
    if number_of(first).is_some() {
        return Err(GraphFault::Line(line));
    }
    match weight {
        Weight::Number(value) => Ok(Value::Number(value)),
        Weight::Column(name) => match place_of(record, name.as_bytes()) {
            Some(place) => Ok(Value::Place(place)),
            None => Err(GraphFault::Line(line)),
        },
    }
}

fn place_of(record: &ByteRecord, name: &[u8]) -> Option<usize> {
    for place in 0..record.len() {
        if record.get(place) == Some(name) {
            return Some(place);
        }
    }
    None
}

fn next_record(reader: &mut Reader<&[u8]>, record: &mut ByteRecord) -> Result<bool, GraphFault> {
    match reader.read_byte_record(record) {
        Ok(found) => Ok(found),
        Err(error) => Err(fault_of(&error)),
    }
}

fn fault_of(error: &Error) -> GraphFault {
    match error.kind() {
        ErrorKind::OutOfMemory => GraphFault::OutOfMemory,
        ErrorKind::UnequalLengths {
            pos: Some(place),
            ..
        } => GraphFault::Line(place.line() as usize),
        _ => GraphFault::Line(0),
    }
}

// Returns the line on which a record begins.
fn line_of(record: &ByteRecord) -> usize {
    match record.position() {
        Some(place) => place.line() as usize,
        None => 0,
    }
}
