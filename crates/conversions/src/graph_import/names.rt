//! Names, numbered in the order in which they first occur.

ghost use Rattle.std.specs.Prelude.{IfOk};
ghost use Rattle.graph.specs.inside.Ranges.{IsInRange};

use graph::edge_list::{Form, is_comment};
use graph::{Edge, GraphFault, MAX_VERTICES};
use line_text::{Fields, number_of};
use std::alloc::Global;
use std::collections::HashMap;

/// Names with their numbers.
#[derive(Drop)]
pub struct Names {
    numbers: HashMap<String, u32>,
    /// A line `ID NAME` for each name, by rising ids.
    pub list: String,
}

impl Names {
    /// Makes an empty list of names.
    pub fn new(alloc: Global) -> Names {
        Names {
            numbers: HashMap::new(alloc),
            list: String::new(alloc),
        }
    }

    /// Returns the number of a name on a line. A new name gets the next number.
    pub fn number(&mut self, alloc: Global, line: usize, name: &str) -> Result<u32, GraphFault> {
        if let Some(number) = self.find(name) {
            return Ok(number);
        }
        let next = self.numbers.len();
        if next >= MAX_VERTICES {
            return Err(GraphFault::OverLimit(line));
        }
        let key = String::from_str(alloc, name)?;
        writeln!(self.list, "{next} {name}")?;
        self.numbers.insert(key, next as u32)?;
        Ok(next as u32)
    }

    /// Finds the number of a name, if it has one.
    pub fn find(&self, name: &str) -> Option<u32> {
        self.numbers.get(name).copied()
    }

    /// Makes the edge between two names on a line.
    pub fn edge(
        &mut self,
        alloc: Global,
        line: usize,
        ends: (&[u8], &[u8]),
        value: i64,
    ) -> Result<Edge, GraphFault>
        ensures { IfOk result IsInRange }
    {
        let (Ok(from), Ok(target)) = (str::from_utf8(ends.0), str::from_utf8(ends.1)) else {
            return Err(GraphFault::Line(line));
        };
        let from = self.number(alloc, line, from)?;
        let target = self.number(alloc, line, target)?;
        Ok(Edge {
            from: u64::from(from),
            target: u64::from(target),
            value,
        })
    }
}

/// The meaning of a line whose ends are names.
#[derive(Clone, Copy)]
pub enum Row<'a> {
    /// The line is blank, or a comment.
    Blank,
    /// The two ends of an edge, and its value.
    Named(&'a [u8], &'a [u8], i64),
    /// The line has the wrong number of fields.
    BadForm,
    /// The line's value is no number.
    BadNumber,
}

/// Reads a line whose ends are names.
pub fn row_of<'a>(line: &'a str, form: Form) -> Row<'a> {
    if is_comment(line) {
        return Row::Blank;
    }
    let mut fields = Fields::new(line);
    let Some(from) = fields.next() else {
        return Row::Blank;
    };
    let Some(target) = fields.next() else {
        return Row::BadForm;
    };
    let value = match fields.next() {
        None => Some(1),
        Some(field) => number_of(field),
    };
    if fields.next().is_some() {
        return Row::BadForm;
    }
    match form.weight.or(value) {
        Some(value) => Row::Named(from, target, value),
        None => Row::BadNumber,
    }
}
