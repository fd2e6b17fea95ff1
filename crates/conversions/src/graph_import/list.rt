//! Edge lists.

ghost use Rattle.std.specs.Prelude.{◌≡◌, true, OnOk};
ghost use Rattle.std.specs.List.{All};
ghost use Rattle.graph.specs.edge_list.Said.{all_edges, is_good, lines_of};
ghost use Rattle.graph.specs.inside.Adding.{Adds};

use crate::graph_import::names::{Names, Row, row_of};
use graph::GraphFault;
use graph::edge_list::{Edges, Form, line_of};
use std::alloc::Global;

/// Reads an edge list whose ends are numbers.
pub fn read_list(text: &str, form: Form, edges: &mut Edges) -> Result<(), GraphFault>
    ensures added { OnOk result (Adds (all_edges edges.old.both_ways (lines_of form text.now))
        edges.old edges.new) }
    ensures good { OnOk result (All (λ line. is_good line ≡ true) (lines_of form text.now)) }
{
    for (index, line) in text.lines().enumerate() {
        edges.add_line(index + 1, line_of(line, form))?;
    }
    Ok(())
}

/// Reads an edge list whose ends are names.
pub fn read_names(
    alloc: Global,
    text: &str,
    form: Form,
    edges: &mut Edges,
    names: &mut Names,
) -> Result<(), GraphFault>
    ensures { OnOk result (edges.new.most ≡ edges.old.most) }
{
    for (index, line) in text.lines().enumerate() {
        add_named(alloc, index + 1, row_of(line, form), edges, names)?;
    }
    Ok(())
}

fn add_named(
    alloc: Global,
    line: usize,
    row: Row,
    edges: &mut Edges,
    names: &mut Names,
) -> Result<(), GraphFault>
    ensures { OnOk result (edges.new.most ≡ edges.old.most) }
{
    match row {
        Row::Blank => Ok(()),
        Row::Named(from, target, value) => {
            let edge = names.edge(alloc, line, (from, target), value)?;
            edges.add(line, edge)
        }
        Row::BadForm => Err(GraphFault::Line(line)),
        Row::BadNumber => Err(GraphFault::Number(line)),
    }
}
