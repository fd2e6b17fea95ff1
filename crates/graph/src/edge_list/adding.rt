//! Adding of edges, one after another.

ghost use Rattle.std.specs.Prelude.{◌≡◌, ◌∷◌, [], true, OnOk};
ghost use Rattle.graph.specs.edge_list.Said.{both_of, edges_of, is_good};
ghost use Rattle.graph.specs.inside.Adding.{Adds, SaysInRange};
ghost use Rattle.graph.specs.inside.Ranges.{IsInRange};

use crate::edge_list::edges::Edges;
use crate::edge_list::line::Line;
use crate::fault::GraphFault;
use crate::vertex::Edge;
use std::alloc::Global;

impl Edges {
    /// Makes an empty list of edges.
    pub fn new(alloc: Global, both_ways: bool, most: usize) -> Edges
        ensures items { result.items.items ≡ [] }
        ensures both_ways { result.both_ways ≡ both_ways }
        ensures most { result.most ≡ most }
    {
        Edges {
            items: Vec::new(alloc),
            both_ways,
            most,
        }
    }

    /// Adds the edge of a line, which has this number, if it has one.
    pub fn add_line(&mut self, number: usize, line: Line) -> Result<(), GraphFault>
        requires { SaysInRange line }
        ensures added { OnOk result (Adds (edges_of self.old.both_ways line) self.old self.new) }
        ensures good { OnOk result (is_good line ≡ true) }
    {
        match line {
            Line::Blank => Ok(()),
            Line::Said(edge) => self.add(number, edge),
            Line::BadForm => Err(GraphFault::Line(number)),
            Line::BadNumber => Err(GraphFault::Number(number)),
        }
    }

    /// Adds the edge of a line, and then its reverse where each edge is for both directions. An edge from a vertex to itself is
    /// added once.
    pub fn add(&mut self, line: usize, edge: Edge) -> Result<(), GraphFault>
        requires { IsInRange edge }
        ensures { OnOk result (Adds (both_of self.old.both_ways edge) self.old self.new) }
    {
        self.push(line, edge)?;
        if !self.both_ways || edge.from == edge.target {
            return Ok(());
        }
        let back = Edge {
            from: edge.target,
            target: edge.from,
            value: edge.value,
        };
        self.push(line, back)
    }

    fn push(&mut self, line: usize, edge: Edge) -> Result<(), GraphFault>
        requires { IsInRange edge }
        ensures { OnOk result (Adds (edge ∷ []) self.old self.new) }
    {
        if self.items.len() >= self.most {
            return Err(GraphFault::OverLimit(line));
        }
        self.items.push(edge)?;
        Ok(())
    }
}
