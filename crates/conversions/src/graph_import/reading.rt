//! The result of reading a file.

ghost use Rattle.std.specs.Prelude.{◌≤◌};

use crate::graph_import::names::Names;
use graph::edge_list::Edges;

/// The edges of a file, and the names of their ends if the ends are names.
#[derive(Drop)]
pub struct Reading {
    pub edges: Edges,
    pub names: Option<Names>,
    /// The ids from 1 to this are vertices, whether an edge has them or not.
    pub declared: u64,
    ghost small: { declared ≤ 1000000 },
}
