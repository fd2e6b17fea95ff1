//! The edges read so far.

ghost use Rattle.std.specs.Prelude.{◌≤◌, vec_len};
ghost use Rattle.std.specs.List.{All};
ghost use Rattle.graph.specs.inside.Ranges.{IsInRange};

use crate::vertex::Edge;

/// The edges of lines, in their order.
#[derive(Drop)]
pub struct Edges {
    /// The edges so far.
    pub items: Vec<Edge>,
    /// Whether each edge is for both directions.
    pub both_ways: bool,
    /// The greatest number of edges.
    pub most: usize,
    ghost within: { vec_len items ≤ most },
    ghost in_range: { All IsInRange items.items },
}
