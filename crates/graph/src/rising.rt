//! Vertices in the order of their ids.

ghost use Rattle.std.specs.Prelude.{◌↔◌, IsTrue};
ghost use Rattle.std.specs.List.Sorted.{IsStrictlyIncreasing};
ghost use Rattle.graph.specs.Entry.{entries_of, ids};

use crate::vertex::Vertex;

/// Checks that each id is below the next.
pub fn are_rising(vertices: &[Vertex]) -> bool
    ensures { IsTrue result ↔ IsStrictlyIncreasing (ids (entries_of vertices.now)) }
{
    for index in 1..vertices.len() {
        let last = vertices[index - 1].id;
        let next = vertices[index].id;
        if next <= last {
            return false;
        }
    }
    true
}
