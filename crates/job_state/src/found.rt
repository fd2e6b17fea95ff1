//! What a task finds in its part, counted for who watches a job.

ghost use Rattle.std.specs.Prelude.{◌≡◌};
ghost use Rattle.std.specs.List.{fold};
ghost use Rattle.job_state.specs.Found.{nothing_found, with_vertex};
ghost use Rattle.job_state.specs.inside.DueRows.{due_rows};

use crate::state::{VertexState, is_due};

/// What a task finds in its part before the superstep. Counts stop at the greatest number of 64 bits.
#[derive(Clone, Copy)]
pub struct Found {
    /// How many vertices are called: those that are active or have messages.
    pub called: u64,
    /// How many messages they have together.
    pub received: u64,
}

/// What these vertices are found to have. `due` has the rows of those that are due.
pub fn found_in(vertices: &[VertexState], due: &[usize]) -> Found
    requires { due.now ≡ due_rows 0 vertices.now }
    ensures { result ≡ fold with_vertex nothing_found vertices.now }
{
    let mut found = Found {
        called: 0,
        received: 0,
    };
    for row in due {
        found = with_vertex(found, &vertices[*row]);
    }
    found
}

// What is found with one more vertex.
fn with_vertex(found: Found, vertex: &VertexState) -> Found
    ensures { result ≡ with_vertex found vertex.now }
{
    if !is_due(vertex) {
        return found;
    }
    Found {
        called: found.called.saturating_add(1),
        received: found
            .received
            .saturating_add(vertex.inbox.as_slice().len() as u64),
    }
}
