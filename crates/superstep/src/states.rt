//! The state of a job before superstep 0, and the totals of a state.

ghost use Rattle.std.specs.Prelude.{◌≡◌, IfOk, map};
ghost use Rattle.graph.specs.Entry.{entry_of};
ghost use Rattle.job_state.specs.Totals.{AreTotals, IsTotalsOf};
ghost use Rattle.superstep.specs.Job.{Work};
ghost use Rattle.superstep.specs.State.{HasIdsOf, IsStateAt};
ghost use Rattle.superstep.specs.Totals.{AreTotalsOf};
ghost use Rattle.superstep.specs.inside.Rows.{first_vertex, first_vertices};

use crate::job::Job;
use graph::{Part, Vertex};
use inbox::Inbox;
use job_state::{PartStates, State, Totals, VertexState};
use std::alloc::{AllocError, Global};
use verified::aggregator_starts;

/// Makes the state before superstep 0: every vertex is active and every inbox is empty (Pregel 2010, 2). It fails only where
/// memory runs out.
pub fn first_state(alloc: Global, job: &Job) -> Result<State, AllocError>
    ensures first { IfOk result (IsStateAt job.now 0) }
    ensures superstep { IfOk result (λ state. state.superstep ≡ 0) }
    ensures since { IfOk result (λ state. state.since ≡ 0) }
    ensures ids { IfOk result (HasIdsOf job.now) }
{
    let mut parts = Vec::with_capacity(alloc, job.parts().len())?;
    for part in job.parts() {
        let vertices = first_vertices(alloc, part)?;
        let states = PartStates::of(alloc, vertices)?;
        parts.push(states)?;
    }
    let totals = Totals {
        superstep: 0,
        since: 0,
        by_superstep: Vec::new(alloc),
        units: 0,
        dropped: 0,
    };
    Ok(State::of_parts(totals, aggregator_starts(), parts))
}

/// Copies the totals of a state, with the units of each superstep. It fails only where memory runs out.
pub fn totals_of(alloc: Global, state: &State) -> Result<Totals, AllocError>
    ensures of { IfOk result (IsTotalsOf state.now) }
    ensures totals { IfOk result AreTotals }
    ensures at { IfOk result (λ totals. (work : Work)
        → IsStateAt work state.now.superstep state.now → AreTotalsOf work totals) }
{
    Ok(Totals {
        superstep: state.superstep(),
        since: state.since(),
        by_superstep: Vec::from_slice(alloc, state.by_superstep())?,
        units: state.units(),
        dropped: state.dropped(),
    })
}

// Makes the states of a part's vertices before superstep 0.
fn first_vertices(alloc: Global, part: &Part) -> Result<Vec<VertexState>, AllocError>
    ensures { IfOk result (λ vertices.
        vertices.items ≡ first_vertices (map entry_of part.now.vertices.items)) }
{
    let mut vertices = Vec::with_capacity(alloc, part.vertices.len())?;
    for vertex in &part.vertices {
        vertices.push(first_vertex(alloc, vertex))?;
    }
    Ok(vertices)
}

fn first_vertex(alloc: Global, vertex: &Vertex) -> VertexState
    ensures { result ≡ first_vertex (entry_of vertex.now) }
{
    VertexState {
        id: vertex.id,
        value: vertex.value,
        active: true,
        inbox: Inbox::empty(alloc),
    }
}
