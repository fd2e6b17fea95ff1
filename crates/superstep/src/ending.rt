//! The end of a job.

ghost use Rattle.std.specs.Prelude.{◌≡◌, map, IfOk};
ghost use Rattle.superstep.specs.Ending.{HasStopped, IsEndIn, IsEndOf, states_values};
ghost use Rattle.superstep.specs.Job.{Work};

use job_state::{State, VertexState};
use std::alloc::{AllocError, Global};

/// The reason for which a job ended.
#[derive(Clone, Copy)]
pub enum EndReason {
    /// No vertex was active and every inbox was empty.
    Finished,
    /// The limit of supersteps was reached first.
    Limit,
}

/// The report of a job's end.
pub struct JobEnd {
    pub how: EndReason,
    /// The superstep that would have come next.
    pub superstep: u32,
    /// The vertices' ids with their values, by rising id.
    pub values: Vec<(u64, i64)>,
    /// The units of all calls. They stop at the greatest number of 128 bits.
    pub units: u128,
    /// The number of messages that went to no vertex. It stops at the greatest number of 128 bits.
    pub dropped: u128,
    /// The first superstep whose units are reported.
    pub since: u32,
    /// The units of each superstep from `since` on.
    pub by_superstep: Vec<u128>,
}

impl Drop for JobEnd {
    fn drop(self) {
        let JobEnd {
            how: _,
            superstep: _,
            values: _,
            units: _,
            dropped: _,
            since: _,
            by_superstep: _,
        } = self;
    }
}

/// Reports the end of a job whose run stops in this state. It fails only where memory runs out.
pub fn tell_end(alloc: Global, state: &State) -> Result<JobEnd, AllocError>
    ensures state { IfOk result (IsEndIn state.now) }
    ensures end { IfOk result (λ ended. (work : Work)
        → HasStopped work state.now → IsEndOf work ended) }
{
    let how = if state.is_quiet() {
        EndReason::Finished
    } else {
        EndReason::Limit
    };
    let values = values_of(alloc, &state.in_order(alloc)?)?;
    let by_superstep = Vec::from_slice(alloc, state.by_superstep())?;
    Ok(JobEnd {
        how,
        superstep: state.superstep(),
        values,
        units: state.units(),
        dropped: state.dropped(),
        since: state.since(),
        by_superstep,
    })
}

fn values_of(alloc: Global, vertices: &[&VertexState]) -> Result<Vec<(u64, i64)>, AllocError>
    ensures { IfOk result (λ values.
        values.items ≡ states_values (map (λ vertex. vertex.now) vertices.now)) }
{
    let mut values = Vec::with_capacity(alloc, vertices.len())?;
    for vertex in vertices {
        values.push((vertex.id, vertex.value))?;
    }
    Ok(values)
}
