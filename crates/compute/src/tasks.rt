//! Tasks, each run by the calls of its vertices.

ghost use Rattle.std.specs.Prelude.{◌≡◌, All, true, map, IfOk, IfErr, OnOk};
ghost use Rattle.graph.specs.Entry.{entries_of, entry_of, ids};
ghost use Rattle.job_state.specs.State.{state_id};
ghost use Rattle.superstep.specs.Tasks.{AreUnitsAt};
ghost use Rattle.job_state.specs.declared.fault.Place.TheVariants.{Call};
ghost use Rattle.job_state.specs.inside.DueRows.{due_rows};
ghost use Rattle.superstep.specs.inside.Called.{HasProperIds};
ghost use Rattle.compute.specs.inside.PartOutput.{CallsPart, CallsVertex};

use crate::part_output::PartOutput;
use graph::Vertex;
use inbox::Inbox;
use interp::{Scratch, run};
use job_state::{PartStates, Place, VertexState};
use semantics::calls_are_a_function;
use std::alloc::{AllocError, Global};
use superstep::{Done, Job, Origin, Shared, Task, TaskLost};
use verified::CallInput;

/// Runs a task: a compute call of each vertex of the part that is active or has messages (Pregel 2010, 2). It fails only where
/// memory runs out. Either way the scratch still fits the job.
pub fn run_task<J: Origin>(
    alloc: Global,
    job: &Job,
    task: Task<J>,
    scratch: &mut Scratch,
) -> Result<Done<J>, TaskLost>
    requires job { J.work ≡ job.now }
    requires fits { scratch.old ≡ job.now.«module» }
    ensures kept { scratch.new ≡ scratch.old }
    ensures epoch { IfOk result (λ done. done.epoch ≡ task.epoch) }
    ensures superstep { IfOk result (λ done. done.superstep ≡ task.superstep) }
    ensures part { IfOk result (λ done. done.part ≡ task.part) }
    ensures units { IfOk result (λ done. J.honest task.epoch ≡ true
        → AreUnitsAt J.work task.superstep task.part done.units) }
    ensures lost { IfErr result (λ lost. lost.place ≡ Call) }
{
    calls_are_a_function();
    let (epoch, superstep, part) = (task.epoch(), task.superstep(), task.part());
    let (states, aggregated) = task.into_parts();
    let (mut vertices, due) = states.into_parts();
    let shared = Shared {
        verified: job.verified(),
        superstep,
        count: job.count(),
        aggregated,
    };
    let entries = &job.parts()[part as usize].vertices;
    let ran = run_part(alloc, &shared, entries, &mut vertices, &due, scratch);
    let Ok((left, active)) = ran else {
        return Err(TaskLost { place: Place::Call });
    };
    let PartOutput {
        letters,
        aggregators,
        units,
    } = left;
    let vertices = PartStates::of_due(vertices, active);
    Ok(Done::of(
        epoch,
        superstep,
        part,
        units,
        vertices,
        letters,
        aggregators,
    ))
}

// Calls a part's due vertices, one after another, and lists the rows of those that stay active. `entries` has their edges.
fn run_part(
    alloc: Global,
    shared: &Shared,
    entries: &[Vertex],
    vertices: &mut [VertexState],
    due: &[usize],
    scratch: &mut Scratch,
) -> Result<(PartOutput, Vec<usize>), AllocError>
    requires same { ids (entries_of entries.now) ≡ map state_id vertices.old }
    requires proper { All HasProperIds (entries_of entries.now) }
    requires fits { scratch.old ≡ shared.now.verified.now }
    requires due { due.now ≡ due_rows 0 vertices.old }
    ensures kept { scratch.new ≡ scratch.old }
    ensures calls { IfOk result (λ ran.
        CallsPart shared.now (entries_of entries.now) vertices.old vertices.new ran.0) }
    ensures active { IfOk result (λ ran. ran.1.items ≡ due_rows 0 vertices.new) }
{
    let mut left = PartOutput::nothing(alloc);
    let mut active = Vec::with_capacity(alloc, due.len())?;
    for row in due {
        let vertex = &mut vertices[*row];
        run_vertex(alloc, shared, &entries[*row], vertex, scratch, &mut left)?;
        if vertex.active {
            active.push(*row)?;
        }
    }
    Ok((left, active))
}

// Calls a vertex that is active or has messages. Any other stays as it is.
fn run_vertex(
    alloc: Global,
    shared: &Shared,
    entry: &Vertex,
    vertex: &mut VertexState,
    scratch: &mut Scratch,
    left: &mut PartOutput,
) -> Result<(), AllocError>
    requires same { entry.now.id ≡ vertex.old.id }
    requires proper { HasProperIds (entry_of entry.now) }
    requires fits { scratch.old ≡ shared.now.verified.now }
    ensures kept { scratch.new ≡ scratch.old }
    ensures calls { OnOk result (CallsVertex shared.now (entry_of entry.now)
        vertex.old vertex.new left.old left.new) }
{
    if !vertex.active && vertex.inbox.as_slice().is_empty() {
        return Ok(());
    }
    let input = CallInput {
        id: vertex.id,
        superstep: shared.superstep,
        count: shared.count,
        value: vertex.value,
        messages: vertex.inbox.as_slice(),
        edges: &entry.edges,
        aggregated: shared.aggregated,
    };
    let outcome = run(alloc, shared.verified, &input, scratch)?;
    left.add(vertex.id, &outcome)?;
    vertex.value = outcome.value;
    vertex.active = !outcome.halted;
    scratch.reuse(outcome);
    vertex.fill(Inbox::empty(alloc));
    Ok(())
}
