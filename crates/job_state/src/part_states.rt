//! The vertices of a part between two supersteps, and which of them are due.

ghost use Rattle.std.specs.Prelude.{◌≡◌, ◌<◌, ℤ, List, length, not, IfOk, OnOk};
ghost use Rattle.std.specs.List.{AllByRecursion, fold, list_any};
ghost use Rattle.std.specs.List.Sorted.{IsPermutation};
ghost use Rattle.inbox.specs.Arrivals.{arrivals_from};
ghost use Rattle.job_state.specs.Found.{nothing_found, with_vertex};
ghost use Rattle.job_state.specs.State.{is_due};
ghost use Rattle.job_state.specs.inside.Filled.{filled, with_some_inbox};
ghost use Rattle.job_state.specs.inside.DueRows.{due_rows};
ghost use Rattle.job_state.specs.inside.Handed.{HasNoInbox, handed};

use crate::found::{Found, found_in};
use crate::state::{VertexState, copied, is_due};
use inbox::{Arrival, Inbox};
use std::alloc::{AllocError, Global};
use std::marker::Model;

/// The vertices of a part, with the rows of those that are due: those that are called in the next superstep. In contracts its
/// model is the list of the vertices.
///
/// So a superstep goes over the vertices that are due, and not over all.
pub struct PartStates {
    vertices: Vec<VertexState>,
    // The places of the due vertices, counted from 0 and rising.
    due: Vec<usize>,
}

impl Drop for PartStates {
    fn drop(self) {
        let PartStates {
            vertices: _,
            due: _,
        } = self;
    }
}

impl Model for PartStates {
    ghost use Rattle.std.specs.Prelude.{◌≡◌, List};
    ghost use Rattle.job_state.specs.declared.state.VertexState.{VertexState as AnyVertex};
    ghost use Rattle.job_state.specs.inside.DueRows.{due_rows};

    ghost Value = { List AnyVertex };

    ghost view = { λ part. part.vertices.items };

    ghost invariant = { λ part. part.due.items ≡ due_rows 0 part.vertices.items };
}

impl PartStates {
    /// Makes the part of these vertices. It goes over all of them once.
    pub fn of(alloc: Global, vertices: Vec<VertexState>) -> Result<PartStates, AllocError>
        ensures { IfOk result (λ part. part ≡ vertices.items) }
    {
        let due = due_among(alloc, &vertices)?;
        Ok(PartStates { vertices, due })
    }

    /// Makes the part of these vertices, of which those in the rows of `due` are due.
    pub fn of_due(vertices: Vec<VertexState>, due: Vec<usize>) -> PartStates
        requires { due.items ≡ due_rows 0 vertices.items }
        ensures { result ≡ vertices.items }
    {
        PartStates { vertices, due }
    }

    /// Returns the vertices.
    pub fn as_slice(&self) -> &[VertexState]
        ensures { result.now ≡ self.now }
    {
        &self.vertices
    }

    /// Returns the vertices. The list of those that are due is dropped.
    pub fn into_vertices(self) -> Vec<VertexState>
        ensures { result.items ≡ self }
    {
        let PartStates { vertices, due: _ } = self;
        vertices
    }

    /// Returns the vertices, and the rows of those that are due.
    pub fn into_parts(self) -> (Vec<VertexState>, Vec<usize>)
        ensures vertices { result.0.items ≡ self }
        ensures due { result.1.items ≡ due_rows 0 self }
    {
        let PartStates { vertices, due } = self;
        (vertices, due)
    }

    /// Checks that none of the vertices is due.
    pub fn is_settled(&self) -> bool
        ensures { result ≡ not (list_any is_due self.now) }
    {
        self.due.is_empty()
    }

    /// What the vertices are found to have.
    pub fn found(&self) -> Found
        ensures { result ≡ fold with_vertex nothing_found self.now }
    {
        found_in(&self.vertices, &self.due)
    }

    /// Copies the vertices, in their order.
    pub fn copy(&self, alloc: Global) -> Result<PartStates, AllocError>
        ensures { IfOk result (λ copy. copy ≡ self.now) }
    {
        let vertices = copied(alloc, &self.vertices)?;
        let due = Vec::from_slice(alloc, &self.due)?;
        Ok(PartStates { vertices, due })
    }

    /// Gives the vertices these inboxes, of which there is one for each. The vertices are changed in place.
    pub fn filled(self, inboxes: Vec<Inbox>) -> Result<PartStates, AllocError>
        ensures { IfOk result (λ part. length self ≡ length inboxes.items
            → part ≡ filled (self, inboxes.items)) }
    {
        let PartStates {
            mut vertices,
            mut due,
        } = self;
        let mut inboxes = inboxes.into_iter();
        due.clear();
        for row in 0..vertices.len() {
            let vertex = &mut vertices[row];
            fill_some(vertex, inboxes.next());
            if is_due(vertex) {
                due.push(row)?;
            }
        }
        Ok(PartStates { vertices, due })
    }

    /// Gives these inboxes to the vertices in their rows. The other vertices stay as they are.
    pub fn handed(self, arrivals: Vec<Arrival>) -> Result<PartStates, AllocError>
        ensures { IfOk result (λ part. (inboxes : List (List ℤ))
            → arrivals.items ≡ arrivals_from 0 inboxes → length self ≡ length inboxes
            → AllByRecursion HasNoInbox self → part ≡ filled (self, inboxes)) }
    {
        let PartStates {
            mut vertices,
            mut due,
        } = self;
        for arrival in arrivals {
            hand(&mut vertices, &mut due, arrival)?;
        }
        due.sort_unstable();
        Ok(PartStates { vertices, due })
    }
}

// Lists the rows of the vertices that are due.
fn due_among(alloc: Global, vertices: &[VertexState]) -> Result<Vec<usize>, AllocError>
    ensures { IfOk result (λ due. due.items ≡ due_rows 0 vertices.now) }
{
    let mut due = Vec::new(alloc);
    for row in 0..vertices.len() {
        if is_due(&vertices[row]) {
            due.push(row)?;
        }
    }
    Ok(due)
}

// Gives an inbox to the vertex in its row. The row is added to those that are due, unless it is among them. An empty inbox
// changes nothing.
fn hand(
    vertices: &mut Vec<VertexState>,
    due: &mut Vec<usize>,
    arrival: Arrival,
) -> Result<(), AllocError>
    ensures handed { OnOk result (vertices.new.items ≡ handed vertices.old.items arrival) }
    ensures due { OnOk result (IsPermutation due.old.items (due_rows 0 vertices.old.items)
        → IsPermutation due.new.items (due_rows 0 vertices.new.items)) }
{
    let Arrival { row, inbox } = arrival;
    if row >= vertices.len() || inbox.as_slice().is_empty() {
        return Ok(());
    }
    let vertex = &mut vertices[row];
    if !is_due(vertex) {
        due.push(row)?;
    }
    vertex.fill(inbox);
    Ok(())
}

// Replaces the inbox of a vertex by this one, if there is one.
fn fill_some(vertex: &mut VertexState, inbox: Option<Inbox>)
    ensures { vertex.new ≡ with_some_inbox vertex.old inbox }
{
    if let Some(inbox) = inbox {
        vertex.fill(inbox);
    }
}
