//! States of a job between two supersteps.

ghost use Rattle.std.specs.Prelude.{◌≡◌, ◌<◌, IfOk, length, map, vec_items};
ghost use Rattle.std.specs.List.Sorted.{IsStrictlyIncreasing};
ghost use Rattle.graph.specs.Partition.{joined, parts_by};
ghost use Rattle.job_state.specs.State.{IsState, in_order, is_due, is_settled, state_id};
ghost use Rattle.job_state.specs.Totals.{AreTotals, IsTotalsOf, standing_of};
ghost use Rattle.job_state.specs.inside.Filled.{with_inbox};
ghost use Rattle.job_state.specs.inside.Rows.{IsKept};

use crate::part_states::PartStates;
use crate::totals::Totals;
use graph::{Identified, cut_by_id, merge_by_id};
use inbox::Inbox;
use std::alloc::{AllocError, Global};
use std::marker::Model;

/// A vertex between two supersteps. Its edges stay with the job.
pub struct VertexState {
    /// The vertex's id. In a state of a job it is the id of a vertex of the graph.
    pub id: u64,
    pub value: i64,
    /// Whether it has not voted to halt.
    pub active: bool,
    /// The messages sent to it in the superstep before.
    pub inbox: Inbox,
}

impl Drop for VertexState {
    fn drop(self) {
        let VertexState {
            id: _,
            value: _,
            active: _,
            inbox: _,
        } = self;
    }
}

impl VertexState {
    /// Replaces its inbox by this one.
    pub fn fill(&mut self, inbox: Inbox)
        ensures { self.new ≡ with_inbox (self.old, inbox) }
    {
        self.inbox = inbox;
    }
}

impl Identified for VertexState {
    ghost id = { λ vertex. vertex.id };

    fn id(&self) -> u64 {
        self.id
    }
}

/// The state of a job between two supersteps, which a checkpoint saves. It has no edges.
///
/// The vertices are in parts, so that a superstep moves none of them. In contracts they are in one list, by rising id.
pub struct State {
    superstep: u32,
    since: u32,
    by_superstep: Vec<u128>,
    units: u128,
    dropped: u128,
    aggregates: [i64; 8],
    parts: Vec<PartStates>,
}

impl Drop for State {
    fn drop(self) {
        let State {
            superstep: _,
            since: _,
            by_superstep: _,
            units: _,
            dropped: _,
            aggregates: _,
            parts: _,
        } = self;
    }
}

impl Model for State {
    ghost use Rattle.job_state.specs.State.{Standing, in_order};
    ghost use Rattle.job_state.specs.inside.Rows.{IsKept};

    ghost Value = { Standing };

    ghost view = { λ state. record {
      superstep = state.superstep;
      since = state.since;
      by_superstep = state.by_superstep.items;
      units = state.units;
      dropped = state.dropped;
      aggregates = state.aggregates;
      vertices = in_order state.parts.items;
    } };

    ghost invariant = { λ state. IsKept (record {
      superstep = state.superstep;
      since = state.since;
      by_superstep = state.by_superstep.items;
      units = state.units;
      dropped = state.dropped;
      aggregates = state.aggregates;
      vertices = in_order state.parts.items;
    }) state.parts.items };
}

impl State {
    /// Makes the state of these totals, aggregates and vertices, which are sorted by id. It fails only where memory runs out.
    pub fn of(
        alloc: Global,
        totals: Totals,
        aggregates: [i64; 8],
        vertices: Vec<VertexState>,
    ) -> Result<State, AllocError>
        requires { IsState (standing_of totals aggregates vertices.items) }
        ensures { IfOk result (λ state. state ≡ standing_of totals aggregates vertices.items) }
    {
        let states = PartStates::of(alloc, vertices)?;
        let parts = vec![in alloc; states]?;
        Ok(State::of_parts(totals, aggregates, parts))
    }

    /// Makes the state of these totals, aggregates and parts.
    pub fn of_parts(totals: Totals, aggregates: [i64; 8], parts: Vec<PartStates>) -> State
        requires { IsKept (standing_of totals aggregates (in_order parts.items))
            parts.items }
        ensures { result ≡ standing_of totals aggregates (in_order parts.items) }
    {
        State {
            superstep: totals.superstep,
            since: totals.since,
            by_superstep: totals.by_superstep,
            units: totals.units,
            dropped: totals.dropped,
            aggregates,
            parts,
        }
    }

    /// Returns the superstep that comes next.
    pub fn superstep(&self) -> u32
        ensures { result ≡ self.now.superstep }
    {
        self.superstep
    }

    /// Returns the first superstep whose units are reported.
    pub fn since(&self) -> u32
        ensures { result ≡ self.now.since }
    {
        self.since
    }

    /// Returns the units of each superstep from `since` on. Each stops at the greatest number of 128 bits.
    pub fn by_superstep(&self) -> &[u128]
        ensures told { result.now ≡ self.now.by_superstep }
        ensures state { IsState self.now }
    {
        &self.by_superstep
    }

    /// Returns the units of all calls so far. They stop at the greatest number of 128 bits.
    pub fn units(&self) -> u128
        ensures { result ≡ self.now.units }
    {
        self.units
    }

    /// Returns the number of messages so far that went to no vertex. It stops at the greatest number of 128 bits.
    pub fn dropped(&self) -> u128
        ensures { result ≡ self.now.dropped }
    {
        self.dropped
    }

    /// Returns the value of each aggregator in the superstep before.
    pub fn aggregates(&self) -> [i64; 8]
        ensures { result ≡ self.now.aggregates }
    {
        self.aggregates
    }

    /// Checks that no vertex will be called: none is active, and every inbox is empty.
    pub fn is_quiet(&self) -> bool
        ensures { result ≡ is_settled self.now }
    {
        for part in &self.parts {
            if !part.is_settled() {
                return false;
            }
        }
        true
    }

    /// Takes the totals out of the state, and its vertices in `parts` parts. All of it is moved, not copied.
    ///
    /// It fails only where memory runs out.
    pub fn into_parts(
        self,
        alloc: Global,
        parts: u32,
    ) -> Result<(Totals, Vec<PartStates>), AllocError>
        requires { 0 < parts }
        ensures of { IfOk result (λ cut. IsTotalsOf self cut.0) }
        ensures totals { IfOk result (λ cut. AreTotals cut.0) }
        ensures parts { IfOk result (λ cut.
            cut.1.items ≡ parts_by state_id parts self.vertices) }
    {
        let State {
            superstep,
            since,
            by_superstep,
            units,
            dropped,
            aggregates: _,
            parts: lists,
        } = self;
        let cut = cut_anew(alloc, lists, parts)?;
        let totals = Totals {
            superstep,
            since,
            by_superstep,
            units,
            dropped,
        };
        Ok((totals, cut))
    }

    /// Lists the vertices, by rising id. It fails only where memory runs out.
    pub fn in_order(&self, alloc: Global) -> Result<Vec<&VertexState>, AllocError>
        ensures state { IsState self.now }
        ensures same { IfOk result (λ vertices.
            map (λ vertex. vertex.now) vertices.items ≡ self.now.vertices) }
    {
        let mut vertices = Vec::new(alloc);
        for part in &self.parts {
            vertices.extend(part.as_slice().iter())?;
        }
        vertices.sort_by_cached_key(|vertex| vertex.id)?;
        Ok(vertices)
    }
}

// Cuts the vertices of all lists into `parts` parts. They are moved, not copied.
fn cut_anew(
    alloc: Global,
    lists: Vec<PartStates>,
    parts: u32,
) -> Result<Vec<PartStates>, AllocError>
    requires some { 0 < parts }
    requires rising { IsStrictlyIncreasing (map state_id (in_order lists.items)) }
    requires lie { lists.items
        ≡ parts_by state_id (length lists.items) (in_order lists.items) }
    ensures { IfOk result (λ cut.
        cut.items ≡ parts_by state_id parts (in_order lists.items)) }
{
    if lists.len() == parts as usize {
        return Ok(lists);
    }
    let mut vertices = together(alloc, lists)?;
    merge_by_id(&mut vertices)?;
    let cut = cut_by_id(alloc, vertices, parts)?;
    with_due(alloc, cut)
}

// Concatenates the vertices of all parts.
fn together(alloc: Global, parts: Vec<PartStates>) -> Result<Vec<VertexState>, AllocError>
    ensures { IfOk result (λ vertices. vertices.items ≡ joined parts.items) }
{
    let mut vertices = Vec::new(alloc);
    for part in parts {
        let mut others = part.into_vertices();
        vertices.append(&mut others)?;
    }
    Ok(vertices)
}

// Finds the vertices of each part that are due.
fn with_due(alloc: Global, cut: Vec<Vec<VertexState>>) -> Result<Vec<PartStates>, AllocError>
    ensures { IfOk result (λ parts. parts.items ≡ map vec_items cut.items) }
{
    let mut parts = Vec::with_capacity(alloc, cut.len())?;
    for vertices in cut {
        let states = PartStates::of(alloc, vertices)?;
        parts.push(states)?;
    }
    Ok(parts)
}

// Whether the vertex is called in the next superstep.
pub(crate) fn is_due(vertex: &VertexState) -> bool
    ensures { result ≡ is_due vertex.now }
{
    vertex.active || !vertex.inbox.as_slice().is_empty()
}

// Copies these vertices, in their order.
pub(crate) fn copied(
    alloc: Global,
    vertices: &[VertexState],
) -> Result<Vec<VertexState>, AllocError>
    ensures { IfOk result (λ copies. copies.items ≡ vertices.now) }
{
    let mut copies = Vec::with_capacity(alloc, vertices.len())?;
    for vertex in vertices {
        let copy = copy_of(alloc, vertex)?;
        copies.push(copy)?;
    }
    Ok(copies)
}

fn copy_of(alloc: Global, vertex: &VertexState) -> Result<VertexState, AllocError>
    ensures { IfOk result (λ copy. copy ≡ vertex.now) }
{
    let messages = Vec::from_slice(alloc, vertex.inbox.as_slice())?;
    Ok(VertexState {
        id: vertex.id,
        value: vertex.value,
        active: vertex.active,
        inbox: Inbox::from(messages),
    })
}
