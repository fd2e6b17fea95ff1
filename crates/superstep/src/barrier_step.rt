//! The barrier between two supersteps (Pregel 2010, 2), which makes the next state of the results of all parts.

ghost use Rattle.std.specs.Prelude.{◌≡◌, ◌<◌, ◌++◌, ◌∷◌, [], suc, ℕ, ℤ, All, List, length, map, nat_eq, vec_items, IfOk, OnOk};
ghost use Rattle.std.specs.List.{AllByRecursion, IsDistinct, sum_by, zip};
ghost use Rattle.std.specs.List.Sorted.{IsStrictlyIncreasing};
ghost use Rattle.inbox.specs.declared.letters.Letter.{Letter as AnyLetter};
ghost use Rattle.inbox.specs.Arrivals.{arrivals_from};
ghost use Rattle.inbox.specs.Merging.{IsBySource, all_of, sent_in, are_one, dropped_of, inbox_of};
ghost use Rattle.superstep.specs.Job.{Meaning};
ghost use Rattle.superstep.specs.State.{HasIdsOf, IsStateAt};
ghost use Rattle.superstep.specs.Superstep.{dropped_by, messages_to};
ghost use Rattle.job_state.specs.Stamps.{DoneStamp};
ghost use Rattle.superstep.specs.Tasks.{AreTrusted, IsRow, VertexOutcome, emptied, outcomes_in};
ghost use Rattle.job_state.specs.Totals.{AreTotals};
ghost use Rattle.superstep.specs.Totals.{AreTotalsOf};
ghost use Rattle.job_state.specs.inside.Filled.{filled};
ghost use Rattle.superstep.specs.inside.Barrier.{AreSpread, IsGathered, all_filled, left_ids};
ghost use Rattle.job_state.specs.inside.Handed.{HasNoInbox};
ghost use Rattle.superstep.specs.inside.Uniting.{united};

use crate::aggregation::combined;
use crate::job::Job;
use crate::slice::Origin;
use crate::task::Done;
use inbox::{
    Arrival, Inbox, Outbox, drops_add_up_over_sources, inboxes_are_concatenated_by_source,
    letter_count, letters_drop_alike_in_any_order, letters_keep_their_order_in_any_lists,
    merge_few, merge_own_parts, sources_send_in_any_order,
};
use job_state::{PartStates, State, Totals};
use rayon::prelude::*;
use std::alloc::{AllocError, Global};
use std::thread::Threads;
use verified::aggregator_starts;

/// Makes the state after a superstep from the totals before it and the results of all parts, one for each part and in order.
///
/// Inboxes are made in threads of `rayon`. It fails only where memory runs out.
pub fn barrier<J: Origin>(
    rt: &(impl Threads + Sync),
    alloc: Global,
    job: &Job,
    totals: Totals,
    dones: Vec<Done<J>>,
) -> Result<State, AllocError>
    requires job { J.work ≡ job.now }
    requires row { IsRow job.now.settings.parts totals.superstep dones.items }
    requires early { totals.superstep < job.now.settings.limit }
    requires totals { AreTotals totals }
    // The plain run exists: there is a graph, and one function that gives the outcome of each call.
    ensures meaning { Meaning job.now }
    // Of the totals and the results of the plain run it makes the plain run's next state.
    ensures next { IfOk result (λ state. AreTrusted J.honest dones.items
        → AreTotalsOf J.work totals → IsStateAt J.work (suc totals.superstep) state) }
    ensures superstep { IfOk result (λ state. state.superstep ≡ suc totals.superstep) }
    ensures since { IfOk result (λ state. state.since ≡ totals.since) }
    ensures ids { IfOk result (HasIdsOf job.now) }
{
    job.has_meaning();
    let Gathered {
        vertices,
        letters,
        aggregators,
        units,
    } = gather(alloc, job.settings().parts, dones)?;
    let (parts, dropped) = handed_out(rt, alloc, vertices, letters, job.ids())?;
    let totals = totals.after(units, dropped)?;
    Ok(State::of_parts(totals, aggregators, parts))
}

// The results of all parts: the vertices and the letters of each, and the aggregators and the units of all.
#[derive(Drop)]
struct Gathered {
    vertices: Vec<PartStates>,
    letters: Vec<Outbox>,
    aggregators: [i64; 8],
    units: u128,
}

// Gathers the results of all parts, of which there are `parts`.
fn gather<J: Origin>(alloc: Global, parts: u32, dones: Vec<Done<J>>) -> Result<Gathered, AllocError>
    ensures { IfOk result (IsGathered J.work J.honest dones.items) }
{
    let mut gathered = Gathered {
        vertices: Vec::with_capacity(alloc, parts as usize)?,
        letters: Vec::with_capacity(alloc, parts as usize)?,
        aggregators: aggregator_starts(),
        units: 0,
    };
    for done in dones {
        gathered.add(done)?;
    }
    Ok(gathered)
}

impl Gathered {
    // Adds the result of one more part.
    fn add<J: Origin>(&mut self, done: Done<J>) -> Result<(), AllocError>
        ensures { OnOk result ((dones : List DoneStamp) → IsGathered J.work J.honest dones self.old
            → IsGathered J.work J.honest (dones ++ done ∷ []) self.new) }
    {
        let (vertices, letters, aggregators, units) = done.into_parts();
        self.vertices.push(vertices)?;
        self.letters.push(letters)?;
        unite(&mut self.aggregators, &aggregators);
        self.units = self.units.saturating_add(units);
        Ok(())
    }
}

// Combines the aggregators with those of other vertices.
fn unite(aggregators: &mut [i64; 8], given: &[i64; 8])
    ensures { aggregators.new ≡ united aggregators.old given.now }
{
    for aggregator in 0..8 {
        let place = aggregator as usize;
        aggregators[place] = combined(aggregator, aggregators[place], given[place]);
    }
}

// Gives the vertices of all parts the inboxes that these letters make, and counts the letters that go to no vertex.
fn handed_out(
    rt: &(impl Threads + Sync),
    alloc: Global,
    vertices: Vec<PartStates>,
    letters: Vec<Outbox>,
    ids: &[Vec<u64>],
) -> Result<(Vec<PartStates>, u128), AllocError>
    requires spread { (lefts : List (List VertexOutcome)) × (ordered : List VertexOutcome)
        × AreSpread ids.now letters.items lefts ordered
        × (vertices.items ≡ map (map emptied) lefts) }
    requires rising { All (λ part. IsStrictlyIncreasing part.items) ids.now }
    ensures parts { IfOk result (λ out.
        (lefts : List (List VertexOutcome)) (ordered : List VertexOutcome)
        → AreSpread ids.now letters.items lefts ordered
        → vertices.items ≡ map (map emptied) lefts
        → out.0.items ≡ all_filled vertices.items
        (map (λ left. map (messages_to (outcomes_in ordered)) (left_ids left)) lefts)) }
    ensures dropped { IfOk result (λ out.
        (lefts : List (List VertexOutcome)) (ordered : List VertexOutcome)
        → AreSpread ids.now letters.items lefts ordered
        → out.1 ≡ sum_by (dropped_by (left_ids ordered)) (outcomes_in ordered)) }
{
    if are_few(&letters, &vertices) {
        let (arrivals, dropped) = few_delivered(alloc, &letters, ids)?;
        let parts = all_handed(alloc, vertices, arrivals)?;
        return Ok((parts, dropped));
    }
    let (inboxes, dropped) = delivered(rt, alloc, letters, ids)?;
    let parts = all_filled(rt, alloc, vertices, inboxes)?;
    Ok((parts, dropped))
}

// The least number of vertices for each letter and part, where letters are few: looking up their targets in every part costs
// less than going over all vertices.
const FEW: u128 = 8;

// Checks that there are few letters for so many vertices.
fn are_few(letters: &[Outbox], parts: &[PartStates]) -> bool {
    let work = letter_count(letters).saturating_mul(parts.len() as u128);
    work.saturating_mul(FEW) < vertex_count(parts) as u128
}

// Shows where these letters go and in which order.
fn letters_are_spread(letters: &[Outbox], ids: &[Vec<u64>])
    ensures apart { (lefts : List (List VertexOutcome)) (ordered : List VertexOutcome)
        → AreSpread ids.now letters.now lefts ordered
        → IsDistinct nat_eq (all_of ids.now) }
    ensures distinct { (lefts : List (List VertexOutcome)) (ordered : List VertexOutcome)
        → AreSpread ids.now letters.now lefts ordered
        → IsDistinct are_one (sent_in letters.now) }
    ensures sent { (lefts : List (List VertexOutcome)) (ordered : List VertexOutcome)
        → AreSpread ids.now letters.now lefts ordered
        → (sent : List AnyLetter) × IsBySource (sent_in letters.now) sent
        × ((id : ℕ) → inbox_of sent id ≡ messages_to (outcomes_in ordered) id) }
    ensures dropped { (lefts : List (List VertexOutcome)) (ordered : List VertexOutcome)
        → AreSpread ids.now letters.now lefts ordered
        → dropped_of (sent_in letters.now) (all_of ids.now)
        ≡ sum_by (dropped_by (left_ids ordered)) (outcomes_in ordered) }
{
    sources_send_in_any_order();
    letters_keep_their_order_in_any_lists();
    letters_drop_alike_in_any_order();
    inboxes_are_concatenated_by_source();
    drops_add_up_over_sources();
}

// Makes the inboxes of each part's vertices, and counts the letters that go to no vertex.
fn delivered(
    rt: &(impl Threads + Sync),
    alloc: Global,
    letters: Vec<Outbox>,
    ids: &[Vec<u64>],
) -> Result<(Vec<Vec<Inbox>>, u128), AllocError>
    requires { (lefts : List (List VertexOutcome)) × (ordered : List VertexOutcome)
        × AreSpread ids.now letters.items lefts ordered }
    ensures inboxes { IfOk result (λ merged.
        (lefts : List (List VertexOutcome)) (ordered : List VertexOutcome)
        → AreSpread ids.now letters.items lefts ordered
        → map vec_items merged.0.items
        ≡ map (λ left. map (messages_to (outcomes_in ordered)) (left_ids left)) lefts) }
    ensures dropped { IfOk result (λ merged.
        (lefts : List (List VertexOutcome)) (ordered : List VertexOutcome)
        → AreSpread ids.now letters.items lefts ordered
        → merged.1 ≡ sum_by (dropped_by (left_ids ordered)) (outcomes_in ordered)) }
{
    letters_are_spread(&letters, ids);
    merge_own_parts(rt, alloc, letters, ids)
}

// Makes those inboxes of each part's vertices that get messages, and counts the letters that go to no vertex.
fn few_delivered(
    alloc: Global,
    letters: &[Outbox],
    ids: &[Vec<u64>],
) -> Result<(Vec<Vec<Arrival>>, u128), AllocError>
    requires spread { (lefts : List (List VertexOutcome)) × (ordered : List VertexOutcome)
        × AreSpread ids.now letters.now lefts ordered }
    requires rising { All (λ part. IsStrictlyIncreasing part.items) ids.now }
    ensures arrivals { IfOk result (λ merged.
        (lefts : List (List VertexOutcome)) (ordered : List VertexOutcome)
        → AreSpread ids.now letters.now lefts ordered
        → map vec_items merged.0.items
        ≡ map (arrivals_from 0)
        (map (λ left. map (messages_to (outcomes_in ordered)) (left_ids left)) lefts)) }
    ensures dropped { IfOk result (λ merged.
        (lefts : List (List VertexOutcome)) (ordered : List VertexOutcome)
        → AreSpread ids.now letters.now lefts ordered
        → merged.1 ≡ sum_by (dropped_by (left_ids ordered)) (outcomes_in ordered)) }
{
    letters_are_spread(letters, ids);
    merge_few(alloc, letters, ids)
}

// The least number of vertices that is worth threads.
const LEAST_VERTICES: usize = 10_000;

// Returns the number of vertices of all parts. It stops at the greatest number.
fn vertex_count(parts: &[PartStates]) -> usize {
    parts.iter().fold(0usize, |count, part| {
        count.saturating_add(part.as_slice().len())
    })
}

// Returns the least number of parts that is worth a thread: one, or too many to have threads where there are few vertices.
fn least_parts(parts: &[PartStates]) -> usize {
    if vertex_count(parts) < LEAST_VERTICES {
        usize::MAX
    } else {
        1
    }
}

// Gives the vertices of each part their inboxes, of which there is one for each.
fn all_filled(
    rt: &(impl Threads + Sync),
    alloc: Global,
    vertices: Vec<PartStates>,
    inboxes: Vec<Vec<Inbox>>,
) -> Result<Vec<PartStates>, AllocError>
    ensures { IfOk result (λ parts. map length vertices.items
        ≡ map length (map vec_items inboxes.items)
        → parts.items ≡ all_filled vertices.items (map vec_items inboxes.items)) }
{
    let least = least_parts(&vertices);
    let pairs = paired(alloc, vertices, inboxes)?;
    pairs
        .into_par_iter()
        .with_min_len(least)
        .map(
            |pair: (PartStates, Vec<Inbox>)| -> Result<PartStates, AllocError>
                ensures { IfOk result (λ part. length pair.0 ≡ length pair.1.items
                    → part ≡ filled (pair.0, pair.1.items)) }
            {
                let (vertices, inboxes) = pair;
                vertices.filled(inboxes)
            },
        )
        .collect::<Result<Vec<PartStates>, AllocError>>(rt, alloc)?
}

// Puts each part beside the inboxes of its vertices.
fn paired(
    alloc: Global,
    vertices: Vec<PartStates>,
    inboxes: Vec<Vec<Inbox>>,
) -> Result<Vec<(PartStates, Vec<Inbox>)>, AllocError>
    ensures { IfOk result (λ pairs. pairs.items ≡ zip vertices.items inboxes.items) }
{
    vertices.into_iter().zip(inboxes).collect(alloc)
}

// Gives the inboxes that are not empty to the vertices of each part. All vertices have empty ones.
fn all_handed(
    alloc: Global,
    vertices: Vec<PartStates>,
    arrivals: Vec<Vec<Arrival>>,
) -> Result<Vec<PartStates>, AllocError>
    ensures { IfOk result (λ parts. (inboxes : List (List (List ℤ)))
        → map vec_items arrivals.items ≡ map (arrivals_from 0) inboxes
        → map length vertices.items ≡ map length inboxes
        → AllByRecursion (AllByRecursion HasNoInbox) vertices.items
        → parts.items ≡ all_filled vertices.items inboxes) }
{
    let mut parts = Vec::with_capacity(alloc, vertices.len())?;
    for pair in vertices.into_iter().zip(arrivals) {
        let (vertices, arrivals) = pair;
        let part = vertices.handed(arrivals)?;
        parts.push(part)?;
    }
    Ok(parts)
}
