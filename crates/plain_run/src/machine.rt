//! The plain run of a job, on one machine and by its definition. All vertices are in one list, by rising id, without parts.
//! Messages are delivered in the order of sending.

ghost use Rattle.std.specs.Prelude.{◌≡◌, ◌<◌, ◌-◌, ◌^◌, ◌++◌, ◌∷◌, [], map, not, pos, false, slice_index, length, All};
ghost use Rattle.std.specs.Prelude.{IfOk, IfSome, IfNone, OnOk};
ghost use Rattle.std.specs.List.{list_any};
ghost use Rattle.std.specs.List.Sorted.{IsStrictlyIncreasing};
ghost use Rattle.std.specs.Ordering.{int_eq};
ghost use Rattle.semantics.specs.Call.{Outcome, shown};
ghost use Rattle.semantics.specs.Outcomes.{Given};
ghost use Rattle.graph.specs.Entry.{ids as entry_ids};
ghost use Rattle.superstep.specs.Ending.{IsEndOf};
ghost use Rattle.superstep.specs.Job.{IsGraphOf, Meaning};
ghost use Rattle.superstep.specs.Snapshot.{is_called, is_quiet};
ghost use Rattle.superstep.specs.Superstep.{is_sent_to};
ghost use Rattle.superstep.specs.inside.Called.{HasProperIds, Tells, left_in};
ghost use Rattle.plain_run.specs.inside.OneMachine.{AreLeft, Calls, GivesAnswer, GoesOn, IsBegun, IsFirst, Leaves, entries_in};
ghost use Rattle.plain_run.specs.inside.OneMachine.{called_row, entry_in, entry_now, id_now, is_called_in, is_over, lost_in, row_in, rows_in, snapshot_of, value_in};
ghost use Rattle.plain_run.specs.inside.OneMachine.{with_messages};

use graph::Vertex;
use interp::{Scratch, run};
use semantics::calls_are_a_function;
use std::alloc::{AllocError, Global};
use std::thread::Threads;
use superstep::{EndReason, Job, JobEnd, Shared, give_all};
use verified::{CallInput, CallOutcome, aggregator_starts};

/// Runs a job on one machine (Pregel 2010, 2): superstep after superstep, until no vertex is active and every inbox is empty,
/// or until the limit is reached. It reports the units of each superstep. It fails only where memory runs out.
///
/// It is the definition as a program: all vertices are in one list by rising id, and there are no parts. The delivery of n
/// messages takes O(n log n) time.
pub fn one_machine(
    _rt: &(impl Threads + Sync),
    alloc: Global,
    job: &Job,
) -> Result<JobEnd, AllocError>
    // The plain run exists: there is a graph, and one function that gives the outcome of each call.
    ensures meaning { Meaning job.now }
    ensures end { IfOk result (IsEndOf job.now) }
    ensures since { IfOk result (λ ended. ended.since ≡ 0) }
{
    job.has_meaning();
    let vertices = vertices_of(alloc, job)?;
    run_over(alloc, job, &vertices)
}

// Lists the vertices of the job's graph, by rising id.
fn vertices_of(alloc: Global, job: &Job) -> Result<Vec<&Vertex>, AllocError>
    ensures { IfOk result (λ vertices. IsGraphOf job.now (map entry_now vertices.items)) }
{
    let mut vertices = Vec::new(alloc);
    for part in job.parts() {
        vertices.extend(part.vertices.iter())?;
    }
    vertices.sort_by_cached_key(|vertex| vertex.id)?;
    Ok(vertices)
}

// Runs the job over these vertices.
fn run_over(alloc: Global, job: &Job, vertices: &[&Vertex]) -> Result<JobEnd, AllocError>
    requires { IsGraphOf job.now (map entry_now vertices.now) }
    ensures end { IfOk result (IsEndOf job.now) }
    ensures since { IfOk result (λ ended. ended.since ≡ 0) }
{
    let ids = ids_of(alloc, vertices)?;
    let mut scratch = Scratch::new(alloc, job.verified())?;
    let mut plain = begin(alloc, vertices)?;
    let limit = job.settings().limit;
    while !plain.is_over(limit) {
        plain.run_superstep(alloc, job, &ids, &mut scratch)?;
    }
    tell(alloc, plain)
}

fn ids_of(alloc: Global, vertices: &[&Vertex]) -> Result<Vec<u64>, AllocError>
    ensures { IfOk result (λ all. all.items ≡ map id_now vertices.now) }
{
    vertices.iter().map(|vertex| vertex.id).collect(alloc)
}

// A vertex between two supersteps.
#[derive(Drop)]
struct Held<'a> {
    vertex: &'a Vertex,
    value: i64,
    // Whether it has not voted to halt.
    active: bool,
    // The messages sent to it in the superstep before.
    inbox: Vec<i64>,
}

// The machine between two supersteps: all vertices, by rising id, and the totals so far.
#[derive(Drop)]
struct OneMachine<'a> {
    superstep: u32,
    vertices: Vec<Held<'a>>,
    aggregates: [i64; 8],
    by_superstep: Vec<u128>,
    units: u128,
    dropped: u128,
}

// The output of the calls of a superstep so far.
#[derive(Drop)]
struct Sent {
    // In the order of sending.
    messages: Vec<(i64, i64)>,
    aggregators: [i64; 8],
    units: u128,
}

// Starts before superstep 0: every vertex is active, and every inbox is empty.
fn begin<'a>(alloc: Global, vertices: &[&'a Vertex]) -> Result<OneMachine<'a>, AllocError>
    ensures { IfOk result (IsBegun (map entry_now vertices.now)) }
{
    let mut all = Vec::with_capacity(alloc, vertices.len())?;
    for vertex in vertices {
        all.push(first_held(alloc, vertex))?;
    }
    Ok(OneMachine {
        superstep: 0,
        vertices: all,
        aggregates: aggregator_starts(),
        by_superstep: Vec::new(alloc),
        units: 0,
        dropped: 0,
    })
}

fn first_held<'a>(alloc: Global, vertex: &'a Vertex) -> Held<'a>
    ensures { IsFirst vertex.now result }
{
    Held {
        vertex,
        value: vertex.value,
        active: true,
        inbox: Vec::new(alloc),
    }
}

impl<'a> OneMachine<'a> {
    // Checks that no vertex is active or has messages.
    fn is_quiet(&self) -> bool
        ensures { result ≡ is_quiet (snapshot_of self.now) }
    {
        is_none_called(&self.vertices)
    }

    // Checks whether the job ends before the superstep that comes next.
    fn is_over(&self, limit: u32) -> bool
        ensures { result ≡ is_over limit self.now }
    {
        self.is_quiet() || self.superstep >= limit
    }

    // Runs one superstep: the calls, by rising id, and then the delivery of their messages.
    fn run_superstep(
        &mut self,
        alloc: Global,
        job: &Job,
        ids: &[u64],
        scratch: &mut Scratch,
    ) -> Result<(), AllocError>
        requires graph { IsGraphOf job.now (entries_in self.old.vertices.items) }
        requires ids { ids.now ≡ entry_ids (entries_in self.old.vertices.items) }
        requires early { self.old.superstep < 2 ^ 32 - 1 }
        requires fits { scratch.old ≡ job.now.«module» }
        ensures kept { scratch.new ≡ scratch.old }
        ensures next { OnOk result (GoesOn job.now self.old self.new) }
    {
        calls_are_a_function();
        let shared = Shared {
            verified: job.verified(),
            superstep: self.superstep,
            count: job.count(),
            aggregated: self.aggregates,
        };
        let sent = call_all(alloc, &shared, &mut self.vertices, scratch)?;
        let dropped = deliver_all(ids, &mut self.vertices, &sent.messages)?;
        self.by_superstep.push(sent.units)?;
        self.superstep += 1;
        self.aggregates = sent.aggregators;
        self.units = self.units.saturating_add(sent.units);
        self.dropped = self.dropped.saturating_add(u128::from(dropped));
        Ok(())
    }
}

fn is_none_called(vertices: &[Held]) -> bool
    ensures { result ≡ not (list_any is_called_in vertices.now) }
{
    for held in vertices {
        if held.is_called() {
            return false;
        }
    }
    true
}

impl<'a> Held<'a> {
    fn is_called(&self) -> bool
        ensures { result ≡ is_called (row_in self.now) }
    {
        self.active || !self.inbox.is_empty()
    }

    // Takes over the outcome of its call, which has read its messages.
    fn take(&mut self, alloc: Global, outcome: &CallOutcome)
        ensures entry { entry_in self.new ≡ entry_in self.old }
        ensures row { row_in self.new ≡ called_row (row_in self.old) (shown outcome.now) }
    {
        self.value = outcome.value;
        self.active = !outcome.halted;
        self.inbox = Vec::new(alloc);
    }
}

impl Sent {
    // Adds the outcome of one more call.
    fn add(&mut self, outcome: &CallOutcome) -> Result<(), AllocError>
        ensures { OnOk result (Leaves (shown outcome.now) self.old self.new) }
    {
        self.messages.extend_from_slice(&outcome.sends)?;
        give_all(&mut self.aggregators, &outcome.contributions);
        self.units = self.units.saturating_add(outcome.units);
        Ok(())
    }
}

// Calls all vertices that are active or have messages, one after another.
fn call_all(
    alloc: Global,
    shared: &Shared,
    vertices: &mut [Held],
    scratch: &mut Scratch,
) -> Result<Sent, AllocError>
    requires proper { All HasProperIds (entries_in vertices.old) }
    requires fits { scratch.old ≡ shared.now.verified.now }
    ensures kept { scratch.new ≡ scratch.old }
    ensures same { OnOk result (entries_in vertices.new ≡ entries_in vertices.old) }
    ensures calls { IfOk result (λ sent. (outcomes : Given → Outcome)
        → Tells shared.now.verified.now outcomes
        → AreLeft (left_in outcomes shared.now)
        (rows_in vertices.old) (rows_in vertices.new) sent) }
{
    let mut sent = Sent {
        messages: Vec::new(alloc),
        aggregators: aggregator_starts(),
        units: 0,
    };
    for index in 0..vertices.len() {
        call(alloc, shared, &mut vertices[index], scratch, &mut sent)?;
    }
    Ok(sent)
}

// Calls a vertex that is active or has messages. Any other stays as it is.
fn call(
    alloc: Global,
    shared: &Shared,
    held: &mut Held,
    scratch: &mut Scratch,
    sent: &mut Sent,
) -> Result<(), AllocError>
    requires proper { HasProperIds (entry_in held.old) }
    requires fits { scratch.old ≡ shared.now.verified.now }
    ensures kept { scratch.new ≡ scratch.old }
    ensures same { OnOk result (entry_in held.new ≡ entry_in held.old) }
    ensures calls { OnOk result ((outcomes : Given → Outcome)
        → Tells shared.now.verified.now outcomes
        → Calls (left_in outcomes shared.now)
        (row_in held.old) (row_in held.new) sent.old sent.new) }
{
    if !held.is_called() {
        return Ok(());
    }
    let input = CallInput {
        id: held.vertex.id,
        superstep: shared.superstep,
        count: shared.count,
        value: held.value,
        messages: &held.inbox,
        edges: &held.vertex.edges,
        aggregated: shared.aggregated,
    };
    let outcome = run(alloc, shared.verified, &input, scratch)?;
    sent.add(&outcome)?;
    held.take(alloc, &outcome);
    scratch.reuse(outcome);
    Ok(())
}

// Puts each message into the inbox of its target, and counts those that go to no vertex.
fn deliver_all(
    ids: &[u64],
    vertices: &mut [Held],
    messages: &[(i64, i64)],
) -> Result<u64, AllocError>
    requires rising { IsStrictlyIncreasing ids.now }
    requires ids { ids.now ≡ entry_ids (entries_in vertices.old) }
    ensures same { OnOk result (entries_in vertices.new ≡ entries_in vertices.old) }
    ensures rows { OnOk result
        (rows_in vertices.new ≡ map (with_messages messages.now) (rows_in vertices.old)) }
    ensures dropped { IfOk result (λ dropped. dropped ≡ lost_in ids.now messages.now) }
{
    let mut dropped = 0;
    for message in messages {
        if !deliver(ids, vertices, *message)? {
            dropped += 1;
        }
    }
    Ok(dropped)
}

// Puts the message into the inbox of its target, and returns whether there is one.
fn deliver(ids: &[u64], vertices: &mut [Held], message: (i64, i64)) -> Result<bool, AllocError>
    requires rising { IsStrictlyIncreasing ids.now }
    requires ids { ids.now ≡ entry_ids (entries_in vertices.old) }
    ensures same { OnOk result (entries_in vertices.new ≡ entries_in vertices.old) }
    ensures rows { OnOk result
        (rows_in vertices.new ≡ map (with_messages (message ∷ [])) (rows_in vertices.old)) }
    ensures found { IfOk result (λ found.
        found ≡ list_any (λ id. is_sent_to id message) ids.now) }
{
    let (to, value) = message;
    match place_of(ids, to) {
        Some(place) => {
            vertices[place].inbox.push(value)?;
            Ok(true)
        }
        None => Ok(false),
    }
}

// Finds the place of an id among ids that rise.
fn place_of(ids: &[u64], id: i64) -> Option<usize>
    requires { IsStrictlyIncreasing ids.now }
    ensures inside { IfSome result (λ place. place < length ids.now) }
    ensures found { IfSome result (λ place. id ≡ pos (slice_index ids.now place)) }
    ensures none { IfNone result (list_any (λ other. int_eq id (pos other)) ids.now ≡ false) }
{
    match u64::try_from(id) {
        Ok(id) => ids.binary_search(&id).ok(),
        Err(_) => None,
    }
}

// Reports the end of a job whose run stops here.
fn tell(alloc: Global, plain: OneMachine) -> Result<JobEnd, AllocError>
    ensures { IfOk result (GivesAnswer plain.entry) }
{
    let how = if plain.is_quiet() {
        EndReason::Finished
    } else {
        EndReason::Limit
    };
    let values = values_of(alloc, &plain.vertices)?;
    Ok(JobEnd {
        how,
        superstep: plain.superstep,
        values,
        units: plain.units,
        dropped: plain.dropped,
        since: 0,
        by_superstep: plain.by_superstep,
    })
}

fn values_of(alloc: Global, vertices: &[Held]) -> Result<Vec<(u64, i64)>, AllocError>
    ensures { IfOk result (λ values. values.items ≡ map value_in vertices.now) }
{
    let mut values = Vec::with_capacity(alloc, vertices.len())?;
    for held in vertices {
        values.push((held.vertex.id, held.value))?;
    }
    Ok(values)
}
