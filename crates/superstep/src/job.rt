//! Jobs: a module's calls over a graph.

ghost use Rattle.std.specs.Prelude.{◌≡◌, ◌<◌, ◌-◌, ◌^◌, None, length, map, min, sum_by, vec_items, IfOk, IfErr};
ghost use Rattle.graph.specs.Entry.{ids, parts_of, vertex_id};
ghost use Rattle.graph.specs.Parts.{part_entries};
ghost use Rattle.superstep.specs.Job.{HasGraph, IsCount, IsEdgeCount, IsGraphOf, Meaning};
ghost use Rattle.job_state.specs.Settings.{Refuses, first_bad};
ghost use Rattle.job_state.specs.declared.fault.JobFault.TheVariants.{OutOfMemory};
ghost use Rattle.job_state.specs.declared.fault.Place.TheVariants.{Open};
ghost use Rattle.superstep.specs.inside.Opening.{IsOpen, edges_at};

use graph::{Graph, Part, Vertex, split};
use job_state::{JobFault, Place, Settings};
use semantics::calls_are_a_function;
use std::alloc::{AllocError, Global};
use std::marker::Model;
use verified::Verified;

/// A module's calls over a graph, superstep after superstep (Pregel 2010, 2).
///
/// It has the graph's parts, and the ids of each part's vertices, which every barrier needs. In contracts its model is the
/// module, those parts and the settings.
pub struct Job {
    kept: Box<Kept>,
}

impl Drop for Job {
    fn drop(self) {
        let Job { kept: _ } = self;
    }
}

// The contents of a job. They are in a box, so that each owner drops them by one call.
struct Kept {
    verified: Verified,
    parts: Vec<Part>,
    ids: Vec<Vec<u64>>,
    count: u32,
    settings: Settings,
}

impl Drop for Kept {
    fn drop(self) {
        let Kept {
            verified: _,
            parts: _,
            ids: _,
            count: _,
            settings: _,
        } = self;
    }
}

// Counts the edges of these vertices. The count stops at the greatest number.
fn edges_in(vertices: &[Vertex]) -> u64
    ensures { result ≡ min (sum_by edges_at vertices.now) (2 ^ 64 - 1) }
{
    let mut count = 0u64;
    for vertex in vertices {
        count = count.saturating_add(vertex.edges.len() as u64);
    }
    count
}

// A graph in parts, the ids of each part's vertices, and the number of all vertices.
#[derive(Drop)]
struct Cut {
    parts: Vec<Part>,
    ids: Vec<Vec<u64>>,
    count: u32,
}

impl Model for Job {
    ghost use Rattle.std.specs.Prelude.{map, vec_items};
    ghost use Rattle.graph.specs.Parts.{part_entries};
    ghost use Rattle.superstep.specs.Job.{Work};
    ghost use Rattle.superstep.specs.inside.Codes.{work_code};
    ghost use Rattle.superstep.specs.inside.Opening.{IsOpen};

    ghost Value = { Work };

    ghost coded = { work_code };

    ghost view = { λ job. record {
      «module» = job.kept.value.verified;
      parts = map part_entries job.kept.value.parts.items;
      settings = job.kept.value.settings;
    } };

    ghost invariant = { λ job.
        IsOpen job.kept.value.verified (map part_entries job.kept.value.parts.items)
        (map vec_items job.kept.value.ids.items) job.kept.value.settings job.kept.value.count };
}

impl Job {
    /// Makes the job of a module over a graph. The edges are moved, not copied.
    ///
    /// It fails with `Settings` and the first setting that is out of its range, or with `OutOfMemory(Open)`.
    pub fn new(
        alloc: Global,
        verified: Verified,
        graph: Graph,
        settings: Settings,
    ) -> Result<Job, JobFault>
        ensures verified { IfOk result (λ job. job.«module» ≡ verified) }
        ensures graph { IfOk result (λ job. IsGraphOf job graph) }
        ensures settings { IfOk result (λ job. job.settings ≡ settings) }
        ensures good { IfOk result (λ job. first_bad settings ≡ None) }
        ensures refused { IfErr result (Refuses (first_bad settings)) }
    {
        match cut_graph(alloc, graph, settings) {
            Ok(cut) => Job::of(alloc, verified, cut, settings),
            Err(fault) => Err(fault),
        }
    }

    // Makes the job of a module over a graph in parts.
    fn of(alloc: Global, verified: Verified, cut: Cut, settings: Settings) -> Result<Job, JobFault>
        requires { IsOpen verified (map part_entries cut.parts.items) (map vec_items cut.ids.items)
            settings cut.count }
        ensures verified { IfOk result (λ job. job.«module» ≡ verified) }
        ensures parts { IfOk result (λ job. job.parts ≡ map part_entries cut.parts.items) }
        ensures settings { IfOk result (λ job. job.settings ≡ settings) }
        ensures refused { IfErr result (λ fault. fault ≡ OutOfMemory Open) }
    {
        let Cut { parts, ids, count } = cut;
        let kept = Kept {
            verified,
            parts,
            ids,
            count,
            settings,
        };
        match boxed(alloc, kept) {
            Ok(kept) => Ok(Job { kept }),
            Err(_) => Err(JobFault::OutOfMemory(Place::Open)),
        }
    }

    /// Returns the module.
    pub fn verified(&self) -> &Verified
        ensures { result.now ≡ self.now.«module» }
    {
        &self.kept.verified
    }

    /// Returns the settings, each of which is in its range.
    pub fn settings(&self) -> Settings
        ensures settings { result ≡ self.now.settings }
        ensures good { first_bad self.now.settings ≡ None }
        ensures graph { HasGraph self.now }
    {
        self.kept.settings
    }

    /// Returns the number of the graph's vertices.
    pub fn count(&self) -> u32
        ensures { IsCount self.now result }
    {
        self.kept.count
    }

    /// Counts the graph's edges. It looks at each vertex.
    pub fn edge_count(&self) -> u64
        ensures { IsEdgeCount self.now result }
    {
        let mut count = 0u64;
        for part in self.parts() {
            count = count.saturating_add(edges_in(&part.vertices));
        }
        count
    }

    /// Shows that the job's plain run exists: there is a graph, and one function that gives the outcome of each call.
    pub fn has_meaning(&self)
        ensures { Meaning self.now }
    {
        calls_are_a_function();
        self.settings();
        let _module = self.verified().module();
    }

    /// Returns the graph's parts, each with its vertices by rising id.
    pub fn parts(&self) -> &[Part]
        ensures parts { map part_entries result.now ≡ self.now.parts }
        ensures graph { HasGraph self.now }
        ensures good { first_bad self.now.settings ≡ None }
    {
        &self.kept.parts
    }

    // Returns the ids of each part's vertices.
    pub(crate) fn ids(&self) -> &[Vec<u64>]
        ensures { map vec_items result.now ≡ map ids self.now.parts }
    {
        &self.kept.ids
    }
}

// Puts the contents of a job into a box.
fn boxed(alloc: Global, kept: Kept) -> Result<Box<Kept>, AllocError>
    ensures { IfOk result (λ boxed. boxed.value ≡ kept) }
{
    Ok(Box::new(alloc, kept)?)
}

// Cuts the graph into parts, where the settings are good.
fn cut_graph(alloc: Global, graph: Graph, settings: Settings) -> Result<Cut, JobFault>
    ensures good { IfOk result (λ cut. first_bad settings ≡ None) }
    ensures parts { IfOk result (λ cut.
        map part_entries cut.parts.items ≡ parts_of settings.parts graph) }
    ensures ids { IfOk result (λ cut.
        map vec_items cut.ids.items ≡ map ids (map part_entries cut.parts.items)) }
    ensures count { IfOk result (λ cut. cut.count ≡ length graph) }
    ensures refused { IfErr result (Refuses (first_bad settings)) }
{
    if let Some(setting) = settings.first_bad() {
        return Err(JobFault::Settings(setting));
    }
    let count = graph.vertices().len() as u32;
    match split_with_ids(alloc, graph, settings.parts) {
        Ok((parts, ids)) => Ok(Cut { parts, ids, count }),
        Err(_) => Err(JobFault::OutOfMemory(Place::Open)),
    }
}

// Splits the graph into `count` parts, and lists the ids of each part's vertices.
fn split_with_ids(
    alloc: Global,
    graph: Graph,
    count: u32,
) -> Result<(Vec<Part>, Vec<Vec<u64>>), AllocError>
    requires { 0 < count }
    ensures parts { IfOk result (λ split.
        map part_entries split.0.items ≡ parts_of count graph) }
    ensures ids { IfOk result (λ split.
        map vec_items split.1.items ≡ map ids (map part_entries split.0.items)) }
{
    let parts = split(alloc, graph, count)?;
    let ids = ids_of_all(alloc, &parts)?;
    Ok((parts, ids))
}

// Lists the ids of each part's vertices.
fn ids_of_all(alloc: Global, parts: &[Part]) -> Result<Vec<Vec<u64>>, AllocError>
    ensures { IfOk result (λ all.
        map vec_items all.items ≡ map ids (map part_entries parts.now)) }
{
    let mut all = Vec::with_capacity(alloc, parts.len())?;
    for part in parts {
        all.push(ids_of(alloc, &part.vertices)?)?;
    }
    Ok(all)
}

fn ids_of(alloc: Global, vertices: &[Vertex]) -> Result<Vec<u64>, AllocError>
    ensures { IfOk result (λ all. all.items ≡ map vertex_id vertices.now) }
{
    vertices.iter().map(|vertex| vertex.id).collect(alloc)
}
