//! Slices: the parts of a state, which move to workers.

ghost use Rattle.std.specs.Prelude.{◌≡◌, ◌≤◌, true, length, IfOk};
ghost use Rattle.superstep.specs.Found.{IsFoundAt};
ghost use Rattle.superstep.specs.Job.{Work};
ghost use Rattle.superstep.specs.State.{HasIdsOf, IsStateAt};
ghost use Rattle.superstep.specs.Tasks.{IsSlice, stamps_of};
ghost use Rattle.job_state.specs.Totals.{AreTotals, IsTotalsOf};
ghost use Rattle.superstep.specs.Totals.{AreTotalsOf};
ghost use Rattle.superstep.specs.inside.Rows.{AreSlices};

use crate::job::Job;
use job_state::{Found, PartStates, State, Totals};
use std::alloc::{AllocError, Global};
use std::marker::{Brand, Model, PhantomData};

/// A name of one job in the types of its slices, tasks and results. `work` is the job. `honest` says of each epoch that every state
/// that was loaded so far is one that was saved.
///
/// A caller names a job by a generic function that requires `J.work ≡ job.now` and is called with `Brand`.
pub trait Origin {
    ghost use Rattle.std.specs.Prelude.{◌≡◌, ◌<◌, ℕ, Bool, true};
    ghost use Rattle.superstep.specs.Job.{Work};

    ghost work: { Work };

    ghost honest: { ℕ → Bool };

    /// If it is honest in some epoch after the first, it is in all of them.
    ghost lasts: { (epoch other : ℕ) → 0 < epoch → honest epoch ≡ true → honest other ≡ true };
}

impl Origin for Brand {
    ghost use Rattle.std.specs.Prelude.{false};
    ghost use Rattle.superstep.specs.inside.Codes.{no_work};

    ghost work = { no_work };

    ghost honest = { λ _. false };

    ghost lasts = { λ _ _ _ never. never };
}

/// The vertices of one part before a superstep.
///
/// In contracts its model is the epoch, the superstep and the part. The vertices are those of this part of the job's state, if
/// the job is `honest` in this epoch; their ids always fit the part.
#[derive(Drop)]
pub struct Slice<J: Origin> {
    epoch: u64,
    part: u32,
    superstep: u32,
    vertices: PartStates,
    origin: PhantomData<J>,
}

impl<J: Origin> Model for Slice<J> {
    ghost use Rattle.superstep.specs.Tasks.{IsSlice, SliceStamp};

    ghost Value = { SliceStamp };

    ghost view = { λ slice. record {
      epoch = slice.epoch;
      superstep = slice.superstep;
      part = slice.part;
    } };

    ghost invariant = { λ slice. IsSlice J.work J.honest
        (record { epoch = slice.epoch; superstep = slice.superstep; part = slice.part })
        slice.vertices };
}

impl<J: Origin> Slice<J> {
    /// Returns the epoch in which it was made.
    pub fn epoch(&self) -> u64
        ensures { result ≡ self.now.epoch }
    {
        self.epoch
    }

    /// Returns the part's number, counted from 0.
    pub fn part(&self) -> u32
        ensures { result ≡ self.now.part }
    {
        self.part
    }

    /// Returns the superstep that comes next.
    pub fn superstep(&self) -> u32
        ensures { result ≡ self.now.superstep }
    {
        self.superstep
    }

    // Returns the vertices.
    pub(crate) fn into_states(self) -> PartStates
        ensures { IsSlice J.work J.honest self result }
    {
        let Slice {
            epoch: _,
            part: _,
            superstep: _,
            vertices,
            origin: _,
        } = self;
        vertices
    }

    // Counts the vertices that are called, and their messages.
    pub(crate) fn found(&self) -> Found
        ensures { J.honest self.now.epoch ≡ true
            → IsFoundAt J.work self.now.superstep self.now.part result }
    {
        self.vertices.found()
    }
}

/// A state taken apart for the superstep that comes next.
#[derive(Drop)]
pub struct Apart<J: Origin> {
    /// The totals before that superstep.
    pub totals: Totals,
    /// The value of each aggregator in the superstep before.
    pub aggregates: [i64; 8],
    /// The slices, one for each part and in order.
    pub slices: Vec<Slice<J>>,
}

/// Takes a state apart in this epoch. All of it is moved, not copied, so the time does not depend on the number of supersteps. It
/// fails only where memory runs out.
pub fn take_apart<J: Origin>(
    alloc: Global,
    job: &Job,
    epoch: u64,
    state: State,
) -> Result<Apart<J>, AllocError>
    requires job { J.work ≡ job.now }
    requires fits { HasIdsOf job.now state }
    requires at { J.honest epoch ≡ true → IsStateAt J.work state.superstep state }
    ensures of { IfOk result (λ apart. IsTotalsOf state apart.totals) }
    ensures totals { IfOk result (λ apart. AreTotals apart.totals) }
    ensures at { IfOk result (λ apart. (work : Work)
        → IsStateAt work state.superstep state → AreTotalsOf work apart.totals) }
    ensures aggregates { IfOk result (λ apart. apart.aggregates ≡ state.aggregates) }
    ensures slices { IfOk result (λ apart.
        apart.slices.items ≡ stamps_of epoch state.superstep job.now.settings.parts) }
{
    let aggregates = state.aggregates();
    let (totals, parts) = state.into_parts(alloc, job.settings().parts)?;
    let slices = label(alloc, epoch, totals.superstep, parts)?;
    Ok(Apart {
        totals,
        aggregates,
        slices,
    })
}

/// Makes the slices of a state, one for each part and in order, in epoch 0. The vertices are moved, not copied.
pub fn slices<J: Origin>(
    alloc: Global,
    job: &Job,
    state: State,
) -> Result<Vec<Slice<J>>, AllocError>
    requires job { J.work ≡ job.now }
    requires fits { HasIdsOf job.now state }
    requires at { J.honest 0 ≡ true → IsStateAt J.work state.superstep state }
    ensures { IfOk result (λ slices.
        slices.items ≡ stamps_of 0 state.superstep job.now.settings.parts) }
{
    let apart = take_apart(alloc, job, 0, state)?;
    Ok(apart.slices)
}

// Labels each part with its number.
fn label<J: Origin>(
    alloc: Global,
    epoch: u64,
    superstep: u32,
    cut: Vec<PartStates>,
) -> Result<Vec<Slice<J>>, AllocError>
    requires few { length cut.items ≤ 256 }
    requires parts { AreSlices J.work J.honest epoch superstep cut.items }
    ensures { IfOk result (λ slices.
        slices.items ≡ stamps_of epoch superstep (length cut.items)) }
{
    let mut slices = Vec::with_capacity(alloc, cut.len())?;
    let mut part = 0;
    for vertices in cut {
        slices.push(Slice {
            epoch,
            part,
            superstep,
            vertices,
            origin: PhantomData,
        })?;
        part += 1;
    }
    Ok(slices)
}
