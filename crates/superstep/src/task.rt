//! Tasks: one superstep on one part.

ghost use Rattle.std.specs.Prelude.{◌≡◌, true, IfOk};
ghost use Rattle.superstep.specs.Found.{IsFoundAt};
ghost use Rattle.superstep.specs.Tasks.{AreAggregatesAt, FitsPart, IsDone, IsPartAt, IsSentAt};

use crate::slice::{Origin, Slice};
use inbox::Outbox;
use job_state::{Found, PartStates, Place};
use std::alloc::{AllocError, Global};
use std::marker::{Model, PhantomData};
use verified::Verified;

/// A superstep on one part, for a worker. In contracts its model is the epoch, the superstep and the part.
#[derive(Drop)]
pub struct Task<J: Origin> {
    epoch: u64,
    slice: Slice<J>,
    aggregated: [i64; 8],
}

impl<J: Origin> Model for Task<J> {
    ghost use Rattle.std.specs.Prelude.{◌≡◌, true};
    ghost use Rattle.job_state.specs.Stamps.{TaskStamp};
    ghost use Rattle.superstep.specs.Tasks.{AreAggregatesAt};

    ghost Value = { TaskStamp };

    ghost view = { λ task. record {
      epoch = task.epoch;
      superstep = task.slice.superstep;
      part = task.slice.part;
    } };

    ghost invariant = { λ task. J.honest task.epoch ≡ true
        → (J.honest task.slice.epoch ≡ true)
        × AreAggregatesAt J.work task.slice.superstep task.aggregated };
}

impl<J: Origin> Task<J> {
    /// Makes the task of a slice. `aggregated` has the aggregates of the superstep before. It allocates nothing.
    pub fn new(epoch: u64, slice: Slice<J>, aggregated: [i64; 8]) -> Task<J>
        requires { J.honest epoch ≡ true
            → (J.honest slice.epoch ≡ true) × AreAggregatesAt J.work slice.superstep aggregated }
        ensures epoch { result.epoch ≡ epoch }
        ensures superstep { result.superstep ≡ slice.superstep }
        ensures part { result.part ≡ slice.part }
    {
        Task {
            epoch,
            slice,
            aggregated,
        }
    }

    /// Returns the epoch in which it was assigned.
    pub fn epoch(&self) -> u64
        ensures { result ≡ self.now.epoch }
    {
        self.epoch
    }

    /// Returns the superstep to run.
    pub fn superstep(&self) -> u32
        ensures { result ≡ self.now.superstep }
    {
        self.slice.superstep()
    }

    /// Returns the part's number, counted from 0.
    pub fn part(&self) -> u32
        ensures { result ≡ self.now.part }
    {
        self.slice.part()
    }

    /// Counts what it finds in its part. It looks at each vertex that is called.
    pub fn found(&self) -> Found
        ensures { J.honest self.now.epoch ≡ true
            → IsFoundAt J.work self.now.superstep self.now.part result }
    {
        self.slice.found()
    }

    /// Takes it apart: the vertices of its part, and the aggregates of the superstep before.
    pub fn into_parts(self) -> (PartStates, [i64; 8])
        ensures fits { FitsPart J.work self.part result.0 }
        ensures at { J.honest self.epoch ≡ true
            → IsPartAt J.work self.superstep self.part result.0 }
        ensures aggregates { J.honest self.epoch ≡ true
            → AreAggregatesAt J.work self.superstep result.1 }
    {
        let Task {
            epoch: _,
            slice,
            aggregated,
        } = self;
        (slice.into_states(), aggregated)
    }
}

/// The result of a task. In contracts its model is the epoch, the superstep, the part and the units.
pub struct Done<J: Origin> {
    epoch: u64,
    superstep: u32,
    part: u32,
    units: u128,
    vertices: PartStates,
    letters: Outbox,
    aggregators: [i64; 8],
    origin: PhantomData<J>,
}

impl<J: Origin> Drop for Done<J> {
    fn drop(self) {
        let Done {
            epoch: _,
            superstep: _,
            part: _,
            units: _,
            vertices: _,
            letters: _,
            aggregators: _,
            origin: _,
        } = self;
    }
}

impl<J: Origin> Model for Done<J> {
    ghost use Rattle.job_state.specs.Stamps.{DoneStamp};
    ghost use Rattle.superstep.specs.Tasks.{IsDone};

    ghost Value = { DoneStamp };

    ghost view = { λ done. record {
      epoch = done.epoch;
      superstep = done.superstep;
      part = done.part;
      units = done.units;
    } };

    ghost invariant = { λ done. IsDone J.work J.honest
        (record {
          epoch = done.epoch;
          superstep = done.superstep;
          part = done.part;
          units = done.units;
        })
        done.vertices done.letters done.aggregators };
}

impl<J: Origin> Done<J> {
    /// Makes the result of a task from what its calls left: their units, the vertices, the letters and the aggregators.
    pub fn of(
        epoch: u64,
        superstep: u32,
        part: u32,
        units: u128,
        vertices: PartStates,
        letters: Outbox,
        aggregators: [i64; 8],
    ) -> Done<J>
        requires { IsDone J.work J.honest
            (record { epoch = epoch; superstep = superstep; part = part; units = units })
            vertices letters aggregators }
        ensures epoch { result.epoch ≡ epoch }
        ensures superstep { result.superstep ≡ superstep }
        ensures part { result.part ≡ part }
        ensures units { result.units ≡ units }
    {
        Done {
            epoch,
            superstep,
            part,
            units,
            vertices,
            letters,
            aggregators,
            origin: PhantomData,
        }
    }

    /// Returns the epoch of its task.
    pub fn epoch(&self) -> u64
        ensures { result ≡ self.now.epoch }
    {
        self.epoch
    }

    /// Returns the superstep that was run.
    pub fn superstep(&self) -> u32
        ensures { result ≡ self.now.superstep }
    {
        self.superstep
    }

    /// Returns the part's number, counted from 0.
    pub fn part(&self) -> u32
        ensures { result ≡ self.now.part }
    {
        self.part
    }

    /// Returns the units of the part's calls. They stop at the greatest number of 128 bits.
    pub fn units(&self) -> u128
        ensures { result ≡ self.now.units }
    {
        self.units
    }

    /// Returns the number of messages that the part's vertices sent.
    pub fn sent(&self) -> usize
        ensures { J.honest self.now.epoch ≡ true
            → IsSentAt J.work self.now.superstep self.now.part result }
    {
        self.letters.len()
    }

    // Returns the vertices after their calls, the letters, the aggregators and the units.
    pub(crate) fn into_parts(self) -> (PartStates, Outbox, [i64; 8], u128)
        ensures is { IsDone J.work J.honest self result.0 result.1 result.2 }
        ensures units { result.3 ≡ self.units }
    {
        let Done {
            epoch: _,
            superstep: _,
            part: _,
            units,
            vertices,
            letters,
            aggregators,
            origin: _,
        } = self;
        (vertices, letters, aggregators, units)
    }

    /// Copies the result, as if it had arrived twice. It fails only where memory runs out.
    pub fn copy(&self, alloc: Global) -> Result<Done<J>, AllocError>
        ensures { IfOk result (λ copy. copy ≡ self.now) }
    {
        let vertices = self.vertices.copy(alloc)?;
        let letters = self.letters.copy(alloc)?;
        Ok(Done {
            epoch: self.epoch,
            superstep: self.superstep,
            part: self.part,
            units: self.units,
            vertices,
            letters,
            aggregators: self.aggregators,
            origin: PhantomData,
        })
    }
}

/// A task that failed, and the work during which memory ran out.
#[derive(Clone, Copy)]
pub struct TaskLost {
    pub place: Place,
}

/// The input that all calls of a superstep share.
#[derive(Clone, Copy)]
pub struct Shared<'a> {
    pub verified: &'a Verified,
    pub superstep: u32,
    pub count: u32,
    pub aggregated: [i64; 8],
}
