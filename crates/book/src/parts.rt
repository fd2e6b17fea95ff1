//! The parts of a running job between two barriers.

ghost use Rattle.std.specs.Prelude.{◌≡◌, ◌<◌, ◌≤◌, true, suc, replicate, length, IfOk};
ghost use Rattle.superstep.specs.State.{HasIdsOf};
ghost use Rattle.book.specs.Saving.{IsFullStateAt};
ghost use Rattle.book.specs.inside.Parts.{IsHome, all_home, moved, returned};
ghost use Rattle.book.specs.inside.Parts.Spot.{Gone, Returned};

use crate::part_slots::{PartSlot, dones_of, in_slots, slice_of};
use std::alloc::{AllocError, Global};
use std::marker::Model;
use std::mem;
use std::thread::Threads;
use superstep::{Apart, Done, Job, Origin, State, Task, Totals, barrier, take_apart};

/// The parts of a running job between two barriers. Slices are moved out with tasks, and none is copied. In contracts
/// the model is the epoch, the superstep and where each part is.
pub struct Parts<J: Origin> {
    // The last epoch of which something is here.
    epoch: u64,
    totals: Totals,
    aggregates: [i64; 8],
    part_slots: Vec<PartSlot<J>>,
}

impl<J: Origin> Drop for Parts<J> {
    fn drop(self) {
        let Parts {
            epoch: _,
            totals: _,
            aggregates: _,
            part_slots: _,
        } = self;
    }
}

impl<J: Origin> Model for Parts<J> {
    ghost use Rattle.book.specs.inside.Parts.{Placement};
    ghost use Rattle.book.specs.inside.PartSlots.{IsKept, spots_of};

    ghost Value = { Placement };

    ghost view = { λ parts. record {
      epoch = parts.epoch;
      superstep = parts.totals.superstep;
      since = parts.totals.since;
      spots = spots_of parts.part_slots.items;
    } };

    ghost invariant = { λ parts.
        IsKept J.work J.honest parts.epoch parts.totals parts.aggregates parts.part_slots.items };
}

impl<J: Origin> Parts<J> {
    /// Cuts a state into its parts in this epoch. All of it is moved, not copied. `Err` is out of memory.
    pub fn of(alloc: Global, job: &Job, epoch: u64, state: State) -> Result<Parts<J>, AllocError>
        requires job { J.work ≡ job.now }
        requires fits { HasIdsOf job.now state }
        requires at { J.honest epoch ≡ true → IsFullStateAt J.work state.superstep state }
        ensures { IfOk result (λ parts.
            parts ≡ all_home epoch state.superstep state.since job.now.settings.parts) }
    {
        let Apart {
            totals,
            aggregates,
            slices,
        } = take_apart::<J>(alloc, job, epoch, state)?;
        let part_slots = in_slots(alloc, slices)?;
        Ok(Parts {
            epoch,
            totals,
            aggregates,
            part_slots,
        })
    }

    /// Takes the slice of a part that is here, as a task. It allocates nothing.
    pub fn hand_out(&mut self, part: u32, epoch: u64) -> Task<J>
        requires home { IsHome self.old part }
        requires later { self.old.epoch ≤ epoch }
        ensures epoch { result.epoch ≡ epoch }
        ensures superstep { result.superstep ≡ self.old.superstep }
        ensures part { result.part ≡ part }
        ensures after { self.new ≡ moved self.old part Gone }
    {
        let slot = mem::replace(&mut self.part_slots[part as usize], PartSlot::Away);
        Task::new(epoch, slice_of(slot), self.aggregates)
    }

    /// Puts a result in the slot of its part. It allocates nothing.
    pub fn bring_back(&mut self, done: Done<J>)
        requires superstep { done.superstep ≡ self.old.superstep }
        requires part { done.part < length self.old.spots }
        requires later { self.old.epoch ≤ done.epoch }
        ensures { self.new ≡ returned self.old done.part done.epoch }
    {
        let part = done.part() as usize;
        self.epoch = done.epoch();
        self.part_slots[part] = PartSlot::Back(done);
    }

    /// Merges the results of all parts into the state after the superstep. `Err` is out of memory.
    pub fn merge(
        self,
        rt: &(impl Threads + Sync),
        alloc: Global,
        job: &Job,
    ) -> Result<State, AllocError>
        requires job { J.work ≡ job.now }
        requires all { self.spots ≡ replicate job.now.settings.parts Returned }
        requires early { self.superstep < job.now.settings.limit }
        ensures next { IfOk result (λ state. J.honest self.epoch ≡ true
            → IsFullStateAt J.work (suc self.superstep) state) }
        ensures superstep { IfOk result (λ state. state.superstep ≡ suc self.superstep) }
        ensures since { IfOk result (λ state. state.since ≡ self.since) }
        ensures ids { IfOk result (HasIdsOf job.now) }
    {
        let Parts {
            epoch: _,
            totals,
            aggregates: _,
            part_slots,
        } = self;
        let dones = dones_of(alloc, part_slots)?;
        barrier(rt, alloc, job, totals, dones)
    }
}
