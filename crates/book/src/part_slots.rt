//! The slots of parts. Each has the part's slice, or its result, or nothing while the part is away.

ghost use Rattle.std.specs.Prelude.{◌≡◌, true, map, IfOk};
ghost use Rattle.book.specs.inside.PartSlots.{AreBack, is_back, is_here};

use std::alloc::{AllocError, Global};
use superstep::{Done, Origin, Slice};

/// The slot of a part.
#[derive(Drop)]
pub enum PartSlot<J: Origin> {
    /// The slice is here, and can be assigned.
    Here(Slice<J>),
    /// The slice is with a worker, or lost with it.
    Away,
    /// The result of the part is here.
    Back(Done<J>),
}

/// Puts each slice in a slot.
pub fn in_slots<J: Origin>(
    alloc: Global,
    slices: Vec<Slice<J>>,
) -> Result<Vec<PartSlot<J>>, AllocError>
    ensures { IfOk result (λ part_slots. part_slots.items ≡ map PartSlot.Here slices.items) }
{
    slices
        .into_iter()
        .map(|slice| PartSlot::Here(slice))
        .collect(alloc)
}

/// Returns the slice in the slot.
pub fn slice_of<J: Origin>(slot: PartSlot<J>) -> Slice<J>
    requires { is_here slot ≡ true }
    ensures { slot ≡ PartSlot.Here result }
{
    match slot {
        PartSlot::Here(slice) => slice,
        _ => unreachable!(),
    }
}

fn done_of<J: Origin>(slot: PartSlot<J>) -> Done<J>
    requires { is_back slot ≡ true }
    ensures { slot ≡ PartSlot.Back result }
{
    match slot {
        PartSlot::Back(done) => done,
        _ => unreachable!(),
    }
}

/// Returns the results of all parts, in order.
pub fn dones_of<J: Origin>(
    alloc: Global,
    part_slots: Vec<PartSlot<J>>,
) -> Result<Vec<Done<J>>, AllocError>
    requires { AreBack part_slots.items }
    ensures { IfOk result (λ dones. map PartSlot.Back dones.items ≡ part_slots.items) }
{
    let mut dones = Vec::with_capacity(alloc, part_slots.len())?;
    for slot in part_slots {
        dones.push(done_of(slot))?;
    }
    Ok(dones)
}
