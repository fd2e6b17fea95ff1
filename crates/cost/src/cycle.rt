//! Why a walk of the call graph stops: it has come back to a function on its path.

ghost use Rattle.std.specs.Prelude.{◌≡◌, ◌<◌, ◌≤◌, ◌++◌, ℕ, List, length, slice_index, take, drop};
ghost use Rattle.verified.specs.Calls.{Calls};
ghost use Rattle.verified.specs.Cycles.{LeastFirst};
ghost use Rattle.cost.specs.Faults.{Explains};
ghost use Rattle.cost.specs.declared.table.Mark.{Mark as AnyMark};
ghost use Rattle.cost.specs.declared.table.Mark.TheVariants.{Open, Unseen};
ghost use Rattle.cost.specs.Marks.{mark_at};
ghost use Rattle.cost.specs.inside.Stops.{AreFresh, IsUnseenBefore, Leaves, Targets};

use crate::fault::CostFault;

/// The reason why a walk stops.
#[derive(Drop)]
pub enum Stop {
    /// The walk has come back to this function by way of the others, the last first.
    Back(u32, Vec<u32>),
    /// These functions call each other in a cycle, the last first.
    Cycle(Vec<u32>),
    OutOfMemory,
}

/// Adds the caller to a stop. The stop is a cycle where the caller is the function that the walk came back to.
pub fn extend(stop: Stop, caller: u32) -> Stop
    ensures leaves { (calls : ℕ → List ℕ) (g : ℕ) →
        Calls calls caller g → Leaves calls g stop → Leaves calls caller result }
    ensures targets { (t : ℕ) → Targets result t → Targets stop t × (t ≡ caller → ⊥) }
    ensures fresh { (old new : List AnyMark) → IsUnseenBefore old new →
        mark_at old caller ≡ Unseen → mark_at new caller ≡ Open → AreFresh new stop → AreFresh old result }
{
    match stop {
        Stop::Back(target, mut trail) => {
            if trail.push(caller).is_err() {
                return Stop::OutOfMemory;
            }
            if target == caller {
                Stop::Cycle(trail)
            } else {
                Stop::Back(target, trail)
            }
        }
        Stop::Cycle(trail) => Stop::Cycle(trail),
        Stop::OutOfMemory => Stop::OutOfMemory,
    }
}

/// Turns the stop of a whole walk into a fault. Such a walk starts with no function on its path.
pub fn explain(stop: Stop) -> CostFault
    requires { (t : ℕ) → Targets stop t → ⊥ }
    ensures { (calls : ℕ → List ℕ) (f : ℕ) (marks : List AnyMark) →
        Leaves calls f stop → AreFresh marks stop → Explains calls result }
{
    match stop {
        Stop::Back(_, _) => unreachable!(),
        Stop::Cycle(trail) => {
            let mut cycle = trail;
            let items = cycle.as_mut_slice();
            items.reverse();
            rotate_to_least(items);
            CostFault::Cycle(cycle)
        }
        Stop::OutOfMemory => CostFault::OutOfMemory,
    }
}

// Rotates the cycle until it starts with its least index.
fn rotate_to_least(cycle: &mut [u32])
    ensures least { LeastFirst cycle.new }
    ensures turned { (k : ℕ) × (k ≤ length cycle.old)
        × (cycle.new ≡ drop k cycle.old ++ take k cycle.old) }
{
    let place = least_place(cycle);
    cycle.rotate_left(place);
}

// Finds the position of the least number, the first of several.
fn least_place(items: &[u32]) -> usize
    ensures within { result ≤ length items.now }
    ensures inside { 0 < length items.now → result < length items.now }
    ensures least { (k : ℕ) → k < length items.now →
        slice_index items.now result ≤ slice_index items.now k }
{
    let mut place = 0;
    for index in 0..items.len() {
        if items[index] < items[place] {
            place = index;
        }
    }
    place
}
