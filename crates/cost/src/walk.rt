//! The depth-first walk of the call graph, which ranks each function after those that it calls.

ghost use Rattle.std.specs.Prelude.{◌≡◌, ◌+◌, ◌<◌, ◌^◌, ℕ, length, min, sum_by, IfErr, OnOk};
ghost use Rattle.cost.specs.declared.table.Mark.TheVariants.{Open};
ghost use Rattle.verified.specs.CallHeights.{most};
ghost use Rattle.cost.specs.inside.Outline.{cap};
ghost use Rattle.cost.specs.inside.Outlines.{outline_at, called, height_at};
ghost use Rattle.cost.specs.Marks.{mark_at, rank_at, size_at};
ghost use Rattle.cost.specs.inside.Walks.{Settled, Walked};
ghost use Rattle.cost.specs.inside.Stops.{AreFresh, Leaves, Targets};

use crate::cycle::{Stop, extend};
use crate::outline::{CAP, Outlines};
use crate::table::{Mark, Ranks};
use std::alloc::Global;

// Finds the greatest rank of these functions, or 0 where there are none.
fn greatest_rank(functions: &[u32], ranks: &Ranks) -> u32
    ensures { result ≡ most (rank_at ranks.now) functions.now }
{
    let mut greatest = 0;
    for function in functions {
        greatest = ranks.rank(*function).max(greatest);
    }
    greatest
}

// Returns one more than the greatest rank that the function calls, or 0 where it has no body.
fn height(outlines: &Outlines, function: u32, ranks: &Ranks) -> u32
    requires { most (rank_at ranks.now) (called outlines.now function) + 1 < 2 ^ 32 }
    ensures { result ≡ height_at (rank_at ranks.now) (outline_at outlines.now function) }
{
    match outlines.get(function) {
        Some(outline) => greatest_rank(outline.calls(), ranks) + 1,
        None => 0,
    }
}

// Adds the sizes of these functions to `own`. The sum stops at `CAP`.
fn whole_size(own: u32, functions: &[u32], ranks: &Ranks) -> u32
    ensures { result ≡ min cap (own + sum_by (size_at ranks.now) functions.now) }
{
    let mut total = u64::from(own).min(CAP);
    for function in functions {
        total = (total + u64::from(ranks.size(*function))).min(CAP);
    }
    total as u32
}

/// Ranks all that a function calls, then the function. It stops where the walk comes back to a function on its path.
pub fn visit(
    alloc: Global,
    outlines: &Outlines,
    function: u32,
    ranks: &mut Ranks,
) -> Result<(), Stop>
    requires small { length ranks.old < 2 ^ 32 }
    requires settled { Settled outlines.now ranks.old }
    ensures walked { OnOk result (Walked outlines.now function ranks.old ranks.new) }
    ensures leaves { IfErr result (Leaves (called outlines.now) function) }
    ensures targets { IfErr result (λ e. (t : ℕ) → Targets e t → mark_at ranks.old t ≡ Open) }
    ensures fresh { IfErr result (AreFresh ranks.old) }
{
    match ranks.mark(function) {
        Mark::Done(_, _) => return Ok(()),
        Mark::Open => return Err(Stop::Back(function, Vec::new(alloc))),
        Mark::Unseen => {}
    }
    ranks.open(function);
    let callees = outlines.called(function);
    for callee in callees {
        if let Err(stop) = visit(alloc, outlines, *callee, ranks) {
            return Err(extend(stop, function));
        }
    }
    let rank = height(outlines, function, ranks);
    let size = whole_size(outlines.own(function), callees, ranks);
    ranks.finish(function, rank, size);
    Ok(())
}
