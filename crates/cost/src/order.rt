//! The ranking of functions by their calls.

ghost use Rattle.std.specs.Prelude.{◌<◌, ◌^◌, IfOk, IfErr, OnOk, IsOkUnless};
ghost use Rattle.verified.specs.Calls.{callees};
ghost use Rattle.verified.specs.Cycles.{Acyclic};
ghost use Rattle.cost.specs.Faults.{Explains};
ghost use Rattle.cost.specs.Ranks.{IsRanking};
ghost use Rattle.cost.specs.inside.Walks.{Finished};
ghost use Rattle.cost.specs.inside.Outlines.{called, count_of};

use crate::cycle::explain;
use crate::fault::CostFault;
use crate::outline::Outlines;
use crate::table::Ranks;
use crate::walk::visit;
use std::alloc::Global;
use verified::Valid;

/// Computes the rank and the size of each function of the module.
///
/// There are ranks exactly where no function calls itself, directly or through others. Where one does, the fault has a
/// cycle of calls. Calls through a table are ignored (Core 1.0, 2.4.5).
///
/// Time is linear in the length of the module's code, and memory in the number of its functions and calls. The recursion
/// is as deep as the longest chain of calls, at most `wasm_ast::MAX_FUNCTIONS`.
pub fn ranks(alloc: Global, valid: &Valid) -> Result<Ranks, CostFault>
    ensures ranked { IfOk result (IsRanking valid.now) }
    ensures acyclic { OnOk result (Acyclic (callees valid.now)) }
    ensures cycle { IfErr result (Explains (callees valid.now)) }
    ensures accepted { Acyclic (callees valid.now) → IsOkUnless result CostFault.OutOfMemory }
{
    let outlines = Outlines::of(alloc, valid)?;
    rank_all(alloc, &outlines)
}

fn rank_all(alloc: Global, outlines: &Outlines) -> Result<Ranks, CostFault>
    requires small { count_of outlines.now < 2 ^ 32 }
    ensures finished { IfOk result (Finished outlines.now) }
    ensures cycle { IfErr result (Explains (called outlines.now)) }
{
    let count = outlines.imported + outlines.defined.len();
    let mut ranks = Ranks::unseen(alloc, count)?;
    for function in 0..count as u32 {
        if let Err(stop) = visit(alloc, outlines, function, &mut ranks) {
            return Err(explain(stop));
        }
    }
    Ok(ranks)
}
