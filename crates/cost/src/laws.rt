//! What ranks imply of a module. Each function does nothing: its contract is a law.

ghost use Rattle.std.specs.Prelude.{◌≤◌};
ghost use Rattle.wasm_ast.specs.declared.body.Instr.{Instr as AnyInstr};
ghost use Rattle.wasm_ast.specs.declared.module.Module.{Module as AnyModule};
ghost use Rattle.verified.specs.Calls.{callees};
ghost use Rattle.verified.specs.Cycles.{Acyclic};
ghost use Rattle.cost.specs.Ranks.{IsRanking};
ghost use Rattle.verified.specs.Sizes.{HasOneSizing};
ghost use Rattle.verified.specs.Weights.{units_of};

use crate::table::Ranks;
use verified::Valid;

/// States that in a module with ranks no function calls itself, directly or through others.
pub fn ranks_exclude_cycles(valid: &Valid, ranks: &Ranks)
    requires { IsRanking valid.now ranks.now }
    ensures { Acyclic (callees valid.now) }
{}

/// States that in a module with ranks each function has exactly one size with calls inlined.
pub fn has_one_sizing(valid: &Valid, ranks: &Ranks)
    requires { IsRanking valid.now ranks.now }
    ensures { HasOneSizing valid.now }
{}

/// States that each instruction costs at least 1 unit. So a call executes at most as many instructions as its units.
pub fn units_are_counted()
    ensures { (m : AnyModule) (instruction : AnyInstr) → 1 ≤ units_of m instruction }
{}
