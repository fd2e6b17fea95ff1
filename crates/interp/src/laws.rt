//! Laws of the operands, labels, locals and bytes of every call.

ghost use Rattle.wasm_ast.specs.declared.module.Module.{Module as AnyModule};
ghost use Rattle.interp.specs.Accesses.{CallsTouchReached};
ghost use Rattle.interp.specs.OwnOperands.{CallsKeepOwn};
ghost use Rattle.interp.specs.Room.{CallsStayWithin};
ghost use Rattle.interp.specs.Sequences.{SequencesCount};

/// Proves a bound on each sequence that keeps the rules of the profile, from its first instruction to where it is first
/// left. It counts no more than its size, times one more than the items that it takes. It is left at its end with the
/// operands of its type, by a branch to a label in scope, or by a return. The state still fits its function.
pub fn sequences_count()
    ensures { (m : AnyModule) → SequencesCount m }
{}

/// Proves that each active function of a call is one that `compute` may reach, and never has more operands of its own
/// than `Verified::cells` says.
pub fn calls_keep_own_operands()
    ensures { (m : AnyModule) → CallsKeepOwn m }
{}

/// Proves that each load and store of a call touches only bytes that `Verified::reach` counts.
pub fn calls_touch_reached_bytes()
    ensures { (m : AnyModule) → CallsTouchReached m }
{}

/// Proves that a call never has more labels and locals than its frames allow. There are at most as many frames as in
/// the longest chain of calls, each with the most that a function may have.
pub fn calls_stay_within()
    ensures { (m : AnyModule) → CallsStayWithin m }
{}
