//! The rules on the instructions of code and their order, P5 to P9.

/// A rule on the instructions of code.
#[derive(Clone, Copy)]
pub enum Shape {
    /// P5: there is no `call_indirect`.
    NoIndirectCalls,
    /// P6: there is no `unreachable`.
    NoUnreachable,
    /// P7: there is no `memory.grow`.
    NoGrowth,
    /// P8: nothing comes after `br`, `br_table` or `return` in a sequence.
    NothingAfterBranches,
    /// P9: each loop takes an item each time round, at its beginning or at its end.
    LoopsTakeItems,
}
