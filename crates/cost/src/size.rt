//! The size of a function with calls inlined.

ghost use Rattle.cost.specs.Ranks.{IsRanking};
ghost use Rattle.verified.specs.Sizes.{IsReportedSize};

use crate::table::Ranks;
use verified::Valid;

/// The largest size that is reported, in units.
pub const MAX_SIZE: u32 = 8_388_608;

/// Returns the size of the function with calls inlined, or `None` exactly where it passes `MAX_SIZE`.
///
/// Each instruction counts its units by the table of weights. A block, loop or `if` also counts the instructions inside
/// it, and a call of a defined function also counts that function's body. The size of an imported function is 0.
///
/// It allocates nothing and takes constant time, since the size comes with the ranks. They must be those of this module.
pub fn inlined_size(valid: &Valid, ranks: &Ranks, function: u32) -> Option<u32>
    requires { IsRanking valid.now ranks.now }
    ensures { IsReportedSize valid.now function result }
{
    let size = ranks.size(function);
    if size <= MAX_SIZE { Some(size) } else { None }
}
