//! Rules on calls: there is no recursion (P12), and `compute` with calls inlined is small (P14).

ghost use Rattle.std.specs.Prelude.{IfOk, MatchResult};
ghost use Rattle.verified.specs.Calls.{callees};
ghost use Rattle.cost.specs.Ranks.{IsRanking};
ghost use Rattle.profile_rules.specs.Faults.{Denies, ShowsCycle};
ghost use Rattle.verified.specs.Profile.{NoCycles, SizeWithin};
ghost use Rattle.profile_rules.specs.declared.fault.ProfileRule.TheVariants.{P14};
ghost use Rattle.bounded_profile.specs.inside.Stages.{SizeHolds};

use crate::module_rules::NOWHERE;
use cost::{Ranks, has_one_sizing, inlined_size, ranks};
use profile_rules::{ProfileFault, ProfileRule};
use std::alloc::Global;
use verified::Valid;

/// P12: ranks the functions, where none calls itself. An error names a cycle, or says that an allocation failed.
pub fn check_cycles(alloc: Global, valid: &Valid) -> Result<Ranks, ProfileFault>
    ensures ranked { IfOk result (IsRanking valid.now) }
    ensures decided { MatchResult result (λ _. NoCycles valid.now)
        (ShowsCycle (callees valid.now)) }
{
    Ok(ranks(alloc, valid)?)
}

/// P14: returns the size of the function with calls inlined, where it is at most `cost::MAX_SIZE`.
pub fn check_size(valid: &Valid, ranks: &Ranks, function: u32) -> Result<u32, ProfileFault>
    requires { IsRanking valid.now ranks.now }
    ensures { MatchResult result (SizeHolds valid.now function)
        (λ e. Denies P14 e (SizeWithin valid.now function)) }
{
    has_one_sizing(valid, ranks);
    match inlined_size(valid, ranks, function) {
        Some(size) => Ok(size),
        None => Err(ProfileFault::Breaks(ProfileRule::P14, NOWHERE)),
    }
}
