//! The rules of the bounded profile, in order.

ghost use Rattle.std.specs.Prelude.{IsOkUnless, MatchResult};
ghost use Rattle.wasm_ast.specs.Limits.{IsWithinLimits};
ghost use Rattle.verified.specs.Modules.{IsTyped};
ghost use Rattle.verified.specs.Compute.{IsComputeNumber};
ghost use Rattle.verified.specs.Facts.{AreFacts};
ghost use Rattle.profile_rules.specs.Faults.{Refuses, Settles};
ghost use Rattle.verified.specs.Known.{ConstantsKnown};
ghost use Rattle.verified.specs.Profile.{IsBounded, AddressesWithin, NoUnreachable, NothingAfterBranches, asks_addresses, asks_slots};
ghost use Rattle.bounded_profile.specs.inside.Stages.{PartsHoldAt, ShapesHold, CallsHoldWith};
ghost use Rattle.profile_rules.specs.inside.Tracking.{asks_of};

use crate::calls::{check_cycles, check_size};
use crate::heights::operand_height;
use crate::memory_rules::{check_minimums, check_segments};
use crate::module_rules::{check_elements, check_imports, check_start, find_compute};
use profile_rules::{
    Asks, ConstantsFault, ProfileFault, ProfileRule, check_constants, check_shape, host_table,
};
use std::alloc::Global;
use verified::{Facts, Shape, Valid};
use wasm_ast::Module;

/// Checks all rules and returns the bounds on a call of `compute`. An error names the first rule that is broken, in
/// the order of the calls below, or says that an allocation failed.
pub fn check_rules(alloc: Global, valid: &Valid) -> Result<Facts, ProfileFault>
    ensures decided { MatchResult result (λ facts. IsBounded valid.now × AreFacts valid.now facts)
        (Refuses valid.now) }
    ensures refused { IsBounded valid.now → IsOkUnless result ProfileFault.OutOfMemory }
{
    let module = valid.module();
    let compute = check_parts(module)?;
    check_shapes(alloc, module)?;
    check_memory(alloc, valid)?;
    check_known(alloc, valid, Asks::Divisors, ProfileRule::P11)?;
    let facts = check_calls(alloc, valid, compute)?;
    // If the passes for P10, P11 and P13 succeed, this one does.
    check_known(alloc, valid, Asks::All, ProfileRule::P10)?;
    Ok(facts)
}

// Checks P1 to P4 and returns the number of `compute`.
fn check_parts(module: &Module) -> Result<u32, ProfileFault>
    requires { IsTyped «module».now }
    ensures { MatchResult result (PartsHoldAt «module».now) (Refuses «module».now) }
{
    check_imports(module)?;
    let compute = find_compute(module)?;
    check_start(module)?;
    check_elements(module)?;
    Ok(compute)
}

// Checks P5 to P9.
fn check_shapes(alloc: Global, module: &Module) -> Result<(), ProfileFault>
    requires { IsWithinLimits «module».now }
    ensures { MatchResult result (λ _. ShapesHold «module».now) (Refuses «module».now) }
{
    let hosts = host_table(alloc, module)?;
    check_shape(Shape::NoIndirectCalls, &hosts, module)?;
    check_shape(Shape::NoUnreachable, &hosts, module)?;
    check_shape(Shape::NoGrowth, &hosts, module)?;
    check_shape(Shape::NothingAfterBranches, &hosts, module)?;
    check_shape(Shape::LoopsTakeItems, &hosts, module)?;
    Ok(())
}

// Checks P10.
fn check_memory(alloc: Global, valid: &Valid) -> Result<(), ProfileFault>
    requires reached { NoUnreachable valid.now }
    requires ordered { NothingAfterBranches valid.now }
    ensures { MatchResult result
        (λ _. AddressesWithin valid.now × ConstantsKnown asks_addresses valid.now)
        (Refuses valid.now) }
{
    let module = valid.module();
    check_minimums(module)?;
    check_known(alloc, valid, Asks::Addresses, ProfileRule::P10)?;
    check_segments(module)?;
    Ok(())
}

// Checks P12, P13 and P14, and returns the bounds on a call of `compute`.
fn check_calls(alloc: Global, valid: &Valid, compute: u32) -> Result<Facts, ProfileFault>
    requires number { IsComputeNumber valid.now compute }
    requires reached { NoUnreachable valid.now }
    requires ordered { NothingAfterBranches valid.now }
    ensures { MatchResult result
        (λ facts. CallsHoldWith valid.now compute facts × ConstantsKnown asks_slots valid.now)
        (Refuses valid.now) }
{
    let ranks = check_cycles(alloc, valid)?;
    check_known(alloc, valid, Asks::Slots, ProfileRule::P13)?;
    let size = check_size(valid, &ranks, compute)?;
    let max_operands = operand_height(alloc, valid, &ranks, compute)?;
    let max_frames = ranks.rank(compute);
    Ok(Facts {
        compute,
        size,
        max_operands,
        max_frames,
    })
}

// Checks that the constants of a rule are known.
fn check_known(
    alloc: Global,
    valid: &Valid,
    asks: Asks,
    rule: ProfileRule,
) -> Result<(), ProfileFault>
    requires reached { NoUnreachable valid.now }
    requires ordered { NothingAfterBranches valid.now }
    ensures { Settles rule (ConstantsKnown (asks_of asks) valid.now) result }
{
    match check_constants(alloc, valid, asks) {
        Ok(()) => Ok(()),
        Err(ConstantsFault::Breaks(place)) => Err(ProfileFault::Breaks(rule, place)),
        Err(ConstantsFault::OutOfMemory) => Err(ProfileFault::OutOfMemory),
    }
}
