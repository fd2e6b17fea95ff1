//! Whether the calls of an accepted module end within their bound.

ghost use Rattle.std.specs.Prelude.{◌≡◌};

use bounded_profile::{ProfileFault, verify};
use interp::{Scratch, has_ids, run};
use std::alloc::Global;
use validate::{Valid, ValidFault, validate};
use verified::{CallInput, Verified};
use wasm_ast::Module;

// The messages of the longer of two inputs.
const MESSAGES: [i64; 3] = [7, -8, 9];

// The edges of both.
const EDGES: [(u64, i64); 2] = [(5, 50), (6, -60)];

/// Returns whether the module is not in the profile, or its calls are bounded.
pub fn is_bounded(alloc: Global, module: Module) -> bool {
    match validate(alloc, module) {
        Ok(valid) => is_valid_bounded(alloc, valid),
        Err(fault) => !matches!(fault, ValidFault::OutOfMemory),
    }
}

fn is_valid_bounded(alloc: Global, valid: Valid) -> bool {
    match verify(alloc, valid) {
        Ok(verified) => are_calls_bounded(alloc, &verified),
        Err(fault) => !matches!(fault, ProfileFault::OutOfMemory),
    }
}

// Calls it with no message and with three, over one scratch.
fn are_calls_bounded(alloc: Global, verified: &Verified) -> bool {
    let Ok(mut scratch) = Scratch::new(alloc, verified) else {
        return false;
    };
    is_call_bounded(alloc, verified, &[], &mut scratch)
        && is_call_bounded(alloc, verified, &MESSAGES, &mut scratch)
}

// Returns whether a call takes at most (1 + messages + edges) times its size in units.
fn is_call_bounded(
    alloc: Global,
    verified: &Verified,
    messages: &[i64],
    scratch: &mut Scratch,
) -> bool
    requires fits { scratch.old ≡ verified.now }
    ensures fits { scratch.new ≡ verified.now }
{
    let input = CallInput {
        id: 3,
        superstep: 2,
        count: 9,
        value: 34,
        messages,
        edges: &EDGES,
        aggregated: [0; 8],
    };
    if !has_ids(&input) {
        return false;
    }
    let rounds = messages.len().saturating_add(EDGES.len()).saturating_add(1);
    let bound = u128::from(verified.size()).saturating_mul(rounds as u128);
    match run(alloc, verified, &input, scratch) {
        Ok(outcome) => outcome.units <= bound,
        Err(_) => false,
    }
}
