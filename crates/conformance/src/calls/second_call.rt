//! The second of two calls, which uses the buffers of the first. Its answer is one line: the lines of the outcome.

ghost use Rattle.std.specs.Prelude.{◌≡◌};
ghost use Rattle.semantics.specs.Bounded.{HasIds};

use call_lines::outcome_text;
use conformance_cases::Line;
use interp::{Scratch, has_ids, run};
use std::alloc::Global;
use verified::{CallInput, CallOutcome, Verified};

/// Writes the answer to the second of two equal calls.
pub fn tell(alloc: Global, verified: &Verified, input: &CallInput, line: &mut Line) {
    match Scratch::new(alloc, verified) {
        Ok(mut scratch) => tell_in(alloc, verified, input, &mut scratch, line),
        Err(_) => line.cut(),
    }
}

// Writes the answer to the second of two calls in these buffers.
fn tell_in(
    alloc: Global,
    verified: &Verified,
    input: &CallInput,
    scratch: &mut Scratch,
    line: &mut Line,
) {
    if has_ids(input) && scratch.fits(verified) {
        call_before(alloc, verified, input, scratch);
        match run(alloc, verified, input, scratch) {
            Ok(outcome) => tell_outcome(alloc, &outcome, line),
            Err(error) => line.debug(&error),
        }
    } else {
        line.put("not called");
    }
}

// Makes a call, and leaves its buffers to the next.
fn call_before(alloc: Global, verified: &Verified, input: &CallInput, scratch: &mut Scratch)
    requires fits { scratch.old ≡ verified.now }
    requires ids { HasIds input.now }
    ensures { scratch.new ≡ scratch.old }
{
    if let Ok(outcome) = run(alloc, verified, input, scratch) {
        scratch.reuse(outcome);
    }
}

fn tell_outcome(alloc: Global, outcome: &CallOutcome, line: &mut Line) {
    match outcome_text(alloc, outcome) {
        Ok(text) => line.put_lines(text.as_str().trim_end(), " "),
        Err(_) => line.cut(),
    }
}
