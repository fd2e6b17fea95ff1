//! The lines of a call's outcome, and the lines and words of a job's end.

ghost use Rattle.std.specs.Prelude.{◌≡◌, IfOk, string_bytes};
ghost use Rattle.std.specs.List.{flat_map};
ghost use Rattle.line_text.specs.TextBuilder.{Gains};
ghost use Rattle.graph.specs.Print.{value_line, value_lines};
ghost use Rattle.superstep.specs.Ending.{is_finished};
ghost use Rattle.call_lines.specs.OutputLines.{active_digit, end_word, give_line, outcome_lines, send_line, state_lines};

use line_text::TextBuilder;
use std::alloc::{AllocError, Global};
use superstep::EndReason;
use verified::CallOutcome;

/// Writes the outcome of a call as text.
///
/// The first three lines are `value V`, `active 1`, or `active 0` if the vertex voted to halt, and `units U`. They are
/// followed by `send TARGET VALUE` for each message and `give SLOT VALUE` for each contribution. Each line ends with a line
/// feed. It fails only if memory runs out.
pub fn outcome_text(alloc: Global, outcome: &CallOutcome) -> Result<String, AllocError>
    ensures { IfOk result (λ text. string_bytes text ≡ outcome_lines outcome.now) }
{
    let mut text = TextBuilder::new(alloc);
    push_state(&mut text, outcome.value, outcome.halted, outcome.units);
    push_sends(&mut text, &outcome.sends);
    push_contributions(&mut text, &outcome.contributions);
    text.finish()
}

// Appends the lines that every outcome has.
fn push_state(text: &mut TextBuilder, value: i64, halted: bool, units: u128)
    ensures { Gains text.old text.new (state_lines value halted units) }
{
    text.put("value ");
    text.show(&value);
    text.put("\nactive ");
    text.show(&active_digit(halted));
    text.put("\nunits ");
    text.show(&units);
    text.put("\n");
}

fn active_digit(halted: bool) -> u8
    ensures { result ≡ active_digit halted }
{
    if halted { 0 } else { 1 }
}

fn push_sends(text: &mut TextBuilder, sends: &[(i64, i64)])
    ensures { Gains text.old text.new (flat_map send_line sends.now) }
{
    for (target, value) in sends {
        text.put("send ");
        text.show(target);
        text.put(" ");
        text.show(value);
        text.put("\n");
    }
}

fn push_contributions(text: &mut TextBuilder, contributions: &[(u32, i64)])
    ensures { Gains text.old text.new (flat_map give_line contributions.now) }
{
    for (aggregator, value) in contributions {
        text.put("give ");
        text.show(aggregator);
        text.put(" ");
        text.show(value);
        text.put("\n");
    }
}

/// Appends a line `v ID VALUE` to a text for each value.
pub fn push_values(text: &mut TextBuilder, values: &[(u64, i64)])
    ensures { Gains text.old text.new (value_lines values.now) }
{
    for (id, value) in values {
        push_value(text, *id, *value);
    }
}

fn push_value(text: &mut TextBuilder, id: u64, value: i64)
    ensures { Gains text.old text.new (value_line (id, value)) }
{
    text.put("v ");
    text.show(&id);
    text.put(" ");
    text.show(&value);
    text.put("\n");
}

/// Returns the word for how a job ended.
pub fn end_word(how: EndReason) -> &'static str
    ensures { result.now ≡ end_word (is_finished how) }
{
    match how {
        EndReason::Finished => "finished",
        EndReason::Limit => "limit",
    }
}
