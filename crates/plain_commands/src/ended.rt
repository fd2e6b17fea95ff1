//! The lines of what a job ended with.

ghost use Rattle.std.specs.Prelude.{◌≡◌, IfOk, string_bytes};
ghost use Rattle.superstep.specs.Ending.{answer_of};
ghost use Rattle.line_text.specs.TextBuilder.{Gains};
ghost use Rattle.call_lines.specs.OutputLines.{end_line, ended_lines, numbered_line, numbered_lines};

use call_lines::{end_word, push_values};
use line_text::TextBuilder;
use std::alloc::{AllocError, Global};
use superstep::JobEnd;

/// The lines of what a job ended with.
pub fn ended_text(alloc: Global, ended: &JobEnd, tells_units: bool) -> Result<String, AllocError>
    ensures { IfOk result (λ text. string_bytes text ≡ ended_lines tells_units ended.now) }
{
    let mut text = TextBuilder::new(alloc);
    push_ended(&mut text, ended, tells_units);
    text.finish()
}

/// Puts the lines of what a job ended with behind a text.
pub fn push_ended(text: &mut TextBuilder, ended: &JobEnd, tells_units: bool)
    ensures { Gains text.old text.new (ended_lines tells_units ended.now) }
{
    push_values(text, &ended.values);
    push_end(text, ended);
    if tells_units {
        push_numbered(text, "units", ended.since, &ended.by_superstep);
    }
}

fn push_end(text: &mut TextBuilder, ended: &JobEnd)
    ensures { Gains text.old text.new (end_line (answer_of ended.now)) }
{
    text.put("end ");
    text.put(end_word(ended.how));
    text.put(" supersteps ");
    text.show(&ended.superstep);
    text.put(" units ");
    text.show(&ended.units);
    text.put(" dropped ");
    text.show(&ended.dropped);
    text.put("\n");
}

/// Puts a line `WORD N UNITS` behind a text for each of these units, N being this number at the first and one more at each.
pub fn push_numbered(text: &mut TextBuilder, word: &str, first: u32, units: &[u128])
    ensures { Gains text.old text.new (numbered_lines word.now first units.now) }
{
    for (index, units) in units.iter().enumerate() {
        push_number(text, word, u64::from(first) + index as u64, *units);
    }
}

fn push_number(text: &mut TextBuilder, word: &str, number: u64, units: u128)
    ensures { Gains text.old text.new (numbered_line word.now number units) }
{
    text.put(word);
    text.put(" ");
    text.show(&number);
    text.put(" ");
    text.show(&units);
    text.put("\n");
}
