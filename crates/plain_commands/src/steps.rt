//! The steps of a replay, read from a text.

ghost use Rattle.std.specs.Prelude.{◌≡◌, ◌≢◌, Ok, MatchResult, OnOk, IfErr};
ghost use Rattle.plain_commands.specs.Steps.{IsStepsFault, steps_of};
ghost use Rattle.plain_commands.specs.declared.step_line.StepLine.TheVariants.{Bad};
ghost use Rattle.plain_commands.specs.inside.Stepping.{with_step};

use crate::step_line::{StepLine, step_line_of};
use call_lines::InputFault;
use rollback::Step;
use std::alloc::Global;

/// Reads the steps of a text.
///
/// Lines and fields are cut as in a graph file. Blank lines and lines that begin with `#` are skipped. Any other line is
/// `take W`, `work W`, `lose W`, `tick` or `join W`, where W is a number of 32 bits in decimal digits.
///
/// `Line` reports the first line that is none of these.
pub fn steps_of(alloc: Global, text: &str) -> Result<Vec<Step>, InputFault>
    ensures { MatchResult result (λ steps. steps_of text.now ≡ Ok steps.items)
        (IsStepsFault text.now) }
{
    let mut steps = Vec::new(alloc);
    for (index, line) in text.lines().enumerate() {
        add(&mut steps, index + 1, step_line_of(line))?;
    }
    Ok(steps)
}

// Adds the step of the line with this number.
fn add(steps: &mut Vec<Step>, number: usize, line: StepLine) -> Result<(), InputFault>
    ensures added { OnOk result (with_step steps.old.items line ≡ Ok steps.new.items) }
    ensures refused { IfErr result (λ fault. fault ≢ InputFault.OutOfMemory
        → (fault ≡ InputFault.Line number) × (line ≡ Bad)) }
{
    match line {
        StepLine::Skipped => Ok(()),
        StepLine::Says(step) => {
            steps.push(step)?;
            Ok(())
        }
        StepLine::Bad => Err(InputFault::Line(number)),
    }
}
