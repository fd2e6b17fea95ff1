//! The replay of a job over a list of steps.

ghost use Rattle.std.specs.Prelude.{◌≡◌, ◌++◌, IfOk, IfErr, codes, string_bytes, MatchResult};
ghost use Rattle.std.specs.Fmt.{decimal};
ghost use Rattle.std.specs.List.{flat_map};
ghost use Rattle.line_text.specs.TextBuilder.{Gains};
ghost use Rattle.call_lines.specs.OutputLines.{IfText, line};
ghost use Rattle.plain_commands.specs.Replays.{AreReplayLines, IsFaultOfReplay, answer_line, replay_end_lines, report_lines, said_line, trace_lines};
ghost use Rattle.sources.specs.Disk.{Stays};
ghost use Rattle.plain_commands.specs.Outputs.{AreStepsAt, PrintsReplay};
ghost use Rattle.plain_commands.specs.Causes.{IsNoStepsAt, IsUnreplayed};

use crate::ended::{push_ended, push_numbered};
use crate::opening::job_of;
use crate::steps::steps_of;
use book::{Answer, Report};
use checkpoint::{Device, MemoryKeep};
use line_text::TextBuilder;
use requests::JobRequest;
use rollback::{Outcome, Step, StepAnswer, Trace, simulate};
use sources::{CommandFault, Files, read_text};
use std::alloc::{AllocError, Global};
use std::thread::Threads;
use superstep::Job;

/// Replays the job of the module in one file over the graph in another, by the steps in a third.
pub fn replay_files<'a, F: Files>(
    rt: &(impl Threads + Sync + Device + AllocGlobal),
    alloc: Global,
    asked: JobRequest<'a>,
    steps: &'a str,
    files: &mut F,
) -> Result<String, CommandFault<'a>>
    ensures answered { IfText result (PrintsReplay (F.disk files.old) asked.entry steps.now) }
    ensures kept { Stays (F.disk files.old) (F.disk files.new) }
    ensures refused { IfErr result (IsUnreplayed (F.disk files.old) asked.entry steps.now) }
{
    let job = job_of(rt, alloc, asked, files)?;
    let steps = read_steps(alloc, steps, files)?;
    replay(rt, alloc, &job, steps.as_slice(), asked.tells_units)
}

// The steps in a file.
fn read_steps<'a, F: Files>(
    alloc: Global,
    path: &'a str,
    files: &mut F,
) -> Result<Vec<Step>, CommandFault<'a>>
    ensures found { MatchResult result
        (λ steps. AreStepsAt (F.disk files.old) path.now steps.items)
        (IsNoStepsAt (F.disk files.old) path.now) }
    ensures kept { Stays (F.disk files.old) (F.disk files.new) }
{
    let text = read_text(alloc, path, files)?;
    let steps = steps_of(alloc, text.as_str())?;
    Ok(steps)
}

// Replays a job over these steps, with its states in memory. Returns a line for each step, and where the steps lead.
///
// The line of a step is `idle`, `handed PART`, `taken`, `advanced S`, `rolledback S`, `stale` or `ended`. If the job has
// ended, the lines of `run` follow, then `epoch E missed M restarts R`, and `spent W U` for each worker. Otherwise `open
// S` follows. A job that ends with a fault has no lines.
fn replay<'a, R: Threads + Sync + Device + AllocGlobal>(
    rt: &R,
    alloc: Global,
    job: &Job,
    steps: &[Step],
    tells_units: bool,
) -> Result<String, CommandFault<'a>>
    ensures told { IfText result (AreReplayLines job.now tells_units steps.now) }
    ensures refused { IfErr result (IsFaultOfReplay job.now steps.now) }
{
    let mut keep = MemoryKeep::new(alloc);
    match simulate(rt, alloc, job, &mut keep, steps) {
        Ok(trace) => {
            let text = trace_text(alloc, &trace, tells_units)?;
            Ok(text)
        }
        Err(fault) => Err(CommandFault::Job(fault)),
    }
}

/// Writes the lines of a replay: one for each step, and where the steps lead.
pub fn trace_text(alloc: Global, trace: &Trace, tells_units: bool) -> Result<String, AllocError>
    ensures { IfOk result (λ text. string_bytes text ≡ trace_lines tells_units trace.now) }
{
    let mut text = TextBuilder::new(alloc);
    push_answers(&mut text, &trace.answers);
    push_outcome(&mut text, &trace.outcome, tells_units);
    text.finish()
}

fn push_answers(text: &mut TextBuilder, answers: &[StepAnswer])
    ensures { Gains text.old text.new (flat_map answer_line answers.now) }
{
    for answer in answers {
        push_answer(text, *answer);
    }
}

fn push_answer(text: &mut TextBuilder, answer: StepAnswer)
    ensures { Gains text.old text.new (answer_line answer) }
{
    match answer {
        StepAnswer::Idle => push_word(text, "idle"),
        StepAnswer::Handed(part) => push_counted(text, "handed", part),
        StepAnswer::Said(answer) => push_said(text, answer),
    }
}

fn push_said(text: &mut TextBuilder, answer: Answer)
    ensures { Gains text.old text.new (said_line answer) }
{
    match answer {
        Answer::Taken => push_word(text, "taken"),
        Answer::Advanced(superstep) => push_counted(text, "advanced", superstep),
        Answer::RolledBack(superstep) => push_counted(text, "rolledback", superstep),
        Answer::Stale => push_word(text, "stale"),
        Answer::Ended => push_word(text, "ended"),
    }
}

fn push_word(text: &mut TextBuilder, word: &str)
    ensures { Gains text.old text.new (line word.now) }
{
    text.put(word);
    text.put("\n");
}

fn push_counted(text: &mut TextBuilder, word: &str, number: u32)
    ensures { Gains text.old text.new (line (word.now ++ codes " " ++ decimal number)) }
{
    text.put(word);
    text.put(" ");
    text.show(&number);
    text.put("\n");
}

fn push_outcome(text: &mut TextBuilder, outcome: &Outcome, tells_units: bool)
    ensures { Gains text.old text.new (replay_end_lines tells_units outcome.now) }
{
    match outcome {
        Outcome::Open(superstep) => push_counted(text, "open", *superstep),
        Outcome::Ended(report) => push_report(text, report, tells_units),
    }
}

fn push_report(text: &mut TextBuilder, report: &Report, tells_units: bool)
    ensures { Gains text.old text.new (report_lines tells_units report.now) }
{
    push_ended(text, &report.ended, tells_units);
    text.put("epoch ");
    text.show(&report.epoch);
    text.put(" missed ");
    text.show(&report.missed);
    text.put(" restarts ");
    text.show(&report.restarts);
    text.put("\n");
    push_numbered(text, "spent", 0, &report.spent);
}
