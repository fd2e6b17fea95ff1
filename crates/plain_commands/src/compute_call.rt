//! A compute call, from the module and the text of the input to the printed lines.

ghost use Rattle.std.specs.Prelude.{List, ℕ, IfOk, IfErr};
ghost use Rattle.wasm_ast.specs.declared.module.Module.{Module as AnyModule};
ghost use Rattle.semantics.specs.Bounded.{HasIds};
ghost use Rattle.semantics.specs.Call.{IsOutcome};
ghost use Rattle.call_lines.specs.OutputLines.{IfText};
ghost use Rattle.sources.specs.Modules.{IsSpelledBy, IsVerified};
ghost use Rattle.sources.specs.Source.{IsWant, content, is_text};
ghost use Rattle.plain_commands.specs.ComputeCall.{AreCallLines, IsCallAnswer, IsWantOfCall, RefusesAnswer, RefusesText};
ghost use Rattle.plain_commands.specs.inside.Answering.{AnswersInput};
ghost use Rattle.sources.specs.Disk.{Stays};
ghost use Rattle.plain_commands.specs.Causes.{IsUncalled};
ghost use Rattle.plain_commands.specs.Outputs.{PrintsOutcome};

use crate::sizes::load_within;
use call_lines::{Input, outcome_text};
use interp::{Scratch, run};
use requests::ModuleRequest;
use sources::{CommandFault, Files, Source, load, read_text};
use std::alloc::{AllocError, Global};
use verified::{CallInput, CallOutcome, Verified};

/// Calls the module with the input that the text declares, and returns the lines of the outcome.
///
/// It looks for faults in this order: those of the module (`Decode` or `Text`, `Invalid`, `Unbounded`), of the input
/// (`Input`), and of the call (`Run`, if memory runs out).
pub fn call<'a>(alloc: Global, module: &Source, input: &str) -> Result<String, CommandFault<'a>>
    // The returned text is the answer, from bytes to bytes.
    ensures answer { IfText result
        (IsCallAnswer (is_text «module».now) (content «module».now) input.now) }
    // If the one module that is spelled so has an answer, the call returns it, unless memory runs out.
    ensures answered { (m : AnyModule) (lines : List ℕ)
        → IsSpelledBy (is_text «module».now) (content «module».now) m
        → IsVerified m → AreCallLines m input.now lines → IfErr result IsWant }
    ensures refused { IfErr result
        (RefusesAnswer (is_text «module».now) (content «module».now) input.now) }
{
    let verified = load(alloc, module)?;
    answer(alloc, &verified, input)
}

// What a call of the module prints, with the input that the text means.
fn answer<'a>(alloc: Global, verified: &Verified, input: &str) -> Result<String, CommandFault<'a>>
    ensures answer { IfText result (AreCallLines verified.now input.now) }
    ensures answered { (lines : List ℕ) → AreCallLines verified.now input.now lines
        → IfErr result IsWant }
    ensures refused { IfErr result (RefusesText verified.now input.now) }
{
    let input = Input::read(alloc, input)?;
    answer_to(alloc, verified, &input.call_input())
}

// What a call of the module with this input prints.
fn answer_to<'a>(
    alloc: Global,
    verified: &Verified,
    input: &CallInput,
) -> Result<String, CommandFault<'a>>
    requires { HasIds input.now }
    ensures answer { IfText result (AnswersInput verified.now input.now) }
    ensures want { IfErr result IsWantOfCall }
{
    let Ok(outcome) = outcome_of(alloc, verified, input) else {
        return Err(CommandFault::Run);
    };
    let lines = outcome_text(alloc, &outcome)?;
    Ok(lines)
}

// The outcome of a call.
fn outcome_of(
    alloc: Global,
    verified: &Verified,
    input: &CallInput,
) -> Result<CallOutcome, AllocError>
    requires { HasIds input.now }
    ensures { IfOk result (IsOutcome verified.now input.now) }
{
    let mut scratch = Scratch::new(alloc, verified)?;
    run(alloc, verified, input, &mut scratch)
}

/// Calls the module in one file with the input in another.
pub fn call_files<'a, F: Files>(
    alloc: Global,
    module: ModuleRequest<'a>,
    input: &'a str,
    files: &mut F,
) -> Result<String, CommandFault<'a>>
    ensures answered { IfText result (PrintsOutcome (F.disk files.old) «module».entry input.now) }
    ensures kept { Stays (F.disk files.old) (F.disk files.new) }
    ensures refused { IfErr result (IsUncalled (F.disk files.old) «module».entry input.now) }
{
    let verified = load_within(alloc, module, files)?;
    let text = read_text(alloc, input, files)?;
    answer(alloc, &verified, text.as_str())
}
