//! The explanations of errors, by their kinds.

ghost use Rattle.std.specs.Prelude.{◌≡◌, ◌++◌, codes, IfOk, is_some, string_bytes};
ghost use Rattle.profile_rules.specs.FaultText.{rule_word};
ghost use Rattle.profile_rules.specs.declared.fault.ProfileFault.TheVariants as profile_fault;
ghost use Rattle.validate.specs.declared.fault.ValidFault.TheVariants as valid_fault;
ghost use Rattle.sources.specs.declared.fault.CommandFault.TheVariants as command;
ghost use Rattle.line_text.specs.TextBuilder.{Gains};
ghost use Rattle.call_lines.specs.OutputLines.{IfText};
ghost use Rattle.explanations.specs.Explanation.{Answers, advice_text, is_explained, part_text};
ghost use Rattle.explanations.specs.inside.Told.{NamesRecursion, Tells};

use crate::advice::{Advice, bytes, profile, texts, validity};
use crate::module_place::seen_at;
use crate::places::{byte_text, cycle_text, position_text};
use line_text::TextBuilder;
use profile_rules::{ProfileFault, ProfileRule};
use sources::Source;
use std::alloc::{AllocError, Global};
use validate::{Place, Rule, ValidFault};
use wasm_decode::DecodeFault;
use wat_asm::{Position, TextFault};

/// Explains why a module is not in the bounded profile.
pub fn unbounded(
    alloc: Global,
    source: Option<&Source>,
    fault: &ProfileFault,
) -> Result<Option<String>, AllocError>
    ensures { Answers source.entry (command.Unbounded fault.now) result }
{
    match fault {
        ProfileFault::Breaks(rule, place) => {
            let told = broken(alloc, source, *rule, *place)?;
            Ok(Some(told))
        }
        ProfileFault::Cycle(functions) => {
            let told = recursive(alloc, functions)?;
            Ok(Some(told))
        }
        ProfileFault::OutOfMemory => Ok(None),
    }
}

fn broken(
    alloc: Global,
    source: Option<&Source>,
    rule: ProfileRule,
    place: Place,
) -> Result<String, AllocError>
    ensures { Tells source.entry (command.Unbounded (profile_fault.Breaks rule place)) result }
{
    let seen = seen_at(alloc, source, place)?;
    let advice = profile::advice_of(rule, seen.sight);
    ruled(alloc, rule, &advice, seen.text.as_str())
}

// Explains why functions call each other.
fn recursive(alloc: Global, functions: &[u32]) -> Result<String, AllocError>
    ensures { IfText result NamesRecursion }
{
    let calls = cycle_text(alloc, functions)?;
    let advice = profile::recursion();
    ruled(alloc, ProfileRule::P12, &advice, calls.as_str())
}

// Joins the name of a rule, the advice on it, and a place.
fn ruled(
    alloc: Global,
    rule: ProfileRule,
    advice: &Advice,
    place: &str,
) -> Result<String, AllocError>
    ensures { IfOk result (λ told. string_bytes told
        ≡ (codes "Rule " ++ rule_word rule ++ codes ": ") ++ (advice_text advice.now ++ place.now)) }
{
    let mut told = TextBuilder::new(alloc);
    told.put("Rule ");
    told.put(word_of(rule));
    told.put(": ");
    push_advice(&mut told, advice);
    told.put(place);
    told.finish()
}

// Returns the name of the rule.
fn word_of(rule: ProfileRule) -> &'static str
    ensures { result.now ≡ rule_word rule }
{
    match rule {
        ProfileRule::P1 => "P1",
        ProfileRule::P2 => "P2",
        ProfileRule::P3 => "P3",
        ProfileRule::P4 => "P4",
        ProfileRule::P5 => "P5",
        ProfileRule::P6 => "P6",
        ProfileRule::P7 => "P7",
        ProfileRule::P8 => "P8",
        ProfileRule::P9 => "P9",
        ProfileRule::P10 => "P10",
        ProfileRule::P11 => "P11",
        ProfileRule::P12 => "P12",
        ProfileRule::P13 => "P13",
        ProfileRule::P14 => "P14",
    }
}

// Appends the sentence to a text, and the advice for each language.
fn push_advice(told: &mut TextBuilder, advice: &Advice)
    ensures { Gains told.old told.new (advice_text advice.now) }
{
    told.put(advice.sentence);
    told.put("\n");
    push_part(told, "In WebAssembly text", advice.text);
    push_part(told, "In C", advice.c);
    push_part(told, "In Rust", advice.rust);
}

fn push_part(told: &mut TextBuilder, language: &str, said: &str)
    ensures { Gains told.old told.new (part_text language.now said.now) }
{
    if said.is_empty() {
        return;
    }
    told.put("\n");
    told.put(language);
    told.put(":\n");
    told.put(said);
}

// Joins the advice on a fault that is not one of the profile, and a place.
fn plain(alloc: Global, advice: &Advice, place: &str) -> Result<String, AllocError>
    ensures { IfOk result (λ told. string_bytes told
        ≡ advice_text advice.now ++ place.now) }
{
    let mut told = TextBuilder::new(alloc);
    push_advice(&mut told, advice);
    told.put(place);
    told.finish()
}

/// Explains why a module is not valid.
pub fn invalid(
    alloc: Global,
    source: Option<&Source>,
    fault: ValidFault,
) -> Result<Option<String>, AllocError>
    ensures { Answers source.entry (command.Invalid fault) result }
{
    let ValidFault::Breaks(rule, place) = fault else {
        return Ok(None);
    };
    let told = wrong(alloc, source, rule, place)?;
    Ok(Some(told))
}

fn wrong(
    alloc: Global,
    source: Option<&Source>,
    rule: Rule,
    place: Place,
) -> Result<String, AllocError>
    ensures { Tells source.entry (command.Invalid (valid_fault.Breaks rule place)) result }
{
    let seen = seen_at(alloc, source, place)?;
    let advice = validity::advice_of(rule);
    plain(alloc, &advice, seen.text.as_str())
}

/// Explains why a text is not a module.
pub fn no_text(
    alloc: Global,
    source: Option<&Source>,
    fault: TextFault,
) -> Result<Option<String>, AllocError>
    ensures { Answers source.entry (command.Text fault) result }
{
    let Some(place) = position_of(fault) else {
        return Ok(None);
    };
    let line = position_text(alloc, source, place)?;
    let advice = texts::advice_of(fault);
    let told = plain(alloc, &advice, line.as_str())?;
    Ok(Some(told))
}

// Returns the place of a fault, if it has one.
fn position_of(fault: TextFault) -> Option<Position>
    ensures { is_some result ≡ is_explained (command.Text fault) }
{
    match fault {
        TextFault::Lex(place)
        | TextFault::Syntax(place)
        | TextFault::UnknownName(place)
        | TextFault::DuplicateName(place)
        | TextFault::NumberRange(place)
        | TextFault::TypeUse(place)
        | TextFault::Unsupported(place)
        | TextFault::OverLimit(place) => Some(place),
        TextFault::OutOfMemory => None,
    }
}

/// Explains why bytes are not a module.
pub fn no_module(
    alloc: Global,
    source: Option<&Source>,
    fault: DecodeFault,
) -> Result<Option<String>, AllocError>
    ensures { Answers source.entry (command.Decode fault) result }
{
    let DecodeFault::Refused(rule, place) = fault else {
        return Ok(None);
    };
    let around = byte_text(alloc, source, place)?;
    let advice = bytes::advice_of(rule);
    let told = plain(alloc, &advice, around.as_str())?;
    Ok(Some(told))
}
