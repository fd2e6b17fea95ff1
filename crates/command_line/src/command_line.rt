//! Reading of the command line's words.

ghost use Rattle.std.specs.Prelude.{◌≡◌, ◌∷◌, [], IfErr, IfOk, IsErrAnd, MatchResult, OnOk, codes, false, map};
ghost use Rattle.std.specs.List.{list_any};
ghost use Rattle.clap.specs.Words.{HasKind, app_of, fault_of, subcommand_rows_of};
ghost use Rattle.command_line.specs.CommandLine.{AskedBy, AskedIn, AsksCores, AsksFor, AsksJob, AsksModule, GivesNumber, GivesSettings, IsRefusal, MayGiveNumber, has_plus, has_plus_in, is_given, is_set, is_signed, progress_in};
ghost use Rattle.command_line.specs.Commands.{pregel};
ghost use Rattle.command_line.specs.inside.Matches.{Finds, IsRefusedIn, rows_in};

use crate::commands::pregel;
use clap::error::ErrorKind;
use clap::parser::ValueSource;
use clap::{ArgMatches, Command, Error};
use job_state::Settings;
use requests::{
    Cores, ImportRequest, JobRequest, ModuleRequest, Options, Progress, Request, RunRequest,
};
use std::alloc::Global;
use std::convert::AsStr;

// The names of the options with a number, which `clap` reads.
static NUMBERS: [&str; 6] = ["parts", "workers", "every", "limit", "lease", "max-size"];

/// Reads the words of a command line. The first is the program's name.
///
/// An `Err` is clap's error, with its text and exit status. It has one of these kinds:
///
/// * the kind of a fault that clap finds in the words; a request for help or for the version is one too;
/// * `ValueValidation`: a number is written with a `+`, which clap accepts;
/// * `MissingSubcommand`: the words have no command;
/// * `OutOfMemory`: an allocation fails.
pub fn options<'a, S: AsStr>(alloc: Global, words: &'a [S]) -> Result<Options<'a>, Error>
    ensures asked { IfOk result (AskedBy (map S.text words.entry.now)) }
    ensures unsigned { OnOk result (has_plus (map S.text words.entry.now) ≡ false) }
    ensures refused { MatchResult result (λ _. fault_of pregel (map S.text words.entry.now) ≡ [])
        (IsRefusal (map S.text words.entry.now)) }
{
    let mut command = pregel(alloc)?;
    let options = options_by(&mut command, words);
    // This drop is one call. At the end of the scope each field has a drop of its own.
    drop(command);
    options
}

// Reads the words by the command's arguments.
fn options_by<'a, S: AsStr>(command: &mut Command<'a>, words: &'a [S]) -> Result<Options<'a>, Error>
    requires { app_of command.old ≡ pregel }
    ensures asked { IfOk result (AskedBy (map S.text words.entry.now)) }
    ensures unsigned { OnOk result (has_plus (map S.text words.entry.now) ≡ false) }
    ensures refused { MatchResult result (λ _. fault_of pregel (map S.text words.entry.now) ≡ [])
        (IsRefusal (map S.text words.entry.now)) }
{
    let matches = command.try_get_matches_from_mut(words)?;
    options_in(command, &matches)
}

// Finds the request in clap's matches. Fails if a number has a `+` or the command is missing, or if memory runs out.
fn options_in<'a>(command: &mut Command<'a>, matches: &ArgMatches<'a>) -> Result<Options<'a>, Error>
    ensures asked { IfOk result (AskedIn (subcommand_rows_of matches.now)) }
    ensures unsigned { OnOk result (has_plus_in (subcommand_rows_of matches.now) ≡ false) }
    ensures refused { IfErr result (IsRefusedIn (subcommand_rows_of matches.now)) }
{
    if has_plus(matches) {
        return refusal(command, ErrorKind::ValueValidation, "a number has no sign");
    }
    match chosen(matches) {
        Some(options) => Ok(options),
        None => refusal(
            command,
            ErrorKind::MissingSubcommand,
            "a command is missing",
        ),
    }
}

// Makes clap's error of this kind, with this message.
fn refusal<'a>(
    command: &mut Command<'a>,
    kind: ErrorKind,
    message: &str,
) -> Result<Options<'a>, Error>
    ensures { IsErrAnd result (HasKind (kind ∷ [])) }
{
    let error = command.error(kind, message)?;
    Err(error)
}

// Tests whether a number is written with a `+`, which `clap` accepts.
fn has_plus(matches: &ArgMatches) -> bool
    ensures { result ≡ has_plus_in (subcommand_rows_of matches.now) }
{
    let Some((_, entries)) = matches.subcommand() else {
        return false;
    };
    any_has_plus(entries, NUMBERS.as_slice())
}

fn any_has_plus(entries: &ArgMatches, names: &[&str]) -> bool
    ensures { result ≡ list_any (λ s. is_signed (rows_in entries.now) s.now) names.now }
{
    for name in names {
        if begins_with_plus(entries, name) {
            return true;
        }
    }
    false
}

fn begins_with_plus(entries: &ArgMatches, name: &str) -> bool
    ensures { result ≡ is_signed (rows_in entries.now) name.now }
{
    match entries.get_str(name) {
        Some(text) => text.starts_with('+'),
        None => false,
    }
}

fn chosen<'a>(matches: &ArgMatches<'a>) -> Option<Options<'a>>
    ensures { Finds (AskedIn (subcommand_rows_of matches.now)) result }
{
    let (name, entries) = matches.subcommand()?;
    if name == "console" {
        return Some(Options::Session);
    }
    let request = requested(name, entries)?;
    Some(Options::Command {
        request,
        explains: is_set(entries, "explain"),
    })
}

fn requested<'a>(name: &str, entries: &ArgMatches<'a>) -> Option<Request<'a>>
    ensures { Finds (AsksFor name.now (rows_in entries.now)) result }
{
    match name {
        "call" => call_asked(entries),
        "run" => run_asked(entries),
        "replay" => replay_asked(entries),
        "upgrade" => upgrade_asked(entries),
        "asm" => assemble_asked(entries),
        "fit" => fit_asked(entries),
        "graph" => import_asked(entries),
        "print" => {
            let module = entries.get_str("module")?;
            Some(Request::Print { module })
        }
        "verify" => {
            let module = module_asked(entries)?;
            Some(Request::Verify { module })
        }
        _ => None,
    }
}

fn call_asked<'a>(entries: &ArgMatches<'a>) -> Option<Request<'a>>
    ensures { Finds (AsksFor (codes "call") (rows_in entries.now)) result }
{
    match (module_asked(entries), entries.get_str("input")) {
        (Some(module), Some(input)) => Some(Request::Call { module, input }),
        _ => None,
    }
}

fn run_asked<'a>(entries: &ArgMatches<'a>) -> Option<Request<'a>>
    ensures { Finds (AsksFor (codes "run") (rows_in entries.now)) result }
{
    let job = job_asked(entries)?;
    Some(Request::Run(RunRequest {
        job,
        cores: cores_asked(entries),
        keep: entries.get_str("keep"),
        resume: is_set(entries, "resume"),
        lose: entries.get_str("lose"),
        again: is_set(entries, "again"),
        progress: progress_asked(entries),
        report: entries.get_str("report"),
        plot: entries.get_str("plot"),
    }))
}

fn cores_asked(entries: &ArgMatches) -> Cores
    ensures { AsksCores (rows_in entries.now) result }
{
    Cores {
        all: is_set(entries, "all-cores"),
        workers_given: is_given(entries, "workers"),
        parts_given: is_given(entries, "parts"),
    }
}

// Returns when to show progress. `--quiet` outweighs `--progress`.
fn progress_asked(entries: &ArgMatches) -> Progress
    ensures { result ≡ progress_in (rows_in entries.now) }
{
    if is_set(entries, "quiet") {
        return Progress::Never;
    }
    if is_set(entries, "progress") {
        Progress::Always
    } else {
        Progress::OnTerminal
    }
}

fn replay_asked<'a>(entries: &ArgMatches<'a>) -> Option<Request<'a>>
    ensures { Finds (AsksFor (codes "replay") (rows_in entries.now)) result }
{
    match (job_asked(entries), entries.get_str("steps")) {
        (Some(asked), Some(steps)) => Some(Request::Replay { asked, steps }),
        _ => None,
    }
}

fn upgrade_asked<'a>(entries: &ArgMatches<'a>) -> Option<Request<'a>>
    ensures { Finds (AsksFor (codes "upgrade") (rows_in entries.now)) result }
{
    match (entries.get_str("checkpoint"), entries.get_str("binary")) {
        (Some(checkpoint), Some(newer)) => Some(Request::Upgrade { checkpoint, newer }),
        _ => None,
    }
}

fn assemble_asked<'a>(entries: &ArgMatches<'a>) -> Option<Request<'a>>
    ensures { Finds (AsksFor (codes "asm") (rows_in entries.now)) result }
{
    match (entries.get_str("module"), entries.get_str("binary")) {
        (Some(module), Some(binary)) => Some(Request::Assemble { module, binary }),
        _ => None,
    }
}

fn fit_asked<'a>(entries: &ArgMatches<'a>) -> Option<Request<'a>>
    ensures { Finds (AsksFor (codes "fit") (rows_in entries.now)) result }
{
    match (entries.get_str("module"), entries.get_str("binary")) {
        (Some(module), Some(binary)) => Some(Request::Fit { module, binary }),
        _ => None,
    }
}

fn import_asked<'a>(entries: &ArgMatches<'a>) -> Option<Request<'a>>
    ensures { Finds (AsksFor (codes "graph") (rows_in entries.now)) result }
{
    match (entries.get_str("edges"), entries.get_str("binary")) {
        (Some(edges), Some(graph)) => Some(Request::Import(ImportRequest {
            edges,
            graph,
            undirected: is_set(entries, "undirected"),
            value: entries.get_str("value"),
            source: entries.get_str("source"),
            weight: entries.get_str("weight"),
            share: is_set(entries, "share"),
            names: entries.get_str("names"),
        })),
        _ => None,
    }
}

fn job_asked<'a>(entries: &ArgMatches<'a>) -> Option<JobRequest<'a>>
    ensures { Finds (AsksJob (rows_in entries.now)) result }
{
    match (
        module_asked(entries),
        entries.get_str("graph"),
        settings_of(entries),
    ) {
        (Some(module), Some(graph), Some(settings)) => Some(JobRequest {
            module,
            graph,
            settings,
            tells_units: is_set(entries, "units"),
        }),
        _ => None,
    }
}

fn module_asked<'a>(entries: &ArgMatches<'a>) -> Option<ModuleRequest<'a>>
    ensures { Finds (AsksModule (rows_in entries.now)) result }
{
    match (entries.get_str("module"), bound_of(entries, "max-size")) {
        (Some(path), Some(max_size)) => Some(ModuleRequest { path, max_size }),
        _ => None,
    }
}

fn settings_of(entries: &ArgMatches) -> Option<Settings>
    ensures { Finds (GivesSettings (rows_in entries.now)) result }
{
    Some(Settings {
        parts: number_of(entries, "parts")?,
        workers: number_of(entries, "workers")?,
        every: number_of(entries, "every")?,
        limit: number_of(entries, "limit")?,
        lease: number_of(entries, "lease")?,
    })
}

// Returns the number of a setting, given or by default.
fn number_of(entries: &ArgMatches, name: &str) -> Option<u32>
    ensures { Finds (GivesNumber (rows_in entries.now) name.now) result }
{
    entries.get_one(name)
}

// Returns the number of an option without a default. The inner `None` says that the words leave it out.
fn bound_of(entries: &ArgMatches, name: &str) -> Option<Option<u32>>
    ensures { Finds (MayGiveNumber (rows_in entries.now) name.now) result }
{
    match entries.get_str(name) {
        Some(_) => number_of(entries, name).map(Some),
        None => Some(None),
    }
}

// Tests whether the words give an option. Its default does not count.
fn is_given(entries: &ArgMatches, name: &str) -> bool
    ensures { result ≡ is_given (rows_in entries.now) name.now }
{
    match entries.value_source(name) {
        Some(ValueSource::CommandLine) => true,
        Some(ValueSource::DefaultValue) => false,
        None => false,
    }
}

// Tests whether a flag is given.
fn is_set(entries: &ArgMatches, name: &str) -> bool
    ensures { result ≡ is_set (rows_in entries.now) name.now }
{
    entries.get_one(name).unwrap_or(false)
}
