//! The command that a line asks for.

ghost use Rattle.std.specs.Prelude.{◌≡◌, Option};
ghost use Rattle.call_lines.specs.InputLine.{u32_of};
ghost use Rattle.session.specs.Words.{words_of};
ghost use Rattle.session.specs.Commands.{asked_alone, asked_by, asked_job, asked_of, asked_of_drop, asked_of_name, asked_of_two, settings_by, settings_of};
ghost use Rattle.session.specs.inside.SeenLines.{asked};

use crate::word::{first_word, is_name};
use call_lines::u32_of;
use superstep::Settings;

/// The most bytes of a line, without its line feed.
pub const LONGEST_LINE: usize = 4_096;

// The lease of a session's jobs: how many ticks a worker has for a task.
const LEASE: u32 = 1_000_000;

/// The kinds of things that `drop` removes.
#[derive(Clone, Copy)]
pub enum Kind {
    Module,
    Graph,
    Job,
}

/// A command.
#[derive(Clone, Copy)]
pub enum Command<'a> {
    /// Names the module in a file.
    AddModule {
        name: &'a str,
        path: &'a str,
    },
    /// Names the graph in a file.
    AddGraph {
        name: &'a str,
        path: &'a str,
    },
    /// Makes a job of a module and a graph, and names it.
    AddJob {
        name: &'a str,
        module: &'a str,
        graph: &'a str,
        settings: Settings,
    },
    /// Runs a job.
    Run(&'a str),
    /// Reports the state of a job.
    Status(&'a str),
    /// Reports the values that a job ended with.
    Values(&'a str),
    /// Removes a name and what it names.
    Drop(Kind, &'a str),
    Quit,
    /// It is no command.
    Unknown,
}

/// Reads a line, without its line feed, as a command. Only spaces separate words: a tab or a carriage return is part of its
/// word.
pub fn command_of(line: &[u8]) -> Command<'_>
    ensures { asked result ≡ asked_of line.now }
{
    if line.len() > LONGEST_LINE {
        return Command::Unknown;
    }
    match str::from_utf8(line) {
        Ok(text) => command_by(text),
        Err(_) => Command::Unknown,
    }
}

// Reads the words of a line as a command.
fn command_by(line: &str) -> Command<'_>
    ensures { asked result ≡ asked_by (words_of line.now) }
{
    let Some((word, rest)) = first_word(line) else {
        return Command::Unknown;
    };
    let Some((first, rest)) = first_word(rest) else {
        return command_alone(word);
    };
    let Some((second, rest)) = first_word(rest) else {
        return command_of_name(word, first);
    };
    let Some((third, rest)) = first_word(rest) else {
        return command_of_two(word, first, second);
    };
    if word == "job" && is_name(first) && is_name(second) && is_name(third) {
        job(first, second, third, rest)
    } else {
        Command::Unknown
    }
}

fn command_alone(word: &str) -> Command<'_>
    ensures { asked result ≡ asked_alone word.now }
{
    if word == "quit" {
        Command::Quit
    } else {
        Command::Unknown
    }
}

// Reads a command of a word and a name.
fn command_of_name<'a>(word: &str, name: &'a str) -> Command<'a>
    ensures { asked result ≡ asked_of_name word.now name.now }
{
    if !is_name(name) {
        return Command::Unknown;
    }
    match word {
        "run" => Command::Run(name),
        "status" => Command::Status(name),
        "values" => Command::Values(name),
        _ => Command::Unknown,
    }
}

// Reads a command of a word and two more.
fn command_of_two<'a>(word: &str, first: &'a str, second: &'a str) -> Command<'a>
    ensures { asked result ≡ asked_of_two word.now first.now second.now }
{
    if word == "drop" {
        return command_of_drop(first, second);
    }
    if !is_name(first) {
        return Command::Unknown;
    }
    match word {
        "module" => Command::AddModule {
            name: first,
            path: second,
        },
        "graph" => Command::AddGraph {
            name: first,
            path: second,
        },
        _ => Command::Unknown,
    }
}

// Reads the kind and the name of what is to be dropped.
fn command_of_drop<'a>(kind: &str, name: &'a str) -> Command<'a>
    ensures { asked result ≡ asked_of_drop kind.now name.now }
{
    if !is_name(name) {
        return Command::Unknown;
    }
    match kind {
        "module" => Command::Drop(Kind::Module, name),
        "graph" => Command::Drop(Kind::Graph, name),
        "job" => Command::Drop(Kind::Job, name),
        _ => Command::Unknown,
    }
}

// Reads the names of a job, its module and its graph, and the words of its settings.
fn job<'a>(name: &'a str, module: &'a str, graph: &'a str, numbers: &str) -> Command<'a>
    ensures { asked result ≡ asked_job name.now «module».now graph.now (words_of numbers.now) }
{
    match settings_of(numbers) {
        Some(settings) => Command::AddJob {
            name,
            module,
            graph,
            settings,
        },
        None => Command::Unknown,
    }
}

// Reads four numbers: the parts, the workers, the supersteps from one save to the next, and the limit.
fn settings_of(numbers: &str) -> Option<Settings>
    ensures { result ≡ settings_of (words_of numbers.now) }
{
    let (parts, rest) = first_word(numbers)?;
    let (workers, rest) = first_word(rest)?;
    let (every, rest) = first_word(rest)?;
    let (limit, rest) = first_word(rest)?;
    if first_word(rest).is_some() {
        return None;
    }
    settings_by(parts, workers, every, limit)
}

fn settings_by(parts: &str, workers: &str, every: &str, limit: &str) -> Option<Settings>
    ensures { result ≡ settings_by (u32_of parts.now) (u32_of workers.now) (u32_of every.now)
        (u32_of limit.now) }
{
    Some(Settings {
        parts: u32_of(parts.as_bytes())?,
        workers: u32_of(workers.as_bytes())?,
        every: u32_of(every.as_bytes())?,
        limit: u32_of(limit.as_bytes())?,
        lease: LEASE,
    })
}
