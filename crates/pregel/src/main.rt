//! The program `pregel`.
#![tactic(auto)]

ghost use Rattle.std.specs.Prelude.{◌≡◌, ◌⊎◌, IfOk, OnErr};
ghost use Rattle.std.specs.Process.{exit_status};

mod file_commands;
mod program;

use crate::program::execute;
use checkpoint::{Device, Folder};
use command_line::{options, refuse_arguments, refuse_words, words};
use line_text::FailureRecorder;
use requests::Options;
use run_views::ProgressLine;
use session::ServeFault;
use sources::{CommandFault, System, SystemFiles};
use std::io;
use std::io::IsTerminal;
use std::process::ExitCode;
use std::sync::Wait;
use std::thread::{Threads, available_parallelism};
use std::time::Clock;

// Runs the program, and ends with its status:
// * 0: an answer, a session that ended well, or help;
// * 1: a refusal, also because memory ran out;
// * 2: a mistake in the command line;
// * 3: a job that ended with a fault;
// * 4: a file, standard input or standard output that cannot be read or written, or a session that ran out of memory.
fn main(rt: HostRuntime) -> ExitCode {
    let is_terminal = rt.stderr().is_terminal();
    let outcome = match words(&rt) {
        Ok(words) => match options(rt.alloc(), words.as_slice()) {
            Ok(options) => Ok(execute_asked(&rt, options, is_terminal)),
            Err(error) => refuse_words(&rt, &error),
        },
        Err(error) => refuse_arguments(&rt, error),
    };
    exit_code(&rt, outcome)
}

// Does what the options ask for, with the system's files and streams. Standard error is a terminal or is not.
fn execute_asked(
    rt: &(impl Clock
        + Input
        + System
        + Device
        + Folder
        + Print
        + Eprint
        + AllocGlobal
        + Threads
        + Wait
        + Sync),
    options: Options<'_>,
    is_terminal: bool,
) -> u8 {
    // (failures of a session's files are only in its replies)
    let tells = matches!(options, Options::Command { .. });
    let view = ProgressLine::new(rt, is_terminal);
    let mut files = SystemFiles::new(rt, tells);
    let mut reader = FailureRecorder::new(rt.reader());
    let mut writer = FailureRecorder::new(io::writer(rt));
    let processors = processors(rt);
    let outcome = execute(
        rt,
        rt.alloc(),
        options,
        processors,
        &view,
        &mut files,
        &mut reader,
        &mut writer,
    );
    status_after(rt, outcome, reader.failure(), writer.failure())
}

// Returns the exit status. Where the reader or the writer failed, it reports why.
fn status_after(
    rt: &impl Eprint,
    outcome: Result<u8, ServeFault>,
    read: Option<io::Error>,
    written: Option<io::Error>,
) -> u8 {
    match outcome {
        Ok(status) => status,
        Err(ServeFault::Read) => report_failure(rt, "standard input", read),
        Err(ServeFault::Write) => report_failure(rt, "standard output", written),
        Err(ServeFault::OutOfMemory) => {
            let _ = eprintln!(rt; "pregel: out of memory");
            4
        }
    }
}

// How many processors the program may use; 1 where that is not known.
fn processors(rt: &impl Threads) -> u32 {
    match available_parallelism(rt) {
        Ok(count) => u32::try_from(count.get()).unwrap_or(u32::MAX),
        Err(_) => 1,
    }
}

// Tells which stream failed, and why where that is known. The status is 4.
fn report_failure(rt: &impl Eprint, stream: &str, failure: Option<io::Error>) -> u8
    ensures { result ≡ 4 }
{
    let _ = match failure {
        Some(error) => eprintln!(rt; "pregel: {stream}: {error}"),
        None => eprintln!(rt; "pregel: {stream} failed"),
    };
    4
}

// Returns the exit code for the status. Without a status it is 1 if memory ran out, and 4 if a writer failed.
fn exit_code(rt: &(impl Print + Eprint), outcome: io::Result<u8>) -> ExitCode
    ensures ended { IfOk outcome (λ status. exit_status result ≡ status) }
    ensures failed { OnErr outcome ((exit_status result ≡ 1) ⊎ (exit_status result ≡ 4)) }
{
    match outcome {
        Ok(status) => ExitCode::from(status),
        Err(error) => failed(rt, &error),
    }
}

// Reports that memory ran out on standard output. Any other failure is taken for one of standard output, and is reported on
// standard error.
fn failed(rt: &(impl Print + Eprint), error: &io::Error) -> ExitCode
    ensures { (exit_status result ≡ 1) ⊎ (exit_status result ≡ 4) }
{
    if error.kind() != io::ErrorKind::OutOfMemory {
        return ExitCode::from(report_failure(rt, "standard output", Some(*error)));
    }
    match println!(rt; "{}", CommandFault::OutOfMemory) {
        Ok(()) => ExitCode::from(1),
        Err(error) => ExitCode::from(report_failure(rt, "standard output", Some(error))),
    }
}
