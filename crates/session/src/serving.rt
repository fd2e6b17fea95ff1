//! The loop that serves a session.

ghost use Rattle.std.specs.Prelude.{◌≡◌, ◌≤◌, [], vec_len, MatchResult};
ghost use Rattle.std.specs.Io.KnownBytes.{Appends, Keeps};
ghost use Rattle.line_text.specs.Output.{HasBegun};
ghost use Rattle.sources.specs.Disk.{Stays};
ghost use Rattle.session.specs.declared.serving.ServeFault.TheVariants as fault;
ghost use Rattle.session.specs.Commands.{asked_of, is_quit};
ghost use Rattle.session.specs.Maps.{nothing};
ghost use Rattle.session.specs.Serving.{Serves};
ghost use Rattle.session.specs.inside.SeenLines.{asked};
ghost use Rattle.session.specs.inside.Seen.{maps_of};
ghost use Rattle.session.specs.inside.Underway.{AnswersBytes, AnswersLine, GetsSome};

use crate::command::{Command, command_of};
use crate::lines::{KEPT, cut_line, keep};
use crate::runner::Runner;
use crate::sessions::{Session, answer};
use line_text::{WriteFailure, write_all};
use sources::Files;
use std::alloc::{AllocError, Global};
use std::io::{ErrorKind, Read, Write};
use std::thread::Threads;
use thiserror::Error;

// The most bytes of one read.
const CHUNK: usize = 4_096;

/// The reason why serving stopped before the end of the session.
#[derive(Clone, Copy, Debug, Error)]
pub enum ServeFault {
    /// The reader failed, or its input did not end.
    #[error("reading failed")]
    Read,
    /// The writer failed.
    #[error("writing failed")]
    Write,
    /// Memory ran out for the line that is being read.
    #[error("out of memory")]
    OutOfMemory,
}

impl From<AllocError> for ServeFault {
    ghost from_gives = { λ _ told. told ≡ fault.OutOfMemory };

    fn from(_: AllocError) -> ServeFault {
        ServeFault::OutOfMemory
    }
}

impl From<WriteFailure> for ServeFault {
    ghost from_gives = { λ _ told. told ≡ fault.Write };

    fn from(_: WriteFailure) -> ServeFault {
        ServeFault::Write
    }
}

/// Serves a session: reads lines and answers each, until one is `quit` or the input ends. Each reply is flushed.
///
/// A line has at most 4,096 bytes without its line feed. A longer one gets one reply, `no 1 Usage`. Bytes after the last
/// line feed are no line. At most 18,446,744,073,709,551,615 reads are made; then it fails with `Read`. After a fault
/// nothing more is read or written.
pub fn serve<R: Read, W: Write, F: Files, N: Runner>(
    rt: &(impl Threads + Sync),
    alloc: Global,
    reader: &mut R,
    writer: &mut W,
    files: &mut F,
    runner: &N,
) -> Result<(), ServeFault>
    requires { N.can_run runner.now }
    ensures served { Serves (F.disk files.old) (N.runs runner.now) nothing (R.remaining reader.old)
        (R.remaining reader.new) (W.contents writer.old) (W.contents writer.new) result }
    ensures files { Stays (F.disk files.old) (F.disk files.new) }
{
    let mut session = Session::new(alloc);
    let mut line = Vec::with_capacity(alloc, KEPT)?;
    serve_lines(
        rt,
        alloc,
        reader,
        &mut line,
        &mut session,
        writer,
        files,
        runner,
    )
}

// Serves a session from the beginning of a line.
fn serve_lines<R: Read, W: Write, F: Files, N: Runner>(
    rt: &(impl Threads + Sync),
    alloc: Global,
    reader: &mut R,
    line: &mut Vec<u8>,
    session: &mut Session,
    writer: &mut W,
    files: &mut F,
    runner: &N,
) -> Result<(), ServeFault>
    requires empty { line.old.items ≡ [] }
    requires ready { N.can_run runner.now }
    ensures served { Serves (F.disk files.old) (N.runs runner.now) (maps_of session.old)
        (R.remaining reader.old) (R.remaining reader.new) (W.contents writer.old)
        (W.contents writer.new) result }
    ensures files { Stays (F.disk files.old) (F.disk files.new) }
{
    let mut chunk = [0; CHUNK];
    'reads: for _ in 0..u64::MAX {
        let Some(count) = read_some(reader, &mut chunk)? else {
            continue;
        };
        if count == 0 {
            return Ok(());
        }
        let bytes = &chunk[..count];
        if answer_bytes(rt, alloc, bytes, line, session, writer, files, runner)? {
            return Ok(());
        }
    }
    Err(ServeFault::Read)
}

// Reads some bytes and returns their number: 0 at the end of the input, and `None` if the read was interrupted.
fn read_some<R: Read>(reader: &mut R, chunk: &mut [u8]) -> Result<Option<usize>, ServeFault>
    ensures { MatchResult result
        (GetsSome (R.remaining reader.old) (R.remaining reader.new) chunk.new)
        (λ told. (told ≡ fault.Read) × Keeps (R.remaining reader.old) (R.remaining reader.new)) }
{
    match reader.read(chunk) {
        Ok(count) => Ok(Some(count)),
        Err(error) if error.kind() == ErrorKind::Interrupted => Ok(None),
        Err(_) => Err(ServeFault::Read),
    }
}

// Answers the lines that end in these bytes, up to `quit`, and keeps the bytes after the last line feed. Returns whether a
// line was `quit`.
fn answer_bytes<W: Write, F: Files, N: Runner>(
    rt: &(impl Threads + Sync),
    alloc: Global,
    bytes: &[u8],
    line: &mut Vec<u8>,
    session: &mut Session,
    writer: &mut W,
    files: &mut F,
    runner: &N,
) -> Result<bool, ServeFault>
    requires room { vec_len line.old ≤ KEPT }
    requires ready { N.can_run runner.now }
    ensures answered { AnswersBytes (F.disk files.old) (N.runs runner.now) (maps_of session.old)
        line.old.items bytes.now (W.contents writer.old) (W.contents writer.new)
        (maps_of session.new) line.new.items result }
    ensures room { vec_len line.new ≤ KEPT }
    ensures files { Stays (F.disk files.old) (F.disk files.new) }
{
    let mut rest = bytes;
    while let Some((front, others)) = cut_line(rest) {
        keep(line, front)?;
        rest = others;
        if answer_line(rt, alloc, line.as_slice(), session, writer, files, runner)? {
            return Ok(true);
        }
        line.clear();
    }
    keep(line, rest)?;
    Ok(false)
}

// Answers a line, and returns whether it was `quit`.
fn answer_line<W: Write, F: Files, N: Runner>(
    rt: &(impl Threads + Sync),
    alloc: Global,
    line: &[u8],
    session: &mut Session,
    writer: &mut W,
    files: &mut F,
    runner: &N,
) -> Result<bool, ServeFault>
    requires { N.can_run runner.now }
    ensures answered { AnswersLine (F.disk files.old) (N.runs runner.now) (maps_of session.old)
        (asked_of line.now) (W.contents writer.old) (W.contents writer.new)
        (maps_of session.new) result }
    ensures files { Stays (F.disk files.old) (F.disk files.new) }
{
    let command = command_of(line);
    let reply = answer(rt, alloc, command, session, files, runner);
    tell(reply.as_bytes(), writer)?;
    Ok(is_quit(command))
}

fn is_quit(command: Command<'_>) -> bool
    ensures { result ≡ is_quit (asked command.entry) }
{
    matches!(command, Command::Quit)
}

// Writes a reply and flushes it.
fn tell<W: Write>(reply: &[u8], writer: &mut W) -> Result<(), ServeFault>
    ensures { MatchResult result
        (λ _. Appends (W.contents writer.old) (W.contents writer.new) reply.now)
        (λ told. (told ≡ fault.Write)
        × HasBegun (W.contents writer.old) (W.contents writer.new) reply.now) }
{
    write_all(reply, writer)?;
    match writer.flush() {
        Ok(()) => Ok(()),
        Err(_) => Err(ServeFault::Write),
    }
}
