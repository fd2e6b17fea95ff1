//! What the program does for its options.

ghost use Rattle.std.specs.Prelude.{◌≡◌, ℕ, List, false};
ghost use Rattle.requests.specs.Machine.{options_on};
ghost use Rattle.sources.specs.Disk.{Stays};
ghost use Rattle.pregel.specs.FileCommands.{writes_file};
ghost use Rattle.plain_commands.specs.Sheets.{asks_sheets};
ghost use Rattle.pregel.specs.Program.{CommandTold, Does, IsCommandTold, may_write};

use crate::file_commands::command;
use checkpoint::{Device, Folder};
use line_text::WriteFailure;
use plain_commands::{RunNotes, write_sheets};
use requests::{Options, Request};
use run_views::View;
use session::ServeFault;
use sources::Files;
use std::alloc::Global;
use std::io::{Read, Write};
use std::sync::Wait;
use std::thread::Threads;
use threaded_session::serve_in_threads;
use workers::NoLoss;

/// Does what the options ask for on a machine that has so many processors, and answers the status for the process: it serves a
/// session from the reader to the writer, whose jobs run in threads and lose no worker, and answers 0; or carries out a command,
/// writes the report and the chart of a run where these are asked for, and answers what `command` and `write_sheets` do. A
/// run shows in the view how far it has come.
///
/// It fails as `serve` does, and with `Write` where the writer failed as a command was answered.
pub fn execute<R: Read, W: Write, F: Files, V: View + Sync>(
    rt: &(impl Wait + Threads + Sync + Device + Folder + AllocGlobal),
    alloc: Global,
    options: Options<'_>,
    processors: u32,
    view: &V,
    files: &mut F,
    reader: &mut R,
    writer: &mut W,
) -> Result<u8, ServeFault>
    ensures done { Does (options_on processors options.entry)
        (F.disk files.old) (F.disk files.new) (R.remaining reader.old)
        (R.remaining reader.new) (W.contents writer.old) (W.contents writer.new) result }
    // Only commands that are to write one of `files` write one.
    ensures kept { may_write options.entry ≡ false → Stays (F.disk files.old) (F.disk files.new) }
{
    match options {
        Options::Session => {
            serve_in_threads(rt, alloc, reader, writer, files, &NoLoss)?;
            Ok(0)
        }
        Options::Command { request, explains } => {
            let asked = request.on_machine(processors);
            let status = carry_out_command(rt, alloc, asked, explains, view, files, writer)?;
            Ok(status)
        }
    }
}

// Carries out a command, and writes the report and the chart of a run, where it asks for these.
fn carry_out_command<W: Write, F: Files, V: View + Sync>(
    rt: &(impl Wait + Threads + Sync + Device + Folder + AllocGlobal),
    alloc: Global,
    request: Request<'_>,
    explains: bool,
    view: &V,
    files: &mut F,
    writer: &mut W,
) -> Result<u8, WriteFailure>
    ensures told { (status : ℕ) × (told : List ℕ)
        × CommandTold (F.disk files.old) (F.disk files.new) request.entry status told
        × IsCommandTold request.entry (W.contents writer.old) (W.contents writer.new)
        status told result }
    ensures kept { writes_file request.entry ≡ false → asks_sheets request.entry ≡ false
        → Stays (F.disk files.old) (F.disk files.new) }
{
    let mut notes = RunNotes::new();
    let status = command(
        rt, alloc, request, explains, view, files, writer, &mut notes,
    )?;
    Ok(write_sheets(alloc, request, status, &notes, files))
}
