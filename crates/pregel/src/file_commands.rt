//! The commands over files: each prints an answer or, on one line, a refusal.

ghost use Rattle.std.specs.Prelude.{◌≡◌, List, ℕ, false, true, IfOk, IfErr, OnErr};
ghost use Rattle.std.specs.Io.KnownBytes.{Appends};
ghost use Rattle.sources.specs.Disk.{Stays};
ghost use Rattle.call_lines.specs.OutputLines.{IfText};
ghost use Rattle.pregel.specs.FileCommands.{Answered, IsCause, MayPrint, MayTry, NotesAnswer, NotesOnlyAsked, NotesPrinted, NotesRefusal, writes_file};
ghost use Rattle.plain_commands.specs.Outputs.{HasPrinted};
ghost use Rattle.conversions.specs.Causes.{StaysBeforeWriting};
ghost use Rattle.plain_commands.specs.Sheets.{asks_sheets};

use checkpoint::{Device, Folder};
use conversions::{assemble_file, fit_file, import_file, print_file, upgrade_file};
use explanations::explain_refusal;
use line_text::{Output, WriteFailure};
use plain_commands::{RunNotes, call_files, refuse, replay_files, tell, verify_file};
use requests::Request;
use run_command::run_files;
use run_views::View;
use sources::{CommandFault, Files};
use std::alloc::Global;
use std::sync::Wait;
use std::thread::Threads;

/// Executes a command, and writes the answer or, as one line, the refusal.
///
/// It returns the status of the process:
/// * 0 for an answer;
/// * 1 if the module, the input, the call, the graph, a setting, the steps, the text of the lost worker or a checkpoint is
///   refused, or memory runs out;
/// * 3 if a job ended with a fault;
/// * 4 if a file cannot be read or written, which `no file PATH` reports.
///
/// If the path of a module's file ends in `.wat`, it is text; any other file is binary. Text has to be in UTF-8. The
/// function fails only if the writer fails; then a beginning of the output was written.
///
/// `call` answers with the lines of the outcome. It checks the module before it reports that the input's file cannot be
/// read. `run` answers with the values of the vertices and how the job ended. It checks the text of the lost worker first,
/// then the module, the graph and the settings. If it keeps its states in a folder, these are files of the system, not of
/// `files`. A folder in which no file can be made is refused before the job begins. `replay` answers with a line for each
/// step, and where the steps lead. It reads the steps after it has checked the settings.
///
/// `verify` answers `ok size S operands M frames F`. `upgrade` reads a checkpoint of any version, writes it to the other
/// file as version 2, and answers `ok LENGTH`. `asm` writes the module's canonical spelling to the other file, and answers
/// `ok LENGTH`. `fit` writes what `fit::fit` makes of the module, which has to be valid, and answers `ok LENGTH`. `print` answers
/// with the module's text. `asm` and `print` accept a module that is not
/// valid. `call`, `run`, `replay` and `verify` require a valid module in the bounded profile.
///
/// `call`, `run` and `verify` refuse a module whose size is greater than asked for, after the module's own refusals and before
/// they read the input or the graph. With `explains` they show beside their answers why the module is refused; what they answer
/// is the same. `graph` makes a graph file of the edges in a file, as `import` of `conversions` does, and answers
/// `ok VERTICES EDGES`. What is shown in the view while a job runs, and the warnings of `run`, change no answer. Where a run is to
/// be reported, what it did is noted, for `write_sheets`.
pub fn command<F: Files, O: Output, V: View + Sync>(
    rt: &(impl Wait + Threads + Sync + Device + Folder + AllocGlobal),
    alloc: Global,
    request: Request<'_>,
    explains: bool,
    view: &V,
    files: &mut F,
    out: &mut O,
    notes: &mut RunNotes,
) -> Result<u8, WriteFailure>
    ensures told { (status : ℕ) × (told : List ℕ)
        × MayPrint (F.disk files.old) (F.disk files.new) request.entry status told
        × HasPrinted (O.contents out.old) (O.contents out.new) status told result }
    ensures failed { OnErr result (O.has_failed out.new) }
    // Where a report or a chart is asked for, what the job of a run ended with is noted, and that is what is printed.
    ensures noted { asks_sheets request.entry ≡ true → IfOk result (λ status. (told : List ℕ)
        × Appends (O.contents out.old) (O.contents out.new) told
        × NotesPrinted (F.disk files.old) request.entry notes.new status told) }
    // Nothing else is noted.
    ensures only { NotesOnlyAsked (F.disk files.old) request.entry notes.old notes.new }
    // No command but `asm`, `fit`, `upgrade` and `graph` writes one of `files`.
    ensures kept { writes_file request.entry ≡ false → Stays (F.disk files.old) (F.disk files.new) }
{
    match execute_request(rt, alloc, request, view, files, notes) {
        Ok(text) => tell(0, text.as_bytes(), out),
        Err(fault) => {
            let told = refuse(alloc, &fault, out);
            explain_refusal(alloc, request, &fault, explains, files);
            told
        }
    }
}

// What is told of a command.
fn execute_request<'a, F: Files, V: View + Sync>(
    rt: &(impl Wait + Threads + Sync + Device + Folder + AllocGlobal),
    alloc: Global,
    request: Request<'a>,
    view: &V,
    files: &mut F,
    notes: &mut RunNotes,
) -> Result<String, CommandFault<'a>>
    ensures answered { IfText result
        (Answered (F.disk files.old) (F.disk files.new) request.entry) }
    ensures noted { asks_sheets request.entry ≡ true
        → IfText result (NotesAnswer (F.disk files.old) request.entry notes.new) }
    ensures fault_noted { asks_sheets request.entry ≡ true
        → IfErr result (NotesRefusal (F.disk files.old) request.entry notes.new) }
    ensures only { NotesOnlyAsked (F.disk files.old) request.entry notes.old notes.new }
    ensures kept { writes_file request.entry ≡ false → Stays (F.disk files.old) (F.disk files.new) }
    ensures refused { IfErr result (IsCause (F.disk files.old) request.entry) }
    ensures before { IfErr result (StaysBeforeWriting (F.disk files.old) (F.disk files.new)) }
    ensures tried { OnErr result (MayTry (F.disk files.old) (F.disk files.new) request.entry) }
{
    match request {
        Request::Call { module, input } => call_files(alloc, module, input, files),
        Request::Run(asked) => run_files(rt, alloc, asked, view, files, notes),
        Request::Replay { asked, steps } => replay_files(rt, alloc, asked, steps, files),
        Request::Upgrade { checkpoint, newer } => upgrade_file(alloc, checkpoint, newer, files),
        Request::Assemble { module, binary } => assemble_file(alloc, module, binary, files),
        Request::Fit { module, binary } => fit_file(alloc, module, binary, files),
        Request::Print { module } => print_file(alloc, module, files),
        Request::Verify { module } => verify_file(alloc, module, files),
        Request::Import(asked) => import_file(alloc, asked, files),
    }
}
