//! A run, from the files of its module and graph to printed lines.

ghost use Rattle.std.specs.Prelude.{◌≡◌, is_some, true, IfOk, IfErr, IsSome};
ghost use Rattle.sources.specs.Disk.{Stays};
ghost use Rattle.checkpoint.specs.Files.{superstep_on};
ghost use Rattle.run_command.specs.Jobs.{AreEndLines, AreJobLines, AreKeptLines, AreRunLines, IsFaultOfRun};
ghost use Rattle.call_lines.specs.OutputLines.{IfText};
ghost use Rattle.run_views.specs.Loss.{NamesLoss, RefusesLoss};
ghost use Rattle.run_command.specs.Running.{IsFaultOfKeeping, IsUnrun, NotesFailedRun, NotesOnlyRun, NotesRun, PrintsRun};
ghost use Rattle.plain_commands.specs.Notes.{NotesEnd, NotesFault, NotesOnly};
ghost use Rattle.plain_commands.specs.Sheets.{asks_of_run};

use crate::jobs::{resume, run};
use checkpoint::{Device, FileKeep, Folder, MemoryKeep};
use plain_commands::{RunNotes, job_of, keep_in};
use requests::{Progress, RunRequest};
use run_report::Watch;
use run_views::{Loss, LossGate, RunGate, View, warn_of_run};
use sources::{CommandFault, Files};
use std::alloc::Global;
use std::sync::Wait;
use std::thread::Threads;
use superstep::Job;

/// Runs the job of the module in one file over the graph in another, and returns the lines of its end. It checks the text of the lost
/// worker first, then the module, the graph and the settings. If it keeps its states in a folder, these are files of the system, not of
/// `files`. A folder in which no file can be made is refused before the job begins. What is shown in the view while the job runs, and
/// warnings, change no answer. Where the run is to be reported, what it did is noted.
pub fn run_files<'a, F: Files, V: View + Sync>(
    rt: &(impl Wait + Threads + Sync + Device + Folder + AllocGlobal),
    alloc: Global,
    asked: RunRequest<'a>,
    view: &V,
    files: &mut F,
    notes: &mut RunNotes,
) -> Result<String, CommandFault<'a>>
    ensures answered { IfText result (PrintsRun (F.disk files.old) asked.entry) }
    ensures noted { asks_of_run asked.entry ≡ true
        → IfText result (NotesRun (F.disk files.old) asked.entry notes.new) }
    ensures fault_noted { asks_of_run asked.entry ≡ true
        → IfErr result (NotesFailedRun (F.disk files.old) asked.entry notes.new) }
    ensures only { NotesOnlyRun (F.disk files.old) asked.entry notes.old notes.new }
    ensures kept { Stays (F.disk files.old) (F.disk files.new) }
    ensures refused { IfErr result (IsUnrun (F.disk files.old) asked.entry) }
{
    let loss = loss_of(asked)?;
    let job = job_of(rt, alloc, asked.job, files)?;
    let view = shown_in(view, asked.progress);
    warn_of_run(&job, asked, loss, view.is_some(), files);
    let mut loss = LossGate::new(loss, asked.again);
    loss.watch = watch_of(alloc, &job, asked);
    let gate = RunGate::new(loss, view);
    run_kept(rt, alloc, &job, asked, &gate, files, notes)
}

// The view in which progress is shown, if it is.
fn shown_in<V: View>(view: &V, progress: Progress) -> Option<&V> {
    match progress {
        Progress::Always => Some(view),
        Progress::OnTerminal if view.is_watched() => Some(view),
        Progress::OnTerminal | Progress::Never => None,
    }
}

// Which worker is lost, if one is.
fn loss_of<'a>(asked: RunRequest<'a>) -> Result<Option<Loss>, CommandFault<'a>>
    ensures named { IfOk result (NamesLoss asked.entry.lose) }
    ensures refused { IfErr result (λ fault.
        (fault ≡ CommandFault.Loss) × RefusesLoss fault asked.entry.lose) }
{
    let Some(text) = asked.lose else {
        return Ok(None);
    };
    match Loss::read(text) {
        Some(loss) => Ok(Some(loss)),
        None => Err(CommandFault::Loss),
    }
}

// What counts what a job does, where it is to be reported.
fn watch_of(alloc: Global, job: &Job, asked: RunRequest<'_>) -> Option<Watch>
    ensures { is_some result ≡ asks_of_run asked.entry }
{
    if asked.report.is_none() && asked.plot.is_none() {
        return None;
    }
    Some(Watch::new(alloc, job.settings().parts))
}

// Runs a job, its states kept in a folder where one is named, else in memory.
fn run_kept<'a, F: Files, V: View + Sync>(
    rt: &(impl Wait + Threads + Sync + Device + Folder + AllocGlobal),
    alloc: Global,
    job: &Job,
    asked: RunRequest<'a>,
    gate: &RunGate<'_, V>,
    files: &mut F,
    notes: &mut RunNotes,
) -> Result<String, CommandFault<'a>>
    ensures told { IfText result
        (AreRunLines job.now asked.entry.keep gate.now.loss.loss asked.entry.resume
        asked.entry.job.tells_units) }
    ensures noted { IsSome gate.now.loss.watch
        → IfText result (NotesEnd job.now asked.entry.job.tells_units notes.new) }
    ensures fault_noted { IsSome gate.now.loss.watch
        → IfErr result (NotesFault job.now notes.new) }
    ensures only { NotesOnly job.now notes.old notes.new }
    ensures kept { Stays (F.disk files.old) (F.disk files.new) }
    ensures refused { IfErr result (IsFaultOfKeeping (F.disk files.old) asked.entry) }
{
    let tells_units = asked.job.tells_units;
    let warns = !matches!(asked.progress, Progress::Never);
    match asked.keep {
        None if asked.resume => {
            files.warn("--resume asks for the folder of --keep");
            Err(CommandFault::Resume)
        }
        None => {
            let keep = MemoryKeep::new(alloc);
            run(rt, alloc, job, keep, gate, files, notes, tells_units, warns)
        }
        Some(folder) => {
            let keep = keep_in(rt, alloc, asked, folder, files)?;
            run_in_folder(rt, alloc, job, keep, gate, files, notes, tells_units, warns)
        }
    }
}

// Runs a job, its states kept in a folder. Where it is asked to, it goes on with a state that is there.
fn run_in_folder<'a, F: Files, V: View + Sync>(
    rt: &(impl Wait + Threads + Sync + Device + AllocGlobal),
    alloc: Global,
    job: &Job,
    keep: FileKeep,
    gate: &RunGate<'_, V>,
    files: &mut F,
    notes: &mut RunNotes,
    tells_units: bool,
    warns: bool,
) -> Result<String, CommandFault<'a>>
    ensures told { IfText result (AreEndLines tells_units) }
    ensures unloaded { superstep_on keep ≡ None
        → IfText result (AreKeptLines job.now tells_units) }
    ensures unlost { superstep_on keep ≡ None → gate.now.loss.loss ≡ None
        → IfText result (AreJobLines job.now tells_units) }
    ensures noted { IsSome gate.now.loss.watch
        → IfText result (NotesEnd job.now tells_units notes.new) }
    ensures fault_noted { IsSome gate.now.loss.watch
        → IfErr result (NotesFault job.now notes.new) }
    ensures only { NotesOnly job.now notes.old notes.new }
    ensures kept { Stays (F.disk files.old) (F.disk files.new) }
    ensures refused { IfErr result IsFaultOfRun }
{
    match keep.newest() {
        Some(superstep) if superstep < job.settings().limit => resume(
            rt,
            alloc,
            job,
            keep,
            superstep,
            gate,
            files,
            notes,
            tells_units,
            warns,
        ),
        _ => run(rt, alloc, job, keep, gate, files, notes, tells_units, warns),
    }
}
