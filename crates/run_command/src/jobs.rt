//! A job, from a module and a graph to printed lines.

ghost use Rattle.std.specs.Prelude.{◌≡◌, true, IfErr, IsSome, ◌<◌, None, Some};
ghost use Rattle.sources.specs.Disk.{Stays};
ghost use Rattle.run_command.specs.Jobs.{AreEndLines, AreJobLines, AreKeptLines, IsFaultOfRun};
ghost use Rattle.call_lines.specs.OutputLines.{IfText};
ghost use Rattle.plain_commands.specs.Notes.{NotesEnd, NotesFault, NotesOnly, HasNoted};
ghost use Rattle.book.specs.Saving.{HasLeft};
ghost use Rattle.run_command.specs.inside.Answering.{AreLinesOfAnswer, IsFaultOfAnswer};

use book::Report;
use checkpoint::{Device, Keep};
use plain_commands::{RunNotes, ended_text};
use run_views::{RunGate, View, warn_of_missed};
use sources::{CommandFault, Files};
use std::alloc::Global;
use std::sync::Wait;
use std::thread::Threads;
use superstep::{Job, JobFault};
use workers::{resume_in_threads, run_in_threads};

/// What a job prints that goes on where an earlier run of it has left off, before this superstep of the Keep's last save: the lines
/// that `run` prints.
pub fn resume<'a, K: Keep + Drop, V: View + Sync, F: Files>(
    rt: &(impl Wait + Threads + Sync + Device + AllocGlobal),
    alloc: Global,
    job: &Job,
    keep: K,
    superstep: u32,
    gate: &RunGate<'_, V>,
    files: &mut F,
    notes: &mut RunNotes,
    tells_units: bool,
    warns: bool,
) -> Result<String, CommandFault<'a>>
    requires early { superstep < job.now.settings.limit }
    requires saved { K.saved keep ≡ Some superstep }
    requires left { K.honest keep ≡ true → HasLeft job.now (K.may_load keep) superstep }
    ensures told { IfText result (AreEndLines tells_units) }
    // Where the Keep is honest the job answers as if it had begun with superstep 0.
    ensures answered { K.honest keep ≡ true → IfText result (AreJobLines job.now tells_units) }
    // Where the gate watches the job, what it ended with is noted.
    ensures noted { IsSome gate.now.loss.watch
        → IfText result (NotesEnd job.now tells_units notes.new) }
    ensures fault_noted { IsSome gate.now.loss.watch
        → IfErr result (NotesFault job.now notes.new) }
    ensures only { NotesOnly job.now notes.old notes.new }
    ensures kept { Stays (F.disk files.old) (F.disk files.new) }
    ensures refused { IfErr result IsFaultOfRun }
{
    let answer = resume_in_threads(rt, alloc, job, keep, gate, superstep);
    end_run(
        rt,
        alloc,
        job,
        &answer,
        gate,
        files,
        notes,
        tells_units,
        warns,
    )
}

/// What a job prints that is run in threads, its states kept here and its workers lost as the gate says: a line `v ID VALUE` for
/// each vertex, by rising id, then `end finished supersteps S units U dropped D`, or `end limit ..` where the limit came
/// before; and, where `tells_units` says so, a line `units S U` for each superstep. Saves that failed are a warning, where
/// `warns` says so.
///
/// Where the gate watches the job, what it was and did is noted, however it ended.
pub fn run<'a, K: Keep + Drop, V: View + Sync, F: Files>(
    rt: &(impl Wait + Threads + Sync + Device + AllocGlobal),
    alloc: Global,
    job: &Job,
    keep: K,
    gate: &RunGate<'_, V>,
    files: &mut F,
    notes: &mut RunNotes,
    tells_units: bool,
    warns: bool,
) -> Result<String, CommandFault<'a>>
    ensures told { IfText result (AreEndLines tells_units) }
    ensures answered { K.honest keep ≡ true → IfText result (AreJobLines job.now tells_units) }
    // So they are where the Keep loaded nothing, whatever it is.
    ensures unloaded { IfText result (AreKeptLines job.now tells_units) }
    // It loads nothing if the gate loses no worker.
    ensures unlost { gate.now.loss.loss ≡ None → IfText result (AreJobLines job.now tells_units) }
    // Where the gate watches the job, what it ended with is noted.
    ensures noted { IsSome gate.now.loss.watch
        → IfText result (NotesEnd job.now tells_units notes.new) }
    ensures fault_noted { IsSome gate.now.loss.watch
        → IfErr result (NotesFault job.now notes.new) }
    ensures only { NotesOnly job.now notes.old notes.new }
    ensures kept { Stays (F.disk files.old) (F.disk files.new) }
    ensures refused { IfErr result IsFaultOfRun }
{
    let answer = run_in_threads(rt, alloc, job, keep, gate);
    end_run(
        rt,
        alloc,
        job,
        &answer,
        gate,
        files,
        notes,
        tells_units,
        warns,
    )
}

// Notes what a job was and ended with, where the gate watches it, shows that the run is over, and returns the lines of its end.
fn end_run<'a, V: View, F: Files>(
    rt: &impl Wait,
    alloc: Global,
    job: &Job,
    answer: &Result<Report, JobFault>,
    gate: &RunGate<'_, V>,
    files: &mut F,
    notes: &mut RunNotes,
    tells_units: bool,
    warns: bool,
) -> Result<String, CommandFault<'a>>
    ensures told { IfText result (AreLinesOfAnswer answer.now tells_units) }
    ensures noted { IsSome gate.now.loss.watch → HasNoted job.now answer.now notes.new }
    ensures only { NotesOnly job.now notes.old notes.new }
    ensures kept { Stays (F.disk files.old) (F.disk files.new) }
    ensures refused { IfErr result (IsFaultOfAnswer answer.now) }
{
    notes.note(rt, alloc, job, gate.watch(), answer);
    match answer {
        Ok(report) => {
            gate.finish(Some(&report.ended));
            warn_of_missed(report.missed, warns, files);
            let text = ended_text(alloc, &report.ended, tells_units)?;
            Ok(text)
        }
        Err(fault) => {
            gate.finish(None);
            Err(CommandFault::Job(*fault))
        }
    }
}
