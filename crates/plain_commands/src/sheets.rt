//! The report and the chart of a run, in files.

ghost use Rattle.std.specs.Prelude.{◌≡◌, OnErr, OnOk, false, true};
ghost use Rattle.plain_commands.specs.Sheets.{HasWrittenSheets, IsStatusOf, MayWriteSheets, TriesNoted, TriesSheets, WritesNoted, WritesSheets, asks_sheets, names_in};
ghost use Rattle.plain_commands.specs.inside.SheetFiles.{TriesChart, TriesReport, WritesChart, WritesReport};

use crate::noting::RunNotes;
use requests::{Request, RunRequest};
use run_report::{JobFiles, RunReport, json_text, svg_text};
use sources::{CommandFault, Files, write};
use std::alloc::Global;

/// Writes the report and the chart of a run, where its options ask for them and a job was run, and answers the status for the
/// process: 4 where the job was answered and one of them cannot be written, else the one that the command has.
///
/// The report is written first. Why one is not written is a warning.
pub fn write_sheets<F: Files>(
    alloc: Global,
    request: Request<'_>,
    status: u8,
    notes: &RunNotes,
    files: &mut F,
) -> u8
    ensures status { IsStatusOf request.entry status result }
    // A command that asks for neither writes nothing here.
    ensures kept { asks_sheets request.entry ≡ false → files.new ≡ files.old }
    // No other file is written, and with status 0 both are.
    ensures tried { MayWriteSheets request.entry notes.now (F.disk files.old) (F.disk files.new) }
    ensures written { result ≡ 0
        → HasWrittenSheets request.entry notes.now (F.disk files.old) (F.disk files.new) }
{
    let Request::Run(asked) = request else {
        return status;
    };
    if asked.report.is_none() && asked.plot.is_none() {
        return status;
    }
    let is_written = is_written(alloc, asked, notes, files);
    if is_written || status != 0 { status } else { 4 }
}

// Writes the report and the chart, where a job was run, and answers whether that went well.
fn is_written<F: Files>(
    alloc: Global,
    asked: RunRequest<'_>,
    notes: &RunNotes,
    files: &mut F,
) -> bool
    ensures tried { TriesNoted asked.entry notes.now.report
        (F.disk files.old) (F.disk files.new) }
    ensures written { result ≡ true
        → WritesNoted asked.entry notes.now.report (F.disk files.old) (F.disk files.new) }
{
    if notes.is_short {
        files.warn("out of memory for the report of the run");
        return false;
    }
    match &notes.report {
        Some(report) => is_report_written(alloc, asked, report, files),
        None => true,
    }
}

// Writes the report and the chart, and answers whether that went well.
fn is_report_written<F: Files>(
    alloc: Global,
    asked: RunRequest<'_>,
    report: &RunReport,
    files: &mut F,
) -> bool
    ensures tried { TriesSheets asked.entry report.now (F.disk files.old) (F.disk files.new) }
    ensures written { result ≡ true
        → WritesSheets asked.entry report.now (F.disk files.old) (F.disk files.new) }
{
    match write_all(alloc, asked, report, files) {
        Ok(()) => true,
        Err(CommandFault::OutOfMemory) => {
            files.warn("out of memory for the report of the run");
            false
        }
        Err(_) => false,
    }
}

fn write_all<'a, F: Files>(
    alloc: Global,
    asked: RunRequest<'a>,
    report: &RunReport,
    files: &mut F,
) -> Result<(), CommandFault<'a>>
    ensures written { OnOk result
        (WritesSheets asked.entry report.now (F.disk files.old) (F.disk files.new)) }
    ensures tried { OnErr result
        (TriesSheets asked.entry report.now (F.disk files.old) (F.disk files.new)) }
{
    match write_report(alloc, asked, report, files) {
        Ok(()) => write_chart(alloc, asked, report, files),
        Err(fault) => Err(fault),
    }
}

// Writes the report, where one is asked for.
fn write_report<'a, F: Files>(
    alloc: Global,
    asked: RunRequest<'a>,
    report: &RunReport,
    files: &mut F,
) -> Result<(), CommandFault<'a>>
    ensures written { OnOk result
        (WritesReport asked.entry report.now (F.disk files.old) (F.disk files.new)) }
    ensures tried { OnErr result
        (TriesReport asked.entry report.now (F.disk files.old) (F.disk files.new)) }
{
    let Some(path) = asked.report else {
        return Ok(());
    };
    match json_text(alloc, names_of(asked), report) {
        Ok(text) => write(path, text.as_bytes(), files),
        Err(_) => Err(CommandFault::OutOfMemory),
    }
}

// Writes the chart, where one is asked for.
fn write_chart<'a, F: Files>(
    alloc: Global,
    asked: RunRequest<'a>,
    report: &RunReport,
    files: &mut F,
) -> Result<(), CommandFault<'a>>
    ensures written { OnOk result
        (WritesChart asked.entry (F.disk files.old) (F.disk files.new)) }
    ensures tried { OnErr result
        (TriesChart asked.entry (F.disk files.old) (F.disk files.new)) }
{
    let Some(path) = asked.plot else {
        return Ok(());
    };
    match svg_text(alloc, names_of(asked), report) {
        Ok(text) => write(path, text.as_bytes(), files),
        Err(_) => Err(CommandFault::OutOfMemory),
    }
}

fn names_of(asked: RunRequest<'_>) -> JobFiles<'_>
    ensures { result ≡ names_in asked.entry }
{
    JobFiles {
        module: asked.job.module.path,
        graph: asked.job.graph,
    }
}
