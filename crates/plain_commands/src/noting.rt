//! What is noted of a run for its report.

ghost use Rattle.std.specs.Prelude.{◌≡◌, false, map, IfOk, IsSome, None};
ghost use Rattle.run_report.specs.Tally.{capped};
ghost use Rattle.plain_commands.specs.Notes.{HasNoted, IsOfEnd, IsOfFault, IsOfJob, IsOutcomeOf, IsOutcomeOfFault, IsReportOf, NotesOnly, settings_in};

use book::Report;
use call_lines::end_word;
use run_report::{Ended, Outcome, RunReport, RunSettings, Tally, Watch, capped};
use std::alloc::{AllocError, Global};
use std::sync::Wait;
use superstep::{Job, JobFault, Settings};

/// What was noted of a run that is to be reported. Nothing is noted of a command that runs no job.
#[derive(Drop)]
pub struct RunNotes {
    /// What the job was and did, once it ended.
    pub report: Option<RunReport>,
    /// Whether there was no memory to note it.
    pub is_short: bool,
}

impl RunNotes {
    /// Nothing, before a command is carried out.
    pub fn new() -> RunNotes
        ensures report { result.report ≡ None }
        ensures is_short { result.is_short ≡ false }
    {
        RunNotes {
            report: None,
            is_short: false,
        }
    }

    /// Notes what a job was and what it ended with, if it was watched.
    pub fn note<R: Wait>(
        &mut self,
        rt: &R,
        alloc: Global,
        job: &Job,
        watch: Option<&Watch>,
        answer: &Result<Report, JobFault>,
    )
        ensures unwatched { watch.entry ≡ None → self.new ≡ self.old }
        ensures noted { IsSome watch.entry → HasNoted job.now answer.now self.new }
        ensures only { NotesOnly job.now self.old self.new }
    {
        let Some(watch) = watch else {
            return;
        };
        match report_of(rt, alloc, job, watch, answer) {
            Ok(report) => self.report = Some(report),
            Err(_) => self.is_short = true,
        }
    }
}

// What is reported of a job that ended so.
fn report_of<R: Wait>(
    rt: &R,
    alloc: Global,
    job: &Job,
    watch: &Watch,
    answer: &Result<Report, JobFault>,
) -> Result<RunReport, AllocError>
    ensures { IfOk result (IsReportOf job.now answer.now) }
{
    if watch.is_short() {
        return Err(AllocError);
    }
    let tally = watch.tally(rt);
    match answer {
        Ok(report) => report_of_end(alloc, job, &tally, report),
        Err(fault) => report_of_fault(alloc, job, &tally, *fault),
    }
}

fn report_of_end(
    alloc: Global,
    job: &Job,
    tally: &Tally,
    report: &Report,
) -> Result<RunReport, AllocError>
    ensures of_job { IfOk result (IsOfJob job.now) }
    ensures of_end { IfOk result (IsOfEnd report.now) }
{
    let ended = Ended {
        superstep: report.ended.superstep,
        since: report.ended.since,
        units: &report.ended.by_superstep,
        dropped: report.ended.dropped,
    };
    let supersteps = tally.supersteps(alloc, ended)?;
    let spent = capped_all(alloc, &report.spent)?;
    Ok(RunReport {
        settings: settings_of(job.settings()),
        size: u64::from(job.verified().size()),
        vertices: u64::from(job.count()),
        edges: job.edge_count(),
        outcome: outcome_of_end(report),
        spent,
        supersteps,
    })
}

fn outcome_of_end(report: &Report) -> Outcome
    ensures { IsOutcomeOf report.now result }
{
    Outcome {
        how: end_word(report.ended.how),
        fault: None,
        superstep: Some(u64::from(report.ended.superstep)),
        units: Some(capped(report.ended.units)),
        dropped: Some(capped(report.ended.dropped)),
        epoch: Some(report.epoch),
        missed: Some(report.missed),
        restarts: Some(report.restarts),
    }
}

fn report_of_fault(
    alloc: Global,
    job: &Job,
    tally: &Tally,
    fault: JobFault,
) -> Result<RunReport, AllocError>
    ensures of_job { IfOk result (IsOfJob job.now) }
    ensures of_fault { IfOk result (IsOfFault fault) }
{
    let supersteps = tally.supersteps_reached(alloc)?;
    let reached = supersteps.len() as u64;
    Ok(RunReport {
        settings: settings_of(job.settings()),
        size: u64::from(job.verified().size()),
        vertices: u64::from(job.count()),
        edges: job.edge_count(),
        outcome: outcome_of_fault(reached, fault),
        spent: Vec::new(alloc),
        supersteps,
    })
}

fn outcome_of_fault(reached: u64, fault: JobFault) -> Outcome
    ensures { IsOutcomeOfFault fault reached result }
{
    Outcome {
        how: "fault",
        fault: Some(fault.word()),
        superstep: Some(reached),
        units: None,
        dropped: None,
        epoch: None,
        missed: None,
        restarts: None,
    }
}

fn settings_of(settings: Settings) -> RunSettings
    ensures { result ≡ settings_in settings }
{
    RunSettings {
        parts: settings.parts,
        workers: settings.workers,
        every: settings.every,
        limit: settings.limit,
        lease: settings.lease,
    }
}

fn capped_all(alloc: Global, numbers: &[u128]) -> Result<Vec<u64>, AllocError>
    ensures { IfOk result (λ all. all.items ≡ map capped numbers.now) }
{
    let mut all = Vec::with_capacity(alloc, numbers.len())?;
    for number in numbers {
        all.push_reserved(capped(*number));
    }
    Ok(all)
}
