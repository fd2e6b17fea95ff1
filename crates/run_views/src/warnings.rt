//! What a run warns of: options that do nothing, and a worker whose loss is not met. The run goes on, and answers the same.

ghost use Rattle.sources.specs.Disk.{Stays};

use crate::loss::Loss;
use requests::{Progress, RunRequest};
use sources::Files;
use superstep::{Job, Settings};

// A job with more vertices by one worker is told of `--all-cores`.
const MANY_VERTICES: u32 = 100_000;

/// Warns of the options of a run whose job was opened, unless it is to be quiet. Where somebody watches the run, a large job by one
/// worker is told how all processors are used.
pub fn warn_of_run<F: Files>(
    job: &Job,
    asked: RunRequest<'_>,
    loss: Option<Loss>,
    is_watched: bool,
    files: &mut F,
)
    ensures { Stays (F.disk files.old) (F.disk files.new) }
{
    if matches!(asked.progress, Progress::Never) {
        return;
    }
    let settings = job.settings();
    warn_of_loss(loss, settings.workers, files);
    warn_of_again(asked, files);
    warn_of_workers(settings, files);
    warn_of_keep(asked, settings, files);
    warn_of_one_worker(job, asked, is_watched, files);
}

// Warns where the worker that is to be lost is none of the job's, or its only one.
fn warn_of_loss<F: Files>(loss: Option<Loss>, workers: u32, files: &mut F)
    ensures { Stays (F.disk files.old) (F.disk files.new) }
{
    let Some(loss) = loss else {
        return;
    };
    let (worker, superstep) = (loss.worker, loss.superstep);
    if workers <= worker {
        files.warn(format_args!("--lose {worker}:{superstep}: the job has no worker {worker}"));
    } else if workers == 1 {
        files.warn(format_args!(
            "--lose {worker}:{superstep}: the job has one worker, so its loss ends the job"
        ));
    }
}

// Warns where a worker is to join again, and none is to be lost.
fn warn_of_again<F: Files>(asked: RunRequest<'_>, files: &mut F)
    ensures { Stays (F.disk files.old) (F.disk files.new) }
{
    if asked.again && asked.lose.is_none() {
        files.warn("--again has no effect without --lose");
    }
}

// Warns of workers that have nothing to do.
fn warn_of_workers<F: Files>(settings: Settings, files: &mut F)
    ensures { Stays (F.disk files.old) (F.disk files.new) }
{
    let (workers, parts) = (settings.workers, settings.parts);
    if parts < workers {
        files.warn(format_args!(
            "{workers} workers share {parts} parts, so some have nothing to do"
        ));
    }
}

// Warns where no state is ever saved in the folder.
fn warn_of_keep<F: Files>(asked: RunRequest<'_>, settings: Settings, files: &mut F)
    ensures { Stays (F.disk files.old) (F.disk files.new) }
{
    let (every, limit) = (settings.every, settings.limit);
    if asked.keep.is_some() && limit <= every {
        files.warn(format_args!(
            "--keep saves no checkpoint: --every {every} is not below --limit {limit}"
        ));
    }
}

// Tells who watches a large job by one worker how all processors are used.
fn warn_of_one_worker<F: Files>(job: &Job, asked: RunRequest<'_>, is_watched: bool, files: &mut F)
    ensures { Stays (F.disk files.old) (F.disk files.new) }
{
    let (workers, vertices) = (job.settings().workers, job.count());
    if is_watched && workers == 1 && MANY_VERTICES < vertices && !asked.cores.all {
        files.warn("one worker runs this job; --all-cores uses all processors");
    }
}

/// Warns of states that the device failed to save, where there are any and `warns` says so.
pub fn warn_of_missed<F: Files>(missed: u64, warns: bool, files: &mut F)
    ensures { Stays (F.disk files.old) (F.disk files.new) }
{
    if !warns {
        return;
    }
    match missed {
        0 => {}
        1 => files.warn("1 save failed; the job went on without it"),
        _ => files.warn(format_args!("{missed} saves failed; the job went on without them")),
    }
}
