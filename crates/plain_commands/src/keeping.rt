//! The folder in which a run keeps its states.

ghost use Rattle.std.specs.Prelude.{◌≡◌, ◌⊎◌, true, false, None, IfOk, IfErr, IfSome};
ghost use Rattle.checkpoint.specs.Files.{superstep_on};
ghost use Rattle.sources.specs.Disk.{Stays};
ghost use Rattle.sources.specs.Reading.{IsUnread};
ghost use Rattle.sources.specs.declared.fault.CommandFault.TheVariants.{Resume};
ghost use Rattle.plain_commands.specs.Keeping.{IsNoFolder, IsNotReady, IsUnidentified};

use checkpoint::{Device, FileKeep, Folder, JobId, Kinship, compare, digest_of, job_text};
use line_text::TextBuilder;
use requests::{JobRequest, RunRequest};
use sources::{CommandFault, Files, read_bytes};
use std::alloc::{AllocError, Global};
use std::io;
use std::io::ErrorKind;
use superstep::Settings;

/// Makes ready the folder in which a run keeps its states, and gives its Keep. Where the run is to go on with what an earlier one
/// has left there, the Keep counts the newest checkpoint that reads well as saved, and else nothing.
///
/// The file `job.json` of the folder says of which job its checkpoints are. Those of another job are renamed, so that no run takes
/// them. `Resume`: the run is to go on, and `job.json` is of another job or reads as none, or the checkpoint is not below the
/// limit. Why is a warning.
pub fn keep_in<'a, F: Files>(
    rt: &(impl Folder + Device),
    alloc: Global,
    asked: RunRequest<'a>,
    folder: &'a str,
    files: &mut F,
) -> Result<FileKeep, CommandFault<'a>>
    // Unless the run is to go on, nothing counts as saved.
    ensures fresh { IfOk result (λ keep. asked.entry.resume ≡ false → superstep_on keep ≡ None) }
    ensures kept { Stays (F.disk files.old) (F.disk files.new) }
    ensures refused { IfErr result (λ fault.
        IsNotReady (F.disk files.old) asked.entry fault ⊎ IsNoFolder folder.now fault) }
{
    let keep = FileKeep::new(alloc, folder)?;
    match make_ready(rt, alloc, asked, folder, &keep, files) {
        Ok(false) => Ok(keep),
        Ok(true) => find_in(rt, alloc, asked.job.settings, folder, files),
        Err(fault) => Err(fault),
    }
}

// Makes a folder ready. Answers whether the run goes on with what is there.
fn make_ready<'a, F: Files>(
    rt: &(impl Folder + Device),
    alloc: Global,
    asked: RunRequest<'a>,
    folder: &'a str,
    keep: &FileKeep,
    files: &mut F,
) -> Result<bool, CommandFault<'a>>
    ensures goes_on { IfOk result (λ goes_on. goes_on ≡ true → asked.entry.resume ≡ true) }
    ensures kept { Stays (F.disk files.old) (F.disk files.new) }
    ensures refused { IfErr result (λ fault.
        IsNotReady (F.disk files.old) asked.entry fault ⊎ IsNoFolder folder.now fault) }
{
    if let Err(error) = keep.try_directory(rt) {
        return Err(no_folder(folder, &error, files));
    }
    let job = match identify(rt, alloc, asked.job, files) {
        Ok(job) => job,
        Err(fault) => return Err(fault),
    };
    match settle(rt, alloc, asked, folder, job, keep, files) {
        Ok(Some(goes_on)) => Ok(goes_on),
        Ok(None) => Err(CommandFault::Resume),
        Err(error) => Err(no_folder(folder, &error, files)),
    }
}

// Whether what is at a path can be read once only, as a pipe.
fn is_stream(rt: &impl Folder, path: &str) -> bool {
    matches!(rt.is_file(path), Ok(false))
}

// Settles of which job the checkpoints of a folder are. Answers whether the run goes on with them, or nothing where it may not.
fn settle<F: Files>(
    rt: &(impl Folder + Device),
    alloc: Global,
    asked: RunRequest<'_>,
    folder: &str,
    job: Option<JobId>,
    keep: &FileKeep,
    files: &mut F,
) -> io::Result<Option<bool>>
    ensures goes_on { IfOk result (λ found.
        IfSome found (λ goes_on. goes_on ≡ true → asked.entry.resume ≡ true)) }
    ensures refused { IfOk result (λ found. found ≡ None → asked.entry.resume ≡ true) }
    ensures kept { Stays (F.disk files.old) (F.disk files.new) }
{
    match job {
        Some(job) => settle_known(rt, alloc, asked, folder, &job, keep, files),
        None => settle_unknown(rt, alloc, asked.resume, folder, keep, files),
    }
}

// Settles it for a job that is identified.
fn settle_known<F: Files>(
    rt: &(impl Folder + Device),
    alloc: Global,
    asked: RunRequest<'_>,
    folder: &str,
    job: &JobId,
    keep: &FileKeep,
    files: &mut F,
) -> io::Result<Option<bool>>
    ensures goes_on { IfOk result (λ found.
        IfSome found (λ goes_on. goes_on ≡ true → asked.entry.resume ≡ true)) }
    ensures refused { IfOk result (λ found. found ≡ None → asked.entry.resume ≡ true) }
    ensures kept { Stays (F.disk files.old) (F.disk files.new) }
{
    let found = kinship_in(rt, alloc, folder, job)?;
    if tells_refusal(asked.resume, folder, found, files) {
        return Ok(None);
    }
    clear(rt, alloc, asked.resume, found, folder, keep, files)?;
    note_job(rt, alloc, folder, job, asked.job.settings, files);
    Ok(Some(asked.resume && found.is_some()))
}

// Settles it for a job that is not identified: no checkpoint is of it.
fn settle_unknown<F: Files>(
    rt: &impl Folder,
    alloc: Global,
    resumes: bool,
    folder: &str,
    keep: &FileKeep,
    files: &mut F,
) -> io::Result<Option<bool>>
    ensures goes_on { IfOk result (λ found.
        IfSome found (λ goes_on. goes_on ≡ true → resumes ≡ true)) }
    ensures refused { IfOk result (λ found. found ≡ None → resumes ≡ true) }
    ensures kept { Stays (F.disk files.old) (F.disk files.new) }
{
    if resumes {
        files.warn("--resume asks for a module and a graph in files of their own");
        return Ok(None);
    }
    clear(
        rt,
        alloc,
        resumes,
        Some(Kinship::Unreadable),
        folder,
        keep,
        files,
    )?;
    Ok(Some(false))
}

// Tells why no file can be made in the folder.
fn no_folder<'a, F: Files>(folder: &'a str, error: &io::Error, files: &mut F) -> CommandFault<'a>
    ensures kept { Stays (F.disk files.old) (F.disk files.new) }
    ensures refused { IsNoFolder folder.now result }
{
    if error.kind() == ErrorKind::OutOfMemory {
        return CommandFault::OutOfMemory;
    }
    files.warn(format_args!("{folder}: {error}"));
    CommandFault::Unwritable(folder)
}

// Identifies the job of the module in one file over the graph in another, where both can be read twice.
fn identify<'a, F: Files>(
    rt: &impl Folder,
    alloc: Global,
    asked: JobRequest<'a>,
    files: &mut F,
) -> Result<Option<JobId>, CommandFault<'a>>
    ensures kept { Stays (F.disk files.old) (F.disk files.new) }
    ensures refused { IfErr result (IsUnidentified (F.disk files.old) asked.entry) }
{
    if is_stream(rt, asked.module.path) || is_stream(rt, asked.graph) {
        return Ok(None);
    }
    match file_digest(alloc, asked.module.path, files) {
        Ok(module) => match file_digest(alloc, asked.graph, files) {
            Ok(graph) => Ok(Some(JobId { module, graph })),
            Err(fault) => Err(fault),
        },
        Err(fault) => Err(fault),
    }
}

// Computes the SHA-256 of a file.
fn file_digest<'a, F: Files>(
    alloc: Global,
    path: &'a str,
    files: &mut F,
) -> Result<[u8; 32], CommandFault<'a>>
    ensures kept { Stays (F.disk files.old) (F.disk files.new) }
    ensures refused { IfErr result (IsUnread false (F.disk files.old) path.now) }
{
    match read_bytes(alloc, path, files) {
        Ok(bytes) => Ok(digest_of(bytes.as_slice())),
        Err(fault) => Err(fault),
    }
}

// What the folder's `job.json` says of a job, where there is one.
fn kinship_in(
    rt: &impl Folder,
    alloc: Global,
    folder: &str,
    job: &JobId,
) -> io::Result<Option<Kinship>> {
    let path = path_in(alloc, folder, "job.json")?;
    match rt.read_text(path.as_str()) {
        Ok(text) => Ok(Some(compare(alloc, text.as_str(), job)?)),
        Err(error) => match error.kind() {
            ErrorKind::NotFound => Ok(None),
            ErrorKind::InvalidData => Ok(Some(Kinship::Unreadable)),
            _ => Err(error),
        },
    }
}

fn path_in(alloc: Global, folder: &str, name: &str) -> Result<String, AllocError> {
    let mut path = TextBuilder::new(alloc);
    path.put(folder);
    path.put("/");
    path.put(name);
    path.finish()
}

// Tells why a run may not go on with the checkpoints of a folder, where it is to and may not.
fn tells_refusal<F: Files>(
    resumes: bool,
    folder: &str,
    found: Option<Kinship>,
    files: &mut F,
) -> bool
    ensures asked { result ≡ true → resumes ≡ true }
    ensures kept { Stays (F.disk files.old) (F.disk files.new) }
{
    if !resumes {
        return false;
    }
    let Some(why) = refusal_of(found) else {
        return false;
    };
    files.warn(format_args!("{folder}/job.json: {why}; run without --resume to begin again"));
    true
}

// Why a run may not go on with checkpoints of this kinship, where it may not.
fn refusal_of(found: Option<Kinship>) -> Option<&'static str> {
    match found {
        None | Some(Kinship::Same) => None,
        Some(Kinship::OtherModule) => Some("the checkpoints are of another module"),
        Some(Kinship::OtherGraph) => Some("the checkpoints are of another graph"),
        Some(Kinship::Unreadable) => Some("it does not say of which job the checkpoints are"),
    }
}

// Leaves no checkpoint in a folder that a later run could take for one of this job, and no `job.json`. What is of this job stays.
fn clear<F: Files>(
    rt: &impl Folder,
    alloc: Global,
    resumes: bool,
    found: Option<Kinship>,
    folder: &str,
    keep: &FileKeep,
    files: &mut F,
) -> io::Result<()>
    ensures { Stays (F.disk files.old) (F.disk files.new) }
{
    if matches!(found, Some(Kinship::Same)) {
        return Ok(());
    }
    warn_of_aside(keep.set_aside(rt)?, folder, files);
    warn_of_beginning(resumes, folder, files);
    remove_job(rt, alloc, folder)
}

// Removes the folder's `job.json`, where there is one.
fn remove_job(rt: &impl Folder, alloc: Global, folder: &str) -> io::Result<()> {
    let path = path_in(alloc, folder, "job.json")?;
    let Err(error) = rt.remove_file(path.as_str()) else {
        return Ok(());
    };
    match error.kind() {
        ErrorKind::NotFound => Ok(()),
        _ => Err(error),
    }
}

// Warns that a job begins, where it was to go on.
fn warn_of_beginning<F: Files>(resumes: bool, folder: &str, files: &mut F)
    ensures { Stays (F.disk files.old) (F.disk files.new) }
{
    if !resumes {
        return;
    }
    files.warn(format_args!("{folder}: it has no job.json; the job begins at superstep 0"));
}

// Warns of checkpoints of another job that were renamed, where there are any.
fn warn_of_aside<F: Files>(count: usize, folder: &str, files: &mut F)
    ensures { Stays (F.disk files.old) (F.disk files.new) }
{
    if count == 0 {
        return;
    }
    let what = if count == 1 {
        "checkpoint of another job is"
    } else {
        "checkpoints of another job are"
    };
    files.warn(format_args!("{folder}: {count} {what} renamed to end in .old"));
}

// Writes `job.json`. Where that fails the job goes on, and no later run can go on with its states.
fn note_job<F: Files>(
    rt: &impl Device,
    alloc: Global,
    folder: &str,
    job: &JobId,
    settings: Settings,
    files: &mut F,
)
    ensures { Stays (F.disk files.old) (F.disk files.new) }
{
    if let Err(error) = write_job(rt, alloc, folder, job, settings) {
        files.warn(format_args!("{folder}/job.json: {error}"));
    }
}

fn write_job(
    rt: &impl Device,
    alloc: Global,
    folder: &str,
    job: &JobId,
    settings: Settings,
) -> io::Result<()> {
    let mut text = job_text(alloc, job, settings.limit, settings.parts)?;
    text.push('\n')?;
    let part = path_in(alloc, folder, "job.part")?;
    let whole = path_in(alloc, folder, "job.json")?;
    rt.write_whole(part.as_str(), whole.as_str(), text.as_bytes())
}

// Finds the newest checkpoint in a folder, and tells where the job begins.
fn find_in<'a, F: Files>(
    rt: &impl Folder,
    alloc: Global,
    settings: Settings,
    folder: &'a str,
    files: &mut F,
) -> Result<FileKeep, CommandFault<'a>>
    ensures kept { Stays (F.disk files.old) (F.disk files.new) }
    ensures refused { IfErr result (λ fault. (fault ≡ Resume) ⊎ IsNoFolder folder.now fault) }
{
    let keep = match FileKeep::find(rt, alloc, folder) {
        Ok(keep) => keep,
        Err(error) => return Err(no_folder(folder, &error, files)),
    };
    if tell_beginning(keep.newest(), settings.limit, folder, files) {
        Ok(keep)
    } else {
        Err(CommandFault::Resume)
    }
}

// Tells where a job begins. Answers whether it may: the limit is not reached there.
fn tell_beginning<F: Files>(newest: Option<u32>, limit: u32, folder: &str, files: &mut F) -> bool
    ensures { Stays (F.disk files.old) (F.disk files.new) }
{
    match newest {
        None => {
            files.warn(format_args!(
                "{folder}: no checkpoint that reads well; the job begins at superstep 0"
            ));
            true
        }
        Some(superstep) if superstep < limit => {
            files.warn(format_args!("{folder}: the job goes on at superstep {superstep}"));
            true
        }
        Some(superstep) => {
            files.warn(format_args!(
                "{folder}: the checkpoint is of superstep {superstep}; --limit has to be greater"
            ));
            false
        }
    }
}
