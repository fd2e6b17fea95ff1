//! A session and its answers to commands.

ghost use Rattle.std.specs.Prelude.{◌≡◌, false, length, string_bytes, IfOk, MatchResult};
ghost use Rattle.std.specs.BTreeMap.{get_by_text};
ghost use Rattle.graph.specs.Entry.{edge_count};
ghost use Rattle.sources.specs.Disk.{Stays, unknown};
ghost use Rattle.sources.specs.Jobs.{IsJobOf, RefusesSettings};
ghost use Rattle.session.specs.Commands.{add_graph, add_job, add_module, drop, run, status, values};
ghost use Rattle.session.specs.Maps.{nothing};
ghost use Rattle.session.specs.Replies.{graph_line};
ghost use Rattle.session.specs.Transcript.{IsReplyTo, holds, without};
ghost use Rattle.session.specs.inside.Answered.{GivesName, IsSet, IsSoundAt, NamesJob, ReportsHeldValues, is_waiting, never};
ghost use Rattle.session.specs.inside.SeenLines.{IsModuleLine, asked, state_of, reply_text};
ghost use Rattle.session.specs.inside.Seen.{IsToldOf, maps_of};

use crate::command::{Command, Kind};
use crate::held_job::HeldJob;
use crate::maps::{hold, is_held, let_go};
use crate::reading::{graph_at, module_at};
use crate::refusals::refusal;
use crate::reply::Reply;
use crate::run_state::RunState;
use crate::runner::Runner;
use crate::status::status_text;
use crate::texts::{end_text, graph_text, job_text, module_text, values_text};
use book::Report;
use graph::Graph;
use sources::{CommandFault, Files};
use std::alloc::{AllocError, Global};
use std::collections::BTreeMap;
use std::thread::Threads;
use superstep::{Job, JobFault, Settings};
use verified::Verified;

/// The modules, graphs and jobs of a session, by name.
#[derive(Drop)]
pub struct Session {
    modules: BTreeMap<String, Verified>,
    graphs: BTreeMap<String, Graph>,
    jobs: BTreeMap<String, HeldJob>,
}

impl Session {
    /// Makes a session that holds nothing.
    pub fn new(alloc: Global) -> Session
        ensures { maps_of result ≡ nothing }
    {
        Session {
            modules: BTreeMap::new(alloc),
            graphs: BTreeMap::new(alloc),
            jobs: BTreeMap::new(alloc),
        }
    }
}

/// Executes a command and returns the reply.
pub fn answer<F: Files, N: Runner>(
    rt: &(impl Threads + Sync),
    alloc: Global,
    command: Command<'_>,
    session: &mut Session,
    files: &mut F,
    runner: &N,
) -> Reply
    requires { N.can_run runner.now }
    ensures answered { IsReplyTo (F.disk files.old) (N.runs runner.now) (maps_of session.old)
        (asked command.entry) (reply_text result) (maps_of session.new) }
    ensures files { Stays (F.disk files.old) (F.disk files.new) }
{
    match command {
        Command::AddModule { name, path } => add_module(alloc, name, path, session, files),
        Command::AddGraph { name, path } => add_graph(rt, alloc, name, path, session, files),
        Command::AddJob {
            name,
            module,
            graph,
            settings,
        } => add_job(alloc, name, module, graph, settings, session),
        Command::Run(name) => run_job(alloc, name, session, runner),
        Command::Status(name) => report_status(alloc, name, session),
        Command::Values(name) => report_values(alloc, name, session),
        Command::Drop(kind, name) => drop_named(kind, name, session),
        Command::Quit => Reply::Bye,
        Command::Unknown => Reply::Usage,
    }
}

// ---- modules and graphs

fn add_module<F: Files>(
    alloc: Global,
    name: &str,
    path: &str,
    session: &mut Session,
    files: &mut F,
) -> Reply
    ensures answered { IsReplyTo (F.disk files.old) never (maps_of session.old)
        (add_module name.now path.now) (reply_text result) (maps_of session.new) }
    ensures kept { Stays (F.disk files.old) (F.disk files.new) }
{
    if is_held(name, &session.modules) {
        return Reply::NameTaken;
    }
    match module_at(alloc, path, files) {
        Ok(verified) => name_module(alloc, name, verified, &mut session.modules),
        Err(reply) => reply,
    }
}

// Names a module. The reply is made first, so that a failed allocation changes nothing.
fn name_module(
    alloc: Global,
    name: &str,
    verified: Verified,
    modules: &mut BTreeMap<String, Verified>,
) -> Reply
    ensures { GivesName (IsModuleLine name.now verified) name.now verified
        (get_by_text modules.old) (get_by_text modules.new) (reply_text result) }
{
    match module_text(alloc, name, &verified) {
        Ok(text) => named(alloc, name, verified, modules, text),
        Err(_) => Reply::OutOfMemory,
    }
}

// Names a value, and replies with this text.
fn named<V: Drop>(
    alloc: Global,
    name: &str,
    value: V,
    map: &mut BTreeMap<String, V>,
    text: String,
) -> Reply
    ensures { GivesName (λ told. told ≡ string_bytes text) name.now value
        (get_by_text map.old) (get_by_text map.new) (reply_text result) }
{
    match hold(alloc, name, value, map) {
        Ok(()) => Reply::Text(text),
        Err(_) => Reply::OutOfMemory,
    }
}

fn add_graph<F: Files>(
    rt: &(impl Threads + Sync),
    alloc: Global,
    name: &str,
    path: &str,
    session: &mut Session,
    files: &mut F,
) -> Reply
    ensures answered { IsReplyTo (F.disk files.old) never (maps_of session.old)
        (add_graph name.now path.now) (reply_text result) (maps_of session.new) }
    ensures kept { Stays (F.disk files.old) (F.disk files.new) }
{
    if is_held(name, &session.graphs) {
        return Reply::NameTaken;
    }
    match graph_at(rt, alloc, path, files) {
        Ok(graph) => name_graph(alloc, name, graph, &mut session.graphs),
        Err(reply) => reply,
    }
}

// Names a graph. The reply is made first.
fn name_graph(
    alloc: Global,
    name: &str,
    graph: Graph,
    graphs: &mut BTreeMap<String, Graph>,
) -> Reply
    ensures { GivesName (λ told. told ≡ graph_line name.now (length graph) (edge_count graph))
        name.now graph (get_by_text graphs.old) (get_by_text graphs.new) (reply_text result) }
{
    match graph_text(alloc, name, &graph) {
        Ok(text) => named(alloc, name, graph, graphs, text),
        Err(_) => Reply::OutOfMemory,
    }
}

// ---- jobs

fn add_job(
    alloc: Global,
    name: &str,
    module: &str,
    graph: &str,
    settings: Settings,
    session: &mut Session,
) -> Reply
    ensures { IsReplyTo unknown never (maps_of session.old)
        (add_job name.now «module».now graph.now settings) (reply_text result)
        (maps_of session.new) }
{
    if is_held(name, &session.jobs) {
        return Reply::NameTaken;
    }
    let Some(verified) = session.modules.get(module) else {
        return Reply::UnknownName;
    };
    let Some(graph) = session.graphs.get(graph) else {
        return Reply::UnknownName;
    };
    match job_of(alloc, verified, graph, settings) {
        Ok(job) => name_job(alloc, name, job, &mut session.jobs),
        Err(reply) => reply,
    }
}

// Makes a job of copies of a module and a graph, or returns the reply that refuses it.
fn job_of(
    alloc: Global,
    verified: &Verified,
    graph: &Graph,
    settings: Settings,
) -> Result<Job, Reply>
    ensures { MatchResult result (IsJobOf verified.now graph.now settings)
        (λ reply. IsToldOf (RefusesSettings settings) (reply_text reply)) }
{
    if let Some(setting) = settings.first_bad() {
        return Err(refusal(alloc, &CommandFault::Settings(setting)));
    }
    match open_copy(alloc, verified, graph, settings) {
        Ok(job) => Ok(job),
        Err(_) => Err(Reply::OutOfMemory),
    }
}

fn open_copy(
    alloc: Global,
    verified: &Verified,
    graph: &Graph,
    settings: Settings,
) -> Result<Job, AllocError>
    ensures { IfOk result (IsJobOf verified.now graph.now settings) }
{
    let verified = verified.copy(alloc)?;
    let graph = graph.copy(alloc)?;
    match Job::new(alloc, verified, graph, settings) {
        Ok(job) => Ok(job),
        Err(_) => Err(AllocError),
    }
}

// Names a new job, which waits. The reply is made first.
fn name_job(alloc: Global, name: &str, job: Job, jobs: &mut BTreeMap<String, HeldJob>) -> Reply
    ensures { NamesJob name.now job (get_by_text jobs.old) (get_by_text jobs.new)
        (reply_text result) }
{
    match job_text(alloc, name) {
        Ok(text) => {
            let held = HeldJob {
                job,
                state: RunState::Waiting,
            };
            named(alloc, name, held, jobs, text)
        }
        Err(_) => Reply::OutOfMemory,
    }
}

// Runs a job that waits. It keeps how the run ended, if that can be reported.
fn run_job<N: Runner>(alloc: Global, name: &str, session: &mut Session, runner: &N) -> Reply
    requires { N.can_run runner.now }
    ensures { IsReplyTo unknown (N.runs runner.now) (maps_of session.old) (run name.now)
        (reply_text result) (maps_of session.new) }
{
    let Some(held) = session.jobs.get(name) else {
        return Reply::UnknownName;
    };
    if !is_waiting(&held.state) {
        return Reply::NotWaiting;
    }
    let end = runner.run(&held.job);
    match end_text(alloc, name, &end) {
        Ok(text) => {
            set_state(name, state_of(end), &mut session.jobs);
            Reply::Text(text)
        }
        Err(_) => Reply::OutOfMemory,
    }
}

fn is_waiting(state: &RunState) -> bool
    ensures { result ≡ is_waiting state.now }
{
    matches!(state, RunState::Waiting)
}

fn state_of(end: Result<Report, JobFault>) -> RunState
    ensures { result ≡ state_of end }
{
    match end {
        Ok(report) => RunState::Ended(report),
        Err(fault) => RunState::Failed(fault),
    }
}

// Sets the state of a job.
fn set_state(name: &str, state: RunState, jobs: &mut BTreeMap<String, HeldJob>)
    requires { IsSoundAt (get_by_text jobs.old) name.now state }
    ensures { IsSet (get_by_text jobs.old) (get_by_text jobs.new) name.now state }
{
    if let Some(held) = jobs.get_mut(name) {
        held.state = state;
    }
}

fn report_status(alloc: Global, name: &str, session: &Session) -> Reply
    ensures { IsReplyTo unknown never (maps_of session.now) (status name.now) (reply_text result)
        (maps_of session.now) }
{
    match session.jobs.get(name) {
        Some(held) => Reply::of(status_text(alloc, name, &held.state)),
        None => Reply::UnknownName,
    }
}

fn report_values(alloc: Global, name: &str, session: &Session) -> Reply
    ensures { IsReplyTo unknown never (maps_of session.now) (values name.now) (reply_text result)
        (maps_of session.now) }
{
    match session.jobs.get(name) {
        Some(held) => values_of(alloc, held),
        None => Reply::UnknownName,
    }
}

fn values_of(alloc: Global, held: &HeldJob) -> Reply
    ensures { ReportsHeldValues held.now (reply_text result) }
{
    match &held.state {
        RunState::Ended(report) => Reply::of(values_text(alloc, &report.ended)),
        _ => Reply::NotEnded,
    }
}

// ---- what is removed

fn drop_named(kind: Kind, name: &str, session: &mut Session) -> Reply
    ensures { IsReplyTo unknown never (maps_of session.old) (drop kind name.now)
        (reply_text result) (maps_of session.new) }
{
    if forget(kind, name, session) {
        Reply::Dropped
    } else {
        Reply::UnknownName
    }
}

fn forget(kind: Kind, name: &str, session: &mut Session) -> bool
    ensures found { result ≡ holds (maps_of session.old) kind name.now }
    ensures gone { maps_of session.new ≡ without kind name.now (maps_of session.old) }
    ensures same { result ≡ false → maps_of session.new ≡ maps_of session.old }
{
    match kind {
        Kind::Module => let_go(name, &mut session.modules),
        Kind::Graph => let_go(name, &mut session.graphs),
        Kind::Job => let_go(name, &mut session.jobs),
    }
}
