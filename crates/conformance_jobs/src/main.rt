//! The cases of the public functions on jobs, checkpoints, jobs that lose workers, and sessions. Each line of a file of cases in
//! `data/` prints one line, which `stdout` holds beforehand.
#![tactic(auto)]

mod answers;
mod checkpoints;
mod plain_jobs;
mod saves;
mod sessions;
mod simulations;
mod spelled_jobs;
mod threads;

use anyhow::Result;
use checkpoint::Device;
use conformance_cases::CaseFiles;
use std::sync::Wait;
use std::thread::Threads;

fn main(rt: HostRuntime) -> Result<()> {
    show(&rt)
}

fn show(
    rt: &(impl CaseFiles + Device + Print + AllocGlobal + Threads + Wait + Sync),
) -> Result<()> {
    answers::show(rt)?;
    sessions::show(rt)
}
