//! The files of cases about jobs in their order, and the answer to a case of each.

use crate::{checkpoints, plain_jobs, saves, simulations, threads};
use anyhow::Result;
use checkpoint::Device;
use conformance_cases::{CaseFiles, Line, is_case, named, spelled};
use std::sync::Wait;
use std::thread::Threads;

const FILES: [&str; 5] = [
    // jobs on one machine, their states as bytes, and where these are kept
    "superstep/jobs.txt",
    "checkpoint/checkpoints.txt",
    "checkpoint/keeps.txt",
    // jobs that lose workers, in steps and in threads
    "rollback/simulations.txt",
    "workers/threads.txt",
];

/// Prints a line for each case of each file.
pub fn show<R: CaseFiles + Device + Print + AllocGlobal + Threads + Wait + Sync>(
    rt: &R,
) -> Result<()> {
    for file in FILES {
        show_file(rt, file)?;
    }
    Ok(())
}

fn show_file<R: CaseFiles + Device + Print + AllocGlobal + Threads + Wait + Sync>(
    rt: &R,
    file: &str,
) -> Result<()> {
    let text = rt.text_of(file)?;
    for line in text.lines() {
        if is_case(line) {
            show_case(rt, file, line)?;
        }
    }
    Ok(())
}

fn show_case<R: CaseFiles + Device + Print + AllocGlobal + Threads + Wait + Sync>(
    rt: &R,
    file: &str,
    line: &str,
) -> Result<()> {
    let (name, case) = named(line);
    let case = spelled(rt.alloc(), case)?;
    let mut answer = Line::new(rt.alloc());
    tell(rt, file, case.as_str(), &mut answer);
    println!(rt; "{name}: {}", answer.finish()?)?;
    Ok(())
}

// Writes the answer to a case of a file.
fn tell<R: CaseFiles + Device + AllocGlobal + Threads + Wait + Sync>(
    rt: &R,
    file: &str,
    case: &str,
    line: &mut Line,
) {
    match file {
        "superstep/jobs.txt" => plain_jobs::answer(rt, case, line),
        "checkpoint/checkpoints.txt" => checkpoints::answer(rt.alloc(), case, line),
        "checkpoint/keeps.txt" => saves::answer(rt, case, line),
        "rollback/simulations.txt" => simulations::answer(rt, case, line),
        _ => threads::answer(rt, case, line),
    }
}
