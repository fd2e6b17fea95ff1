//! Sessions over lent files. `NAME: WAY; LINES` prints the replies, and the fault if serving stopped before the end. WAY is
//! one of:
//! * `whole`;
//! * `by N`: at most N bytes are read and written at a time;
//! * `reads N` or `writes N`: the N-th read fails, or the N-th write or flush;
//! * `bytes`: the lines are spelled in hexadecimal digits;
//! * `counted`: only the number of the replied lines and the last of them are printed;
//! * `threads`: jobs run in threads;
//! * `loses W:S`: jobs run in threads, and worker W is lost in superstep S;
//! * `holds`: jobs run in threads, and part 0 is held until part 1 has begun.

mod lent_files;
mod lines;

use crate::threads::gates::{Plan, PlannedGate};
use anyhow::Result;
use checkpoint::Device;
use conformance_cases::{CaseFiles, Line, halves, is_case, named};
use lent_files::{LentFiles, spelled_bytes};
use lines::{Given, Limits, NO_LIMITS, Taken};
use plain_session::serve_on_one_machine;
use run_views::{Loss, LossGate};
use session::ServeFault;
use std::str;
use std::sync::Wait;
use std::thread::Threads;
use threaded_session::serve_in_threads;
use workers::{Gate, NoLoss};

/// Prints a line for each case.
pub fn show(
    rt: &(impl CaseFiles + Device + Print + AllocGlobal + Threads + Wait + Sync),
) -> Result<()> {
    let mut files = LentFiles::of_cases(rt)?;
    let text = rt.text_of("session/sessions.txt")?;
    for line in text.lines() {
        if is_case(line) {
            show_case(rt, line, &mut files)?;
        }
    }
    Ok(())
}

fn show_case(
    rt: &(impl Device + Print + AllocGlobal + Threads + Wait + Sync),
    line: &str,
    files: &mut LentFiles,
) -> Result<()> {
    let (name, case) = named(line);
    let mut answer = Line::new(rt.alloc());
    tell(rt, case, files, &mut answer);
    println!(rt; "{name}: {}", answer.finish()?)?;
    Ok(())
}

// Writes the answer to a case.
fn tell(
    rt: &(impl Device + AllocGlobal + Threads + Wait + Sync),
    case: &str,
    files: &mut LentFiles,
    line: &mut Line,
) {
    let (way, lines) = halves(case, "; ");
    match spelled_bytes(rt.alloc(), way, lines) {
        Ok(lines) => tell_served(rt, way, &lines, files, line),
        Err(_) => line.cut(),
    }
}

fn tell_served(
    rt: &(impl Device + AllocGlobal + Threads + Wait + Sync),
    way: &str,
    lines: &[u8],
    files: &mut LentFiles,
    line: &mut Line,
) {
    if let Some(loss) = way.strip_prefix("loses ") {
        let gate = LossGate::new(Loss::read(loss), false);
        return tell_in_threads(rt, lines, files, &gate, line);
    }
    match way {
        "threads" => tell_in_threads(rt, lines, files, &NoLoss, line),
        "holds" => tell_held(rt, lines, files, line),
        _ => tell_on_one_machine(rt, way, lines, files, line),
    }
}

fn tell_in_threads<G: Gate + Sync>(
    rt: &(impl Device + AllocGlobal + Threads + Wait + Sync),
    lines: &[u8],
    files: &mut LentFiles,
    gate: &G,
    line: &mut Line,
) {
    let alloc = rt.alloc();
    let mut reader = Given::new(lines, NO_LIMITS);
    let mut writer = Taken::new(alloc, NO_LIMITS);
    let served = serve_in_threads(rt, alloc, &mut reader, &mut writer, files, gate);
    tell_replies("whole", &writer.bytes, served, line);
}

fn tell_held(
    rt: &(impl Device + AllocGlobal + Threads + Wait + Sync),
    lines: &[u8],
    files: &mut LentFiles,
    line: &mut Line,
) {
    let gate = PlannedGate::new(Plan::Holds);
    tell_in_threads(rt, lines, files, &gate, line);
    line.put(" ");
    line.put(gate.how_met());
}

fn tell_on_one_machine(
    rt: &(impl AllocGlobal + Threads + Sync),
    way: &str,
    lines: &[u8],
    files: &mut LentFiles,
    line: &mut Line,
) {
    let Some(limits) = limits_of(way) else {
        return line.put("no number");
    };
    let alloc = rt.alloc();
    let mut reader = Given::new(lines, limits);
    let mut writer = Taken::new(alloc, limits);
    let served = serve_on_one_machine(rt, alloc, &mut reader, &mut writer, files);
    tell_replies(way, &writer.bytes, served, line);
}

// Returns the limits of a session, or nothing where a number is none.
fn limits_of(way: &str) -> Option<Limits> {
    let (word, number) = way.split_once(' ').unwrap_or((way, "0"));
    let Ok(number) = number.parse::<u32>() else {
        return None;
    };
    let mut limits = NO_LIMITS;
    match word {
        "by" => limits.most = number,
        "reads" => limits.read = number,
        "writes" => limits.write = number,
        _ => {}
    }
    Some(limits)
}

fn tell_replies(way: &str, bytes: &[u8], served: Result<(), ServeFault>, line: &mut Line) {
    let replies = str::from_utf8(bytes).unwrap_or("no text");
    if way == "counted" {
        return tell_count(replies, line);
    }
    line.put_lines(replies, "↵");
    if let Err(fault) = served {
        line.put(" ");
        line.show(&fault);
    }
}

fn tell_count(replies: &str, line: &mut Line) {
    line.show(&replies.lines().count());
    line.put(" lines, the last of which is ");
    line.put(replies.lines().last().unwrap_or(""));
}
