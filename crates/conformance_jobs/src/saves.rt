//! Keeps. `NAME: PLACE; S BYTES, S BYTES, ..` saves the bytes of each superstep S, one after another, in a Keep in a
//! directory or in `memory`. It prints the result of a load after each save, and how often the device failed. `S BYTES by
//! FILE OTHERS` writes other bytes to a file before the load.

use anyhow::Result;
use checkpoint::{Device, FileKeep, Keep, MemoryKeep};
use conformance_cases::{CaseFiles, Line, bytes, halves};

/// Writes what is loaded after each save of a case.
pub fn answer(rt: &(impl CaseFiles + Device + AllocGlobal), case: &str, line: &mut Line) {
    let (place, steps) = halves(case, "; ");
    if place == "memory" {
        return tell(rt, &mut MemoryKeep::new(rt.alloc()), steps, line);
    }
    match FileKeep::new(rt.alloc(), place) {
        Ok(mut keep) => tell(rt, &mut keep, steps, line),
        Err(_) => line.cut(),
    }
}

fn tell<R: CaseFiles + Device + AllocGlobal, K: Keep>(
    rt: &R,
    keep: &mut K,
    steps: &str,
    line: &mut Line,
) {
    for step in steps.split(", ") {
        match kept(rt, keep, step) {
            Ok(bytes) => tell_bytes(bytes.as_slice(), line),
            Err(fault) => {
                line.show(&fault);
                line.put(" ");
            }
        }
    }
    line.add("failures ", &keep.failures());
}

// Saves the bytes of a step, writes the other bytes, and loads.
fn kept<R: CaseFiles + Device + AllocGlobal, K: Keep>(
    rt: &R,
    keep: &mut K,
    step: &str,
) -> Result<Vec<u8>> {
    let (saved, written) = halves(step, " by ");
    let (superstep, spelling) = halves(saved, " ");
    let superstep = superstep.parse::<u32>()?;
    keep.save(rt, superstep, &bytes(rt.alloc(), spelling)?)?;
    write_others(rt, written)?;
    Ok(keep.load(rt, superstep)?)
}

fn write_others(rt: &(impl CaseFiles + AllocGlobal), written: &str) -> Result<()> {
    match written.split_once(' ') {
        Some((file, spelling)) => rt.put(file, &bytes(rt.alloc(), spelling)?),
        None => Ok(()),
    }
}

fn tell_bytes(bytes: &[u8], line: &mut Line) {
    line.put("[");
    for byte in bytes {
        line.byte(*byte);
    }
    line.put("] ");
}
