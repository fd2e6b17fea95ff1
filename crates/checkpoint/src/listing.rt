//! What a directory has of checkpoints.

use std::alloc::Global;
use std::rt::Files;
use std::{fs, io};

/// Lists the supersteps of a directory's files `ckpt-S.bin`, the newest first.
pub fn supersteps_in<R: Files + AllocGlobal>(
    rt: &R,
    alloc: Global,
    directory: &str,
) -> io::Result<Vec<u32>> {
    let mut supersteps = Vec::new(alloc);
    for entry in fs::read_dir(&rt, directory)? {
        let entry = entry?;
        if let Some(superstep) = superstep_of(entry.file_name()) {
            supersteps.push(superstep)?;
        }
    }
    supersteps.sort_unstable();
    supersteps.reverse();
    Ok(supersteps)
}

// The superstep that the name of a checkpoint tells.
fn superstep_of(name: &str) -> Option<u32> {
    let rest = name.strip_prefix("ckpt-")?;
    let number = rest.strip_suffix(".bin")?;
    number.parse::<u32>().ok()
}
