//! The command that writes a checkpoint of any version as one of the newest.

ghost use Rattle.std.specs.Prelude.{◌⊎◌, IfErr, MatchResult, OnErr};
ghost use Rattle.checkpoint.specs.Checkpoint.{checkpoint_bytes};
ghost use Rattle.sources.specs.Disk.{Stays, Tries};
ghost use Rattle.call_lines.specs.OutputLines.{IfText};
ghost use Rattle.sources.specs.Reading.{IsUnwritable};
ghost use Rattle.conversions.specs.Outputs.{IsKeptAt, PrintsUpgraded, PrintsWritten, TriesUpgraded};
ghost use Rattle.conversions.specs.Causes.{IsNoCheckpointAt, IsNotUpgraded, StaysBeforeWriting};

use crate::writing::write_told;
use sources::{CommandFault, Files, read_bytes};
use std::alloc::Global;
use superstep::State;

/// Writes the checkpoint in one file to another, of the newest version.
pub fn upgrade_file<'a, F: Files>(
    alloc: Global,
    path: &'a str,
    newer: &'a str,
    files: &mut F,
) -> Result<String, CommandFault<'a>>
    ensures answered { IfText result
        (PrintsUpgraded (F.disk files.old) (F.disk files.new) path.now newer.now) }
    ensures refused { IfErr result (IsNotUpgraded (F.disk files.old) path.now newer.now) }
    ensures before { IfErr result (StaysBeforeWriting (F.disk files.old) (F.disk files.new)) }
    ensures tried { OnErr result (Stays (F.disk files.old) (F.disk files.new)
        ⊎ TriesUpgraded (F.disk files.old) (F.disk files.new) path.now newer.now) }
{
    let state = read_checkpoint(alloc, path, files)?;
    write_checkpoint(alloc, &state, newer, files)
}

// The state whose checkpoint is in a file.
fn read_checkpoint<'a, F: Files>(
    alloc: Global,
    path: &'a str,
    files: &mut F,
) -> Result<State, CommandFault<'a>>
    ensures found { MatchResult result (IsKeptAt (F.disk files.old) path.now)
        (IsNoCheckpointAt (F.disk files.old) path.now) }
    ensures kept { Stays (F.disk files.old) (F.disk files.new) }
{
    let bytes = read_bytes(alloc, path, files)?;
    let state = checkpoint::read(alloc, bytes.as_slice())?;
    Ok(state)
}

// Writes the checkpoint of a state to a file.
fn write_checkpoint<'a, F: Files>(
    alloc: Global,
    state: &State,
    newer: &'a str,
    files: &mut F,
) -> Result<String, CommandFault<'a>>
    ensures answered { IfText result
        (PrintsWritten (F.disk files.old) (F.disk files.new)
        (checkpoint_bytes state.now) newer.now) }
    ensures refused { IfErr result (IsUnwritable (F.disk files.old) newer.now) }
    ensures before { IfErr result (StaysBeforeWriting (F.disk files.old) (F.disk files.new)) }
    ensures tried { OnErr result
        (Tries newer.now (checkpoint_bytes state.now) (F.disk files.old) (F.disk files.new)) }
{
    let bytes = checkpoint::write(alloc, state)?;
    write_told(alloc, bytes.as_slice(), newer, files)
}
