//! The module in a file, whose size may be bounded.

ghost use Rattle.std.specs.Prelude.{MatchResult};
ghost use Rattle.sources.specs.Disk.{Stays};
ghost use Rattle.plain_commands.specs.Sizes.{IsAdmitted, IsNotAdmitted, IsOfSize, RefusesSize};

use requests::ModuleRequest;
use sources::{CommandFault, Files, load_file};
use std::alloc::Global;
use verified::Verified;

/// The module in a file, verified. Its own refusals come first, then that of its size.
pub(crate) fn load_within<'a, F: Files>(
    alloc: Global,
    asked: ModuleRequest<'a>,
    files: &mut F,
) -> Result<Verified, CommandFault<'a>>
    ensures found { MatchResult result (IsAdmitted (F.disk files.old) asked.entry)
        (IsNotAdmitted (F.disk files.old) asked.entry) }
    ensures kept { Stays (F.disk files.old) (F.disk files.new) }
{
    let verified = load_file(alloc, asked.path, files)?;
    check_size(&verified, asked.max_size)?;
    Ok(verified)
}

// Refuses a module whose size is greater than this, where there is a bound.
fn check_size<'a>(verified: &Verified, max_size: Option<u32>) -> Result<(), CommandFault<'a>>
    ensures { MatchResult result (λ _. IsOfSize max_size verified.now)
        (RefusesSize max_size verified.now) }
{
    match max_size {
        Some(most) if most < verified.size() => Err(CommandFault::MaxSize),
        _ => Ok(()),
    }
}
