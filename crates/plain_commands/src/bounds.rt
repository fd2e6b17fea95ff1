//! The command that verifies a module and prints its bounds.

ghost use Rattle.std.specs.Prelude.{◌≡◌, IfOk, IfErr, string_bytes};
ghost use Rattle.sources.specs.Disk.{Stays};
ghost use Rattle.call_lines.specs.OutputLines.{IfText};
ghost use Rattle.plain_commands.specs.Outputs.{IsBoundsLine, PrintsBounds, bounds_line};
ghost use Rattle.plain_commands.specs.Sizes.{IsNotAdmitted};

use crate::sizes::load_within;
use line_text::TextBuilder;
use requests::ModuleRequest;
use sources::{CommandFault, Files};
use std::alloc::{AllocError, Global};
use verified::Verified;

/// Returns the bounds of the module in a file.
pub fn verify_file<'a, F: Files>(
    alloc: Global,
    asked: ModuleRequest<'a>,
    files: &mut F,
) -> Result<String, CommandFault<'a>>
    ensures answered { IfText result (PrintsBounds (F.disk files.old) asked.entry) }
    ensures kept { Stays (F.disk files.old) (F.disk files.new) }
    ensures refused { IfErr result (IsNotAdmitted (F.disk files.old) asked.entry) }
{
    let verified = load_within(alloc, asked, files)?;
    let text = bounds_of(alloc, &verified)?;
    Ok(text)
}

// A module's bounds.
fn bounds_of(alloc: Global, verified: &Verified) -> Result<String, AllocError>
    ensures { IfText result (IsBoundsLine verified.now) }
{
    let (size, operands) = (verified.size(), verified.max_operands());
    bounds_text(alloc, size, operands, verified.max_frames())
}

fn bounds_text(alloc: Global, size: u32, operands: u32, frames: u32) -> Result<String, AllocError>
    ensures { IfOk result (λ text. string_bytes text ≡ bounds_line size operands frames) }
{
    let mut text = TextBuilder::new(alloc);
    text.put("ok size ");
    text.show(&size);
    text.put(" operands ");
    text.show(&operands);
    text.put(" frames ");
    text.show(&frames);
    text.put("\n");
    text.finish()
}
