//! A written file, and the answer with its length.

ghost use Rattle.std.specs.Prelude.{◌≡◌, IfOk, IfErr, OnErr, string_bytes};
ghost use Rattle.sources.specs.Disk.{Tries};
ghost use Rattle.call_lines.specs.OutputLines.{IfText};
ghost use Rattle.sources.specs.Reading.{IsUnwritable};
ghost use Rattle.conversions.specs.Outputs.{PrintsWritten, length_line};
ghost use Rattle.conversions.specs.Causes.{StaysBeforeWriting};

use line_text::TextBuilder;
use sources::{CommandFault, Files, write};
use std::alloc::{AllocError, Global};

/// Writes bytes to a file, and returns the answer with their number. The answer is made first.
pub(crate) fn write_told<'a, F: Files>(
    alloc: Global,
    bytes: &[u8],
    path: &'a str,
    files: &mut F,
) -> Result<String, CommandFault<'a>>
    ensures answered { IfText result
        (PrintsWritten (F.disk files.old) (F.disk files.new) bytes.now path.now) }
    ensures refused { IfErr result (IsUnwritable (F.disk files.old) path.now) }
    ensures before { IfErr result (StaysBeforeWriting (F.disk files.old) (F.disk files.new)) }
    ensures tried { OnErr result
        (Tries path.now bytes.now (F.disk files.old) (F.disk files.new)) }
{
    let told = length_text(alloc, bytes.len())?;
    write(path, bytes, files)?;
    Ok(told)
}

fn length_text(alloc: Global, length: usize) -> Result<String, AllocError>
    ensures { IfOk result (λ text. string_bytes text ≡ length_line length) }
{
    let mut text = TextBuilder::new(alloc);
    text.put("ok ");
    text.show(&length);
    text.put("\n");
    text.finish()
}
