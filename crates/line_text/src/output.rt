//! Writers of bytes.

ghost use Rattle.std.specs.Prelude.{ℕ, List, Option, ⊤, IfOk, OnOk, OnErr, MatchResult};
ghost use Rattle.std.specs.Io.KnownBytes.{Appends, Keeps};
ghost use Rattle.line_text.specs.Output.{HasBegun, HasTaken};

use std::io::{ErrorKind, Write};
use thiserror::Error;

/// The writer failed.
#[derive(Clone, Copy, Debug, Error)]
#[error("writing failed")]
pub struct WriteFailure;

/// A writer of bytes.
pub trait Output {
    /// The bytes that it has taken, where they are known.
    ghost contents: { Self → Option (List ℕ) };

    /// Whether the last write failed, or may have failed.
    ghost has_failed: { Self → Type 0 };

    /// Takes some of the bytes, at least one where there are any, and returns their number. Where it fails it takes none.
    fn write_some(&mut self, bytes: &[u8]) -> Result<usize, WriteFailure>
        ensures some { IfOk result (HasTaken (contents self.old) (contents self.new) bytes.now) }
        ensures none { OnErr result (Keeps (contents self.old) (contents self.new)) }
        ensures failed { OnErr result (has_failed self.new) };
}

// Nothing is known of when a writer of the standard library fails.
impl<W: Write> Output for W {
    ghost contents = { W.contents };

    ghost has_failed = { λ _. ⊤ };

    fn write_some(&mut self, bytes: &[u8]) -> Result<usize, WriteFailure> {
        some_written(bytes, self)
    }
}

// Writes some of the bytes. An interrupted write is tried again.
fn some_written<W: Write>(bytes: &[u8], out: &mut W) -> Result<usize, WriteFailure>
    ensures { MatchResult result
        (HasTaken (W.contents out.old) (W.contents out.new) bytes.now)
        (λ _. Keeps (W.contents out.old) (W.contents out.new)) }
{
    for turn in 0..u64::MAX {
        match out.write(bytes) {
            Ok(0) if !bytes.is_empty() => return Err(WriteFailure),
            Ok(count) => return Ok(count),
            Err(error) if error.kind() == ErrorKind::Interrupted => {}
            Err(_) => return Err(WriteFailure),
        }
    }
    Err(WriteFailure)
}

/// Writes all of the bytes. Where a write fails, a prefix of them was written, which may be none or all of them.
pub fn write_all<O: Output>(bytes: &[u8], out: &mut O) -> Result<(), WriteFailure>
    ensures written { OnOk result (Appends (O.contents out.old) (O.contents out.new) bytes.now) }
    ensures begun { OnErr result (HasBegun (O.contents out.old) (O.contents out.new) bytes.now) }
    ensures failed { OnErr result (O.has_failed out.new) }
{
    let mut done = 0;
    while done < bytes.len() {
        done += out.write_some(&bytes[done..])?;
    }
    Ok(())
}
