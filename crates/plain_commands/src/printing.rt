//! The output of a command: its answer, or its refusal on one line.

ghost use Rattle.std.specs.Prelude.{OnErr};
ghost use Rattle.plain_commands.specs.Outputs.{HasPrinted};
ghost use Rattle.plain_commands.specs.inside.Answering.{HasPrintedFault};

use line_text::{Output, WriteFailure, write_all};
use sources::{CommandFault, refusal_line, status_of};
use std::alloc::Global;

/// Writes the output, and returns the status.
pub fn tell<O: Output>(status: u8, told: &[u8], out: &mut O) -> Result<u8, WriteFailure>
    ensures told { HasPrinted (O.contents out.old) (O.contents out.new) status told.now result }
    ensures failed { OnErr result (O.has_failed out.new) }
{
    write_all(told, out)?;
    Ok(status)
}

/// Prints the fault. If there is no memory for its line, prints that memory ran out.
pub fn refuse<O: Output>(
    alloc: Global,
    fault: &CommandFault,
    out: &mut O,
) -> Result<u8, WriteFailure>
    ensures told { HasPrintedFault (O.contents out.old) (O.contents out.new) fault.now result }
    ensures failed { OnErr result (O.has_failed out.new) }
{
    match refusal_line(alloc, fault) {
        Ok(text) => tell(status_of(fault), text.as_bytes(), out),
        Err(_) => tell(1, b"no memory\n", out),
    }
}
