//! Printing of the values of vertices.

ghost use Rattle.std.specs.Prelude.{◌≡◌, ◌++◌, IfErr, IfOk, OnOk, OnErr, map, string_bytes};
ghost use Rattle.std.specs.List.Sorted.{IsStrictlyIncreasing};
ghost use Rattle.std.specs.Io.KnownBytes.{Appends};
ghost use Rattle.line_text.specs.Output.{HasBegun};
ghost use Rattle.graph.specs.Print.{id_in, value_line, value_lines};

use crate::fault::PrintFault;
use line_text::{Output, write_all};
use std::alloc::{AllocError, Global};

/// Writes a line `v ID VALUE` for each vertex. The ids rise.
///
/// It fails with `Device` where the writer fails, and with `OutOfMemory`. Either way some prefix of the lines was written,
/// which may be none or all of them. Each line is a write of its own, so wrap a file or a terminal in a buffer.
pub fn print_values<O: Output>(
    alloc: Global,
    values: &[(u64, i64)],
    out: &mut O,
) -> Result<(), PrintFault>
    requires { IsStrictlyIncreasing (map id_in values.now) }
    ensures written { OnOk result
        (Appends (O.contents out.old) (O.contents out.new) (value_lines values.now)) }
    ensures begun { OnErr result
        (HasBegun (O.contents out.old) (O.contents out.new) (value_lines values.now)) }
    ensures failed { IfErr result (λ fault. fault ≡ PrintFault.Device → O.has_failed out.new) }
{
    for (id, value) in values {
        let line = value_line(alloc, *id, *value)?;
        write_all(line.as_bytes(), out)?;
    }
    Ok(())
}

fn value_line(alloc: Global, id: u64, value: i64) -> Result<String, AllocError>
    ensures { IfOk result (λ line. string_bytes line ≡ value_line (id, value)) }
{
    let mut line = String::new(alloc);
    push_value_line(&mut line, id, value)?;
    Ok(line)
}

/// Appends the line `v ID VALUE` of a vertex to a text, with its line feed. Fails only if memory runs out.
pub fn push_value_line(text: &mut String, id: u64, value: i64) -> Result<(), AllocError>
    ensures { OnOk result
        (string_bytes text.new ≡ string_bytes text.old ++ value_line (id, value)) }
{
    writeln!(text, "v {id} {value}")
}
