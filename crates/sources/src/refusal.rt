//! The line of a refusal.

ghost use Rattle.std.specs.Prelude.{◌≡◌, ◌++◌, IfOk, Some, codes, string_bytes};
ghost use Rattle.std.specs.Fmt.{DisplaysOnOk, ◌++?◌};
ghost use Rattle.call_lines.specs.OutputLines.{line};
ghost use Rattle.sources.specs.Refusal.{fault_text, file_text, input_text, setting_word};

use crate::fault::CommandFault;
use call_lines::InputFault;
use line_text::TextBuilder;
use std::alloc::{AllocError, Global};
use std::fmt;
use superstep::Setting;

/// Writes the line of a fault, with its line feed. It is one of:
/// * `no decode WORD PLACE`, `no text WORD LINE COLUMN` or `no encode WORD`;
/// * `no valid WORD FUNC INSTR`, `no profile RULE FUNC INSTR`, or `no profile P12` and the functions of the cycle;
/// * `no input LINE`, `no input lose`, `no run OutOfMemory`, `no graph WORD LINE` or `no settings WHICH`;
/// * `end fault WORD`, `no checkpoint WORD`, `no file PATH` or `no memory`.
///
/// FUNC, INSTR, PLACE and the LINE of a graph are `-` if there is none.
pub fn refusal_line(alloc: Global, fault: &CommandFault) -> Result<String, AllocError>
    ensures { IfOk result (λ text. string_bytes text ≡ line (fault_text fault.now)) }
{
    let mut text = TextBuilder::new(alloc);
    text.show(fault);
    text.put("\n");
    text.finish()
}

impl fmt::Display for CommandFault<'_> {
    ghost output = { λ fault. Some (fault_text fault) };

    fn fmt<W: fmt::Write>(&self, f: &mut fmt::Formatter<W>) -> fmt::Result {
        match self {
            CommandFault::Decode(fault) => tell("no decode ", fault, f),
            CommandFault::Text(fault) => tell("no text ", fault, f),
            CommandFault::Invalid(fault) => tell("no valid ", fault, f),
            CommandFault::Unbounded(fault) => tell("no profile ", fault, f),
            CommandFault::Input(fault) => tell_input_fault(*fault, f),
            CommandFault::Run => f.write_str("no run OutOfMemory"),
            CommandFault::Loss => f.write_str("no input lose"),
            CommandFault::Graph(fault) => tell("no graph ", fault, f),
            CommandFault::Settings(setting) => tell_setting(*setting, f),
            CommandFault::MaxSize => f.write_str("no settings max-size"),
            CommandFault::Resume => f.write_str("no settings resume"),
            CommandFault::Job(fault) => tell("end fault ", fault, f),
            CommandFault::Checkpoint(fault) => tell("no checkpoint ", fault, f),
            CommandFault::Encode(fault) => tell("no encode ", fault, f),
            CommandFault::Unread(path) => tell_file(path, f),
            CommandFault::Unwritable(path) => tell_file(path, f),
            CommandFault::OutOfMemory => f.write_str("no memory"),
        }
    }
}

// Writes a fault behind these words.
fn tell<W: fmt::Write, D: fmt::Display>(
    words: &str,
    fault: &D,
    f: &mut fmt::Formatter<W>,
) -> fmt::Result
    ensures { DisplaysOnOk W.write_str_gives f.old result
        (Some words.now ++? D.output fault.now) f.new }
{
    write!(f, "{words}{fault}")
}

fn tell_file<W: fmt::Write>(path: &str, f: &mut fmt::Formatter<W>) -> fmt::Result
    ensures { DisplaysOnOk W.write_str_gives f.old result (Some (file_text path.now)) f.new }
{
    write!(f, "no file {path}")
}

// Writes the number of the bad line, or that memory ran out.
fn tell_input_fault<W: fmt::Write>(fault: InputFault, f: &mut fmt::Formatter<W>) -> fmt::Result
    ensures { DisplaysOnOk W.write_str_gives f.old result (Some (input_text fault)) f.new }
{
    match fault {
        InputFault::Line(line) => write!(f, "no input {line}"),
        InputFault::OutOfMemory => f.write_str("no memory"),
    }
}

fn tell_setting<W: fmt::Write>(setting: Setting, f: &mut fmt::Formatter<W>) -> fmt::Result
    ensures { DisplaysOnOk W.write_str_gives f.old result
        (Some (codes "no settings " ++ setting_word setting)) f.new }
{
    write!(f, "no settings {}", setting_word(setting))
}

fn setting_word(setting: Setting) -> &'static str
    ensures { result.now ≡ setting_word setting }
{
    match setting {
        Setting::Parts => "parts",
        Setting::Workers => "workers",
        Setting::Every => "every",
        Setting::Limit => "limit",
        Setting::Lease => "lease",
    }
}
