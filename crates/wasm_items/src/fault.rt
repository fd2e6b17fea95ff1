//! The faults of the decoder.

ghost use Rattle.std.specs.Prelude.{◌≡◌, Some};
ghost use Rattle.wasm_items.specs.declared.fault.DecodeFault.TheVariants.{OutOfMemory};
ghost use Rattle.wasm_items.specs.Faults.{fault_text, rule_word};

use std::alloc::{AllocError, AllocFailed};
use std::error::Error;
use std::fmt;

/// A rule that the bytes break. Its position in the bytes, counted from 0, is reported with it.
#[derive(Clone, Copy)]
pub enum DecodeRule {
    /// The bytes do not start with `00 61 73 6D`. The position is 0.
    Magic,
    /// The four bytes after those are not version 1. The position is 4.
    Version,
    /// The bytes end within the module. The position is their end.
    Truncated,
    /// A number is not spelled as its width allows (Core 1.0, 5.2.2). The position is its first byte.
    Leb,
    /// A section occurs twice, or after one that must follow it. The position is that of its id.
    SectionOrder,
    /// A section or a body is longer than its size, and the position is its end. Or it is shorter, and the position is
    /// the first byte that remains.
    SectionSize,
    /// The format has no such byte here. The position is that byte.
    BadByte,
    /// A name is not UTF-8. The position is the first byte of its text.
    Utf8,
    /// There are not as many bodies as functions. The position is where their count starts, or the end of the file where
    /// there is no code section.
    CountMismatch,
    /// The byte is for something that this decoder does not support: floats, or a version after 1.0.
    Unsupported,
    /// A number is above its limit, and the position is its first byte. Or the file is too long, and the position is the
    /// limit.
    OverLimit,
}

impl DecodeRule {
    // Returns the rule's name, as it is printed.
    fn word(self) -> &'static str
        ensures { result.now ≡ rule_word self }
    {
        match self {
            DecodeRule::Magic => "Magic",
            DecodeRule::Version => "Version",
            DecodeRule::Truncated => "Truncated",
            DecodeRule::Leb => "Leb",
            DecodeRule::SectionOrder => "SectionOrder",
            DecodeRule::SectionSize => "SectionSize",
            DecodeRule::BadByte => "BadByte",
            DecodeRule::Utf8 => "Utf8",
            DecodeRule::CountMismatch => "CountMismatch",
            DecodeRule::Unsupported => "Unsupported",
            DecodeRule::OverLimit => "OverLimit",
        }
    }
}

/// The reason why bytes are not a module: the first fault from the left. It is printed as the rule's name and the
/// position.
#[derive(Clone, Copy)]
pub enum DecodeFault {
    /// The bytes break the rule at this position.
    Refused(DecodeRule, usize),
    /// An allocation failed.
    OutOfMemory,
}

impl fmt::Display for DecodeFault {
    ghost output = { λ fault. Some (fault_text fault) };

    fn fmt<W: fmt::Write>(&self, f: &mut fmt::Formatter<W>) -> fmt::Result {
        match self {
            DecodeFault::Refused(rule, place) => {
                let word = rule.word();
                write!(f, "{word} {place}")
            }
            DecodeFault::OutOfMemory => f.write_str("OutOfMemory -"),
        }
    }
}

impl fmt::Debug for DecodeFault {
    fn fmt<W: fmt::Write>(&self, f: &mut fmt::Formatter<W>) -> fmt::Result {
        write!(f, "{self}")
    }
}

impl Error for DecodeFault {}

impl From<AllocError> for DecodeFault {
    ghost from_gives = { λ _ fault. fault ≡ OutOfMemory };

    fn from(_: AllocError) -> DecodeFault {
        DecodeFault::OutOfMemory
    }
}

impl<T: Drop> From<AllocFailed<T>> for DecodeFault {
    ghost from_gives = { λ _ fault. fault ≡ OutOfMemory };

    fn from(_: AllocFailed<T>) -> DecodeFault {
        DecodeFault::OutOfMemory
    }
}
