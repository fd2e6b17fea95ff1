//! The faults of bytes that are not a checkpoint.

ghost use Rattle.std.specs.Prelude.{◌≡◌, Some};
ghost use Rattle.checkpoint.specs.Faults.{fault_word};
ghost use Rattle.checkpoint.specs.declared.fault.CheckpointFault.TheVariants.{OutOfMemory};

use std::alloc::{AllocError, AllocFailed};
use std::error::Error;
use std::fmt;

/// The reason why bytes are not a checkpoint. Of several faults one is reported, the first in this order:
///
/// 1. fewer than 40 bytes: `Truncated`;
/// 2. the first four bytes, the version, the digest: `Header`, `Version`, `Digest`;
/// 3. an end in the fields of fixed size, or fewer than four bytes behind them in version 2: `Truncated`;
/// 4. the first superstep of units is later than the superstep, in version 2: `Order`;
/// 5. an end in the units, in the count of vertices or in the vertices: `Truncated`;
/// 6. everything else: `Order`.
///
/// The first superstep of units is one of the fields of fixed size. Version 1 does not have it. A fault is printed as its
/// word.
#[derive(Clone, Copy, Debug)]
pub enum CheckpointFault {
    /// The bytes do not begin with `50 47 43 4B` (`PGCK`).
    Header,
    /// The version is neither 1 nor 2.
    Version,
    /// There are fewer than 40 bytes, or fewer than the counts in them say.
    Truncated,
    /// The last 32 bytes are not the SHA-256 of the others.
    Digest,
    /// The fields fit no state, for one of these reasons:
    ///
    /// - the first superstep of units is later than the superstep;
    /// - ids do not rise;
    /// - an active byte is neither 0 nor 1;
    /// - bytes are left over;
    /// - the total of units does not match the units of the supersteps.
    Order,
    /// Memory ran out.
    OutOfMemory,
}

impl CheckpointFault {
    /// Returns the fault's word, as it is printed.
    pub fn word(self) -> &'static str
        ensures { result.now ≡ fault_word self }
    {
        match self {
            CheckpointFault::Header => "Header",
            CheckpointFault::Version => "Version",
            CheckpointFault::Truncated => "Truncated",
            CheckpointFault::Digest => "Digest",
            CheckpointFault::Order => "Order",
            CheckpointFault::OutOfMemory => "OutOfMemory",
        }
    }
}

impl fmt::Display for CheckpointFault {
    ghost output = { λ fault. Some (fault_word fault) };

    fn fmt<W: fmt::Write>(&self, f: &mut fmt::Formatter<W>) -> fmt::Result {
        f.write_str(self.word())
    }
}

impl Error for CheckpointFault {}

impl From<AllocError> for CheckpointFault {
    ghost from_gives = { λ _ fault. fault ≡ OutOfMemory };

    fn from(_: AllocError) -> CheckpointFault {
        CheckpointFault::OutOfMemory
    }
}

impl<T: Drop> From<AllocFailed<T>> for CheckpointFault {
    ghost from_gives = { λ _ fault. fault ≡ OutOfMemory };

    fn from(_: AllocFailed<T>) -> CheckpointFault {
        CheckpointFault::OutOfMemory
    }
}
