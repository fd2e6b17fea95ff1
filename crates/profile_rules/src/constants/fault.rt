//! Why the constants of a module are not all known.

ghost use Rattle.std.specs.Prelude.{◌≡◌};
ghost use Rattle.profile_rules.specs.declared.constants.fault.ConstantsFault.TheVariants.{OutOfMemory};

use std::alloc::{AllocError, AllocFailed};
use validate::Place;

/// Why the constants of a module are not all known.
#[derive(Clone, Copy)]
pub enum ConstantsFault {
    /// The instruction at this place lacks a constant.
    Breaks(Place),
    /// An allocation failed.
    OutOfMemory,
}

impl From<AllocError> for ConstantsFault {
    ghost from_gives = { λ _ fault. fault ≡ OutOfMemory };

    fn from(_: AllocError) -> ConstantsFault {
        ConstantsFault::OutOfMemory
    }
}

impl<T: Drop> From<AllocFailed<T>> for ConstantsFault {
    ghost from_gives = { λ _ fault. fault ≡ OutOfMemory };

    fn from(_: AllocFailed<T>) -> ConstantsFault {
        ConstantsFault::OutOfMemory
    }
}
