//! The faults of ranking.

ghost use Rattle.std.specs.Prelude.{◌≡◌};
ghost use Rattle.cost.specs.declared.fault.CostFault.TheVariants.{OutOfMemory};

use std::alloc::AllocError;
use thiserror::Error;

/// The reason why the functions of a module have no ranks.
#[derive(Debug, Drop, Error)]
pub enum CostFault {
    /// Each of these functions calls the next, and the last calls the first. The first has the least index.
    #[error("Cycle {0:?}")]
    Cycle(Vec<u32>),
    /// An allocation failed.
    #[error("OutOfMemory")]
    OutOfMemory,
}

impl From<AllocError> for CostFault {
    ghost from_gives = { λ _ fault. fault ≡ OutOfMemory };

    fn from(_: AllocError) -> CostFault {
        CostFault::OutOfMemory
    }
}
