//! Keeps: the places where the last saved state of a job is kept.

ghost use Rattle.std.specs.Prelude.{◌≡◌, ℕ, List, Bool, true, Option, Some, IfOk, OnErr, OnOk};
ghost use Rattle.checkpoint.specs.Keep.{HasCause, IsKeptOrNone, Only};

use crate::device::Device;
use thiserror::Error;

/// The reason why a state was not saved or loaded.
#[derive(Clone, Copy, Debug, Error)]
pub enum KeepFault {
    /// The device failed.
    #[error("Device")]
    Device,
    /// Memory ran out.
    #[error("OutOfMemory")]
    OutOfMemory,
}

/// A place that keeps the last saved state of a job, as the bytes of its checkpoint.
pub trait Keep {
    /// The superstep of the last good save.
    ghost saved: { Self → Option ℕ };

    /// The bytes that a load may return.
    ghost may_load: { Self → List ℕ → Type 0 };

    /// Whether every loaded checkpoint that `read` accepts is the saved one.
    ghost honest: { Self → Bool };

    /// How often the device has failed, up to 2^64 - 1.
    ghost faults: { Self → ℕ };

    /// Saves these bytes in place of everything that was saved before.
    ///
    /// A failed save leaves the last good one, or none if that one has the same superstep.
    fn save<R: Device + AllocGlobal>(
        &mut self,
        rt: &R,
        superstep: u32,
        bytes: &[u8],
    ) -> Result<(), KeepFault>
        ensures honest { honest self.new ≡ honest self.old }
        ensures saved { OnOk result (saved self.new ≡ Some superstep) }
        ensures bytes { honest self.old ≡ true
            → OnOk result (Only bytes.now (may_load self.new)) }
        // What was saved may be loaded.
        ensures held { OnOk result (may_load self.new bytes.now) }
        ensures kept { OnErr result (IsKeptOrNone superstep (saved self.old) (saved self.new)) }
        ensures kept_bytes { OnErr result ((other : List ℕ)
            → may_load self.new other → may_load self.old other) }
        ensures cause { HasCause (faults self.old) (faults self.new) result };

    /// Loads the bytes of the last good save, which has to be of this superstep.
    fn load<R: Device + AllocGlobal>(
        &mut self,
        rt: &R,
        superstep: u32,
    ) -> Result<Vec<u8>, KeepFault>
        requires { saved self.old ≡ Some superstep }
        ensures honest { honest self.new ≡ honest self.old }
        ensures saved { saved self.new ≡ saved self.old }
        ensures same { (other : List ℕ) → may_load self.new other → may_load self.old other }
        ensures bytes { IfOk result (λ bytes. may_load self.old bytes.items) }
        ensures cause { HasCause (faults self.old) (faults self.new) result };

    /// Returns how often the device has failed, up to 2^64 - 1.
    fn failures(&self) -> u64
        ensures { result ≡ faults self.now };
}
