//! The totals of a job.

ghost use Rattle.std.specs.Prelude.{◌<◌, ◌-◌, ◌^◌, IfOk};
ghost use Rattle.job_state.specs.inside.Following.{Follows};

use std::alloc::AllocError;

/// The totals of a job before a superstep.
#[derive(Drop)]
pub struct Totals {
    /// The superstep that comes next.
    pub superstep: u32,
    /// The first superstep whose units are reported.
    pub since: u32,
    /// The units of each superstep from `since` on. Each stops at the greatest number of 128 bits.
    pub by_superstep: Vec<u128>,
    /// The units of all calls so far. They stop at the greatest number of 128 bits.
    pub units: u128,
    /// The number of messages so far that went to no vertex. It stops at the greatest number of 128 bits.
    pub dropped: u128,
}

impl Totals {
    /// Adds a superstep, whose calls took `units` and of whose messages `dropped` went to no vertex. It fails only where memory
    /// runs out.
    pub fn after(mut self, units: u128, dropped: u128) -> Result<Totals, AllocError>
        requires { self.superstep < 2 ^ 32 - 1 }
        ensures { IfOk result (Follows units dropped self) }
    {
        self.superstep += 1;
        self.by_superstep.push(units)?;
        self.units = self.units.saturating_add(units);
        self.dropped = self.dropped.saturating_add(dropped);
        Ok(self)
    }
}
