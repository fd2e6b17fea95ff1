//! The output of a part's vertices in a superstep.

ghost use Rattle.std.specs.Prelude.{OnOk};
ghost use Rattle.semantics.specs.Call.{shown};
ghost use Rattle.compute.specs.inside.PartOutput.{Adds, IsNothing};

use inbox::Outbox;
use std::alloc::{AllocError, Global};
use superstep::give_all;
use verified::{CallOutcome, aggregator_starts};

/// The output of the calls of a part so far.
#[derive(Drop)]
pub struct PartOutput {
    /// Their messages, in the order of sending.
    pub letters: Outbox,
    /// Their contributions, aggregated.
    pub aggregators: [i64; 8],
    /// The units of the calls. They stop at the greatest number of 128 bits.
    pub units: u128,
}

impl PartOutput {
    /// Makes the output before the first call: nothing.
    pub fn nothing(alloc: Global) -> PartOutput
        ensures { IsNothing result }
    {
        PartOutput {
            letters: Outbox::new(alloc),
            aggregators: aggregator_starts(),
            units: 0,
        }
    }

    /// Adds the outcome of the call of the vertex with this id.
    pub fn add(&mut self, id: u64, outcome: &CallOutcome) -> Result<(), AllocError>
        ensures { OnOk result (Adds id (shown outcome.now) self.old self.new) }
    {
        self.letters.send_all(id, &outcome.sends)?;
        give_all(&mut self.aggregators, &outcome.contributions);
        self.units = self.units.saturating_add(outcome.units);
        Ok(())
    }
}
