//! Jobs that a session holds.

ghost use Rattle.session.specs.Held.{IsSound};

use crate::run_state::RunState;
use superstep::Job;

/// A job and its state.
#[derive(Drop)]
pub struct HeldJob {
    pub job: Job,
    pub state: RunState,
    ghost sound: { IsSound job state },
}
