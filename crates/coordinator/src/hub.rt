//! A hub: the channels of a job, and all their ends.

ghost use Rattle.std.specs.Prelude.{◌≡◌, ◌⊎◌, true, IfOk, IfErr};
ghost use Rattle.job_state.specs.declared.fault.JobFault.TheVariants.{OutOfMemory};
ghost use Rattle.job_state.specs.declared.fault.Place.TheVariants.{Channel, Open};

use crate::coordinator::Coordinator;
use checkpoint::Keep;
use hub_ends::{TickPass, WorkerPass, connect, new_rows};
use std::alloc::Global;
use superstep::{Job, JobFault, Origin, Place};

/// The channels of a job.
pub struct Hub;

impl Hub {
    ghost use Rattle.coordinator.specs.Coordinator.{HasRooms, IsNewHub};

    /// Opens the channels of a job. Returns all their ends: the coordinator, the pass of each worker, and that of the
    /// ticker. The type says of which job they are, and whether its Keep is honest.
    ///
    /// A task channel has room for two orders, and the channel of events for two messages more than there are workers.
    /// It fails only if memory runs out: `OutOfMemory` of `Open` for the lists, of `Channel` for a channel.
    pub fn open<J: Origin, K: Keep>(
        alloc: Global,
        job: &Job,
        _keep: &K,
    ) -> Result<(Coordinator<J>, Vec<WorkerPass<J>>, TickPass<J>), JobFault>
        requires job { J.work ≡ job.now }
        requires keep { J.honest 1 ≡ true → K.honest _keep.now ≡ true }
        ensures hub { IfOk result (λ hub. IsNewHub job.now.settings.workers hub.0 hub.1 hub.2) }
        ensures rooms { IfOk result (λ hub. HasRooms job.now.settings.workers hub.0) }
        ensures refused { IfErr result (λ fault.
            (fault ≡ OutOfMemory Open) ⊎ (fault ≡ OutOfMemory Channel)) }
    {
        let workers = job.settings().workers;
        let Ok(rows) = new_rows(alloc, workers as usize) else {
            return Err(JobFault::OutOfMemory(Place::Open));
        };
        match connect(alloc, workers, rows) {
            Ok((ends, passes, ticker)) => {
                let coordinator = Coordinator {
                    ends: Some(ends),
                    receipts: None,
                };
                Ok((coordinator, passes, ticker))
            }
            Err(_) => Err(JobFault::OutOfMemory(Place::Channel)),
        }
    }
}
