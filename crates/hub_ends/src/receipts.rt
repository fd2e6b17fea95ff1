//! The receipts of a whole hub.

use crate::pass::{TickReceipt, WorkerReceipt};
use superstep::Origin;

/// The receipts of all senders to the coordinator.
pub struct Receipts<J: Origin> {
    pub ticker: TickReceipt<J>,
    pub workers: Vec<WorkerReceipt<J>>,
}

impl<J: Origin> Drop for Receipts<J> {
    fn drop(self) {
        let Receipts {
            ticker: _,
            workers: _,
        } = self;
    }
}
