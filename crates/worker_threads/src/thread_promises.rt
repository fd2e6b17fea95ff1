//! The promises of threads: what they return is a receipt of this hub.

use hub_ends::{CoordinatorEnds, TickReceipt, VerdictSender, WorkerReceipt};
use std::snapshot::Snapshot;
use std::thread::{Promise, PromisedHandle};
use superstep::{JobFault, Origin};
use worker_loops::WorkerEnd;

/// The promise of a worker's thread: it returns this worker's receipt, on the channels of this hub. The worker sent events for the
/// tasks that it took alone. It joined again only right after a loss that it reported, and of which it heard on this line that it was
/// counted. If its gate may lose nobody, it reported no loss and did not join.
pub struct WorkerPromise<J: Origin> {
    pub worker: u32,
    pub hub: Snapshot<CoordinatorEnds<J>>,
    pub line: Snapshot<VerdictSender>,
    /// Whether its gate may lose workers.
    pub loses: bool,
}

impl<J: Origin> Drop for WorkerPromise<J> {
    fn drop(self) {
        let WorkerPromise {
            worker: _,
            hub: _,
            line: _,
            loses: _,
        } = self;
    }
}

/// The promise of the ticker's thread: it returns the ticker's receipt, on the channels of this hub. If its gate may lose nobody,
/// no tick was sent.
pub struct TickerPromise<J: Origin> {
    pub hub: Snapshot<CoordinatorEnds<J>>,
    /// Whether its gate may let a tick come.
    pub loses: bool,
}

impl<J: Origin> Drop for TickerPromise<J> {
    fn drop(self) {
        let TickerPromise { hub: _, loses: _ } = self;
    }
}

impl<J: Origin> Promise<Result<WorkerEnd<J>, JobFault>> for WorkerPromise<J> {
    ghost use Rattle.std.specs.Prelude.{◌≡◌, IfOk, false};
    ghost use Rattle.hub_ends.specs.Hub.{IsReceiptOn, channels_of};
    ghost use Rattle.worker_loops.specs.Counted.{JoinsAfterLoss};
    ghost use Rattle.worker_loops.specs.inside.Epochs.{IsSteady};
    ghost use Rattle.worker_threads.specs.inside.Joins.{IsEndOn};

    ghost kept_by = { λ promise result. IfOk result (λ end.
        IsReceiptOn (channels_of promise.hub.value) promise.worker end.receipt
        × JoinsAfterLoss end.receipt
        × IsEndOn J.work J.honest promise.line.value end
        × (promise.loses ≡ false → IsSteady end.receipt)) };
}

impl<J: Origin> Promise<Result<TickReceipt<J>, JobFault>> for TickerPromise<J> {
    ghost use Rattle.std.specs.Prelude.{◌≡◌, IfOk, false};
    ghost use Rattle.hub_ends.specs.Hub.{IsTickReceiptOn, channels_of};
    ghost use Rattle.worker_loops.specs.inside.Epochs.{IsSteadyTicker};

    ghost kept_by = { λ promise result. IfOk result (λ receipt.
        IsTickReceiptOn (channels_of promise.hub.value) receipt
        × (promise.loses ≡ false → IsSteadyTicker receipt)) };
}

pub type WorkerThread<J> = PromisedHandle<Result<WorkerEnd<J>, JobFault>, WorkerPromise<J>>;

pub type TickThread<J> = PromisedHandle<Result<TickReceipt<J>, JobFault>, TickerPromise<J>>;

/// The threads of a hub, and room for the receipts of its workers.
pub struct HubThreads<J: Origin> {
    pub ticker: TickThread<J>,
    /// One for each worker, from 0 on.
    pub workers: Vec<WorkerThread<J>>,
    /// An empty list with room for the receipt of each worker.
    pub receipts: Vec<WorkerReceipt<J>>,
}

impl<J: Origin> Drop for HubThreads<J> {
    fn drop(self) {
        let HubThreads {
            ticker: _,
            workers: _,
            receipts: _,
        } = self;
    }
}

impl<J: Origin> HubThreads<J> {
    ghost use Rattle.std.specs.Prelude.{◌≡◌};

    /// Takes them apart: the ticker's thread, those of the workers, and the room for their receipts.
    pub(crate) fn into_parts(self) -> (TickThread<J>, Vec<WorkerThread<J>>, Vec<WorkerReceipt<J>>)
        ensures ticker { result.0 ≡ self.ticker }
        ensures workers { result.1 ≡ self.workers }
        ensures receipts { result.2 ≡ self.receipts }
    {
        let HubThreads {
            ticker,
            workers,
            receipts,
        } = self;
        (ticker, workers, receipts)
    }
}
