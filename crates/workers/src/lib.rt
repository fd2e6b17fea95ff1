//! Jobs in threads: a coordinator, workers that can be lost, and a ticker.
#![tactic(auto)]

mod run;
mod threads;

pub use coordinator::{Coordinator, Hub};
pub use hub_ends::{Message, Sender, TickPass, TickReceipt, WorkerPass, WorkerReceipt};
pub use run::{resume_job, run_job};
pub use threads::{resume_in_threads, run_in_threads};
pub use worker_loops::{Gate, NoLoss, Turn, Worked};
