//! The threads of workers and of the ticker: their start, their end, and their receipts.
#![tactic(auto)]

mod audit;
mod spawning;
mod thread_promises;

pub use audit::settle_all;
pub use spawning::spawn_all;
pub use thread_promises::{HubThreads, TickThread, TickerPromise, WorkerPromise, WorkerThread};
