//! The loops of the threads of workers and of the ticker, and the gates that decide their losses.
#![tactic(auto)]

mod gate;
mod worker_loop;

pub use gate::{Gate, NoLoss, Turn, Worked};
pub use worker_loop::{WorkerEnd, tick_all, work_all};
