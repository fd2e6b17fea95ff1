//! What a run did: the counts of each superstep while the job runs, its report as JSON, and its chart.
#![tactic(auto)]

mod chart;
mod counts;
mod json;
mod measure;
mod panel;
mod report;
mod scale;
mod tally;
mod unit;
mod watch;
mod words;

pub use chart::svg_text;
pub use counts::SuperstepCounts;
pub use json::json_text;
pub use report::{JobFiles, Outcome, RunReport, RunSettings};
pub use tally::{Ended, Tallied, Tally, capped};
pub use watch::Watch;
