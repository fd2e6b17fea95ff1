//! The line on standard error that shows how far a run has come.

use crate::view::View;
use std::sync::atomic::{AtomicU64, Ordering};
use std::time::{Clock, Instant};
use superstep::JobEnd;

/// One line on standard error, which is written over up to ten times a second, and ends when the run does.
#[derive(Drop)]
pub struct ProgressLine<'a, R> {
    rt: &'a R,
    is_terminal: bool,
    // When the program began. Without a clock the line is written once.
    begun: Option<Instant>,
    // The tenth of a second, counted from then, from which on the line may be written again; 0 where it has not begun.
    due: AtomicU64,
    // The units of the tasks that are done. They start again at 0 behind the greatest number of 64 bits.
    units: AtomicU64,
}

impl<'a, R: Clock> ProgressLine<'a, R> {
    /// A line that has not begun, on standard error, which is a terminal or is not.
    pub fn new(rt: &'a R, is_terminal: bool) -> ProgressLine<'a, R> {
        ProgressLine {
            rt,
            is_terminal,
            begun: Instant::now(rt).ok(),
            due: AtomicU64::new(0),
            units: AtomicU64::new(0),
        }
    }

    // How many tenths of a second have passed.
    fn tenths(&self) -> u64 {
        let Some(begun) = self.begun else {
            return 0;
        };
        match begun.elapsed(self.rt) {
            Ok(passed) => u64::try_from(passed.as_millis() / 100).unwrap_or(u64::MAX),
            Err(_) => 0,
        }
    }

    // Whether the line is to be written in this tenth of a second. Of several workers that ask at once, one is told so.
    fn is_due(&self, tenths: u64) -> bool {
        let due = self.due.load(Ordering::SeqCst);
        let next = tenths.saturating_add(1);
        due <= tenths
            && self
                .due
                .compare_exchange(due, next, Ordering::SeqCst, Ordering::SeqCst)
                .is_ok()
    }
}

// The blanks at an end cover what a longer line had there before.
impl<R: Clock + Eprint> View for ProgressLine<'_, R> {
    fn is_watched(&self) -> bool {
        self.is_terminal
    }

    fn show(&self, superstep: u32) {
        let tenths = self.tenths();
        if self.is_due(tenths) {
            let (seconds, tenth) = (tenths / 10, tenths % 10);
            let units = self.units.load(Ordering::SeqCst);
            let _ = eprint!(self.rt;
                "\rsuperstep {superstep}, {seconds}.{tenth} s, {units} units      "
            );
        }
    }

    fn add(&self, units: u128) {
        let units = u64::try_from(units).unwrap_or(u64::MAX);
        self.units.fetch_add(units, Ordering::SeqCst);
    }

    fn finish(&self, ended: Option<&JobEnd>) {
        let tenths = self.tenths();
        let (seconds, tenth) = (tenths / 10, tenths % 10);
        let _ = match ended {
            Some(ended) => {
                let (supersteps, units) = (ended.superstep, ended.units);
                eprintln!(self.rt;
                    "\r{supersteps} supersteps, {seconds}.{tenth} s, {units} units      "
                )
            }
            None if 0 < self.due.load(Ordering::SeqCst) => eprintln!(self.rt; ""),
            None => Ok(()),
        };
    }
}
