//! What is counted while a job runs.

ghost use Rattle.std.specs.Prelude.{◌≡◌, ◌≤◌, ◌<◌, ◌-◌, ◌^◌, ℕ, IfOk, IsSome, Some, min, vec_len, OnOk};
ghost use Rattle.run_report.specs.Tally.{Counts, IsNoTally, StopsAt, closed, counts_at, counts_of_end, counts_since, counts_until, dropped_of, less, rest_behind, row_in, units_known, whole, whole_in, with_task};

use crate::counts::SuperstepCounts;
use std::alloc::{AllocError, Global};

/// What was counted of the tasks of a superstep in one epoch. Counts stop at the greatest number of 64 bits.
#[derive(Clone, Copy)]
pub struct Tallied {
    pub epoch: u64,
    /// How many tasks were done.
    pub tasks: u64,
    /// The units of their calls.
    pub units: u64,
    /// How many vertices were called.
    pub called: u64,
    /// How many messages these had.
    pub received: u64,
    /// How many messages they sent.
    pub sent: u64,
}

/// What a job ended with, as far as a tally needs it.
#[derive(Clone, Copy)]
pub struct Ended<'a> {
    /// The superstep that would come next.
    pub superstep: u32,
    /// The first superstep whose units are known.
    pub since: u32,
    /// The units of each superstep from that one on.
    pub units: &'a [u128],
    /// How many messages went to no vertex.
    pub dropped: u128,
}

/// What was counted of each superstep of a job, in the greatest epoch in which it was run.
#[derive(Drop)]
pub struct Tally {
    // How many tasks a superstep has.
    parts: u64,
    // By the superstep's number.
    rows: Vec<Option<Tallied>>,
}

/// The number, or the greatest of 64 bits.
pub fn capped(number: u128) -> u64
    ensures { result ≡ min number (2 ^ 64 - 1) }
{
    number.min(u128::from(u64::MAX)) as u64
}

// What is counted of a superstep with one more task of it. A task of an older epoch counts for nothing, and one of a newer epoch
// begins again.
fn with_task(before: Option<Tallied>, task: Tallied) -> Tallied
    ensures { result ≡ with_task before task }
{
    let Some(before) = before else {
        return task;
    };
    if before.epoch < task.epoch {
        return task;
    }
    if task.epoch < before.epoch {
        return before;
    }
    Tallied {
        epoch: before.epoch,
        tasks: before.tasks.saturating_add(task.tasks),
        units: before.units.saturating_add(task.units),
        called: before.called.saturating_add(task.called),
        received: before.received.saturating_add(task.received),
        sent: before.sent.saturating_add(task.sent),
    }
}

// What was counted of a superstep, if all its tasks were done.
fn whole(parts: u64, row: Option<Tallied>) -> Option<Tallied>
    ensures { result ≡ whole parts row }
{
    match row {
        Some(row) if row.tasks == parts => Some(row),
        _ => None,
    }
}

// How many of a superstep's messages went to no vertex: those that were not received in the next.
fn dropped_of(row: Option<Tallied>, next: Option<Tallied>) -> Option<u64>
    ensures { result ≡ dropped_of row next }
{
    match (row, next) {
        (Some(row), Some(next)) => Some(row.sent.saturating_sub(next.received)),
        _ => None,
    }
}

impl Tally {
    /// Nothing, of a job with so many parts.
    pub fn new(alloc: Global, parts: u32) -> Tally
        ensures { IsNoTally parts result }
    {
        Tally {
            parts: u64::from(parts),
            rows: Vec::new(alloc),
        }
    }

    /// Counts a task of a superstep. The only refusal is that there is no memory.
    pub fn add(&mut self, superstep: u32, task: Tallied) -> Result<(), AllocError>
        ensures { OnOk result (Counts superstep task self.old self.new) }
    {
        let place = superstep as usize;
        pad(&mut self.rows, place + 1)?;
        self.rows[place] = Some(with_task(self.rows[place], task));
        Ok(())
    }

    // What was counted of a superstep, if that is all of it.
    fn row(&self, superstep: u32) -> Option<Tallied>
        ensures { result ≡ whole_in self.now superstep }
    {
        let row = self.rows.get(superstep as usize).copied()?;
        whole(self.parts, row)
    }

    /// How many supersteps were run to their end, of a job without an answer.
    pub fn reached(&self) -> u32
        ensures whole { (superstep : ℕ) → superstep < result
            → IsSome (whole_in self.now superstep) }
        ensures stops { result < 2 ^ 32 - 1 → StopsAt self.now result }
    {
        let mut reached = 0u32;
        let mut epoch = 0;
        for row in &self.rows {
            match whole(self.parts, *row) {
                Some(row) if row.epoch >= epoch => epoch = row.epoch,
                _ => return reached,
            }
            reached = reached.saturating_add(1);
        }
        reached
    }

    /// The counts of each superstep of a job that ended so, as far as they are known.
    pub fn supersteps(
        &self,
        alloc: Global,
        ended: Ended,
    ) -> Result<Vec<SuperstepCounts>, AllocError>
        ensures long { IfOk result (λ all.
            vec_len all ≡ ended.entry.superstep - ended.entry.since) }
        ensures counts { IfOk result (λ all. all.items ≡ counts_of_end self.now ended.entry) }
    {
        let mut all = self.counts_since(alloc, ended)?;
        if ended.since == 0 {
            close(&mut all, capped(ended.dropped));
        }
        Ok(all)
    }

    // The counts of each superstep whose units the answer has.
    fn counts_since(&self, alloc: Global, ended: Ended) -> Result<Vec<SuperstepCounts>, AllocError>
        ensures long { IfOk result (λ all.
            vec_len all ≡ ended.entry.superstep - ended.entry.since) }
        ensures counts { IfOk result (λ all. all.items
            ≡ counts_since self.now ended.entry (ended.entry.superstep - ended.entry.since)) }
    {
        let mut all = Vec::new(alloc);
        for superstep in ended.since..ended.superstep {
            let units = units_known(ended, superstep);
            all.push(self.counts_at(superstep, units))?;
        }
        Ok(all)
    }

    /// The counts of each superstep that was run to its end, of a job without an answer.
    pub fn supersteps_reached(&self, alloc: Global) -> Result<Vec<SuperstepCounts>, AllocError>
        ensures counts { IfOk result (λ all.
            all.items ≡ counts_until self.now (vec_len all)) }
        ensures stops { IfOk result (λ all.
            vec_len all < 2 ^ 32 - 1 → StopsAt self.now (vec_len all)) }
    {
        let mut all = Vec::new(alloc);
        for superstep in 0..self.reached() {
            all.push(self.counts_at(superstep, None))?;
        }
        Ok(all)
    }

    // The counts of a superstep, whose units are these where they are known already.
    fn counts_at(&self, superstep: u32, units: Option<u64>) -> SuperstepCounts
        ensures { result ≡ counts_at self.now superstep units }
    {
        let Some(row) = self.row(superstep) else {
            return SuperstepCounts {
                superstep: u64::from(superstep),
                units,
                called: None,
                sent: None,
                dropped: None,
            };
        };
        let next = self.row(superstep.saturating_add(1));
        SuperstepCounts {
            superstep: u64::from(superstep),
            units: units.or(Some(row.units)),
            called: Some(row.called),
            sent: Some(row.sent),
            dropped: dropped_of(Some(row), next),
        }
    }
}

// Makes the rows so many at least. The new ones have nothing.
fn pad(rows: &mut Vec<Option<Tallied>>, length: usize) -> Result<(), AllocError>
    ensures long { OnOk result (length ≤ vec_len rows.new) }
    ensures same { OnOk result ((place : ℕ)
        → row_in rows.new.items place ≡ row_in rows.old.items place) }
{
    for _next in rows.len()..length {
        rows.push(None)?;
    }
    Ok(())
}

// The units of a superstep, where the answer has them.
fn units_known(ended: Ended, superstep: u32) -> Option<u64>
    requires { ended.since ≤ superstep }
    ensures { result ≡ units_known ended.entry superstep }
{
    match ended.units.get((superstep - ended.since) as usize) {
        Some(units) => Some(capped(*units)),
        None => None,
    }
}

// The messages of the last superstep that went to no vertex are those that did so in none before.
fn close(all: &mut [SuperstepCounts], dropped: u64)
    ensures { all.new ≡ closed all.old (Some dropped) }
{
    let Some((last, others)) = all.split_last_mut() else {
        return;
    };
    last.dropped = rest_behind(others, dropped);
}

// What is left of so many for the superstep behind these. It is known where each of these is, from superstep 0 on.
fn rest_behind(others: &[SuperstepCounts], dropped: u64) -> Option<u64>
    ensures { result ≡ rest_behind others.now (Some dropped) }
{
    let mut rest = Some(dropped);
    for counts in others {
        rest = less(rest, counts.dropped);
    }
    rest
}

fn less(rest: Option<u64>, dropped: Option<u64>) -> Option<u64>
    ensures { result ≡ less rest dropped }
{
    match (rest, dropped) {
        (Some(rest), Some(dropped)) => rest.checked_sub(dropped),
        _ => None,
    }
}
