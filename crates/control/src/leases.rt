//! Assigned tasks, their ages, and overdue workers.

ghost use Rattle.std.specs.Prelude.{◌≡◌, ◌<◌, ◌%◌, ◌==◌, ◌&&◌, not, length, IfSome};
ghost use Rattle.control.specs.Machine.{count_set, in_time, is_busy, is_overdue, least, older, one_older};
ghost use Rattle.control.specs.inside.Sound.{IsOpen};

use crate::control::Out;

/// Finds the least part that is not done and belongs to this place among `count` workers.
pub fn least_part(count: usize, place: usize, done: &[bool]) -> Option<usize>
    requires { 0 < count }
    ensures least { result ≡ least count place 0 done.now }
    ensures in_range { IfSome result (IsOpen done.now) }
{
    for (i, is_done) in done.iter().enumerate() {
        if is_next(i, count, place, *is_done) {
            return Some(i);
        }
    }
    None
}

fn is_next(part: usize, count: usize, place: usize, is_done: bool) -> bool
    requires { 0 < count }
    ensures { result ≡ ((part % count == place) && not is_done) }
{
    part % count == place && !is_done
}

// Returns whether the worker is alive and has a task.
fn has_task(alive: &[bool], out: &[Option<Out>], worker: usize) -> bool
    requires alive { worker < length alive.now }
    requires out { worker < length out.now }
    ensures { result ≡ is_busy alive.now out.now worker }
{
    alive[worker] && out[worker].is_some()
}

// Returns whether the worker has had its task for the whole lease.
fn is_late(lease: u32, out: &[Option<Out>], age: &[u32], worker: usize) -> bool
    requires out { worker < length out.now }
    requires age { worker < length age.now }
    ensures { result ≡ is_overdue lease out.now age.now worker }
{
    out[worker].is_some() && age[worker] >= lease
}

fn stays(alive: bool, overdue: bool) -> bool
    ensures { result ≡ (alive && not overdue) }
{
    alive && !overdue
}

/// Makes the tasks of alive workers one tick older.
pub fn make_older(alive: &[bool], out: &[Option<Out>], age: &mut [u32])
    requires alive { length alive.now ≡ length age.old }
    requires out { length out.now ≡ length age.old }
    ensures { age.new ≡ older alive.now out.now age.old }
{
    for i in 0..age.len() {
        age[i] = one_older(has_task(alive, out, i), age[i]);
    }
}

fn one_older(busy: bool, age: u32) -> u32
    ensures { result ≡ one_older busy age }
{
    if busy { age.saturating_add(1) } else { age }
}

/// Makes overdue workers not alive.
pub fn keep_in_time(lease: u32, out: &[Option<Out>], age: &[u32], alive: &mut [bool])
    requires out { length out.now ≡ length alive.old }
    requires age { length age.now ≡ length alive.old }
    ensures { alive.new ≡ in_time lease out.now age.now alive.old }
{
    for i in 0..alive.len() {
        alive[i] = stays(alive[i], is_late(lease, out, age, i));
    }
}

/// Counts the workers that are alive and not overdue.
pub fn count_in_time(lease: u32, out: &[Option<Out>], age: &[u32], alive: &[bool]) -> usize
    requires out { length out.now ≡ length alive.now }
    requires age { length age.now ≡ length alive.now }
    ensures count { result ≡ count_set (in_time lease out.now age.now alive.now) }
{
    let mut count = 0;
    for i in 0..alive.len() {
        count += usize::from(stays(alive[i], is_late(lease, out, age, i)));
    }
    count
}
