//! Gates that do what a case says.

use run_views::LossGate;
use std::sync::Wait;
use std::sync::atomic::{AtomicBool, Ordering};
use std::thread::yield_now;
use workers::{Gate, Turn, Worked};

// How often part 0 yields while it is held.
const YIELDS: u32 = 100_000;

// How often a task yields while a lost worker is awaited.
const YIELDS_A_TASK: u32 = 1_000;

/// The actions of a gate.
#[derive(Clone, Copy)]
pub enum Plan {
    /// Part 0 is held until part 1 has begun.
    Holds,
    /// Time passes.
    Ticks,
    /// The first worker with a task of this part in this superstep is lost with it.
    Loses { superstep: u32, part: u32 },
}

/// A gate, and what it has seen.
#[derive(Drop)]
pub struct PlannedGate {
    plan: Plan,
    /// Whether part 1 has begun, or a worker was lost.
    has_come: AtomicBool,
    /// Whether part 1 has begun while part 0 was held.
    has_met: AtomicBool,
}

impl PlannedGate {
    pub fn new(plan: Plan) -> PlannedGate {
        PlannedGate {
            plan,
            has_come: AtomicBool::new(false),
            has_met: AtomicBool::new(false),
        }
    }

    /// Returns in words whether part 1 has begun while part 0 was held.
    pub fn how_met(&self) -> &'static str {
        if self.has_met.load(Ordering::SeqCst) {
            "both at once"
        } else {
            "one after another"
        }
    }

    // Holds part 0 until part 1 has begun.
    fn hold(&self, part: u32) {
        if part == 1 {
            self.has_come.store(true, Ordering::SeqCst);
            return;
        }
        for _ in 0..YIELDS {
            if self.has_come.load(Ordering::SeqCst) {
                self.has_met.store(true, Ordering::SeqCst);
                return;
            }
            yield_now();
        }
    }
}

impl Gate for PlannedGate {
    ghost use Rattle.std.specs.Prelude.{true};

    ghost loses = { λ _. true };

    fn may_lose(&self) -> bool {
        true
    }

    fn before(&self, _worker: u32, superstep: u32, part: u32) -> Turn {
        match self.plan {
            Plan::Holds => self.hold(part),
            Plan::Ticks => yield_now(),
            Plan::Loses {
                superstep: s,
                part: p,
            } => {
                let is_due = superstep == s && part == p;
                if is_due && !self.has_come.swap(true, Ordering::SeqCst) {
                    return Turn::Lose;
                }
            }
        }
        Turn::Go
    }

    fn again(&self, _worker: u32) -> bool {
        false
    }

    fn tick(&self, _n: u64) -> bool {
        matches!(self.plan, Plan::Ticks)
    }
}

/// A gate that loses a worker and watches whether it comes back. If it is to join again, the other workers give it time.
#[derive(Drop)]
pub struct WatchedGate {
    gate: LossGate,
    /// Whether the worker was lost.
    has_gone: AtomicBool,
    /// Whether it has begun a task since.
    has_come_back: AtomicBool,
}

impl WatchedGate {
    pub fn new(gate: LossGate) -> WatchedGate {
        WatchedGate {
            gate,
            has_gone: AtomicBool::new(false),
            has_come_back: AtomicBool::new(false),
        }
    }

    pub fn has_come_back(&self) -> bool {
        self.has_come_back.load(Ordering::SeqCst)
    }

    fn is_lossy(&self, worker: u32) -> bool {
        match self.gate.loss {
            Some(loss) => loss.worker == worker,
            None => false,
        }
    }

    // Gives the lost worker time to join again.
    fn wait(&self) {
        for _ in 0..YIELDS_A_TASK {
            if self.has_come_back() {
                return;
            }
            yield_now();
        }
    }
}

impl Gate for WatchedGate {
    ghost use Rattle.std.specs.Prelude.{true};

    ghost loses = { λ _. true };

    fn may_lose(&self) -> bool {
        true
    }

    fn before(&self, worker: u32, superstep: u32, part: u32) -> Turn {
        let turn = self.gate.before(worker, superstep, part);
        if matches!(turn, Turn::Lose) {
            self.has_gone.store(true, Ordering::SeqCst);
        } else if self.has_gone.load(Ordering::SeqCst) {
            if self.is_lossy(worker) {
                self.has_come_back.store(true, Ordering::SeqCst);
            } else if self.gate.again {
                self.wait();
            }
        }
        turn
    }

    fn again(&self, worker: u32) -> bool {
        self.gate.again(worker)
    }

    fn tick(&self, n: u64) -> bool {
        self.gate.tick(n)
    }
}

/// A gate of two workers and two parts that loses worker 1 with its first task once the task's lease has run out, and would have it
/// join again. It watches whether the worker comes back, for which worker 0 gives it time.
#[derive(Drop)]
pub struct LateGate {
    /// How many ticks come.
    lease: u64,
    /// Whether worker 0 has done its first task.
    has_worked: AtomicBool,
    /// Whether worker 0 has begun part 1, which it is assigned once worker 1 is lost.
    has_moved: AtomicBool,
    /// Whether worker 1 was lost by the gate.
    has_gone: AtomicBool,
    /// Whether it has begun a task since.
    has_come_back: AtomicBool,
}

impl LateGate {
    pub fn new(lease: u64) -> LateGate {
        LateGate {
            lease,
            has_worked: AtomicBool::new(false),
            has_moved: AtomicBool::new(false),
            has_gone: AtomicBool::new(false),
            has_come_back: AtomicBool::new(false),
        }
    }

    pub fn has_come_back(&self) -> bool {
        self.has_come_back.load(Ordering::SeqCst)
    }

    // Loses worker 1 after its lease has.
    fn lose(&self) -> Turn {
        if self.has_gone.load(Ordering::SeqCst) {
            self.has_come_back.store(true, Ordering::SeqCst);
            return Turn::Go;
        }
        wait_for(&self.has_moved);
        self.has_gone.store(true, Ordering::SeqCst);
        Turn::Lose
    }

    // Gives worker 1 time to join again once it was lost.
    fn wait(&self) {
        if !self.has_gone.load(Ordering::SeqCst) {
            return;
        }
        for _ in 0..YIELDS_A_TASK {
            if self.has_come_back() {
                return;
            }
            yield_now();
        }
    }
}

fn wait_for(flag: &AtomicBool) {
    for _ in 0..u64::MAX {
        if flag.load(Ordering::SeqCst) {
            return;
        }
        yield_now();
    }
}

impl Gate for LateGate {
    ghost use Rattle.std.specs.Prelude.{true};

    ghost loses = { λ _. true };

    fn may_lose(&self) -> bool {
        true
    }

    fn before(&self, worker: u32, _superstep: u32, part: u32) -> Turn {
        if worker == 1 {
            return self.lose();
        }
        if part == 1 {
            self.has_moved.store(true, Ordering::SeqCst);
        }
        self.wait();
        Turn::Go
    }

    fn again(&self, _worker: u32) -> bool {
        true
    }

    // Worker 1 holds its task while worker 0 has none. So time passes for that task alone.
    fn tick(&self, n: u64) -> bool {
        wait_for(&self.has_worked);
        n <= self.lease
    }

    fn worked<R: Wait>(&self, _rt: &R, _worker: u32, _work: Worked) {
        self.has_worked.store(true, Ordering::SeqCst);
    }
}
