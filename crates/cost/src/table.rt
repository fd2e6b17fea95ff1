//! The ranks and the sizes of a module's functions.

ghost use Rattle.std.specs.Prelude.{◌≡◌, ◌<◌, length, set, replicate, IfOk};
ghost use Rattle.cost.specs.declared.table.Mark.TheVariants.{Unseen, Open, Done};
ghost use Rattle.cost.specs.Marks.{mark_at, rank_at, size_at};

use std::alloc::{AllocError, Global};
use std::marker::Model;

/// The state of a function in the depth-first walk of the call graph.
#[derive(Clone, Copy)]
pub enum Mark {
    Unseen,
    /// The function is on the walk's current path.
    Open,
    /// The function and all that it calls are done. The fields are its rank, and its size with calls inlined, at most
    /// `CAP`.
    Done(u32, u32),
}

/// The rank and the size with calls inlined of each function of a module. A callee's rank is below its caller's.
#[derive(Drop)]
pub struct Ranks {
    marks: Vec<Mark>,
}

impl Model for Ranks {
    ghost use Rattle.std.specs.Prelude.{List};
    ghost use Rattle.cost.specs.declared.table.Mark.{Mark};

    ghost Value = { List Mark };

    ghost view = { λ a. a.marks.items };
}

impl Ranks {
    /// Creates a table of `count` functions, all unseen.
    pub(crate) fn unseen(alloc: Global, count: usize) -> Result<Ranks, AllocError>
        ensures { IfOk result (λ ranks. ranks ≡ replicate count Unseen) }
    {
        Ok(Ranks {
            marks: vec![in alloc; Mark::Unseen; count]?,
        })
    }

    /// Returns the state of the function. A number that names no function is done, with rank and size 0.
    pub(crate) fn mark(&self, function: u32) -> Mark
        ensures { result ≡ mark_at self.now function }
    {
        match self.marks.get(function as usize) {
            Some(mark) => *mark,
            None => Mark::Done(0, 0),
        }
    }

    /// Returns the rank of the function: how many functions of the module are in the longest chain of calls that
    /// starts with it. It is 0 for an imported function, and for an index that names none.
    pub fn rank(&self, function: u32) -> u32
        ensures { result ≡ rank_at self.now function }
    {
        match self.mark(function) {
            Mark::Done(rank, _) => rank,
            _ => 0,
        }
    }

    /// Returns the size of the function with calls inlined, at most `CAP`, or 0 where it is not done.
    pub(crate) fn size(&self, function: u32) -> u32
        ensures { result ≡ size_at self.now function }
    {
        match self.mark(function) {
            Mark::Done(_, size) => size,
            _ => 0,
        }
    }

    /// Marks the function as on the walk's current path.
    pub(crate) fn open(&mut self, function: u32)
        requires { function < length self.old }
        ensures { self.new ≡ set self.old function Open }
    {
        self.marks[function as usize] = Mark::Open;
    }

    /// Marks the function as done, with its rank and its size.
    pub(crate) fn finish(&mut self, function: u32, rank: u32, size: u32)
        requires { function < length self.old }
        ensures { self.new ≡ set self.old function (Done rank size) }
    {
        self.marks[function as usize] = Mark::Done(rank, size);
    }
}
