//! The operands of all control entries in one list. The topmost ones are those of the innermost entry.

ghost use Rattle.std.specs.Prelude.{◌≡◌, ◌∷◌, ◌++◌, ◌-◌, ◌≤◌, [], Some, length, map, take, drop, reverse, option_map, IfOk, IsSome};
ghost use Rattle.wasm_ast.specs.declared.types.Value.TheVariants.{I64};
ghost use Rattle.semantics.specs.Machine.{first, carry};
ghost use Rattle.interp.specs.inside.Split.{HasSpare};

use std::alloc::{AllocError, Global};
use std::marker::Model;

/// The operands as cells. Their model is the i64 of each cell, in two lists with the topmost first: the operands of
/// the innermost entry, and those below. It also has the room for all of them. The list is as long as the room. Its
/// cells from `top` on mean nothing.
#[derive(Drop)]
pub struct Operands {
    pub(crate) cells: Vec<u64>,
    pub(crate) top: usize,
    pub(crate) floor: usize,
}

impl Model for Operands {
    ghost use Rattle.std.specs.Prelude.{◌≤◌, map, reverse, take, drop, length};
    ghost use Rattle.wasm_ast.specs.declared.types.Value.TheVariants.{I64};
    ghost use Rattle.interp.specs.inside.Split.{Split};

    ghost Value = { Split };

    ghost view = { λ a. record {
      here = reverse (drop a.floor (map I64 (take a.top a.cells.items)));
      below = record {
        values = reverse (take a.floor (map I64 (take a.top a.cells.items)));
        room = length a.cells.items;
      };
    } };

    ghost invariant = { λ a. (a.floor ≤ a.top) × (a.top ≤ length a.cells.items) };
}

impl Operands {
    /// Makes an empty stack with room for this many operands. The only error is that the allocation fails.
    pub fn with_room(alloc: Global, room: usize) -> Result<Operands, AllocError>
        ensures { IfOk result (λ operands. operands
            ≡ record { here = []; below = record { values = []; room = room } }) }
    {
        let cells = vec![in alloc; 0; room]?;
        Ok(Operands {
            cells,
            top: 0,
            floor: 0,
        })
    }

    /// Removes all operands and keeps their room.
    pub fn clear(&mut self)
        ensures { self.new
            ≡ record { here = []; below = record { values = []; room = self.old.below.room } } }
    {
        self.top = 0;
        self.floor = 0;
    }

    /// Pushes a cell, for which there is room.
    #[inline]
    pub fn push(&mut self, cell: u64)
        requires { HasSpare self.old }
        ensures here { self.new.here ≡ I64 cell ∷ self.old.here }
        ensures below { self.new.below ≡ self.old.below }
    {
        self.cells[self.top] = cell;
        self.top += 1;
    }

    /// Pops the topmost cell, which the entry has. Then there is room for one.
    #[inline]
    pub fn pop(&mut self) -> u64
        requires { 1 ≤ length self.old.here }
        ensures popped { self.old
            ≡ record { here = I64 result ∷ self.new.here; below = self.new.below } }
        ensures spare { HasSpare self.new }
    {
        let below = self.top - 1;
        self.top = below;
        self.cells[below]
    }

    /// Returns the topmost cell of the entry, if it has one.
    #[inline]
    pub fn top(&self) -> Option<u64>
        ensures { option_map I64 result ≡ first self.now.here }
    {
        let here = &self.cells[self.floor..self.top];
        here.last().copied()
    }

    /// Pushes the cell if `keeps` says so; then there is a cell.
    #[inline]
    pub fn carry(&mut self, keeps: bool, top: Option<u64>)
        requires there { IsSome (carry keeps (option_map I64 top) self.old.here) }
        requires spare { HasSpare self.old }
        ensures here { carry keeps (option_map I64 top) self.old.here ≡ Some self.new.here }
        ensures below { self.new.below ≡ self.old.below }
    {
        if keeps {
            match top {
                None => unreachable!(),
                Some(cell) => self.push(cell),
            }
        }
    }

    /// Returns this many of the topmost cells, the lowest first. The entry has as many.
    #[inline]
    pub fn topmost(&self, count: usize) -> &[u64]
        requires { count ≤ length self.now.here }
        ensures { map I64 result.now ≡ reverse (take count self.now.here) }
    {
        &self.cells[self.top - count..self.top]
    }

    /// Removes this many of the topmost cells.
    #[inline]
    pub fn shed(&mut self, count: usize)
        requires { count ≤ length self.old.here }
        ensures { self.new ≡ record { here = drop count self.old.here; below = self.old.below } }
    {
        self.top -= count;
    }

    /// Removes the operands of the innermost entry.
    #[inline]
    pub fn empty(&mut self)
        ensures { self.new ≡ record { here = []; below = self.old.below } }
    {
        let floor = self.floor;
        self.top = floor;
    }

    /// Counts the operands below the innermost entry.
    #[inline]
    pub fn floor(&self) -> usize
        ensures { result ≡ length self.now.below.values }
    {
        self.floor
    }

    /// Begins an entry on top.
    #[inline]
    pub fn open(&mut self)
        ensures { self.new ≡ record {
          here = [];
          below = record {
            values = self.old.here ++ self.old.below.values;
            room = self.old.below.room;
          };
        } }
    {
        self.floor = self.top;
    }

    /// Joins the innermost entry to the next one, which begins at this floor.
    #[inline]
    pub fn join(&mut self, floor: usize)
        requires { floor ≤ length self.old.below.values }
        ensures here { self.new.here ≡ self.old.here
            ++ take (length self.old.below.values - floor) self.old.below.values }
        ensures below { self.new.below ≡ record {
          values = drop (length self.old.below.values - floor) self.old.below.values;
          room = self.old.below.room;
        } }
    {
        self.floor = floor;
    }

    /// Removes the innermost entry and opens the next one, which begins at this floor.
    #[inline]
    pub fn fall(&mut self, floor: usize)
        requires { floor ≤ length self.old.below.values }
        ensures here { self.new.here
            ≡ take (length self.old.below.values - floor) self.old.below.values }
        ensures below { self.new.below ≡ record {
          values = drop (length self.old.below.values - floor) self.old.below.values;
          room = self.old.below.room;
        } }
        ensures spare { HasSpare self.old → HasSpare self.new }
    {
        self.top = self.floor;
        self.floor = floor;
    }
}
