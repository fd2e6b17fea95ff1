//! The locals of all frames in one list. The last ones are those of the innermost frame.

ghost use Rattle.std.specs.Prelude.{◌≡◌, ◌+◌, ◌++◌, ◌<◌, ◌≤◌, [], Some, length, take, drop, map, slice_get, slice_set, vec_capacity, vec_len, IfOk, IsSome};
ghost use Rattle.wasm_ast.specs.declared.types.Value.TheVariants.{I64};
ghost use Rattle.interp.specs.inside.Cells.{zero_cells};
ghost use Rattle.interp.specs.inside.Split.{all_of};

use std::alloc::{AllocError, Global};
use std::marker::Model;
use wasm_ast::ValType;

/// The locals as cells. Their model is the i64 of each cell, in two lists in order: the locals of the innermost
/// frame, and those below. It also has the room for all of them.
#[derive(Drop)]
pub struct Locals {
    pub(crate) cells: Vec<u64>,
    pub(crate) base: usize,
    room: usize,
}

impl Model for Locals {
    ghost use Rattle.std.specs.Prelude.{◌≤◌, map, take, drop, length, vec_capacity};
    ghost use Rattle.wasm_ast.specs.declared.types.Value.TheVariants.{I64};
    ghost use Rattle.interp.specs.inside.Split.{Split};

    ghost Value = { Split };

    ghost view = { λ a. record {
      here = drop a.base (map I64 a.cells.items);
      below = record { values = take a.base (map I64 a.cells.items); room = a.room };
    } };

    ghost invariant = { λ a. (a.base ≤ length a.cells.items) × (a.room ≤ vec_capacity a.cells) };
}

impl Locals {
    /// Makes an empty list with room for this many locals. The only error is that the allocation fails.
    pub fn with_room(alloc: Global, room: usize) -> Result<Locals, AllocError>
        ensures { IfOk result (λ locals. locals
            ≡ record { here = []; below = record { values = []; room = room } }) }
    {
        let cells = Vec::with_capacity(alloc, room)?;
        Ok(Locals {
            cells,
            base: 0,
            room,
        })
    }

    /// Removes all locals and keeps their room.
    pub fn clear(&mut self)
        ensures { self.new
            ≡ record { here = []; below = record { values = []; room = self.old.below.room } } }
    {
        self.cells.clear();
        self.base = 0;
    }

    /// Returns where the locals of the innermost frame begin.
    #[inline]
    pub fn base(&self) -> usize
        ensures { result ≡ length self.now.below.values }
    {
        self.base
    }

    /// Begins a frame with these arguments.
    #[inline]
    pub fn open(&mut self, arguments: &[u64])
        requires { all_of self.old + length arguments.now ≤ self.old.below.room }
        ensures { self.new ≡ record {
          here = map I64 arguments.now;
          below = record {
            values = self.old.below.values ++ self.old.here;
            room = self.old.below.room;
          };
        } }
    {
        let base = self.cells.len();
        match self.cells.extend_from_slice(arguments) {
            Ok(()) => self.base = base,
            Err(AllocError) => unreachable!(),
        }
    }

    /// Adds a local of each type, each 0 (Core 1.0, 4.4.7).
    pub fn add(&mut self, types: &[ValType])
        requires { all_of self.old + length types.now ≤ self.old.below.room }
        ensures here { self.new.here ≡ self.old.here ++ zero_cells types.now }
        ensures below { self.new.below ≡ self.old.below }
    {
        add_zeros(&mut self.cells, types);
    }

    /// Ends a frame. `base` is where the locals of the next frame begin.
    #[inline]
    pub fn close(&mut self, base: usize)
        requires { base ≤ length self.old.below.values }
        ensures here { self.new.here ≡ drop base self.old.below.values }
        ensures below { self.new.below
            ≡ record { values = take base self.old.below.values; room = self.old.below.room } }
    {
        self.cells.truncate(self.base);
        self.base = base;
    }
}

fn add_zeros(cells: &mut Vec<u64>, types: &[ValType])
    requires { vec_len cells.old + length types.now ≤ vec_capacity cells.old }
    ensures zeros { map I64 cells.new.items ≡ map I64 cells.old.items ++ zero_cells types.now }
    ensures kept { take (length cells.old.items) cells.new.items ≡ cells.old.items }
    ensures room { vec_capacity cells.new ≡ vec_capacity cells.old }
{
    for _ in types {
        cells.push_reserved(0);
    }
}

/// Returns a local of the frame with these cells.
#[inline(always)]
pub fn local(cells: &[u64], number: u32) -> u64
    requires { IsSome (slice_get (map I64 cells.now) number) }
    ensures { slice_get (map I64 cells.now) number ≡ Some (I64 result) }
{
    cells[number as usize]
}

/// Sets a local of the frame with these cells.
#[inline(always)]
pub fn set_local(cells: &mut [u64], number: u32, cell: u64)
    requires { number < length (map I64 cells.old) }
    ensures { map I64 cells.new ≡ slice_set (map I64 cells.old) number (I64 cell) }
{
    cells[number as usize] = cell;
}
