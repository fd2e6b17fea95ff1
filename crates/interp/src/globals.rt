//! Globals in one list.

ghost use Rattle.std.specs.Prelude.{◌≡◌, ◌<◌, [], Some, length, map, option_map, slice_get, slice_set, IfOk, IsSome};
ghost use Rattle.wasm_ast.specs.declared.types.Value.TheVariants.{I64};

use std::alloc::{AllocError, Global};
use std::marker::Model;

/// The globals as cells. Their model is the i64 of each cell.
#[derive(Drop)]
pub struct Globals {
    cells: Vec<u64>,
}

impl Model for Globals {
    ghost use Rattle.std.specs.Prelude.{List, map};
    ghost use Rattle.wasm_ast.specs.declared.types.Value.{Value as AnyValue};
    ghost use Rattle.wasm_ast.specs.declared.types.Value.TheVariants.{I64};

    ghost Value = { List AnyValue };

    ghost view = { λ a. map I64 a.cells.items };
}

impl Globals {
    /// Makes an empty list. It allocates nothing.
    pub fn new(alloc: Global) -> Globals
        ensures { result ≡ [] }
    {
        Globals {
            cells: Vec::new(alloc),
        }
    }

    /// Makes this many globals, each 0. The only error is that an allocation fails.
    pub fn zeros(alloc: Global, count: usize) -> Result<Globals, AllocError>
        ensures { IfOk result (λ globals. length globals ≡ count) }
    {
        let cells = vec![in alloc; 0; count]?;
        Ok(Globals { cells })
    }

    /// Copies these globals. The only error is that an allocation fails.
    pub fn copy_of(alloc: Global, others: &Globals) -> Result<Globals, AllocError>
        ensures { IfOk result (λ globals. globals ≡ others.now) }
    {
        let cells = Vec::from_slice(alloc, others.cells.as_slice())?;
        Ok(Globals { cells })
    }

    /// Counts the globals.
    #[inline]
    pub fn len(&self) -> usize
        ensures { result ≡ length self.now }
    {
        self.cells.len()
    }

    /// Sets the global at a place.
    pub fn set_at(&mut self, place: usize, cell: u64)
        requires { place < length self.old }
        ensures { self.new ≡ slice_set self.old place (I64 cell) }
    {
        self.cells[place] = cell;
    }

    /// Copies the values of as many other globals.
    pub fn copy_from(&mut self, others: &Globals)
        requires { length self.old ≡ length others.now }
        ensures { self.new ≡ others.now }
    {
        let cells = others.cells.as_slice();
        if !cells.is_empty() {
            self.cells.copy_from_slice(cells);
        }
    }

    /// Returns the global with this number, if there is one.
    pub fn find(&self, number: u32) -> Option<u64>
        ensures { option_map I64 result ≡ slice_get self.now number }
    {
        self.cells.as_slice().get(number as usize).copied()
    }

    /// Returns the global with this number.
    #[inline]
    pub fn get(&self, number: u32) -> u64
        requires { IsSome (slice_get self.now number) }
        ensures { slice_get self.now number ≡ Some (I64 result) }
    {
        self.cells[number as usize]
    }

    /// Sets the global with this number.
    #[inline]
    pub fn set(&mut self, number: u32, cell: u64)
        requires { number < length self.old }
        ensures set { self.new ≡ slice_set self.old number (I64 cell) }
        ensures kept { length self.new ≡ length self.old }
    {
        self.cells[number as usize] = cell;
    }
}
