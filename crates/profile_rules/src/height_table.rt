//! The heights of functions by number.

ghost use Rattle.std.specs.Prelude.{◌≡◌, ◌<◌, length, set, replicate, IfOk};
ghost use Rattle.profile_rules.specs.inside.StackHeights.{height_at};

use std::alloc::{AllocError, Global};
use std::marker::Model;

/// The greatest height of the operand stack in a call of each function, as far as it is known. Imports come first.
#[derive(Drop)]
pub struct HeightTable {
    heights: Vec<usize>,
}

impl Model for HeightTable {
    ghost use Rattle.std.specs.Prelude.{List, ℕ};

    ghost Value = { List ℕ };

    ghost view = { λ a. a.heights.items };
}

impl HeightTable {
    /// Makes a table of zeros for this many functions.
    pub fn new(alloc: Global, count: usize) -> Result<HeightTable, AllocError>
        ensures { IfOk result (λ table. table ≡ replicate count 0) }
    {
        Ok(HeightTable {
            heights: vec![in alloc; 0; count]?,
        })
    }

    /// Returns the height of the function with this number, 0 where there is none.
    pub fn get(&self, function: u32) -> usize
        ensures { result ≡ height_at self.now function }
    {
        match self.heights.get(function as usize) {
            Some(height) => *height,
            None => 0,
        }
    }

    pub fn set(&mut self, number: usize, height: usize)
        requires { number < length self.old }
        ensures { self.new ≡ set self.old number height }
    {
        self.heights[number] = height;
    }
}
