//! Names and their numbers.

ghost use Rattle.std.specs.Prelude.{◌≡◌, ℕ, List, IfOk, None, Some};
ghost use Rattle.wat_syntax.specs.Numbering.{AreApart, Grows, number_of_name};

use crate::fault::{Failure, FaultKind};
use std::alloc::Global;
use std::collections::BTreeMap;

/// The names so far, each with a number, from 0 in the order of their first occurrence.
#[derive(Drop)]
pub struct Numbering<'t> {
    numbers: BTreeMap<&'t str, u32>,
    count: u32,
}

impl<'t> Numbering<'t> {
    /// Creates an empty numbering. It allocates nothing.
    pub fn new(alloc: Global) -> Numbering<'t>
        ensures none { (name : List ℕ) → number_of_name result name ≡ None }
        ensures apart { AreApart result }
    {
        Numbering {
            numbers: BTreeMap::new(alloc),
            count: 0,
        }
    }

    /// Returns the name's number, the next one where the name is new. A failure's place is the end of the text.
    pub fn number(&mut self, name: &'t str) -> Result<u32, Failure>
        ensures named { IfOk result (λ n. number_of_name self.new name.now ≡ Some n) }
        ensures grows { Grows self.old self.new }
    {
        if let Some(n) = self.numbers.get(&name) {
            return Ok(*n);
        }
        let n = self.count;
        let Some(count) = n.checked_add(1) else {
            return Err(Failure::Fault(FaultKind::OverLimit, 0));
        };
        self.numbers.insert(name, n)?;
        self.count = count;
        Ok(n)
    }
}
