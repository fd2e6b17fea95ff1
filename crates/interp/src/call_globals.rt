//! The globals of a call, which are renewed before the next one.

ghost use Rattle.std.specs.Prelude.{◌≡◌, ◌<◌, Some, length, slice_get, slice_set, IfOk, IsSome};
ghost use Rattle.wasm_ast.specs.declared.types.Value.TheVariants.{I64};
ghost use Rattle.interp.specs.inside.Renewed.{put_back, put_one};

use crate::globals::Globals;
use std::alloc::{AllocError, Global};
use std::marker::Model;

/// The globals of a call, and their initial values. The numbers of those that are set are noted, up to as many as
/// there are globals. So renewing takes time by how many were set.
#[derive(Drop)]
pub struct CallGlobals {
    here: Globals,
    initial: Globals,
    // Where it is as long as there are globals, others may have been set too.
    numbers: Vec<u32>,
}

impl Model for CallGlobals {
    ghost use Rattle.std.specs.Prelude.{vec_capacity};
    ghost use Rattle.interp.specs.inside.Renewed.{AreRenewed, Renewed};

    ghost Value = { Renewed };

    ghost view = { λ a. record { here = a.here; initial = a.initial } };

    ghost invariant = { λ a. AreRenewed a.initial a.here a.numbers.items (vec_capacity a.numbers) };
}

impl CallGlobals {
    /// Makes the globals with these initial values, with room to note as many numbers. The only error is that an
    /// allocation fails.
    pub fn of(alloc: Global, initial: &Globals) -> Result<CallGlobals, AllocError>
        ensures { IfOk result (λ globals. globals.initial ≡ initial.now) }
    {
        let numbers = Vec::with_capacity(alloc, initial.len())?;
        let here = Globals::copy_of(alloc, initial)?;
        let initial = Globals::copy_of(alloc, initial)?;
        Ok(CallGlobals {
            here,
            initial,
            numbers,
        })
    }

    /// Returns the global with this number.
    #[inline]
    pub fn get(&self, number: u32) -> u64
        requires { IsSome (slice_get self.now.here number) }
        ensures { slice_get self.now.here number ≡ Some (I64 result) }
    {
        self.here.get(number)
    }

    /// Sets the global with this number.
    #[inline]
    pub fn set(&mut self, number: u32, cell: u64)
        requires { number < length self.old.here }
        ensures here { self.new.here ≡ slice_set self.old.here number (I64 cell) }
        ensures initial { self.new.initial ≡ self.old.initial }
    {
        self.here.set(number, cell);
        if self.numbers.len() < self.here.len() {
            self.numbers.push_reserved(number);
        }
    }

    /// Sets each global to its initial value. It takes time by how many were set since the last time, at most by how
    /// many there are.
    pub fn renew(&mut self)
        ensures here { self.new.here ≡ self.old.initial }
        ensures initial { self.new.initial ≡ self.old.initial }
    {
        if self.numbers.len() < self.here.len() {
            put_back(&mut self.here, &self.initial, self.numbers.as_slice());
        } else {
            self.here.copy_from(&self.initial);
        }
        self.numbers.clear();
    }
}

// Sets the globals with these numbers to the values of the others.
fn put_back(here: &mut Globals, others: &Globals, numbers: &[u32])
    requires { length here.old ≡ length others.now }
    ensures { here.new ≡ put_back numbers.now others.now here.old }
{
    for number in numbers {
        put_one(here, others, *number);
    }
}

fn put_one(here: &mut Globals, others: &Globals, number: u32)
    requires { length here.old ≡ length others.now }
    ensures put { here.new ≡ put_one number others.now here.old }
    ensures kept { length here.new ≡ length here.old }
{
    if let Some(cell) = others.find(number) {
        here.set(number, cell);
    }
}
