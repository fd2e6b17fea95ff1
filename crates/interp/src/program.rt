//! The functions of a module by number.

ghost use Rattle.std.specs.Prelude.{◌≡◌, Some, option_map, slice_get, IfSome};
ghost use Rattle.wasm_ast.specs.Limits.{IsWithinLimits};
ghost use Rattle.verified.specs.Bodies.{bodies_of};
ghost use Rattle.verified.specs.Weights.{call_units};
ghost use Rattle.verified.specs.Modules.{IsTyped};
ghost use Rattle.verified.specs.Profile.{IsBounded};
ghost use Rattle.interp.specs.inside.Begun.{IsDefinedAt};
ghost use Rattle.semantics.specs.Machine.{defined, functions_of};
ghost use Rattle.interp.specs.inside.Meaning.{AreImports, HasOwnBody, callee_of};

use verified::{FlatBody, HostCall, Verified, host_units};
use wasm_ast::{Function, Module};

/// A module, the host calls that its imports name, and the bodies of its own functions in flat form, each in order.
#[derive(Clone, Copy)]
pub struct Program<'a> {
    pub module: &'a Module,
    pub calls: &'a [HostCall],
    pub bodies: &'a [FlatBody],
}

/// A function that the module defines, and its body in flat form.
#[derive(Clone, Copy)]
pub struct Definition<'a> {
    pub function: &'a Function,
    pub body: &'a FlatBody,
}

/// What the number of a function names.
#[derive(Clone, Copy)]
pub enum Callee<'a> {
    Host(HostCall),
    Defined(Definition<'a>),
}

impl<'a> Program<'a> {
    /// Makes the program of a verified module.
    pub fn of(verified: &'a Verified) -> Program<'a>
        ensures same { result.«module».now ≡ verified.now }
        ensures typed { IsTyped verified.now }
        ensures within { IsWithinLimits verified.now }
        ensures bounded { IsBounded verified.now }
        ensures calls { AreImports result.calls.now result.«module».now }
        ensures bodies { result.bodies.now ≡ bodies_of result.«module».now }
    {
        Program {
            module: verified.module(),
            calls: verified.host_calls(),
            bodies: verified.flat_bodies(),
        }
    }

    /// Returns the function with this number, which the module defines.
    pub fn defined(self, number: u32) -> Definition<'a>
        requires calls { AreImports self.calls.now self.«module».now }
        requires bodies { self.bodies.now ≡ bodies_of self.«module».now }
        requires defined { IsDefinedAt self.«module».now number }
        ensures flat { result.body.now ≡ result.function.now.body }
        ensures there { slice_get (functions_of self.entry.«module».now) number
            ≡ Some (defined result.function.now) }
    {
        match self.callee(number) {
            Some(Callee::Defined(definition)) => definition,
            Some(Callee::Host(_)) => unreachable!(),
            None => unreachable!(),
        }
    }

    /// Returns the function with this number, imports first (Core 1.0, 2.5.1).
    #[inline]
    pub fn callee(self, number: u32) -> Option<Callee<'a>>
        requires calls { AreImports self.calls.now self.«module».now }
        requires bodies { self.bodies.now ≡ bodies_of self.«module».now }
        ensures flat { IfSome result HasOwnBody }
        ensures there { option_map callee_of result
            ≡ slice_get (functions_of self.entry.«module».now) number }
    {
        let number = number as usize;
        match self.calls.get(number) {
            Some(call) => Some(Callee::Host(*call)),
            None => {
                let place = number - self.calls.len();
                match self.module.functions.as_slice().get(place) {
                    Some(function) => Some(Callee::Defined(Definition {
                        function,
                        body: &self.bodies[place],
                    })),
                    None => None,
                }
            }
        }
    }

    /// Returns the units of a call of the function with this number.
    #[inline]
    pub fn call_units(self, number: u32) -> u32
        requires { AreImports self.calls.now self.«module».now }
        ensures { result ≡ call_units self.entry.«module».now number }
    {
        host_units(self.host_call(number))
    }

    /// Returns the host call with this number, if it is one.
    #[inline]
    pub fn host_call(self, number: u32) -> Option<HostCall>
        ensures { result ≡ slice_get self.entry.calls.now number }
    {
        match self.calls.get(number as usize) {
            Some(call) => Some(*call),
            None => None,
        }
    }
}
