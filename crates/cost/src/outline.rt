//! Outlines of functions: the units of their own instructions, and the functions that they call.

ghost use Rattle.std.specs.Prelude.{◌≡◌, IfOk, OnOk};
ghost use Rattle.std.specs.Option.{option_copied};
ghost use Rattle.wasm_ast.specs.Code.{end};
ghost use Rattle.wasm_ast.specs.View.{then_code};
ghost use Rattle.cost.specs.inside.Outline.{nothing, with_units, with_call, with_code};
ghost use Rattle.cost.specs.inside.Outlines.{AreOutlines, outlines_of, outline_at, own_at, called};

use crate::size::MAX_SIZE;
use crate::weights::Weights;
use std::alloc::{AllocError, Global};
use std::marker::Model;
use verified::Valid;
use wasm_ast::{Body, Function, Instr, imported_function_count};

/// The largest count of units, one more than `MAX_SIZE`. A count that reaches it stays there.
pub const CAP: u64 = MAX_SIZE as u64 + 1;

/// The outline of a function.
#[derive(Drop)]
pub struct Outline {
    // the units of its own instructions, at most `CAP`
    own: u32,
    // the functions that it calls, one entry for each call instruction
    calls: Vec<u32>,
}

impl Model for Outline {
    ghost use Rattle.cost.specs.inside.Outline.{Summary};

    ghost Value = { Summary };

    ghost view = { λ a. record { own = a.own; calls = a.calls.items } };
}

impl Outline {
    fn empty(alloc: Global) -> Outline
        ensures { result ≡ nothing }
    {
        Outline {
            own: 0,
            calls: Vec::new(alloc),
        }
    }

    /// Borrows the indices of the functions that it calls, one for each call instruction.
    pub fn calls(&self) -> &[u32]
        ensures { result.now ≡ self.now.calls }
    {
        &self.calls
    }

    fn add_units(&mut self, units: u32)
        ensures { self.new ≡ with_units units self.old }
    {
        self.own = (u64::from(self.own) + u64::from(units)).min(CAP) as u32;
    }

    fn add_call(&mut self, function: u32) -> Result<(), AllocError>
        ensures { OnOk result (self.new ≡ with_call function self.old) }
    {
        self.calls.push(function)?;
        Ok(())
    }

    #[cycle(code)]
    fn add_code(&mut self, weights: &Weights, body: &Body) -> Result<(), AllocError>
        ensures { OnOk result (self.new ≡ with_code weights.now self.old body.now) }
    {
        for instr in body.as_slice() {
            self.add_instr(weights, instr)?;
        }
        Ok(())
    }

    #[cycle(code)]
    fn add_instr(&mut self, weights: &Weights, instr: &Instr) -> Result<(), AllocError>
        ensures { OnOk result (self.new
            ≡ with_code weights.now self.old (then_code instr.now end)) }
    {
        self.add_units(weights.units(instr));
        match instr {
            Instr::Plain(_) | Instr::Branch(_) | Instr::CallIndirect(_) | Instr::Unreachable => {}
            Instr::Call(function) => self.add_call(*function)?,
            Instr::Block(_, body) | Instr::Loop(_, body) => self.add_code(weights, body)?,
            Instr::If(_, body, other) => {
                self.add_code(weights, body)?;
                self.add_code(weights, other)?;
            }
        }
        Ok(())
    }
}

fn outline_of(alloc: Global, weights: &Weights, body: &Body) -> Result<Outline, AllocError>
    ensures { IfOk result (λ outline. outline ≡ with_code weights.now nothing body.now) }
{
    let mut outline = Outline::empty(alloc);
    outline.add_code(weights, body)?;
    Ok(outline)
}

/// The outlines of a module's functions. Imported functions have none.
#[derive(Drop)]
pub struct Outlines {
    pub imported: usize,
    pub defined: Vec<Outline>,
}

impl Outlines {
    /// Makes the outlines of the module's functions. It fails only where an allocation fails.
    pub fn of(alloc: Global, valid: &Valid) -> Result<Outlines, AllocError>
        ensures { IfOk result (AreOutlines valid.now) }
    {
        let inner = valid.module();
        let weights = Weights::of(alloc, inner)?;
        Ok(Outlines {
            imported: imported_function_count(inner.imports.as_slice()),
            defined: outlines_of(alloc, &weights, inner.functions.as_slice())?,
        })
    }

    /// Returns the outline of the function with this index, where it has a body.
    pub fn get(&self, function: u32) -> Option<&Outline>
        ensures { option_copied result ≡ outline_at self.now function }
    {
        let number = function as usize;
        if number < self.imported {
            None
        } else {
            self.defined.get(number - self.imported)
        }
    }

    /// Returns the units of the function's own instructions, at most `CAP`.
    pub fn own(&self, function: u32) -> u32
        ensures { result ≡ own_at (outline_at self.now function) }
    {
        match self.get(function) {
            Some(outline) => outline.own,
            None => 0,
        }
    }

    /// Borrows the indices of the functions that the function calls.
    pub fn called(&self, function: u32) -> &[u32]
        ensures { result.now ≡ called self.now function }
    {
        match self.get(function) {
            Some(outline) => outline.calls(),
            None => &[],
        }
    }
}

fn outlines_of(
    alloc: Global,
    weights: &Weights,
    functions: &[Function],
) -> Result<Vec<Outline>, AllocError>
    ensures { IfOk result (λ os. os.items ≡ outlines_of weights.now functions.now) }
{
    let mut outlines = Vec::new(alloc);
    for function in functions {
        outlines.push(outline_of(alloc, weights, &function.body)?)?;
    }
    Ok(outlines)
}
