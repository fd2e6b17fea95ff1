//! What is known of the operands at a place of a body.

ghost use Rattle.std.specs.Prelude.{◌≡◌, [], ◌∷◌, ◌++◌, get_or, OnOk};
ghost use Rattle.verified.specs.declared.operand.Operand.TheVariants.{Unknown};
ghost use Rattle.verified.specs.Reached.{known_after};
ghost use Rattle.profile_rules.specs.inside.Tracking.{Goes, operands_of, fits, top, below, take_one, take_each, change, forget_each, forget_result, unknowns, given_of};

use crate::constants::demands::{Demand, is_met};
use crate::constants::fault::ConstantsFault;
use std::alloc::{AllocError, Global};
use validate::Place;
use verified::{Arity, Operand};
use wasm_ast::{BlockType, ValType};

/// The operands; the last is the topmost.
#[derive(Drop)]
pub struct Operands {
    pub operands: Vec<Operand>,
}

fn fits(bytes: u64, demand: Demand, operand: Operand) -> bool
    ensures { result ≡ fits bytes demand operand }
{
    match (demand, operand) {
        (Demand::Any, _) => true,
        (Demand::Constant(of, premise), Operand::Known(constant)) => {
            is_met(bytes, of, premise, constant)
        }
        (Demand::Constant(_, _), Operand::Unknown) => false,
    }
}

impl Operands {
    /// Makes an empty stack. It allocates nothing.
    pub fn new(alloc: Global) -> Operands
        ensures { operands_of result ≡ [] }
    {
        Operands {
            operands: Vec::new(alloc),
        }
    }

    pub fn push(&mut self, operand: Operand) -> Result<(), AllocError>
        ensures { OnOk result (operands_of self.new ≡ operand ∷ operands_of self.old) }
    {
        self.operands.push(operand)?;
        Ok(())
    }

    /// Takes the topmost operand. An operand that is not there is unknown.
    pub fn pop(&mut self) -> Operand
        ensures topmost { result ≡ top (operands_of self.old) }
        ensures left { operands_of self.new ≡ below (operands_of self.old) }
    {
        match self.operands.pop() {
            Some(operand) => operand,
            None => Operand::Unknown,
        }
    }

    /// Returns the operand at this depth, where 0 is the topmost. An operand that is not there is unknown.
    pub fn at(&self, depth: usize) -> Operand
        ensures { result ≡ get_or (operands_of self.now) depth Unknown }
    {
        let count = self.operands.len();
        if depth < count {
            self.operands[count - 1 - depth]
        } else {
            Operand::Unknown
        }
    }

    /// Takes and gives this many operands; those that it gives are unknown.
    pub fn pass(&mut self, arity: Arity) -> Result<(), AllocError>
        ensures { OnOk result (operands_of self.new ≡ known_after arity (operands_of self.old)) }
    {
        for _taken in 0..arity.takes {
            let _operand = self.pop();
        }
        for _given in 0..arity.gives {
            self.push(Operand::Unknown)?;
        }
        Ok(())
    }

    /// Takes the topmost operand and checks that it is as demanded.
    pub fn take(&mut self, demand: Demand, bytes: u64, place: Place) -> Result<(), ConstantsFault>
        ensures { Goes (take_one bytes demand) self.old self.new result }
    {
        let operand = self.pop();
        if fits(bytes, demand, operand) {
            Ok(())
        } else {
            Err(ConstantsFault::Breaks(place))
        }
    }

    /// Takes operands that are as demanded, the topmost first.
    fn take_each(
        &mut self,
        demands: &[Demand],
        bytes: u64,
        place: Place,
    ) -> Result<(), ConstantsFault>
        ensures { Goes (take_each bytes demands.now) self.old self.new result }
    {
        for demand in demands {
            self.take(*demand, bytes, place)?;
        }
        Ok(())
    }

    fn push_given(&mut self, given: Option<Operand>) -> Result<(), AllocError>
        ensures { OnOk result (operands_of self.new ≡ given_of given ++ operands_of self.old) }
    {
        match given {
            Some(operand) => self.push(operand),
            None => Ok(()),
        }
    }

    /// Takes operands that are as demanded, the topmost first. Then it gives one or none.
    pub fn change(
        &mut self,
        demands: &[Demand],
        given: Option<Operand>,
        bytes: u64,
        place: Place,
    ) -> Result<(), ConstantsFault>
        ensures { Goes (change bytes demands.now (given_of given)) self.old self.new result }
    {
        self.take_each(demands, bytes, place)?;
        self.push_given(given)?;
        Ok(())
    }

    /// Takes one operand for each of the types, without a check.
    pub fn forget_each(&mut self, types: &[ValType])
        ensures { operands_of self.new ≡ forget_each types.now (operands_of self.old) }
    {
        for taken in types {
            let _type = *taken;
            let _operand = self.pop();
        }
    }

    /// Takes a result, if the type has one, without a check.
    pub fn forget_result(&mut self, taken: BlockType)
        ensures { operands_of self.new ≡ forget_result taken (operands_of self.old) }
    {
        if taken.is_some() {
            let _operand = self.pop();
        }
    }

    /// Gives a result, if the type has one, which is unknown.
    pub fn give(&mut self, given: BlockType) -> Result<(), AllocError>
        ensures { OnOk result (operands_of self.new ≡ unknowns given ++ operands_of self.old) }
    {
        match given {
            Some(_) => self.push(Operand::Unknown),
            None => Ok(()),
        }
    }
}
