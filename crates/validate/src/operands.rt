//! The operand stack of validation: what is known of the operands at an instruction.

ghost use Rattle.std.specs.Prelude.{◌≡◌, OnOk, reverse};
ghost use Rattle.validate.specs.inside.Stack.{bottom, any_below, on, agrees, take_one, take_all, change, leave, join, is_empty};
ghost use Rattle.verified.specs.Spaces.{first_type};
ghost use Rattle.verified.specs.Instructions.{operands_of};
ghost use Rattle.validate.specs.inside.Answers.{Makes, TakesTopmost, stack_of, with_result};
ghost use Rattle.validate.specs.inside.Findings.{Says};
ghost use Rattle.validate.specs.inside.Steps.{called_step, closes, numeric_step, select_step};
ghost use Rattle.wasm_ast.specs.Numeric.{conversion_from, conversion_to};
ghost use Rattle.std.specs.Prelude.{Some};

use crate::fault::{Rule, ValidFault};
use std::alloc::{AllocError, Global};
use wasm_ast::{BlockType, Conversion, FuncType, Numeric, ValType};

/// The type of an operand, as far as it is known. After a branch an operand may have any type.
#[derive(Clone, Copy, PartialEq, Eq)]
pub enum OperandType {
    Known(ValType),
    Unknown,
}

/// The types of the operands, the topmost last. Where the code is unreachable, any others may be below.
#[derive(Drop)]
pub struct Operands {
    pub types: Vec<OperandType>,
    pub is_unreachable: bool,
}

fn is_of_type(operand: OperandType, expected: ValType) -> bool
    ensures { result ≡ agrees operand expected }
{
    match (operand, expected) {
        (OperandType::Unknown, _) => true,
        (OperandType::Known(ValType::I32), ValType::I32) => true,
        (OperandType::Known(ValType::I64), ValType::I64) => true,
        (OperandType::Known(_), _) => false,
    }
}

impl Operands {
    /// Creates an empty stack. It allocates nothing.
    pub fn new(alloc: Global) -> Operands
        ensures { stack_of result ≡ bottom }
    {
        Operands {
            types: Vec::new(alloc),
            is_unreachable: false,
        }
    }

    // Pushes an operand.
    fn push(&mut self, operand: OperandType) -> Result<(), AllocError>
        ensures { OnOk result (stack_of self.new ≡ on operand (stack_of self.old)) }
    {
        self.types.push(operand)?;
        Ok(())
    }

    /// Marks the code after this instruction as unreachable.
    pub fn mark_unreachable(&mut self)
        ensures { stack_of self.new ≡ any_below }
    {
        self.types.clear();
        self.is_unreachable = true;
    }

    /// Pops an operand of this type. It is `Mismatch` where the topmost has another type or there is none.
    pub fn take(&mut self, expected: ValType) -> Result<(), ValidFault>
        ensures { Makes (take_one expected) self.old self.new result }
    {
        match self.types.pop() {
            Some(operand) => {
                if is_of_type(operand, expected) {
                    Ok(())
                } else {
                    Err(ValidFault::from(Rule::Mismatch))
                }
            }
            None => {
                if self.is_unreachable {
                    Ok(())
                } else {
                    Err(ValidFault::from(Rule::Mismatch))
                }
            }
        }
    }

    /// Pops the topmost operand, whatever its type. It is `Mismatch` where there is none.
    pub fn take_any(&mut self) -> Result<OperandType, ValidFault>
        ensures { TakesTopmost self.old self.new result }
    {
        match self.types.pop() {
            Some(operand) => Ok(operand),
            None => {
                if self.is_unreachable {
                    Ok(OperandType::Unknown)
                } else {
                    Err(ValidFault::from(Rule::Mismatch))
                }
            }
        }
    }

    // Pops operands of these types, the first topmost.
    fn take_all(&mut self, taken: &[ValType]) -> Result<(), ValidFault>
        ensures { Makes (take_all taken.now) self.old self.new result }
    {
        for expected in taken {
            self.take(*expected)?;
        }
        Ok(())
    }

    /// Pops an operand of this type, where one is given.
    pub fn take_result(&mut self, taken: BlockType) -> Result<(), ValidFault>
        ensures { Makes (take_all (operands_of taken)) self.old self.new result }
    {
        match taken {
            Some(expected) => self.take(expected),
            None => Ok(()),
        }
    }

    /// Pushes an operand of this type, where one is given.
    pub fn give(&mut self, given: BlockType) -> Result<(), AllocError>
        ensures { OnOk result (stack_of self.new ≡ with_result given (stack_of self.old)) }
    {
        match given {
            Some(known) => self.push(OperandType::Known(known)),
            None => Ok(()),
        }
    }

    /// Pops operands of these types, the first topmost, and pushes a result.
    pub fn change(&mut self, taken: &[ValType], given: BlockType) -> Result<(), ValidFault>
        ensures { Makes (change taken.now (operands_of given)) self.old self.new result }
    {
        self.take_all(taken)?;
        self.give(given)?;
        Ok(())
    }

    // Pops operands of the parameters' types, the last topmost.
    fn take_parameters(&mut self, parameters: &[ValType]) -> Result<(), ValidFault>
        ensures { Makes (take_all (reverse parameters.now)) self.old self.new result }
    {
        let mut left = parameters.len();
        while left > 0 {
            left -= 1;
            self.take(parameters[left])?;
        }
        Ok(())
    }

    /// Pops the arguments of a call and pushes its result.
    pub fn call(&mut self, called: &FuncType) -> Result<(), ValidFault>
        ensures { Makes (called_step called.now) self.old self.new result }
    {
        self.take_parameters(called.parameters.as_slice())?;
        self.give(first_of(called.results.as_slice()))?;
        Ok(())
    }

    /// Pops the operands of a numeric instruction and pushes its result (Core 1.0, 3.3.1).
    pub fn apply(&mut self, op: Numeric) -> Result<(), ValidFault>
        ensures { Makes (numeric_step op) self.old self.new result }
    {
        match op {
            Numeric::Eqz(of) => self.change(&[of], Some(ValType::I32)),
            Numeric::Comparison(of, _) => self.change(&[of, of], Some(ValType::I32)),
            Numeric::Unary(of, _) => self.change(&[of], Some(of)),
            Numeric::Binary(of, _) => self.change(&[of, of], Some(of)),
            Numeric::Division(of, _) => self.change(&[of, of], Some(of)),
            Numeric::Conversion(conversion) => {
                self.change(
                    &[converted_from(conversion)],
                    Some(converted_to(conversion)),
                )
            }
        }
    }

    fn is_empty(&self) -> bool
        ensures { result ≡ is_empty (stack_of self.now) }
    {
        self.types.is_empty()
    }

    /// Pops a branch's operand, where it has one, and marks the code after it as unreachable.
    pub fn leave(&mut self, taken: BlockType) -> Result<(), ValidFault>
        ensures { Makes (leave (operands_of taken)) self.old self.new result }
    {
        self.take_result(taken)?;
        self.mark_unreachable();
        Ok(())
    }

    /// Checks the end of a sequence: exactly its result is there, else `Mismatch`.
    pub fn close(&mut self, gives: BlockType) -> Result<(), ValidFault>
        ensures { Says (closes (Some (stack_of self.old)) gives) result }
    {
        self.take_result(gives)?;
        if self.is_empty() {
            Ok(())
        } else {
            Err(ValidFault::from(Rule::Mismatch))
        }
    }

    /// Checks `select`: pops an i32 and two operands of one type, and pushes one of that type (Core 1.0, 3.3.2).
    pub fn select(&mut self) -> Result<(), ValidFault>
        ensures { Makes select_step self.old self.new result }
    {
        self.take(ValType::I32)?;
        let first = self.take_any()?;
        let second = self.take_any()?;
        match join(first, second) {
            Some(both) => {
                self.push(both)?;
                Ok(())
            }
            None => Err(ValidFault::from(Rule::Mismatch)),
        }
    }
}

/// Returns the first of a function's results. A valid function has at most one (Core 1.0, 3.2.2).
pub fn first_of(results: &[ValType]) -> BlockType
    ensures { result ≡ first_type results.now }
{
    match results {
        [first, ..] => Some(*first),
        [] => None,
    }
}

fn converted_from(conversion: Conversion) -> ValType
    ensures { result ≡ conversion_from conversion }
{
    match conversion {
        Conversion::Wrap => ValType::I64,
        Conversion::ExtendS | Conversion::ExtendU => ValType::I32,
    }
}

fn converted_to(conversion: Conversion) -> ValType
    ensures { result ≡ conversion_to conversion }
{
    match conversion {
        Conversion::Wrap => ValType::I32,
        Conversion::ExtendS | Conversion::ExtendU => ValType::I64,
    }
}

// Returns what is known of the type of two operands that must have the same type; `None` where they differ.
fn join(first: OperandType, second: OperandType) -> Option<OperandType>
    ensures { result ≡ join first second }
{
    match (first, second) {
        (OperandType::Unknown, operand) => Some(operand),
        (operand, OperandType::Unknown) => Some(operand),
        (OperandType::Known(ValType::I32), OperandType::Known(ValType::I32)) => Some(first),
        (OperandType::Known(ValType::I64), OperandType::Known(ValType::I64)) => Some(first),
        _ => None,
    }
}
