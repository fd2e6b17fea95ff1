//! Instructions without inner code (Core 1.0, 3.3): the demands on their operands, and what is known of their
//! results.

ghost use Rattle.std.specs.Prelude.{◌≡◌, OnOk};
ghost use Rattle.profile_rules.specs.inside.Tracking.{Goes, operands_of, labels_of, plain_step, numeric_step, select_step, variable_step, memory_step, branch_step, call_step, call_indirect_step, take_parameters};

use crate::constants::asks::division_premise;
use crate::constants::demands::Demand;
use crate::constants::fault::ConstantsFault;
use crate::constants::operands::Operands;
use crate::constants::setting::ModuleSetting;
use crate::values::number_of;
use std::alloc::AllocError;
use validate::{Labels, Place, first_of};
use verified::{Operand, Premise};
use wasm_ast::{Branch, Memory, Numeric, Plain, ValType, Variable};

/// Checks a plain instruction (Core 1.0, 3.3.1 to 3.3.4, and `nop` of 3.3.5).
pub fn check_plain(
    plain: Plain,
    setting: &ModuleSetting,
    place: Place,
    operands: &mut Operands,
) -> Result<(), ConstantsFault>
    ensures { Goes (plain_step setting.now plain) operands.old operands.new result }
{
    match plain {
        Plain::Nop => Ok(()),
        Plain::Drop => {
            let _operand = operands.pop();
            Ok(())
        }
        Plain::Select => {
            select(operands)?;
            Ok(())
        }
        Plain::Const(value) => {
            operands.push(Operand::Known(number_of(value)))?;
            Ok(())
        }
        Plain::Numeric(op) => check_numeric(op, setting, place, operands),
        Plain::Variable(op) => {
            move_variable(op, operands)?;
            Ok(())
        }
        Plain::Memory(op) => check_memory(op, setting, place, operands),
    }
}

fn select(operands: &mut Operands) -> Result<(), AllocError>
    ensures { OnOk result (operands_of operands.new ≡ select_step (operands_of operands.old)) }
{
    let _condition = operands.pop();
    let _second = operands.pop();
    let _first = operands.pop();
    operands.push(Operand::Unknown)
}

// Checks a numeric instruction (Core 1.0, 3.3.1).
fn check_numeric(
    op: Numeric,
    setting: &ModuleSetting,
    place: Place,
    operands: &mut Operands,
) -> Result<(), ConstantsFault>
    ensures { Goes (numeric_step setting.now op) operands.old operands.new result }
{
    let unknown = Some(Operand::Unknown);
    let bytes = setting.bytes;
    match op {
        Numeric::Eqz(_) | Numeric::Unary(_, _) | Numeric::Conversion(_) => {
            operands.change(&[Demand::Any], unknown, bytes, place)
        }
        Numeric::Comparison(_, _) | Numeric::Binary(_, _) => {
            operands.change(&[Demand::Any, Demand::Any], unknown, bytes, place)
        }
        Numeric::Division(of, division) => {
            let divisor = setting.asks.demand(of, division_premise(division));
            operands.change(&[divisor, Demand::Any], unknown, bytes, place)
        }
    }
}

// Applies an access to a local or a global (Core 1.0, 3.3.3).
fn move_variable(op: Variable, operands: &mut Operands) -> Result<(), AllocError>
    ensures { OnOk result (operands_of operands.new
        ≡ variable_step op (operands_of operands.old)) }
{
    match op {
        Variable::LocalGet(_) | Variable::GlobalGet(_) => operands.push(Operand::Unknown),
        Variable::LocalSet(_) | Variable::GlobalSet(_) => {
            let _set = operands.pop();
            Ok(())
        }
        Variable::LocalTee(_) => {
            let _kept = operands.pop();
            operands.push(Operand::Unknown)
        }
    }
}

// Checks a memory instruction (Core 1.0, 3.3.4).
fn check_memory(
    op: Memory,
    setting: &ModuleSetting,
    place: Place,
    operands: &mut Operands,
) -> Result<(), ConstantsFault>
    ensures { Goes (memory_step setting.now op) operands.old operands.new result }
{
    match op {
        Memory::Load(load, argument) => {
            let reaches = Premise::Reaches(argument.offset, load.width());
            let address = setting.asks.demand(ValType::I32, reaches);
            operands.change(&[address], Some(Operand::Unknown), setting.bytes, place)
        }
        Memory::Store(store, argument) => {
            let reaches = Premise::Reaches(argument.offset, store.width());
            let address = setting.asks.demand(ValType::I32, reaches);
            operands.change(&[Demand::Any, address], None, setting.bytes, place)
        }
        Memory::Size => {
            operands.push(Operand::Unknown)?;
            Ok(())
        }
        Memory::Grow => {
            let _pages = operands.pop();
            operands.push(Operand::Unknown)?;
            Ok(())
        }
    }
}

/// Checks a branch (Core 1.0, 3.3.5). Nothing comes after a branch that is always taken.
pub fn check_branch(
    branch: &Branch,
    scope: &Labels,
    place: Place,
    operands: &mut Operands,
) -> Result<(), ConstantsFault>
    ensures { Goes (branch_step (labels_of scope.now) branch.now)
        operands.old operands.new result }
{
    match branch {
        Branch::BrIf(label) => {
            let Some(taken) = scope.label_at(*label) else {
                return Err(ConstantsFault::Breaks(place));
            };
            let _condition = operands.pop();
            operands.forget_result(taken);
            operands.give(taken)?;
            Ok(())
        }
        Branch::Br(_) | Branch::BrTable(_, _) | Branch::Return => Ok(()),
    }
}

/// Checks a call (Core 1.0, 3.3.5). The number of an aggregator has to be a known constant.
pub fn check_call(
    function: u32,
    setting: &ModuleSetting,
    place: Place,
    operands: &mut Operands,
) -> Result<(), ConstantsFault>
    ensures { Goes (call_step setting.now function) operands.old operands.new result }
{
    let Some(called) = setting.called(function) else {
        return Err(ConstantsFault::Breaks(place));
    };
    let takes_slot = setting.takes_slot(function);
    let parameters = called.parameters.as_slice();
    pass_parameters(parameters, takes_slot, setting, place, operands)?;
    operands.give(first_of(called.results.as_slice()))?;
    Ok(())
}

// Takes the arguments, of which the first may be the number of an aggregator.
fn pass_parameters(
    parameters: &[ValType],
    takes_slot: bool,
    setting: &ModuleSetting,
    place: Place,
    operands: &mut Operands,
) -> Result<(), ConstantsFault>
    ensures { Goes (take_parameters setting.now takes_slot parameters.now)
        operands.old operands.new result }
{
    if !takes_slot {
        operands.forget_each(parameters);
        return Ok(());
    }
    match parameters {
        [slot, others @ ..] => {
            operands.forget_each(others);
            let demand = setting.asks.demand(*slot, Premise::IsSlot);
            operands.take(demand, setting.bytes, place)
        }
        [] => Ok(()),
    }
}

/// Checks a `call_indirect` (Core 1.0, 3.3.5).
pub fn check_call_indirect(
    type_number: u32,
    setting: &ModuleSetting,
    place: Place,
    operands: &mut Operands,
) -> Result<(), ConstantsFault>
    ensures { Goes (call_indirect_step setting.now type_number)
        operands.old operands.new result }
{
    let Some(called) = setting.type_at(type_number) else {
        return Err(ConstantsFault::Breaks(place));
    };
    let _element = operands.pop();
    operands.forget_each(called.parameters.as_slice());
    operands.give(first_of(called.results.as_slice()))?;
    Ok(())
}
