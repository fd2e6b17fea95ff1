//! The rules of instructions that contain no others (Core 1.0, 3.3).

ghost use Rattle.std.specs.Prelude.{◌≡◌, reverse};
ghost use Rattle.validate.specs.inside.Steps.{is_aligned, variable_step, memory_step, plain_step, branch_step, all_take, same_taken, call_step, call_indirect_step};
ghost use Rattle.validate.specs.inside.Answers.{Makes, context_of};
ghost use Rattle.validate.specs.inside.Findings.{Says};

use crate::context::BodyContext;
use crate::fault::{Rule, ValidFault};
use crate::labels::Labels;
use crate::operands::Operands;
use wasm_ast::{BlockType, Branch, Memory, Mutability, Plain, ValType, Value, Variable};

/// Checks an instruction that neither branches nor calls (Core 1.0, 3.3.1 to 3.3.4, and `nop` of 3.3.5).
pub fn check_plain(
    plain: Plain,
    context: &BodyContext,
    scope: &Labels,
    operands: &mut Operands,
) -> Result<(), ValidFault>
    ensures { Makes (plain_step (context_of context.now scope.now) plain)
        operands.old operands.new result }
{
    match plain {
        Plain::Nop => Ok(()),
        Plain::Drop => {
            let _slot = operands.take_any()?;
            Ok(())
        }
        Plain::Select => operands.select(),
        Plain::Const(Value::I32(_)) => operands.change(&[], Some(ValType::I32)),
        Plain::Const(Value::I64(_)) => operands.change(&[], Some(ValType::I64)),
        Plain::Numeric(op) => operands.apply(op),
        Plain::Variable(op) => check_variable(op, context, scope, operands),
        Plain::Memory(op) => check_memory(op, context, scope, operands),
    }
}

// Checks a read or write of a local or global (Core 1.0, 3.3.3).
fn check_variable(
    op: Variable,
    context: &BodyContext,
    scope: &Labels,
    operands: &mut Operands,
) -> Result<(), ValidFault>
    ensures { Makes (variable_step (context_of context.now scope.now) op)
        operands.old operands.new result }
{
    match op {
        Variable::LocalGet(number) => {
            let Some(local) = context.local_at(number) else {
                return Err(ValidFault::from(Rule::Local));
            };
            operands.change(&[], Some(local))
        }
        Variable::LocalSet(number) => {
            let Some(local) = context.local_at(number) else {
                return Err(ValidFault::from(Rule::Local));
            };
            operands.change(&[local], None)
        }
        Variable::LocalTee(number) => {
            let Some(local) = context.local_at(number) else {
                return Err(ValidFault::from(Rule::Local));
            };
            operands.change(&[local], Some(local))
        }
        Variable::GlobalGet(number) => {
            let Some(global) = context.spaces.global_at(number) else {
                return Err(ValidFault::from(Rule::Global));
            };
            operands.change(&[], Some(global.value))
        }
        Variable::GlobalSet(number) => {
            let Some(global) = context.spaces.global_at(number) else {
                return Err(ValidFault::from(Rule::Global));
            };
            match global.mutability {
                Mutability::Constant => Err(ValidFault::from(Rule::Immutable)),
                Mutability::Variable => operands.change(&[global.value], None),
            }
        }
    }
}

// Checks a memory instruction (Core 1.0, 3.3.4).
fn check_memory(
    op: Memory,
    context: &BodyContext,
    scope: &Labels,
    operands: &mut Operands,
) -> Result<(), ValidFault>
    ensures { Makes (memory_step (context_of context.now scope.now) op)
        operands.old operands.new result }
{
    if !context.spaces.has_memory() {
        return Err(ValidFault::from(Rule::Memory));
    }
    match op {
        Memory::Load(load, argument) => {
            if !is_aligned(argument.align, load.width()) {
                return Err(ValidFault::from(Rule::Alignment));
            }
            operands.change(&[ValType::I32], Some(load.val_type()))
        }
        Memory::Store(store, argument) => {
            if !is_aligned(argument.align, store.width()) {
                return Err(ValidFault::from(Rule::Alignment));
            }
            operands.change(&[store.val_type(), ValType::I32], None)
        }
        Memory::Size => operands.change(&[], Some(ValType::I32)),
        Memory::Grow => operands.change(&[ValType::I32], Some(ValType::I32)),
    }
}

// Reports whether the alignment, 2 to the power `align`, is at most the width in bytes.
fn is_aligned(align: u32, width: u32) -> bool
    ensures { result ≡ is_aligned align width }
{
    align < 32 && 1u32 << align <= width
}

/// Checks a `br`, `br_if`, `br_table` or `return` (Core 1.0, 3.3.5).
pub fn check_branch(
    branch: &Branch,
    context: &BodyContext,
    scope: &Labels,
    operands: &mut Operands,
) -> Result<(), ValidFault>
    ensures { Makes (branch_step (context_of context.now scope.now) branch.now)
        operands.old operands.new result }
{
    match branch {
        Branch::Br(label) => {
            let Some(taken) = scope.label_at(*label) else {
                return Err(ValidFault::from(Rule::Label));
            };
            operands.leave(taken)
        }
        Branch::BrIf(label) => {
            let Some(taken) = scope.label_at(*label) else {
                return Err(ValidFault::from(Rule::Label));
            };
            operands.take(ValType::I32)?;
            operands.take_result(taken)?;
            operands.give(taken)?;
            Ok(())
        }
        Branch::BrTable(targets, label) => {
            let Some(taken) = scope.label_at(*label) else {
                return Err(ValidFault::from(Rule::Label));
            };
            check_targets(scope, taken, targets.as_slice())?;
            operands.take(ValType::I32)?;
            operands.leave(taken)
        }
        Branch::Return => operands.leave(context.outcome),
    }
}

// Checks that a branch to each of the labels takes an operand of this type.
fn check_targets(scope: &Labels, taken: BlockType, targets: &[u32]) -> Result<(), ValidFault>
    ensures { Says (all_take (reverse scope.now.labels.items) taken targets.now) result }
{
    for target in targets {
        let Some(found) = scope.label_at(*target) else {
            return Err(ValidFault::from(Rule::Label));
        };
        if !is_same(taken, found) {
            return Err(ValidFault::from(Rule::Mismatch));
        }
    }
    Ok(())
}

fn is_same(first: BlockType, second: BlockType) -> bool
    ensures { result ≡ same_taken first second }
{
    match (first, second) {
        (None, None) => true,
        (Some(ValType::I32), Some(ValType::I32)) => true,
        (Some(ValType::I64), Some(ValType::I64)) => true,
        _ => false,
    }
}

/// Checks a `call` (Core 1.0, 3.3.5).
pub fn check_call(
    function: u32,
    context: &BodyContext,
    scope: &Labels,
    operands: &mut Operands,
) -> Result<(), ValidFault>
    ensures { Makes (call_step (context_of context.now scope.now) function)
        operands.old operands.new result }
{
    let Some(called) = context.spaces.function_type(function) else {
        return Err(ValidFault::from(Rule::Function));
    };
    operands.call(called)
}

/// Checks a `call_indirect` (Core 1.0, 3.3.5).
pub fn check_call_indirect(
    type_number: u32,
    context: &BodyContext,
    scope: &Labels,
    operands: &mut Operands,
) -> Result<(), ValidFault>
    ensures { Makes (call_indirect_step (context_of context.now scope.now) type_number)
        operands.old operands.new result }
{
    if !context.spaces.has_table() {
        return Err(ValidFault::from(Rule::Table));
    }
    let Some(called) = context.spaces.type_at(type_number) else {
        return Err(ValidFault::from(Rule::TypeNumber));
    };
    operands.take(ValType::I32)?;
    operands.call(called)
}
