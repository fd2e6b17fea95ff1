//! Blocks, loops and ifs (Core 1.0, 3.3.5 and 3.3.6), and function bodies (3.4.1).

ghost use Rattle.std.specs.Prelude.{◌≡◌, OnOk};
ghost use Rattle.validate.specs.inside.Answers.{StepsOver, context_of, inside_passes, passes_in};
ghost use Rattle.validate.specs.inside.Findings.{Says, answer_at};

use crate::context::BodyContext;
use crate::fault::{Place, ValidFault};
use crate::instructions::{check_branch, check_call, check_call_indirect, check_plain};
use crate::labels::Labels;
use crate::operands::Operands;
use std::alloc::Global;
use wasm_ast::{BlockType, Body, Instr, ValType};

// Checks a sequence that starts with no operands: at its end there is exactly its result.
#[cycle(inside)]
fn check_inside(
    alloc: Global,
    label: BlockType,
    gives: BlockType,
    body: &Body,
    place: Place,
    context: &BodyContext,
    scope: &mut Labels,
) -> Result<(), ValidFault>
    ensures kept { OnOk result (scope.new.labels.items ≡ scope.old.labels.items) }
    ensures says { Says
        (inside_passes label gives body.now (context_of context.now scope.old)) result }
{
    scope.enter(label)?;
    let mut operands = Operands::new(alloc);
    for instr in body.as_slice() {
        check_instr(alloc, instr, context, scope, &mut operands)?;
    }
    scope.leave();
    match operands.close(gives) {
        Ok(()) => Ok(()),
        Err(fault) => Err(fault.at(place)),
    }
}

#[cycle(inside)]
fn check_instr(
    alloc: Global,
    instr: &Instr,
    context: &BodyContext,
    scope: &mut Labels,
    operands: &mut Operands,
) -> Result<(), ValidFault>
    ensures kept { OnOk result (scope.new.labels.items ≡ scope.old.labels.items) }
    ensures finds { StepsOver instr.now (context_of context.now scope.old)
        operands.old operands.new result }
{
    let place = context.place_of(scope.count());
    match instr {
        Instr::Plain(plain) => at_place(check_plain(*plain, context, scope, operands), place),
        Instr::Branch(branch) => at_place(check_branch(branch, context, scope, operands), place),
        Instr::Call(function) => at_place(check_call(*function, context, scope, operands), place),
        Instr::CallIndirect(type_number) => at_place(
            check_call_indirect(*type_number, context, scope, operands),
            place,
        ),
        Instr::Unreachable => {
            operands.mark_unreachable();
            Ok(())
        }
        // The result is pushed before the inner code is checked, which has operands of its own.
        Instr::Block(gives, body) => {
            operands.give(*gives)?;
            check_inside(alloc, *gives, *gives, body, place, context, scope)
        }
        Instr::Loop(gives, body) => {
            operands.give(*gives)?;
            check_inside(alloc, None, *gives, body, place, context, scope)
        }
        Instr::If(gives, body, other) => {
            at_place(operands.take(ValType::I32), place)?;
            operands.give(*gives)?;
            check_inside(alloc, *gives, *gives, body, place, context, scope)?;
            check_inside(alloc, *gives, *gives, other, place, context, scope)
        }
    }
}

// Returns the answer, with this place in its fault.
fn at_place(answer: Result<(), ValidFault>, place: Place) -> Result<(), ValidFault>
    ensures { result ≡ answer_at answer place }
{
    match answer {
        Ok(()) => Ok(()),
        Err(fault) => Err(fault.at(place)),
    }
}

/// Checks the body of a function (Core 1.0, 3.4.1).
pub fn check_body(alloc: Global, context: &BodyContext, body: &Body) -> Result<(), ValidFault>
    ensures { Says (passes_in context.now body.now) result }
{
    let mut scope = Labels::new(alloc);
    check_inside(
        alloc,
        context.outcome,
        context.outcome,
        body,
        context.place(),
        context,
        &mut scope,
    )
}
