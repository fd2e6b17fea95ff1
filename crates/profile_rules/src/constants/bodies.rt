//! Code that holds code (Core 1.0, 3.3.5), and the bodies of functions (3.4.1).

ghost use Rattle.std.specs.Prelude.{◌≡◌, ◌∷◌, [], OnOk};
ghost use Rattle.std.specs.List.{AllByRecursion};
ghost use Rattle.profile_rules.specs.inside.ConstantsFaults.{Says, SettlesConstants};
ghost use Rattle.profile_rules.specs.inside.Tracking.{operands_of, labels_of, check, StepsOver, Passes};

use crate::constants::fault::ConstantsFault;
use crate::constants::instructions::{check_branch, check_call, check_call_indirect, check_plain};
use crate::constants::operands::Operands;
use crate::constants::setting::ModuleSetting;
use std::alloc::Global;
use validate::{Labels, Place, first_of};
use wasm_ast::{BlockType, Body, Function, Instr};

// Checks a sequence that begins with no operands.
#[cycle(inside)]
fn check_inside(
    alloc: Global,
    label: BlockType,
    body: &Body,
    function: Option<u32>,
    setting: &ModuleSetting,
    scope: &mut Labels,
) -> Result<(), ConstantsFault>
    ensures kept { OnOk result (scope.new.labels.items ≡ scope.old.labels.items) }
    ensures says { Says (check body.now setting.now (label ∷ labels_of scope.old) []) result }
{
    scope.enter(label)?;
    let mut operands = Operands::new(alloc);
    for instr in body.as_slice() {
        check_instr(alloc, instr, function, setting, scope, &mut operands)?;
    }
    scope.leave();
    Ok(())
}

#[cycle(inside)]
fn check_instr(
    alloc: Global,
    instr: &Instr,
    function: Option<u32>,
    setting: &ModuleSetting,
    scope: &mut Labels,
    operands: &mut Operands,
) -> Result<(), ConstantsFault>
    ensures kept { OnOk result (scope.new.labels.items ≡ scope.old.labels.items) }
    ensures finds { StepsOver setting.now (labels_of scope.old) instr.now
        (operands_of operands.old) (operands_of operands.new) result }
{
    let place = Place {
        function,
        instruction: Some(scope.count()),
    };
    match instr {
        Instr::Plain(plain) => check_plain(*plain, setting, place, operands),
        Instr::Branch(branch) => check_branch(branch, scope, place, operands),
        Instr::Call(number) => check_call(*number, setting, place, operands),
        Instr::CallIndirect(number) => check_call_indirect(*number, setting, place, operands),
        Instr::Unreachable => Ok(()),
        // The result is pushed first: the inner code has operands of its own.
        Instr::Block(gives, body) => {
            operands.give(*gives)?;
            check_inside(alloc, *gives, body, function, setting, scope)
        }
        Instr::Loop(gives, body) => {
            operands.give(*gives)?;
            check_inside(alloc, None, body, function, setting, scope)
        }
        Instr::If(gives, body, other) => {
            let _condition = operands.pop();
            operands.give(*gives)?;
            check_inside(alloc, *gives, body, function, setting, scope)?;
            check_inside(alloc, *gives, other, function, setting, scope)
        }
    }
}

/// Checks that each selected constant is known in each of these functions, which the module defines.
pub fn check_bodies(
    alloc: Global,
    functions: &[Function],
    setting: &ModuleSetting,
) -> Result<(), ConstantsFault>
    ensures { SettlesConstants (AllByRecursion (Passes setting.now) functions.now) result }
{
    let imported = setting.function_count().saturating_sub(functions.len());
    for (index, function) in functions.iter().enumerate() {
        let number = u32::try_from(imported.saturating_add(index)).ok();
        check_function(alloc, number, function, setting)?;
    }
    Ok(())
}

fn check_function(
    alloc: Global,
    number: Option<u32>,
    function: &Function,
    setting: &ModuleSetting,
) -> Result<(), ConstantsFault>
    ensures { SettlesConstants (Passes setting.now function.now) result }
{
    let Some(function_type) = setting.type_at(function.type_number) else {
        return Err(ConstantsFault::Breaks(Place {
            function: number,
            instruction: None,
        }));
    };
    let outcome = first_of(function_type.results.as_slice());
    let mut scope = Labels::new(alloc);
    check_inside(alloc, outcome, &function.body, number, setting, &mut scope)
}
