//! Rules P5 to P9, on the instructions of code and their order. An instruction keeps a rule or breaks it by its kind,
//! by the code inside it, and by whether something comes after it.

ghost use Rattle.std.specs.Prelude.{◌≡◌, ◌↔◌, IsTrue, IsFalse};
ghost use Rattle.wasm_ast.specs.Code.{Code, end};
ghost use Rattle.wasm_ast.specs.Limits.{IsBodyWithin, IsWithinLimits};
ghost use Rattle.wasm_ast.specs.View.{then_code};
ghost use Rattle.profile_rules.specs.Faults.{Settles};
ghost use Rattle.verified.specs.Hosts.{call_at};
ghost use Rattle.verified.specs.Profile.{EachBody};
ghost use Rattle.verified.specs.Shapes.{Everywhere, Keeps, LastIfBranch};
ghost use Rattle.profile_rules.specs.inside.ShapeRules.{rule_of};

use crate::fault::{ProfileFault, ProfileRule};
use crate::loops::takes_items;
use validate::Place;
use verified::{HostCall, Shape};
use wasm_ast::{Body, Branch, Instr, Memory, Module, Plain};

fn rule(shape: Shape) -> ProfileRule
    ensures { result ≡ rule_of shape }
{
    match shape {
        Shape::NoIndirectCalls => ProfileRule::P5,
        Shape::NoUnreachable => ProfileRule::P6,
        Shape::NoGrowth => ProfileRule::P7,
        Shape::NothingAfterBranches => ProfileRule::P8,
        Shape::LoopsTakeItems => ProfileRule::P9,
    }
}

// Returns the place of a breach. For P8 that is the instruction after the branch, for the other rules the
// instruction itself.
fn place(shape: Shape, function: usize, instruction: u32) -> Place {
    let instruction = match shape {
        Shape::NothingAfterBranches => instruction.saturating_add(1),
        _ => instruction,
    };
    Place {
        function: u32::try_from(function).ok(),
        instruction: Some(instruction),
    }
}

// Decides whether the instruction keeps the rule. `is_last` says that nothing comes after it in its sequence.
fn is_kept(shape: Shape, hosts: &[Option<HostCall>], instr: &Instr, is_last: bool) -> bool
    requires { IsBodyWithin (then_code instr.now end) }
    ensures { (rest : Code) → (IsTrue is_last ↔ (rest ≡ end))
        → (IsTrue result ↔ Keeps (call_at hosts.now) shape (then_code instr.now rest)) }
{
    match shape {
        Shape::NoIndirectCalls => !matches!(instr, Instr::CallIndirect(_)),
        Shape::NoUnreachable => !matches!(instr, Instr::Unreachable),
        Shape::NoGrowth => !matches!(instr, Instr::Plain(Plain::Memory(Memory::Grow))),
        Shape::NothingAfterBranches => is_last || !always_branches(instr),
        Shape::LoopsTakeItems => match instr {
            Instr::Loop(_, body) => takes_items(hosts, body),
            _ => true,
        },
    }
}

fn always_branches(instr: &Instr) -> bool
    ensures always { IsTrue result → (rest : Code)
        → LastIfBranch (then_code instr.now rest) ↔ (rest ≡ end) }
    ensures not_always { IsFalse result → (rest : Code)
        → LastIfBranch (then_code instr.now rest) }
{
    match instr {
        Instr::Branch(Branch::BrIf(_)) => false,
        Instr::Branch(_) => true,
        _ => false,
    }
}

// Decides whether the code keeps the rule. `next` is the number of the first instruction of the code. It becomes the
// number of the instruction after the code or, where the rule is broken, of the first instruction that breaks it.
#[cycle(code)]
fn is_kept_in(shape: Shape, hosts: &[Option<HostCall>], body: &Body, next: &mut u32) -> bool
    requires { IsBodyWithin body.now }
    ensures { IsTrue result ↔ Everywhere (Keeps (call_at hosts.now) shape) body.now }
{
    let instrs = body.as_slice();
    for (index, instr) in instrs.iter().enumerate() {
        let is_last = index + 1 == instrs.len();
        if !is_kept_at(shape, hosts, instr, is_last, next) {
            return false;
        }
    }
    true
}

#[cycle(code)]
fn is_kept_at(
    shape: Shape,
    hosts: &[Option<HostCall>],
    instr: &Instr,
    is_last: bool,
    next: &mut u32,
) -> bool
    requires { IsBodyWithin (then_code instr.now end) }
    ensures { (rest : Code) → (IsTrue is_last ↔ (rest ≡ end))
        → ((IsTrue result × Everywhere (Keeps (call_at hosts.now) shape) rest)
        ↔ Everywhere (Keeps (call_at hosts.now) shape) (then_code instr.now rest)) }
{
    if !is_kept(shape, hosts, instr, is_last) {
        return false;
    }
    *next = next.saturating_add(1);
    match instr {
        Instr::Plain(_)
        | Instr::Branch(_)
        | Instr::Call(_)
        | Instr::CallIndirect(_)
        | Instr::Unreachable => true,
        Instr::Block(_, body) | Instr::Loop(_, body) => is_kept_in(shape, hosts, body, next),
        Instr::If(_, body, other) => {
            is_kept_in(shape, hosts, body, next) && is_kept_in(shape, hosts, other, next)
        }
    }
}

/// Checks that each function of the module keeps the rule, called or not. `hosts` are the host's functions that it
/// imports. The place in the error is the first instruction that breaks the rule, in preorder. For P8 it is the first
/// instruction after a branch.
///
/// It takes time by the length of the code, times the scope of loops that take their item at the end.
pub fn check_shape(
    shape: Shape,
    hosts: &[Option<HostCall>],
    module: &Module,
) -> Result<(), ProfileFault>
    requires { IsWithinLimits «module».now }
    ensures { Settles (rule_of shape)
        (EachBody (Keeps (call_at hosts.now) shape) «module».now) result }
{
    for (index, function) in module.functions.as_slice().iter().enumerate() {
        let mut next = 0;
        if !is_kept_in(shape, hosts, &function.body, &mut next) {
            let number = hosts.len().saturating_add(index);
            return Err(ProfileFault::Breaks(rule(shape), place(shape, number, next)));
        }
    }
    Ok(())
}
