//! Loops that take an item each time round, at their beginning or at their end (P9).

ghost use Rattle.std.specs.Prelude.{◌≢◌, ◌↔◌, IsTrue};
ghost use Rattle.std.specs.List.{AllByRecursion};
ghost use Rattle.wasm_ast.specs.Code.{end};
ghost use Rattle.wasm_ast.specs.View.{code_of, then_code};
ghost use Rattle.verified.specs.Hosts.{call_at};
ghost use Rattle.verified.specs.Shapes.{BranchNamesNot, ClosesWithItem, NamesNot, OpensWithItem, TakesItem, TakesItems};
ghost use Rattle.profile_rules.specs.inside.Closing.{GoesBackWithItem, LabelFits};

use crate::hosts::call_at;
use verified::HostCall;
use wasm_ast::{Body, Branch, Instr, Numeric, Plain, ValType};

/// Decides whether the body of a loop takes an item each time round, at its beginning or at its end (P9).
///
/// It takes time by the length of the body.
pub fn takes_items(hosts: &[Option<HostCall>], body: &Body) -> bool
    requires { LabelFits 0 body.now }
    ensures { IsTrue result ↔ TakesItems (call_at hosts.now) body.now }
{
    let instrs = body.as_slice();
    opens_with_item(hosts, instrs) || closes_with_item(hosts, instrs)
}

// Decides whether a loop begins by taking an item, and leaves where there is none.
fn opens_with_item(hosts: &[Option<HostCall>], instrs: &[Instr]) -> bool
    ensures { IsTrue result ↔ OpensWithItem (call_at hosts.now) (code_of instrs.now) }
{
    match instrs {
        [
            Instr::Call(function),
            Instr::Plain(Plain::Numeric(Numeric::Eqz(ValType::I32))),
            Instr::Branch(Branch::BrIf(label)),
            ..
        ] => *label >= 1 && takes_item(call_at(hosts, *function)),
        _ => false,
    }
}

// Decides whether a loop ends by taking an item and goes back where there was one. No other branch may go back.
fn closes_with_item(hosts: &[Option<HostCall>], instrs: &[Instr]) -> bool
    requires { LabelFits 0 (code_of instrs.now) }
    ensures { IsTrue result ↔ ClosesWithItem (call_at hosts.now) (code_of instrs.now) }
{
    match instrs {
        [front @ .., call, back] => goes_back_with_item(hosts, call, back) && names_not(front, 0),
        _ => false,
    }
}

// Decides whether the first instruction takes an item, and the second goes back to the loop where there was one.
fn goes_back_with_item(hosts: &[Option<HostCall>], call: &Instr, back: &Instr) -> bool
    ensures { IsTrue result ↔ GoesBackWithItem (call_at hosts.now) call.now back.now }
{
    match (call, back) {
        (Instr::Call(function), Instr::Branch(Branch::BrIf(0))) => {
            takes_item(call_at(hosts, *function))
        }
        _ => false,
    }
}

fn takes_item(call: Option<HostCall>) -> bool
    ensures { IsTrue result ↔ TakesItem call }
{
    matches!(call, Some(HostCall::NextMessage | HostCall::NextEdge))
}

// Decides whether no branch names the label.
#[cycle(code)]
fn names_not(instrs: &[Instr], label: u32) -> bool
    requires { LabelFits label (code_of instrs.now) }
    ensures { IsTrue result ↔ NamesNot label (code_of instrs.now) }
{
    for instr in instrs {
        if !names_not_at(instr, label) {
            return false;
        }
    }
    true
}

#[cycle(code)]
fn names_not_at(instr: &Instr, label: u32) -> bool
    requires { LabelFits label (then_code instr.now end) }
    ensures { IsTrue result ↔ NamesNot label (then_code instr.now end) }
{
    match instr {
        Instr::Plain(_) | Instr::Call(_) | Instr::CallIndirect(_) | Instr::Unreachable => true,
        Instr::Branch(branch) => branch_names_not(branch, label),
        Instr::Block(_, body) | Instr::Loop(_, body) => names_not(body.as_slice(), label + 1),
        Instr::If(_, body, other) => {
            names_not(body.as_slice(), label + 1) && names_not(other.as_slice(), label + 1)
        }
    }
}

fn branch_names_not(branch: &Branch, label: u32) -> bool
    ensures { IsTrue result ↔ BranchNamesNot label branch.now }
{
    match branch {
        Branch::Br(named) | Branch::BrIf(named) => *named != label,
        Branch::BrTable(labels, default) => {
            *default != label && are_others(labels.as_slice(), label)
        }
        Branch::Return => true,
    }
}

fn are_others(labels: &[u32], label: u32) -> bool
    ensures { IsTrue result ↔ AllByRecursion (λ k. k ≢ label) labels.now }
{
    labels.iter().all(|named| *named != label)
}
