//! Labels that code names, and their new numbers where the code is moved.

use wasm_ast::{Body, Branch, Instr};

/// How code is moved, which decides the numbers of the labels outside of it.
#[derive(Clone, Copy)]
pub enum Move {
    /// It stays where it is.
    Nowhere,
    /// It leaves this many blocks, whose labels it does not name.
    Out(u32),
    /// A block is put around its loop.
    Around,
    /// It is an arm of an `if` in a loop. It becomes code of the loop itself, and a block is put around the loop.
    OutOfArm,
}

impl Move {
    /// Returns the new number of a label that is named at this depth inside the code.
    pub fn label(self, depth: u32, label: u32) -> u32 {
        if label < depth {
            label
        } else {
            depth.saturating_add(self.outer_label(label - depth))
        }
    }

    fn outer_label(self, label: u32) -> u32 {
        match (self, label) {
            (Move::Nowhere, label) | (Move::Around, label @ 0) => label,
            (Move::Out(levels), label) => label.saturating_sub(levels),
            (Move::Around, label) => label.saturating_add(1),
            (Move::OutOfArm, 0) => 1,
            (Move::OutOfArm, 1) => 0,
            (Move::OutOfArm, label) => label,
        }
    }
}

/// Whether a branch in the code names the label.
///
/// It takes time by the length of the code.
pub fn names(instrs: &[Instr], label: u32) -> bool {
    for instr in instrs {
        if instr_names(instr, label) {
            return true;
        }
    }
    false
}

/// Whether a branch in the body names the label.
#[cycle(names)]
pub fn body_names(body: &Body, label: u32) -> bool {
    for instr in body.as_slice() {
        if instr_names(instr, label) {
            return true;
        }
    }
    false
}

#[cycle(names)]
fn instr_names(instr: &Instr, label: u32) -> bool {
    match instr {
        Instr::Plain(_) | Instr::Call(_) | Instr::CallIndirect(_) | Instr::Unreachable => false,
        Instr::Branch(branch) => branch_names(branch, label),
        Instr::Block(_, body) | Instr::Loop(_, body) => body_names(body, label.saturating_add(1)),
        Instr::If(_, body, other) => {
            body_names(body, label.saturating_add(1)) || body_names(other, label.saturating_add(1))
        }
    }
}

fn branch_names(branch: &Branch, label: u32) -> bool {
    match branch {
        Branch::Br(named) | Branch::BrIf(named) => *named == label,
        Branch::BrTable(labels, default) => {
            *default == label || labels.as_slice().iter().any(|named| *named == label)
        }
        Branch::Return => false,
    }
}
