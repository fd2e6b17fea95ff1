//! Code that is written instruction by instruction.

use std::alloc::{AllocError, Global};
use wasm_ast::{Branch, Instr};

/// Instructions of which only the last may be one that control does not pass.
#[derive(Drop)]
pub struct Code {
    pub instrs: Vec<Instr>,
    /// Whether control never reaches the end.
    pub ends: bool,
}

impl Code {
    pub fn new(alloc: Global) -> Code {
        Code {
            instrs: Vec::new(alloc),
            ends: false,
        }
    }

    /// Adds an instruction. `ends` says that control does not pass it.
    pub fn push(&mut self, instr: Instr, ends: bool) -> Result<(), AllocError> {
        self.instrs.push(instr)?;
        self.ends = ends;
        Ok(())
    }
}

/// Whether the last instruction is a branch that is always taken.
pub fn ends_by_branch(instrs: &[Instr]) -> bool {
    match instrs {
        [.., last] => always_branches(last),
        _ => false,
    }
}

/// Whether the instruction is a branch that is always taken.
pub fn always_branches(instr: &Instr) -> bool {
    match instr {
        Instr::Branch(Branch::BrIf(_)) => false,
        Instr::Branch(_) => true,
        _ => false,
    }
}
