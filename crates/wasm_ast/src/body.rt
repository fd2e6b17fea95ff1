//! Instruction sequences, and the instructions that contain them.

use crate::copies::Duplicate;
use crate::plain::{Branch, Plain};
use crate::types::BlockType;
use std::alloc::{AllocError, Global};
use std::marker::Model;

/// A sequence of instructions (Core 1.0, 2.4.6). Its model is `Code`.
#[cycle(syntax)]
#[derive(Drop)]
pub struct Body {
    instrs: Vec<Instr>,
}

/// An instruction (Core 1.0, 2.4).
#[cycle(syntax)]
#[derive(Drop)]
pub enum Instr {
    Plain(Plain),
    Branch(Branch),
    /// A call of the function with this index. Imported functions are counted first.
    Call(u32),
    /// A call through the table, of a function that has the type with this index.
    CallIndirect(u32),
    Unreachable,
    Block(BlockType, Body),
    Loop(BlockType, Body),
    /// The instructions for an operand other than 0, then those for 0.
    If(BlockType, Body, Body),
}

impl Model for Body {
    ghost use Rattle.wasm_ast.specs.Code.{Code, coded_code, size_of};

    ghost Value = { Code };

    ghost coded = { coded_code };

    ghost use Rattle.wasm_ast.specs.View.{code_of};

    ghost view = { λ a. code_of a.instrs.items };

    ghost size = { size_of };

    ghost use Rattle.wasm_ast.specs.Falls.{falls};
    ghost use Rattle.std.proofs.Common.{arith};

    ghost size_decreases = { λ a h. omega (arith, falls a.instrs.items) };
}

impl Body {
    ghost use Rattle.std.specs.Prelude.{◌≡◌, IfOk};
    ghost use Rattle.wasm_ast.specs.Code.{end};
    ghost use Rattle.wasm_ast.specs.View.{code_of};

    /// Creates a body without instructions. It allocates nothing.
    pub fn empty(alloc: Global) -> Body
        ensures { result ≡ end }
    {
        Body {
            instrs: Vec::new(alloc),
        }
    }

    /// Borrows the instructions, in order.
    pub fn as_slice(&self) -> &[Instr]
        ensures { code_of result.now ≡ self.now }
    {
        &self.instrs
    }

    /// Takes the instructions out, in order.
    pub fn into_vec(self) -> Vec<Instr>
        ensures { code_of result.items ≡ self }
    {
        self.instrs
    }

    /// Copies the instructions. It fails only where an allocation fails.
    pub fn copy(&self, alloc: Global) -> Result<Body, AllocError>
        ensures { IfOk result (λ copy. copy ≡ self.now) }
    {
        self.duplicate(alloc)
    }
}

impl From<Vec<Instr>> for Body {
    ghost use Rattle.std.specs.Prelude.{◌≡◌};
    ghost use Rattle.wasm_ast.specs.View.{code_of};

    ghost from_gives = { λ instrs body. body ≡ code_of instrs.items };

    fn from(instrs: Vec<Instr>) -> Body {
        Body { instrs }
    }
}
