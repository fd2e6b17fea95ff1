//! Code in flat form.

use std::alloc::Global;
use std::marker::Model;
use wasm_ast::{BlockType, Branch, MemoryArgument, Plain};

/// A sequence of instructions in flat form. Its model is the same code as that of the syntax.
#[cycle(flat)]
#[derive(Drop)]
pub struct FlatBody {
    instrs: Vec<FlatInstr>,
}

/// An instruction in flat form. The most frequent ones are each a variant, which a walk distinguishes by one match. Every
/// other instruction that neither branches nor calls is a `Plain`.
#[cycle(flat)]
#[derive(Drop)]
pub enum FlatInstr {
    LocalGet(u32),
    LocalSet(u32),
    LocalTee(u32),
    GlobalGet(u32),
    GlobalSet(u32),
    I32Const(u32),
    I64Const(u64),
    Drop,
    Select,
    I64Add,
    I64Sub,
    I64Mul,
    I64And,
    I64Or,
    I64Xor,
    I64Shl,
    I64ShrS,
    I64ShrU,
    I64Rotl,
    I64Eqz,
    I64Eq,
    I64Ne,
    I64LtS,
    I64LtU,
    I64GtS,
    I64GtU,
    I64LeS,
    I64LeU,
    I64GeS,
    I64GeU,
    I32Add,
    I32Sub,
    I32Mul,
    I32And,
    I32Or,
    I32Xor,
    I32Eqz,
    I32Eq,
    I32Ne,
    I32LtS,
    I32LtU,
    I32GtS,
    I32GtU,
    I32LeS,
    I32GeS,
    I32WrapI64,
    I64ExtendI32S,
    I64ExtendI32U,
    I64Load(MemoryArgument),
    I64Store(MemoryArgument),
    Plain(Plain),
    Br(u32),
    BrIf(u32),
    /// Any other branch.
    Branch(Branch),
    Call(u32),
    CallIndirect(u32),
    Unreachable,
    Block(BlockType, FlatBody),
    Loop(BlockType, FlatBody),
    If(BlockType, FlatBody, FlatBody),
}

impl Model for FlatBody {
    ghost use Rattle.wasm_ast.specs.Code.{Code, coded_code, size_of};

    ghost Value = { Code };

    ghost coded = { coded_code };

    ghost use Rattle.verified.specs.View.{code_of};

    ghost view = { λ a. code_of a.instrs.items };

    ghost size = { size_of };

    ghost use Rattle.verified.specs.Falls.{falls};
    ghost use Rattle.std.proofs.Common.{arith};

    ghost size_decreases = { λ a h. omega (arith, falls a.instrs.items) };
}

impl FlatBody {
    ghost use Rattle.std.specs.Prelude.{◌≡◌};
    ghost use Rattle.verified.specs.View.{code_of};

    /// Borrows the instructions, in order.
    pub fn as_slice(&self) -> &[FlatInstr]
        ensures { code_of result.now ≡ self.now }
    {
        &self.instrs
    }
}

impl From<Vec<FlatInstr>> for FlatBody {
    ghost use Rattle.std.specs.Prelude.{◌≡◌};
    ghost use Rattle.verified.specs.View.{code_of};

    ghost from_gives = { λ instrs body. body ≡ code_of instrs.items };

    fn from(instrs: Vec<FlatInstr>) -> FlatBody {
        FlatBody { instrs }
    }
}

impl FlatInstr {
    ghost use Rattle.std.specs.Prelude.{◌≡◌};
    ghost use Rattle.std.specs.Option.{is_some};
    ghost use Rattle.verified.specs.Plains.{plain_of};

    /// Reports whether the instruction neither branches nor calls.
    #[inline]
    pub fn is_plain(&self) -> bool
        ensures { result ≡ is_some (plain_of self.now) }
    {
        match self {
            FlatInstr::Br(_)
            | FlatInstr::BrIf(_)
            | FlatInstr::Branch(_)
            | FlatInstr::Call(_)
            | FlatInstr::CallIndirect(_)
            | FlatInstr::Unreachable
            | FlatInstr::Block(_, _)
            | FlatInstr::Loop(_, _)
            | FlatInstr::If(_, _, _) => false,
            _ => true,
        }
    }
}
