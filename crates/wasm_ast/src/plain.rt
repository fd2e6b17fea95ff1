//! Instructions that contain no others.

use crate::numeric::Numeric;
use crate::sequence::Sequence;
use crate::types::{ValType, Value};

/// A read or write of a local or global, with the index of the variable (Core 1.0, 2.4.3).
#[derive(Clone, Copy, PartialEq, Eq)]
pub enum Variable {
    LocalGet(u32),
    LocalSet(u32),
    LocalTee(u32),
    GlobalGet(u32),
    GlobalSet(u32),
}

/// The immediates of a load or a store (Core 1.0, 2.4.4).
///
/// The alignment is 2 to the power `align` bytes. It is only a hint.
#[derive(Clone, Copy, PartialEq, Eq)]
pub struct MemoryArgument {
    pub align: u32,
    pub offset: u32,
}

/// A load (Core 1.0, 2.4.4), named by the type of its result and by the bits that it reads where they are fewer.
#[derive(Clone, Copy, PartialEq, Eq)]
pub enum Load {
    I32,
    I64,
    I32From8S,
    I32From8U,
    I32From16S,
    I32From16U,
    I64From8S,
    I64From8U,
    I64From16S,
    I64From16U,
    I64From32S,
    I64From32U,
}

impl Load {
    ghost use Rattle.std.specs.Prelude.{◌≡◌};
    ghost use Rattle.wasm_ast.specs.Widths.{load_width, load_type};

    /// Returns how many bytes the load reads: 1, 2, 4 or 8.
    pub fn width(self) -> u32
        ensures { result ≡ load_width self }
    {
        match self {
            Load::I32From8S | Load::I32From8U | Load::I64From8S | Load::I64From8U => 1,
            Load::I32From16S | Load::I32From16U | Load::I64From16S | Load::I64From16U => 2,
            Load::I32 | Load::I64From32S | Load::I64From32U => 4,
            Load::I64 => 8,
        }
    }

    /// Returns the type of the result.
    pub fn val_type(self) -> ValType
        ensures { result ≡ load_type self }
    {
        match self {
            Load::I32 | Load::I32From8S | Load::I32From8U | Load::I32From16S | Load::I32From16U =>
                ValType::I32,
            Load::I64
            | Load::I64From8S
            | Load::I64From8U
            | Load::I64From16S
            | Load::I64From16U
            | Load::I64From32S
            | Load::I64From32U => ValType::I64,
        }
    }
}

/// A store (Core 1.0, 2.4.4), named by the type of its operand and by the bits that it writes where they are fewer.
#[derive(Clone, Copy, PartialEq, Eq)]
pub enum Store {
    I32,
    I64,
    I32To8,
    I32To16,
    I64To8,
    I64To16,
    I64To32,
}

impl Store {
    ghost use Rattle.std.specs.Prelude.{◌≡◌};
    ghost use Rattle.wasm_ast.specs.Widths.{store_width, store_type};

    /// Returns how many bytes the store writes: 1, 2, 4 or 8.
    pub fn width(self) -> u32
        ensures { result ≡ store_width self }
    {
        match self {
            Store::I32To8 | Store::I64To8 => 1,
            Store::I32To16 | Store::I64To16 => 2,
            Store::I32 | Store::I64To32 => 4,
            Store::I64 => 8,
        }
    }

    /// Returns the type of the stored operand.
    pub fn val_type(self) -> ValType
        ensures { result ≡ store_type self }
    {
        match self {
            Store::I32 | Store::I32To8 | Store::I32To16 => ValType::I32,
            Store::I64 | Store::I64To8 | Store::I64To16 | Store::I64To32 => ValType::I64,
        }
    }
}

/// A memory instruction (Core 1.0, 2.4.4).
#[derive(Clone, Copy, PartialEq, Eq)]
pub enum Memory {
    Load(Load, MemoryArgument),
    Store(Store, MemoryArgument),
    Size,
    Grow,
}

/// An instruction that neither branches nor calls. It acts only on operands, locals, globals and memory.
#[derive(Clone, Copy, PartialEq, Eq)]
pub enum Plain {
    Nop,
    Drop,
    Select,
    Const(Value),
    Numeric(Numeric),
    Variable(Variable),
    Memory(Memory),
}

/// A branch or a return (Core 1.0, 2.4.5). Label 0 is the innermost.
#[derive(Drop)]
pub enum Branch {
    Br(u32),
    BrIf(u32),
    /// The labels by operand, then the label for every operand past them.
    BrTable(Sequence<u32>, u32),
    Return,
}
