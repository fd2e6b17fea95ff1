//! Types (Core 1.0, 2.3) and values (4.2.1).

use crate::sequence::Sequence;

/// The type of a number (Core 1.0, 2.3.1).
#[derive(Clone, Copy, PartialEq, Eq)]
pub enum ValType {
    I32,
    I64,
}

/// A number with its type, kept as its unsigned value (Core 1.0, 2.2.2 and 4.2.1).
#[derive(Clone, Copy, PartialEq, Eq)]
pub enum Value {
    I32(u32),
    I64(u64),
}

impl Value {
    ghost use Rattle.std.specs.Prelude.{◌≡◌};
    ghost use Rattle.wasm_ast.specs.Values.{type_of, zero_of};

    /// Returns the value that a local of this type starts with: 0 (Core 1.0, 4.4.7).
    pub fn zero(val_type: ValType) -> Value
        ensures { result ≡ zero_of val_type }
    {
        match val_type {
            ValType::I32 => Value::I32(0),
            ValType::I64 => Value::I64(0),
        }
    }

    /// Returns the type of the value.
    pub fn val_type(self) -> ValType
        ensures { result ≡ type_of self }
    {
        match self {
            Value::I32(_) => ValType::I32,
            Value::I64(_) => ValType::I64,
        }
    }
}

/// The type of the result of a block, loop or `if`, where it has one (Core 1.0, 2.4.5).
pub type BlockType = Option<ValType>;

/// The parameters and the results of a function (Core 1.0, 2.3.3).
#[derive(Drop)]
pub struct FuncType {
    pub parameters: Sequence<ValType>,
    pub results: Sequence<ValType>,
}

/// The size that a table or a memory starts with, and the largest to which it may grow (Core 1.0, 2.3.4).
///
/// A table's unit is an element, a memory's a page of 65,536 bytes.
#[derive(Clone, Copy, PartialEq, Eq)]
pub struct Limits {
    pub minimum: u32,
    pub maximum: Option<u32>,
}

/// The mutability of a global: only a `Variable` may be set (Core 1.0, 2.3.7).
#[derive(Clone, Copy, PartialEq, Eq)]
pub enum Mutability {
    Constant,
    Variable,
}

/// The type of a global (Core 1.0, 2.3.7).
#[derive(Clone, Copy, PartialEq, Eq)]
pub struct GlobalType {
    pub mutability: Mutability,
    pub value: ValType,
}
