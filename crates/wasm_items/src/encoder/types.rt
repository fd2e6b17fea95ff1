//! Writers of types (Core 1.0, 5.3).

ghost use Rattle.std.specs.Prelude.{◌≡◌, ◌++◌, OnOk};
ghost use Rattle.wasm_items.specs.Canonical.{val_type_bytes, func_type_bytes, limits_bytes, maximum_bytes, table_bytes, global_type_bytes};
ghost use Rattle.wasm_items.specs.Types.{mutability_byte};

use super::opcodes::val_type_byte;
use super::parts::{Part, write_byte, write_vector};
use leb::write_u32;
use std::alloc::AllocError;
use wasm_ast::{FuncType, GlobalType, Limits, Mutability, ValType};

/// Writes a value type (Core 1.0, 5.3.1).
impl Part for ValType {
    ghost spelling = { val_type_bytes };

    fn write(&self, out: &mut Vec<u8>) -> Result<(), AllocError> {
        write_byte(out, val_type_byte(*self))
    }
}

/// Writes a function type (Core 1.0, 5.3.3).
impl Part for FuncType {
    ghost spelling = { func_type_bytes };

    #[tactic(auto, unfolding(crate::specs::Canonical::func_type_bytes))]
    fn write(&self, out: &mut Vec<u8>) -> Result<(), AllocError> {
        write_byte(out, 0x60)?;
        write_vector(out, self.parameters.as_slice())?;
        write_vector(out, self.results.as_slice())
    }
}

/// Writes the limits of a memory, which are its type (Core 1.0, 5.3.4 and 5.3.5).
impl Part for Limits {
    ghost spelling = { limits_bytes };

    fn write(&self, out: &mut Vec<u8>) -> Result<(), AllocError> {
        write_limits(out, self.minimum, self.maximum)
    }
}

fn write_limits(out: &mut Vec<u8>, minimum: u32, maximum: Option<u32>) -> Result<(), AllocError>
    ensures { OnOk result (out.new.items ≡ out.old.items ++ maximum_bytes minimum maximum) }
{
    match maximum {
        None => {
            write_byte(out, 0x00)?;
            write_u32(out, minimum)
        }
        Some(maximum) => {
            write_byte(out, 0x01)?;
            write_u32(out, minimum)?;
            write_u32(out, maximum)
        }
    }
}

/// Appends the type of a table of functions (Core 1.0, 5.3.6).
pub fn write_table_type(out: &mut Vec<u8>, limits: Limits) -> Result<(), AllocError>
    ensures { OnOk result (out.new.items ≡ out.old.items ++ table_bytes limits) }
{
    write_byte(out, 0x70)?;
    limits.write(out)
}

/// Writes the type of a global (Core 1.0, 5.3.7).
impl Part for GlobalType {
    ghost spelling = { global_type_bytes };

    fn write(&self, out: &mut Vec<u8>) -> Result<(), AllocError> {
        write_byte(out, val_type_byte(self.value))?;
        write_byte(out, mutability_byte(self.mutability))
    }
}

fn mutability_byte(mutability: Mutability) -> u8
    ensures { result ≡ mutability_byte mutability }
{
    match mutability {
        Mutability::Constant => 0x00,
        Mutability::Variable => 0x01,
    }
}
