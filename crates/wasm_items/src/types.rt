//! Readers of types (Core 1.0, 5.3).

ghost use Rattle.wasm_items.specs.inside.Reading.{GivesAndLeaves, val_type_at, block_type_at, func_type_at, at_least_at, between_at, range_at, limits_at, table_type_at, mutability_at, global_type_at};

use crate::fault::{DecodeFault, DecodeRule};
use crate::item::{Item, vector};
use crate::reader::Reader;
use std::alloc::Global;
use wasm_ast::{
    BlockType, FuncType, GlobalType, Limits, MAX_PARAMETERS, MAX_RESULTS, Mutability, ValType,
};

/// Reads a value type (Core 1.0, 5.3.1).
impl Item for ValType {
    type Read = ValType;

    ghost item_at = { val_type_at };

    fn read(_alloc: Global, reader: &mut Reader) -> Result<ValType, DecodeFault> {
        val_type(reader)
    }
}

/// Reads a value type (Core 1.0, 5.3.1).
#[tactic(auto, unfolding(crate::specs::inside::Reading::val_type_at, crate::specs::inside::Reading::byte_at))]
pub fn val_type(reader: &mut Reader) -> Result<ValType, DecodeFault>
    ensures { GivesAndLeaves result reader.new (val_type_at reader.old) }
{
    let place = reader.place();
    match reader.byte()? {
        0x7F => Ok(ValType::I32),
        0x7E => Ok(ValType::I64),
        // The types of floats are `Unsupported`.
        0x7C | 0x7D => Err(DecodeFault::Refused(DecodeRule::Unsupported, place)),
        _ => Err(DecodeFault::Refused(DecodeRule::BadByte, place)),
    }
}

/// Reads the type of the result of a block, loop or `if` (Core 1.0, 5.3.2).
#[tactic(auto, unfolding(crate::specs::inside::Reading::block_type_at, crate::specs::inside::Reading::byte_at))]
pub fn block_type(reader: &mut Reader) -> Result<BlockType, DecodeFault>
    ensures { GivesAndLeaves result reader.new (block_type_at reader.old) }
{
    let place = reader.place();
    match reader.byte()? {
        0x40 => Ok(None),
        0x7F => Ok(Some(ValType::I32)),
        0x7E => Ok(Some(ValType::I64)),
        // The types of floats are `Unsupported`.
        0x7C | 0x7D => Err(DecodeFault::Refused(DecodeRule::Unsupported, place)),
        _ => Err(DecodeFault::Refused(DecodeRule::BadByte, place)),
    }
}

/// Reads a function type (Core 1.0, 5.3.3).
impl Item for FuncType {
    type Read = FuncType;

    ghost item_at = { func_type_at };

    #[tactic(auto, unfolding(crate::specs::inside::Reading::func_type_at))]
    fn read(alloc: Global, reader: &mut Reader) -> Result<FuncType, DecodeFault> {
        let place = reader.place();
        if reader.byte()? != 0x60 {
            return Err(DecodeFault::Refused(DecodeRule::BadByte, place));
        }
        let parameters = vector::<ValType>(alloc, reader, MAX_PARAMETERS)?;
        let results = vector::<ValType>(alloc, reader, MAX_RESULTS)?;
        Ok(FuncType {
            parameters,
            results,
        })
    }
}

/// Reads the limits of a table or a memory (Core 1.0, 5.3.4). A memory's type is just its limits (5.3.5).
impl Item for Limits {
    type Read = Limits;

    ghost item_at = { limits_at };

    fn read(_alloc: Global, reader: &mut Reader) -> Result<Limits, DecodeFault> {
        limits(reader)
    }
}

/// Reads the limits of a table or a memory (Core 1.0, 5.3.4).
#[tactic(auto, unfolding(crate::specs::inside::Reading::limits_at, crate::specs::inside::Reading::range_at, crate::specs::inside::Reading::at_least_at, crate::specs::inside::Reading::between_at))]
pub fn limits(reader: &mut Reader) -> Result<Limits, DecodeFault>
    ensures { GivesAndLeaves result reader.new (limits_at reader.old) }
{
    let place = reader.place();
    match reader.byte()? {
        0x00 => {
            let minimum = reader.u32()?;
            Ok(Limits {
                minimum,
                maximum: None,
            })
        }
        0x01 => {
            let minimum = reader.u32()?;
            let maximum = reader.u32()?;
            Ok(Limits {
                minimum,
                maximum: Some(maximum),
            })
        }
        _ => Err(DecodeFault::Refused(DecodeRule::BadByte, place)),
    }
}

/// The type of a table of functions (Core 1.0, 5.3.6). It is read as the table's limits.
pub struct TableType;

impl Item for TableType {
    type Read = Limits;

    ghost item_at = { table_type_at };

    fn read(_alloc: Global, reader: &mut Reader) -> Result<Limits, DecodeFault> {
        table_type(reader)
    }
}

/// Reads the type of a table of functions, and returns its limits (Core 1.0, 5.3.6).
#[tactic(auto, unfolding(crate::specs::inside::Reading::table_type_at))]
pub fn table_type(reader: &mut Reader) -> Result<Limits, DecodeFault>
    ensures { GivesAndLeaves result reader.new (table_type_at reader.old) }
{
    let place = reader.place();
    if reader.byte()? != 0x70 {
        return Err(DecodeFault::Refused(DecodeRule::BadByte, place));
    }
    limits(reader)
}

#[tactic(auto, unfolding(crate::specs::inside::Reading::mutability_at, crate::specs::inside::Reading::byte_at))]
fn mutability(reader: &mut Reader) -> Result<Mutability, DecodeFault>
    ensures { GivesAndLeaves result reader.new (mutability_at reader.old) }
{
    let place = reader.place();
    match reader.byte()? {
        0x00 => Ok(Mutability::Constant),
        0x01 => Ok(Mutability::Variable),
        _ => Err(DecodeFault::Refused(DecodeRule::BadByte, place)),
    }
}

/// Reads the type of a global (Core 1.0, 5.3.7).
#[tactic(auto, unfolding(crate::specs::inside::Reading::global_type_at))]
pub fn global_type(reader: &mut Reader) -> Result<GlobalType, DecodeFault>
    ensures { GivesAndLeaves result reader.new (global_type_at reader.old) }
{
    let value = val_type(reader)?;
    let mutability = mutability(reader)?;
    Ok(GlobalType { mutability, value })
}
