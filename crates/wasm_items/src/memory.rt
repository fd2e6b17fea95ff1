//! Readers of memory instructions (Core 1.0, 5.4.4).

ghost use Rattle.std.specs.Prelude.{◌≡◌, ◌-◌, ◌≤◌};
ghost use Rattle.wasm_items.specs.inside.Reading.{GivesAndLeaves};
ghost use Rattle.wasm_items.specs.inside.ReadingCode.{memory_argument_at, load_of, store_of, load_at, store_at, memory_at, after_zero};

use crate::fault::{DecodeFault, DecodeRule};
use crate::reader::Reader;
use wasm_ast::{Load, MAX_ALIGN, Memory, MemoryArgument, Store};

/// Reads what follows an opcode from 28 to 40 at `place`.
#[tactic(auto, unfolding(crate::specs::inside::ReadingCode::memory_at))]
pub fn memory(reader: &mut Reader, opcode: u8, place: usize) -> Result<Memory, DecodeFault>
    requires { 0x28 ≤ opcode }
    ensures { GivesAndLeaves result reader.new (memory_at opcode reader.old) }
{
    match opcode {
        0x3F => after_zero(reader, Memory::Size),
        0x40 => after_zero(reader, Memory::Grow),
        0..=0x35 => load(reader, opcode, place),
        _ => store(reader, opcode, place),
    }
}

#[tactic(auto, unfolding(crate::specs::inside::ReadingCode::load_at))]
fn load(reader: &mut Reader, opcode: u8, place: usize) -> Result<Memory, DecodeFault>
    requires { 0x28 ≤ opcode }
    ensures { GivesAndLeaves result reader.new (load_at opcode reader.old) }
{
    let Some(load) = load_at(opcode - 0x28) else {
        return Err(DecodeFault::Refused(DecodeRule::Unsupported, place));
    };
    let argument = memory_argument(reader)?;
    Ok(Memory::Load(load, argument))
}

#[tactic(auto, unfolding(crate::specs::inside::ReadingCode::store_at))]
fn store(reader: &mut Reader, opcode: u8, place: usize) -> Result<Memory, DecodeFault>
    requires { 0x36 ≤ opcode }
    ensures { GivesAndLeaves result reader.new (store_at opcode reader.old) }
{
    let Some(store) = store_at(opcode - 0x36) else {
        return Err(DecodeFault::Refused(DecodeRule::Unsupported, place));
    };
    let argument = memory_argument(reader)?;
    Ok(Memory::Store(store, argument))
}

// Returns the load at a position among the loads. Those of floats are not supported.
fn load_at(place: u8) -> Option<Load>
    ensures { result ≡ load_of place }
{
    Some(match place {
        0 => Load::I32,
        1 => Load::I64,
        4 => Load::I32From8S,
        5 => Load::I32From8U,
        6 => Load::I32From16S,
        7 => Load::I32From16U,
        8 => Load::I64From8S,
        9 => Load::I64From8U,
        10 => Load::I64From16S,
        11 => Load::I64From16U,
        12 => Load::I64From32S,
        13 => Load::I64From32U,
        _ => return None,
    })
}

// Returns the store at a position among the stores. Those of floats are not supported.
fn store_at(place: u8) -> Option<Store>
    ensures { result ≡ store_of place }
{
    Some(match place {
        0 => Store::I32,
        1 => Store::I64,
        4 => Store::I32To8,
        5 => Store::I32To16,
        6 => Store::I64To8,
        7 => Store::I64To16,
        8 => Store::I64To32,
        _ => return None,
    })
}

#[tactic(auto, unfolding(crate::specs::inside::ReadingCode::memory_argument_at))]
fn memory_argument(reader: &mut Reader) -> Result<MemoryArgument, DecodeFault>
    ensures { GivesAndLeaves result reader.new (memory_argument_at reader.old) }
{
    let place = reader.place();
    let align = reader.u32()?;
    if align > MAX_ALIGN {
        return Err(DecodeFault::Refused(DecodeRule::OverLimit, place));
    }
    let offset = reader.u32()?;
    Ok(MemoryArgument { align, offset })
}

/// Reads the 0 byte that names the only memory or table, and returns `whole`.
#[tactic(auto, unfolding(crate::specs::inside::ReadingCode::after_zero))]
pub fn after_zero<T: Drop>(reader: &mut Reader, whole: T) -> Result<T, DecodeFault>
    ensures { GivesAndLeaves result reader.new (after_zero whole reader.old) }
{
    let place = reader.place();
    if reader.byte()? != 0x00 {
        return Err(DecodeFault::Refused(DecodeRule::BadByte, place));
    }
    Ok(whole)
}
