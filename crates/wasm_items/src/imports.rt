//! Readers of imports (Core 1.0, 5.5.5).

ghost use Rattle.wasm_items.specs.inside.Reading.{GivesAndLeaves};
ghost use Rattle.wasm_items.specs.inside.ReadingItems.{import_of, import_at, import_description_at};

use crate::fault::{DecodeFault, DecodeRule};
use crate::item::Item;
use crate::names::name;
use crate::reader::Reader;
use crate::types::{global_type, limits, table_type};
use std::alloc::Global;
use wasm_ast::{Import, ImportDescription};

impl Item for Import {
    type Read = Import;

    ghost item_at = { import_at };

    #[tactic(auto, unfolding(crate::specs::inside::ReadingItems::import_at))]
    fn read(alloc: Global, reader: &mut Reader) -> Result<Import, DecodeFault> {
        let module = name(alloc, reader)?;
        let name = name(alloc, reader)?;
        let description = import_description(reader)?;
        Ok(Import {
            module,
            name,
            description,
        })
    }
}

#[tactic(auto, unfolding(crate::specs::inside::ReadingItems::import_description_at))]
fn import_description(reader: &mut Reader) -> Result<ImportDescription, DecodeFault>
    ensures { GivesAndLeaves result reader.new (import_description_at reader.old) }
{
    let place = reader.place();
    let kind = reader.byte()?;
    import_of(reader, kind, place)
}

// Reads what follows the byte of a kind at `place`.
#[tactic(auto, unfolding(crate::specs::inside::ReadingItems::import_of))]
fn import_of(reader: &mut Reader, kind: u8, place: usize) -> Result<ImportDescription, DecodeFault>
    ensures { GivesAndLeaves result reader.new (import_of kind reader.old) }
{
    match kind {
        0x00 => {
            let type_number = reader.u32()?;
            Ok(ImportDescription::Function(type_number))
        }
        0x01 => {
            let table = table_type(reader)?;
            Ok(ImportDescription::Table(table))
        }
        0x02 => {
            let memory = limits(reader)?;
            Ok(ImportDescription::Memory(memory))
        }
        0x03 => {
            let global = global_type(reader)?;
            Ok(ImportDescription::Global(global))
        }
        _ => Err(DecodeFault::Refused(DecodeRule::BadByte, place)),
    }
}
