//! Readers of exports (Core 1.0, 5.5.10).

ghost use Rattle.wasm_items.specs.inside.Reading.{GivesAndLeaves};
ghost use Rattle.wasm_items.specs.inside.ReadingItems.{export_at, export_description_at};

use crate::fault::{DecodeFault, DecodeRule};
use crate::item::Item;
use crate::names::name;
use crate::reader::Reader;
use std::alloc::Global;
use wasm_ast::{Export, ExportDescription};

impl Item for Export {
    type Read = Export;

    ghost item_at = { export_at };

    #[tactic(auto, unfolding(crate::specs::inside::ReadingItems::export_at))]
    fn read(alloc: Global, reader: &mut Reader) -> Result<Export, DecodeFault> {
        let name = name(alloc, reader)?;
        let description = export_description(reader)?;
        Ok(Export { name, description })
    }
}

#[tactic(auto, unfolding(crate::specs::inside::ReadingItems::export_description_at))]
fn export_description(reader: &mut Reader) -> Result<ExportDescription, DecodeFault>
    ensures { GivesAndLeaves result reader.new (export_description_at reader.old) }
{
    let place = reader.place();
    let kind = reader.byte()?;
    if kind > 0x03 {
        return Err(DecodeFault::Refused(DecodeRule::BadByte, place));
    }
    let number = reader.u32()?;
    Ok(match kind {
        0x00 => ExportDescription::Function(number),
        0x01 => ExportDescription::Table(number),
        0x02 => ExportDescription::Memory(number),
        _ => ExportDescription::Global(number),
    })
}
