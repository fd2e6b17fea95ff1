//! Readers of globals, elements and data (Core 1.0, 5.5.9, 5.5.12 and 5.5.14).

ghost use Rattle.wasm_items.specs.inside.Reading.{GivesAndLeaves, part_at};
ghost use Rattle.wasm_items.specs.inside.ReadingItems.{global_at, element_at, data_at};

use crate::body::expression;
use crate::fault::DecodeFault;
use crate::item::{Item, vector};
use crate::reader::Reader;
use crate::types::global_type;
use std::alloc::Global;
use wasm_ast::{Data, Element, Global as ModuleGlobal, Sequence};

impl Item for ModuleGlobal {
    type Read = ModuleGlobal;

    ghost item_at = { global_at };

    #[tactic(auto, unfolding(crate::specs::inside::ReadingItems::global_at))]
    fn read(alloc: Global, reader: &mut Reader) -> Result<ModuleGlobal, DecodeFault> {
        let global_type = global_type(reader)?;
        let initial = expression(alloc, reader)?;
        Ok(ModuleGlobal {
            global_type,
            initial,
        })
    }
}

impl Item for Element {
    type Read = Element;

    ghost item_at = { element_at };

    #[tactic(auto, unfolding(crate::specs::inside::ReadingItems::element_at))]
    fn read(alloc: Global, reader: &mut Reader) -> Result<Element, DecodeFault> {
        let table = reader.u32()?;
        let offset = expression(alloc, reader)?;
        let functions = vector::<u32>(alloc, reader, u32::MAX)?;
        Ok(Element {
            table,
            offset,
            functions,
        })
    }
}

impl Item for Data {
    type Read = Data;

    ghost item_at = { data_at };

    #[tactic(auto, unfolding(crate::specs::inside::ReadingItems::data_at))]
    fn read(alloc: Global, reader: &mut Reader) -> Result<Data, DecodeFault> {
        let memory = reader.u32()?;
        let offset = expression(alloc, reader)?;
        let bytes = bytes(alloc, reader)?;
        Ok(Data {
            memory,
            offset,
            bytes,
        })
    }
}

// Reads a count, and that many bytes.
#[tactic(auto, unfolding(crate::specs::inside::Reading::part_at))]
fn bytes(alloc: Global, reader: &mut Reader) -> Result<Sequence<u8>, DecodeFault>
    ensures { GivesAndLeaves result reader.new (part_at reader.old) }
{
    let len = reader.u32()?;
    let bytes = reader.take(len)?;
    let copy = Vec::from_slice(alloc, bytes)?;
    Ok(Sequence::from(copy))
}
