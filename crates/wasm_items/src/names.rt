//! Readers of names (Core 1.0, 5.2.4).

ghost use Rattle.wasm_items.specs.inside.Reading.{Gives, GivesAndLeaves, name_at};

use crate::fault::{DecodeFault, DecodeRule};
use crate::reader::Reader;
use std::alloc::Global;
use std::str;
use wasm_ast::Name;

/// Reads a name, and borrows its text from the bytes (Core 1.0, 5.2.4).
#[tactic(auto, unfolding(crate::specs::inside::Reading::name_at, crate::specs::inside::Reading::part_at))]
pub fn text<'a>(reader: &mut Reader<'a>) -> Result<&'a str, DecodeFault>
    ensures { Gives (λ text. (text.now, reader.new)) result (name_at reader.old) }
{
    let len = reader.u32()?;
    let place = reader.place();
    let bytes = reader.take(len)?;
    match str::from_utf8(bytes) {
        Ok(text) => Ok(text),
        Err(_) => Err(DecodeFault::Refused(DecodeRule::Utf8, place)),
    }
}

/// Reads a name, and copies its text (Core 1.0, 5.2.4).
pub fn name(alloc: Global, reader: &mut Reader) -> Result<Name, DecodeFault>
    ensures { GivesAndLeaves result reader.new (name_at reader.old) }
{
    let text = text(reader)?;
    let name = String::from_str(alloc, text)?;
    Ok(Name::from(name))
}
