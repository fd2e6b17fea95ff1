//! Readers of sections (Core 1.0, 5.5.2), and of the custom sections between them.

ghost use Rattle.std.specs.Prelude.{◌≡◌, Some, None, [], true, false, OnOk, IfErr};
ghost use Rattle.wasm_items.specs.inside.Reading.{Gives, GivesAndLeaves, IsRefusal, found, is_empty};
ghost use Rattle.wasm_decode.specs.inside.ReadingModule.{skip_customs as customs_skipped, custom_at, section_at, vector_in, imports_in, start_in, code_in, closed as closed_behind, is_later as may_follow};

use crate::code::code;
use crate::imports::imports;
use std::alloc::Global;
use wasm_ast::{Data, FuncType, Function, Import, Sequence};
use wasm_items::{DecodeFault, DecodeRule, Item, Reader, text, vector};

// The ids of the sections (Core 1.0, 5.5.2).
const CUSTOM: u8 = 0;

pub const TYPE: u8 = 1;

pub const IMPORT: u8 = 2;

pub const FUNCTION: u8 = 3;

pub const TABLE: u8 = 4;

pub const MEMORY: u8 = 5;

pub const GLOBAL: u8 = 6;

pub const EXPORT: u8 = 7;

pub const START: u8 = 8;

pub const ELEMENT: u8 = 9;

pub const CODE: u8 = 10;

pub const DATA: u8 = 11;

/// Skips the custom sections that come next (Core 1.0, 5.5.3).
#[tactic(auto, unfolding(crate::specs::inside::ReadingModule::skip_customs))]
pub fn skip_customs(reader: &mut Reader) -> Result<(), DecodeFault>
    ensures { Gives (λ _. reader.new) result (customs_skipped reader.old) }
{
    'each: while reader.peek() == Some(CUSTOM) {
        reader.pass();
        skip_custom(reader)?;
    }
    Ok(())
}

// Skips what follows the id of a custom section. Its name is checked.
#[tactic(auto, unfolding(crate::specs::inside::ReadingModule::custom_at))]
fn skip_custom(reader: &mut Reader) -> Result<(), DecodeFault>
    ensures { Gives (λ _. reader.new) result (custom_at reader.old) }
{
    let mut inside = reader.part()?;
    text(&mut inside)?;
    Ok(())
}

/// Reads the section of a vector with this id, empty where it is absent, and skips the custom sections after it.
#[tactic(auto, unfolding(crate::specs::inside::ReadingModule::section_with))]
pub fn vector_section<T: Item>(
    alloc: Global,
    reader: &mut Reader,
    number: u8,
    most: u32,
) -> Result<Sequence<T::Read>, DecodeFault>
where
    T::Read: Drop,
    ensures { GivesAndLeaves result reader.new (vector_in T.item_at most number reader.old) }
{
    let Some(mut inside) = section(reader, number)? else {
        return Ok(Sequence::empty(alloc));
    };
    let items = vector::<T>(alloc, &mut inside, most)?;
    closed(inside, reader, items)
}

/// Reads the import section (Core 1.0, 5.5.5), empty where it is absent, and skips the custom sections after it.
#[tactic(auto, unfolding(crate::specs::inside::ReadingModule::section_with))]
pub fn import_section(alloc: Global, reader: &mut Reader) -> Result<Sequence<Import>, DecodeFault>
    ensures { GivesAndLeaves result reader.new (imports_in reader.old) }
{
    let Some(mut inside) = section(reader, IMPORT)? else {
        return Ok(Sequence::empty(alloc));
    };
    let items = imports(alloc, &mut inside)?;
    closed(inside, reader, items)
}

/// Reads the start section (Core 1.0, 5.5.11), `None` where it is absent, and skips the custom sections after it.
#[tactic(auto, unfolding(crate::specs::inside::ReadingModule::section_with, crate::specs::inside::ReadingModule::start_at))]
pub fn start_section(reader: &mut Reader) -> Result<Option<u32>, DecodeFault>
    ensures { GivesAndLeaves result reader.new (start_in reader.old) }
{
    let Some(mut inside) = section(reader, START)? else {
        return Ok(None);
    };
    let function = inside.u32()?;
    closed(inside, reader, Some(function))
}

/// Reads the code section (Core 1.0, 5.5.13), and skips the custom sections after it. It may be absent
/// where there are no functions.
#[tactic(auto, unfolding(crate::specs::inside::ReadingModule::section_with))]
pub fn code_section(
    alloc: Global,
    reader: &mut Reader,
    types: &[FuncType],
    type_numbers: &[u32],
) -> Result<Sequence<Function>, DecodeFault>
    ensures { GivesAndLeaves result reader.new (code_in types.now type_numbers.now reader.old) }
{
    let Some(mut inside) = section(reader, CODE)? else {
        if type_numbers.is_empty() {
            return Ok(Sequence::empty(alloc));
        }
        return Err(without_bodies(alloc, reader));
    };
    let functions = code(alloc, &mut inside, types, type_numbers)?;
    closed(inside, reader, functions)
}

// Returns the fault of a module whose functions have no bodies. It is at the end of the file, after the data section.
fn without_bodies(alloc: Global, reader: &mut Reader) -> DecodeFault {
    let data = vector_section::<Data>(alloc, reader, DATA, u32::MAX);
    if let Err(fault) = data {
        return fault;
    }
    match end_of_sections(reader) {
        Ok(()) => DecodeFault::Refused(DecodeRule::CountMismatch, reader.place()),
        Err(fault) => fault,
    }
}

/// Checks that no section remains at the end of the module.
pub fn end_of_sections(reader: &Reader) -> Result<(), DecodeFault>
    ensures ok { OnOk result (is_empty reader.now ≡ true) }
    ensures err { IfErr result (λ fault. IsRefusal fault × (is_empty reader.now ≡ false)) }
{
    match reader.peek() {
        None => Ok(()),
        Some(id) => Err(no_section(id, reader.place())),
    }
}

// Ends a section whose content was read, skips the custom sections after it, and returns the content.
fn closed<T: Drop>(inside: Reader, reader: &mut Reader, content: T) -> Result<T, DecodeFault>
    ensures { GivesAndLeaves result reader.new
        (closed_behind (found (content, inside.entry)) reader.old) }
{
    inside.finish()?;
    skip_customs(reader)?;
    Ok(content)
}

// Returns a reader of the section with this id, or `None` where a later section or the end comes next.
#[tactic(auto, unfolding(crate::specs::inside::ReadingModule::section_at))]
fn section<'a>(reader: &mut Reader<'a>, number: u8) -> Result<Option<Reader<'a>>, DecodeFault>
    ensures { GivesAndLeaves result reader.new (section_at number reader.old) }
{
    let Some(id) = reader.peek() else {
        return Ok(None);
    };
    if id == number {
        reader.pass();
        let inside = reader.part()?;
        Ok(Some(inside))
    } else if is_later(id, number) {
        Ok(None)
    } else {
        Err(no_section(id, reader.place()))
    }
}

// Reports whether the section `id` may come after the section `number`.
fn is_later(id: u8, number: u8) -> bool
    ensures { result ≡ may_follow number id }
{
    number < id && id <= DATA
}

// Returns the fault of a section that may not come here: out of order, later than 1.0, or not a section.
fn no_section(id: u8, place: usize) -> DecodeFault
    ensures { IsRefusal result }
{
    match id {
        0..=11 => DecodeFault::Refused(DecodeRule::SectionOrder, place),
        12 => DecodeFault::Refused(DecodeRule::Unsupported, place),
        _ => DecodeFault::Refused(DecodeRule::BadByte, place),
    }
}
