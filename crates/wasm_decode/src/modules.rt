//! The reader of modules (Core 1.0, 5.5.15).

ghost use Rattle.std.specs.Prelude.{◌≡◌, IfOk, MatchResult};
ghost use Rattle.wasm_ast.specs.declared.module.Module.{Module as AnyModule};
ghost use Rattle.wasm_decode.specs.Grammar.{Spells};
ghost use Rattle.wasm_items.specs.inside.Reading.{Gives, GivesAndLeaves, IsRefusal};
ghost use Rattle.wasm_decode.specs.inside.ReadingModule.{types_at, numbers_at, spaces_at, exports_at, contents_at, remaining_at, filled_at, sections_at, after_bytes, module_at};

use crate::imports::imported_functions;
use crate::sections::{
    DATA, ELEMENT, EXPORT, FUNCTION, GLOBAL, MEMORY, TABLE, TYPE, code_section, end_of_sections,
    import_section, skip_customs, start_section, vector_section,
};
use std::alloc::Global;
use wasm_ast::{
    Data, Element, Export, FuncType, Global as ModuleGlobal, Limits, MAX_FUNCTIONS,
    MAX_MODULE_BYTES, Module, Sequence,
};
use wasm_items::{DecodeFault, DecodeRule, Reader, TableType};

pub const MAGIC: [u8; 4] = *b"\0asm";

pub const VERSION: [u8; 4] = [1, 0, 0, 0];

/// Decodes the module that all the bytes spell (Core 1.0, section 5).
///
/// Custom sections are skipped. The fault is the first from the left, with its position. It is
/// `OutOfMemory` only where an allocation fails. It is `Unsupported` for types and instructions of
/// floats, and for section 12, which is later than 1.0. It is `OverLimit` for:
///
/// - a file of more than 1,048,576 bytes;
/// - a type of more than 1,024 parameters or more than 1,024 results;
/// - a module of more than 1,024 functions, imports included;
/// - a function of more than 1,024 parameters and locals together;
/// - a `br_table` of more than 1,024 labels, not counting its default;
/// - more than 128 blocks, loops and ifs inside each other;
/// - an alignment above 2 to the power 31.
pub fn decode(alloc: Global, bytes: &[u8]) -> Result<Module, DecodeFault>
    // The bytes spell the module returned.
    ensures found { IfOk result (Spells bytes.now) }
    // A module that the bytes spell is returned, unless memory runs out.
    ensures only { (m : AnyModule) → Spells bytes.now m
        → MatchResult result (λ x. x ≡ m) (λ fault. fault ≡ DecodeFault.OutOfMemory) }
{
    module(alloc, bytes)
}

#[tactic(auto, unfolding(crate::specs::inside::ReadingModule::module_at))]
fn module(alloc: Global, bytes: &[u8]) -> Result<Module, DecodeFault>
    ensures exact { Gives (λ m. m) result (module_at bytes.now) }
{
    if bytes.len() > MAX_MODULE_BYTES {
        return Err(DecodeFault::Refused(DecodeRule::OverLimit, MAX_MODULE_BYTES));
    }
    let mut reader = Reader::new(bytes);
    expect(
        &mut reader,
        &MAGIC,
        DecodeFault::Refused(DecodeRule::Magic, 0),
    )?;
    expect(
        &mut reader,
        &VERSION,
        DecodeFault::Refused(DecodeRule::Version, 4),
    )?;
    sections(alloc, &mut reader)
}

// Reads exactly these bytes. Any other byte is the given fault.
#[tactic(auto, unfolding(crate::specs::inside::ReadingModule::after_bytes))]
fn expect(reader: &mut Reader, wanted: &[u8], fault: DecodeFault) -> Result<(), DecodeFault>
    requires { IsRefusal fault }
    ensures { Gives (λ _. reader.new) result (after_bytes wanted.now reader.old) }
{
    for byte in wanted {
        if reader.byte()? != *byte {
            return Err(fault);
        }
    }
    Ok(())
}

#[tactic(auto, unfolding(crate::specs::inside::ReadingModule::sections_at))]
fn sections(alloc: Global, reader: &mut Reader) -> Result<Module, DecodeFault>
    ensures { Gives (λ m. m) result (sections_at reader.old) }
{
    let mut module = Module::empty(alloc);
    fill(alloc, reader, &mut module)?;
    Ok(module)
}

// Reads all sections into a module, and replaces its contents.
#[tactic(auto, unfolding(crate::specs::inside::ReadingModule::filled_at))]
fn fill(alloc: Global, reader: &mut Reader, module: &mut Module) -> Result<(), DecodeFault>
    ensures { Gives (λ _. «module».new) result (filled_at «module».old reader.old) }
{
    skip_customs(reader)?;
    types_and_imports(alloc, reader, module)?;
    let imported = imported_functions(module.imports.as_slice());
    let type_numbers = type_numbers(alloc, reader, imported)?;
    remaining(alloc, reader, &type_numbers, module)
}

// Reads the sections after the function section, to the end of the file.
#[tactic(auto, unfolding(crate::specs::inside::ReadingModule::remaining_at))]
fn remaining(
    alloc: Global,
    reader: &mut Reader,
    type_numbers: &Sequence<u32>,
    module: &mut Module,
) -> Result<(), DecodeFault>
    ensures { Gives (λ _. «module».new)
        result (remaining_at type_numbers.now «module».old reader.old) }
{
    spaces(alloc, reader, module)?;
    exports(alloc, reader, module)?;
    contents(alloc, reader, type_numbers, module)?;
    end_of_sections(reader)?;
    Ok(())
}

#[tactic(auto, unfolding(crate::specs::inside::ReadingModule::types_at))]
fn types_and_imports(
    alloc: Global,
    reader: &mut Reader,
    module: &mut Module,
) -> Result<(), DecodeFault>
    ensures { Gives (λ _. («module».new, reader.new)) result (types_at «module».old reader.old) }
{
    module.types = vector_section::<FuncType>(alloc, reader, TYPE, u32::MAX)?;
    module.imports = import_section(alloc, reader)?;
    Ok(())
}

// Reads the function section of a module that imports `imported` functions.
#[tactic(auto, unfolding(crate::specs::inside::ReadingModule::numbers_at))]
fn type_numbers(
    alloc: Global,
    reader: &mut Reader,
    imported: usize,
) -> Result<Sequence<u32>, DecodeFault>
    ensures { GivesAndLeaves result reader.new (numbers_at imported reader.old) }
{
    let room = (MAX_FUNCTIONS as usize).saturating_sub(imported) as u32;
    vector_section::<u32>(alloc, reader, FUNCTION, room)
}

// Reads tables, memories and globals.
#[tactic(auto, unfolding(crate::specs::inside::ReadingModule::spaces_at))]
fn spaces(alloc: Global, reader: &mut Reader, module: &mut Module) -> Result<(), DecodeFault>
    ensures { Gives (λ _. («module».new, reader.new)) result (spaces_at «module».old reader.old) }
{
    module.tables = vector_section::<TableType>(alloc, reader, TABLE, u32::MAX)?;
    module.memories = vector_section::<Limits>(alloc, reader, MEMORY, u32::MAX)?;
    module.globals = vector_section::<ModuleGlobal>(alloc, reader, GLOBAL, u32::MAX)?;
    Ok(())
}

// Reads exports, the start function, and elements.
#[tactic(auto, unfolding(crate::specs::inside::ReadingModule::exports_at))]
fn exports(alloc: Global, reader: &mut Reader, module: &mut Module) -> Result<(), DecodeFault>
    ensures { Gives (λ _. («module».new, reader.new)) result (exports_at «module».old reader.old) }
{
    module.exports = vector_section::<Export>(alloc, reader, EXPORT, u32::MAX)?;
    module.start = start_section(reader)?;
    module.elements = vector_section::<Element>(alloc, reader, ELEMENT, u32::MAX)?;
    Ok(())
}

// Reads functions with these type indices, and data.
#[tactic(auto, unfolding(crate::specs::inside::ReadingModule::contents_at))]
fn contents(
    alloc: Global,
    reader: &mut Reader,
    type_numbers: &Sequence<u32>,
    module: &mut Module,
) -> Result<(), DecodeFault>
    ensures { Gives (λ _. («module».new, reader.new))
        result (contents_at type_numbers.now «module».old reader.old) }
{
    let types = module.types.as_slice();
    module.functions = code_section(alloc, reader, types, type_numbers.as_slice())?;
    module.data = vector_section::<Data>(alloc, reader, DATA, u32::MAX)?;
    Ok(())
}
