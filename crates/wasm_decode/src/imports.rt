//! The reader of the content of the import section (Core 1.0, 5.5.5).

ghost use Rattle.std.specs.Prelude.{◌≡◌};
ghost use Rattle.wasm_ast.specs.Limits.{imported_functions as functions_of};
ghost use Rattle.wasm_items.specs.inside.Reading.{GivesAndLeaves};
ghost use Rattle.wasm_decode.specs.inside.ReadingModule.{imports_at};

use std::alloc::Global;
use wasm_ast::{Import, ImportDescription, MAX_FUNCTIONS, Sequence};
use wasm_items::{DecodeFault, DecodeRule, Reader, vector};

/// Reads the content of the import section. It may import at most as many functions as a module may have.
#[tactic(auto, unfolding(crate::specs::inside::ReadingModule::imports_at))]
pub fn imports(alloc: Global, reader: &mut Reader) -> Result<Sequence<Import>, DecodeFault>
    ensures { GivesAndLeaves result reader.new (imports_at reader.old) }
{
    let place = reader.place();
    let imports = vector::<Import>(alloc, reader, u32::MAX)?;
    if imported_functions(imports.as_slice()) > MAX_FUNCTIONS as usize {
        return Err(DecodeFault::Refused(DecodeRule::OverLimit, place));
    }
    Ok(imports)
}

/// Counts the imports that are functions.
pub fn imported_functions(imports: &[Import]) -> usize
    ensures { result ≡ functions_of imports.now }
{
    imports
        .iter()
        .filter(|i| matches!(i.description, ImportDescription::Function(_)))
        .count()
}
