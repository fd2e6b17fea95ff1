//! Writers of sections (Core 1.0, 5.5.2).

ghost use Rattle.std.specs.Prelude.{◌≡◌, ◌++◌, OnOk};
ghost use Rattle.wasm_decode.specs.Canonical.{section, vector_section};

use std::alloc::AllocError;
use wasm_items::{Part, write_byte, write_sized, write_vector};

/// Appends a section with this id and content (Core 1.0, 5.5.2).
#[tactic(auto, unfolding(crate::specs::Canonical::section))]
pub fn write_section(out: &mut Vec<u8>, number: u8, content: &[u8]) -> Result<(), AllocError>
    ensures { OnOk result (out.new.items ≡ out.old.items ++ section number content.now) }
{
    write_byte(out, number)?;
    write_sized(out, content)
}

/// Appends the section of a vector, or nothing where the vector is empty. `content` is a buffer for the section's
/// content; it is cleared first.
pub fn write_vector_section<T: Part>(
    out: &mut Vec<u8>,
    content: &mut Vec<u8>,
    number: u8,
    items: &[T],
) -> Result<(), AllocError>
    ensures { OnOk result (out.new.items
        ≡ out.old.items ++ vector_section number T.spelling items.now) }
{
    if items.is_empty() {
        return Ok(());
    }
    content.clear();
    write_vector(content, items)?;
    write_section(out, number, content)
}
