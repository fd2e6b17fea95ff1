//! Writers of numbers and vectors (Core 1.0, 5.1 and 5.2), in the fewest bytes.

ghost use Rattle.std.specs.Prelude.{◌≡◌, ◌++◌, ◌∷◌, ℕ, List, [], OnOk};
ghost use Rattle.leb.specs.Spelling.{u32_spelling};
ghost use Rattle.wasm_items.specs.Canonical.{sized, vector};

use std::alloc::AllocError;

/// A part of a module that has a canonical spelling of its own.
pub trait Part {
    ghost spelling: { Self → List ℕ };

    /// Appends the canonical spelling. An `Err` means out of memory.
    fn write(&self, out: &mut Vec<u8>) -> Result<(), AllocError>
        ensures { OnOk result (out.new.items ≡ out.old.items ++ spelling self.now) };
}

/// Writes an unsigned number (Core 1.0, 5.2.2).
impl Part for u32 {
    ghost spelling = { u32_spelling };

    fn write(&self, out: &mut Vec<u8>) -> Result<(), AllocError> {
        leb::write_u32(out, *self)
    }
}

/// Appends a byte.
pub fn write_byte(out: &mut Vec<u8>, byte: u8) -> Result<(), AllocError>
    ensures { OnOk result (out.new.items ≡ out.old.items ++ byte ∷ []) }
{
    out.push(byte)?;
    Ok(())
}

/// Appends a count or a size, in at most five bytes. One of more than 35 bits needs more, but its module is over the size
/// limit anyway.
pub fn write_count(out: &mut Vec<u8>, count: usize) -> Result<(), AllocError>
    ensures { OnOk result (out.new.items ≡ out.old.items ++ u32_spelling count) }
{
    let mut rest = count;
    for _ in 0..5u32 {
        if rest < 128 {
            out.push(rest as u8)?;
            return Ok(());
        }
        out.push((rest % 128) as u8 + 128)?;
        rest /= 128;
    }
    Ok(())
}

/// Appends the length of the bytes, then the bytes.
#[tactic(auto, unfolding(crate::specs::Canonical::sized))]
pub fn write_sized(out: &mut Vec<u8>, bytes: &[u8]) -> Result<(), AllocError>
    ensures { OnOk result (out.new.items ≡ out.old.items ++ sized bytes.now) }
{
    write_count(out, bytes.len())?;
    out.extend_from_slice(bytes)?;
    Ok(())
}

/// Appends the number of the items, then the items (Core 1.0, 5.1.3).
pub fn write_vector<T: Part>(out: &mut Vec<u8>, items: &[T]) -> Result<(), AllocError>
    ensures { OnOk result (out.new.items ≡ out.old.items ++ vector T.spelling items.now) }
{
    write_count(out, items.len())?;
    for item in items {
        item.write(out)?;
    }
    Ok(())
}
