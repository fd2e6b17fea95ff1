//! Readers of vectors (Core 1.0, 5.1.3).

ghost use Rattle.std.specs.Prelude.{◌≡◌, List, ℕ, Option};
ghost use Rattle.wasm_items.specs.inside.Reading.{Gives, GivesAndLeaves, vector_at, items_at, u32_at};

use crate::fault::{DecodeFault, DecodeRule};
use crate::reader::Reader;
use std::alloc::Global;
use wasm_ast::Sequence;

/// An item of a vector, which can be read from the front of the bytes.
pub trait Item {
    /// The type of the item that is read.
    type Read;

    ghost item_at: { List ℕ → Option (Self.Read × List ℕ) };

    fn read(alloc: Global, reader: &mut Reader) -> Result<Self::Read, DecodeFault>
        ensures { GivesAndLeaves result reader.new (item_at reader.old) };
}

impl Item for u32 {
    type Read = u32;

    ghost item_at = { u32_at };

    fn read(_alloc: Global, reader: &mut Reader) -> Result<u32, DecodeFault> {
        reader.u32()
    }
}

/// Reads a count of at most `most`, and that many items (Core 1.0, 5.1.3). A greater count is `OverLimit`.
#[tactic(auto, unfolding(crate::specs::inside::Reading::vector_at))]
pub fn vector<T: Item>(
    alloc: Global,
    reader: &mut Reader,
    most: u32,
) -> Result<Sequence<T::Read>, DecodeFault>
where
    T::Read: Drop,
    ensures { GivesAndLeaves result reader.new (vector_at T.item_at most reader.old) }
{
    let place = reader.place();
    let count = reader.u32()?;
    if count > most {
        return Err(DecodeFault::Refused(DecodeRule::OverLimit, place));
    }
    let all = items::<T>(alloc, reader, count)?;
    Ok(Sequence::from(all))
}

fn items<T: Item>(
    alloc: Global,
    reader: &mut Reader,
    count: u32,
) -> Result<Vec<T::Read>, DecodeFault>
where
    T::Read: Drop,
    ensures { Gives (λ xs. (xs.items, reader.new)) result (items_at T.item_at count reader.old) }
{
    let mut all = Vec::new(alloc);
    for _ in 0..count {
        let item = T::read(alloc, reader)?;
        all.push(item)?;
    }
    Ok(all)
}
