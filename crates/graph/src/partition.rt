//! Lists cut into parts, and sorted, by the ids of their elements.

ghost use Rattle.std.specs.Prelude.{◌≡◌, ◌%◌, ◌<◌, [], IfOk, OnOk, map, vec_items};
ghost use Rattle.std.specs.List.Sorted.{IsNonDecreasing, IsPermutation};
ghost use Rattle.graph.specs.Partition.{parts_by};

use std::alloc::{AllocError, Global};

/// An element with an id, which decides its part and its place in a list.
pub trait Identified: Drop {
    ghost use Rattle.std.specs.Prelude.{◌≡◌, ℕ};

    ghost id: { Self → ℕ };

    fn id(&self) -> u64
        ensures { result ≡ id self.now };
}

impl<'a, T: Identified> Identified for &'a T {
    ghost id = { λ element. T.id element.now };

    fn id(&self) -> u64 {
        (**self).id()
    }
}

/// Returns the part of an id, which is the id modulo the number of parts.
pub fn part_of(id: u64, parts: u32) -> u32
    requires { 0 < parts }
    ensures { result ≡ id % parts }
{
    (id % u64::from(parts)) as u32
}

/// Cuts a list into parts. Each part keeps the order of its elements, which are moved, not copied.
pub fn cut_by_id<T: Identified>(
    alloc: Global,
    elements: Vec<T>,
    parts: u32,
) -> Result<Vec<Vec<T>>, AllocError>
    requires { 0 < parts }
    ensures { IfOk result (λ cut. map vec_items cut.items ≡ parts_by T.id parts elements.items) }
{
    // Where the ids have no gap, this is the size of the largest part, so that no part grows.
    let room = elements.len().div_ceil(parts as usize);
    let mut cut = empty_parts(alloc, parts, room)?;
    for element in elements {
        let part = part_of(element.id(), parts) as usize;
        cut[part].push(element)?;
    }
    Ok(cut)
}

// Returns this number of empty parts, each with room for `room` elements.
fn empty_parts<T: Identified>(
    alloc: Global,
    count: u32,
    room: usize,
) -> Result<Vec<Vec<T>>, AllocError>
    ensures { IfOk result (λ parts. map vec_items parts.items ≡ parts_by T.id count []) }
{
    let mut parts = Vec::with_capacity(alloc, count as usize)?;
    for part in 0..count {
        parts.push_reserved(Vec::with_capacity(alloc, room)?);
    }
    Ok(parts)
}

/// Lists the ids of the elements, in their order.
pub fn ids_of<T: Identified>(alloc: Global, elements: &[T]) -> Result<Vec<u64>, AllocError>
    ensures { IfOk result (λ ids. ids.items ≡ map T.id elements.now) }
{
    let mut ids = Vec::with_capacity(alloc, elements.len())?;
    for element in elements {
        ids.push_reserved(element.id());
    }
    Ok(ids)
}

/// Sorts the elements by id. It allocates nothing.
pub fn sort_by_id<T: Identified>(elements: &mut Vec<T>)
    ensures permutation { IsPermutation elements.old.items elements.new.items }
    ensures sorted { IsNonDecreasing (map T.id elements.new.items) }
{
    elements.sort_unstable_by_key(|element| element.id());
}

/// Sorts the elements by id. It is faster than `sort_by_id` where the list is a few sorted runs, such as parts one after
/// another. It fails only where memory runs out.
pub fn merge_by_id<T: Identified>(elements: &mut Vec<T>) -> Result<(), AllocError>
    ensures permutation { IsPermutation elements.old.items elements.new.items }
    ensures sorted { OnOk result (IsNonDecreasing (map T.id elements.new.items)) }
{
    elements.sort_by_key(|element| element.id())
}
