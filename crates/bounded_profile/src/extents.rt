//! The extents of the bytes that loads and stores of a module reach.

ghost use Rattle.std.specs.Prelude.{◌≤◌, length, IfOk, OnOk};
ghost use Rattle.verified.specs.Memory.{MinimumsWithin};
ghost use Rattle.bounded_profile.specs.inside.Footprint.{AreExtents, IsUpTo, Adds};
ghost use Rattle.verified.specs.inside.Extents.{TellReached};

use crate::footprint::footprint_marks;
use std::alloc::{AllocError, Global};
use verified::Extent;
use wasm_ast::Module;

/// Finds the extents of the module's footprint, in order of address. The only error is that an allocation fails.
pub fn footprint_extents(alloc: Global, module: &Module) -> Result<Vec<Extent>, AllocError>
    requires { MinimumsWithin «module».now }
    ensures { IfOk result (λ extents. TellReached «module».now extents.items) }
{
    let marks = footprint_marks(alloc, module)?;
    let extents = extents_of(alloc, &marks)?;
    Ok(extents)
}

// Finds the extents of the marked bytes.
fn extents_of(alloc: Global, marks: &[bool]) -> Result<Vec<Extent>, AllocError>
    requires { length marks.now ≤ 1048576 }
    ensures { IfOk result (λ extents. AreExtents marks.now extents.items) }
{
    let mut extents = Vec::new(alloc);
    // `from` is one past the last byte that is not marked; `below` counts the bytes of the extents so far.
    let mut from: u32 = 0;
    let mut below: u32 = 0;
    for (byte, is_marked) in marks.iter().enumerate() {
        if !*is_marked {
            let to = byte as u32;
            add_extent(&mut extents, Extent { from, to, below })?;
            below += to - from;
            from = to + 1;
        }
    }
    let to = marks.len() as u32;
    add_extent(&mut extents, Extent { from, to, below })?;
    Ok(extents)
}

// Appends an extent, unless it is empty.
fn add_extent(extents: &mut Vec<Extent>, extent: Extent) -> Result<(), AllocError>
    requires behind { IsUpTo extents.old.items extent.from extent.below }
    requires ends { extent.from ≤ extent.to }
    ensures { OnOk result (Adds extent extents.old.items extents.new.items) }
{
    if extent.from < extent.to {
        extents.push(extent)?;
    }
    Ok(())
}
