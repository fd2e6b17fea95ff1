//! Runs of adjacent bytes in a memory, and how many of their bytes are below a given byte.

ghost use Rattle.std.specs.Prelude.{◌≡◌, leb};
ghost use Rattle.verified.specs.inside.Extents.{AreInOrder, PartsAt, in_extents};

/// Adjacent bytes: `from` is the first, `to` is one past the last. `below` counts the bytes of all extents before
/// this one.
#[derive(Clone, Copy)]
pub struct Extent {
    pub from: u32,
    pub to: u32,
    pub below: u32,
}

/// Counts the bytes of the extents that are below this byte.
pub fn bytes_below(extents: &[Extent], byte: u32) -> u32
    requires { AreInOrder 0 0 extents.now }
    ensures { result ≡ in_extents extents.now byte }
{
    let count = extents_up_to(extents, byte);
    if count == 0 {
        return 0;
    }
    let extent = extents[count - 1];
    extent.below + (byte.min(extent.to) - extent.from)
}

// Counts the extents that begin at the byte or before it. It takes logarithmic time.
fn extents_up_to(extents: &[Extent], byte: u32) -> usize
    requires { AreInOrder 0 0 extents.now }
    ensures { PartsAt extents.now byte result }
{
    extents.partition_point(
        |extent: &Extent| -> bool
            ensures { result ≡ leb extent.now.from byte }
        { extent.from <= byte },
    )
}
