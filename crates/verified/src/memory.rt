//! The size of the memory of a module that imports none.

ghost use Rattle.std.specs.Prelude.{◌≡◌, ◌*◌};
ghost use Rattle.verified.specs.Memory.{page, memory_bytes};

use wasm_ast::Module;

/// The size of a page in bytes (Core 1.0, 4.2.8).
const PAGE: u64 = 65_536;

/// Counts the bytes of the initial memory.
pub fn memory_bytes(module: &Module) -> u64
    ensures { result ≡ memory_bytes «module».now }
{
    match module.memories.as_slice().first() {
        Some(limits) => bytes_of(limits.minimum),
        None => 0,
    }
}

fn bytes_of(pages: u32) -> u64
    ensures { result ≡ page * pages }
{
    PAGE * u64::from(pages)
}
