//! Types, tables and memories (Core 1.0, 3.2, 3.4.2 and 3.4.3).

ghost use Rattle.std.specs.Prelude.{◌≡◌, ◌↔◌, ◌≤◌, length, IsTrue};
ghost use Rattle.std.specs.List.{AllByRecursion};
ghost use Rattle.verified.specs.Modules.{TypeHolds, MaximumHolds, TableHolds, MemoryHolds, IsWithinPages};
ghost use Rattle.validate.specs.inside.Findings.{Settles};

use crate::fault::{Rule, ValidFault};
use wasm_ast::{FuncType, Limits};

/// The most pages of a memory, of 65,536 bytes each (Core 1.0, 3.2.4).
const MAX_PAGES: u32 = 65_536;

/// Checks that each type has at most one result (Core 1.0, 3.2.2).
pub fn check_types(types: &[FuncType]) -> Result<(), ValidFault>
    ensures { Settles (AllByRecursion TypeHolds types.now) result }
{
    for function_type in types {
        if function_type.results.as_slice().len() > 1 {
            return Err(ValidFault::from(Rule::Limits));
        }
    }
    Ok(())
}

/// Checks that there is at most one table, and that its maximum is at least its minimum (Core 1.0, 3.2.3 and 3.4.10).
pub fn check_tables(tables: &[Limits]) -> Result<(), ValidFault>
    ensures { Settles ((length tables.now ≤ 1) × AllByRecursion TableHolds tables.now) result }
{
    if tables.len() > 1 {
        return Err(ValidFault::from(Rule::Limits));
    }
    for table in tables {
        if !is_ordered(*table) {
            return Err(ValidFault::from(Rule::Limits));
        }
    }
    Ok(())
}

/// Checks that there is at most one memory, of at most `MAX_PAGES` pages, and that its maximum is at least its minimum
/// (Core 1.0, 3.2.4 and 3.4.10).
pub fn check_memories(memories: &[Limits]) -> Result<(), ValidFault>
    ensures { Settles ((length memories.now ≤ 1) × AllByRecursion MemoryHolds memories.now) result }
{
    if memories.len() > 1 {
        return Err(ValidFault::from(Rule::Limits));
    }
    for memory in memories {
        if !is_memory(*memory) {
            return Err(ValidFault::from(Rule::Limits));
        }
    }
    Ok(())
}

fn is_memory(limits: Limits) -> bool
    ensures { IsTrue result ↔ MemoryHolds limits }
{
    limits.minimum <= MAX_PAGES && is_within_pages(limits.maximum) && is_ordered(limits)
}

fn is_within_pages(maximum: Option<u32>) -> bool
    ensures { IsTrue result ↔ IsWithinPages maximum }
{
    match maximum {
        Some(pages) => pages <= MAX_PAGES,
        None => true,
    }
}

fn is_ordered(limits: Limits) -> bool
    ensures { IsTrue result ↔ MaximumHolds limits.minimum limits.maximum }
{
    match limits.maximum {
        Some(maximum) => limits.minimum <= maximum,
        None => true,
    }
}
