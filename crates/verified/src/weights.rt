//! The table of weights: the units that each instruction costs.

ghost use Rattle.std.specs.Prelude.{◌≡◌};
ghost use Rattle.verified.specs.Weights.{branch_units, host_units, plain_units};

use crate::HostCall;
use wasm_ast::{Binary, Branch, Memory, Numeric, Plain};

/// Returns the units of an instruction that neither branches nor calls: 1, 2, 3 or 6.
#[inline]
pub fn plain_units(plain: Plain) -> u32
    ensures { result ≡ plain_units plain }
{
    match plain {
        Plain::Numeric(Numeric::Division(_, _)) => 6,
        Plain::Numeric(Numeric::Binary(_, Binary::Mul)) => 3,
        Plain::Memory(Memory::Load(_, _) | Memory::Store(_, _)) => 2,
        _ => 1,
    }
}

/// Returns the units of a branch: 2 for `br_table`, else 1.
#[inline]
pub fn branch_units(branch: &Branch) -> u32
    ensures { result ≡ branch_units branch.now }
{
    match branch {
        Branch::BrTable(_, _) => 2,
        _ => 1,
    }
}

/// Returns the units of a call of this host function: 8 for `send` and `aggregate`, else 2. `None` is any other function.
#[inline]
pub fn host_units(call: Option<HostCall>) -> u32
    ensures { result ≡ host_units call }
{
    match call {
        Some(HostCall::Send | HostCall::Aggregate) => 8,
        _ => 2,
    }
}
