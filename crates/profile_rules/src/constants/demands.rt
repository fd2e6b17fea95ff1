//! The demand on one operand.

ghost use Rattle.std.specs.Prelude.{◌≡◌};
ghost use Rattle.profile_rules.specs.inside.Tracking.{is_met};

use verified::{AGGREGATORS, Premise};
use wasm_ast::ValType;

/// The demand on an operand.
#[derive(Clone, Copy)]
pub enum Demand {
    /// Nothing.
    Any,
    /// A known constant of the type that meets the premise.
    Constant(ValType, Premise),
}

/// Decides whether the constant meets the premise in a memory of this many bytes. Nothing wraps.
pub fn is_met(bytes: u64, of: ValType, premise: Premise, constant: u64) -> bool
    ensures { result ≡ is_met bytes of premise constant }
{
    match premise {
        Premise::Reaches(offset, width) => {
            let past = u64::from(offset) + u64::from(width);
            past <= bytes && constant <= bytes - past
        }
        Premise::Divides => constant != 0,
        Premise::DividesSigned => constant != 0 && constant != minus_one(of),
        Premise::IsSlot => constant < u64::from(AGGREGATORS),
    }
}

ghost use Rattle.verified.specs.Kinds.{minus_one};

/// Returns -1 of the type, read unsigned.
fn minus_one(of: ValType) -> u64
    ensures { result ≡ minus_one of }
{
    match of {
        ValType::I32 => u64::from(u32::MAX),
        ValType::I64 => u64::MAX,
    }
}
