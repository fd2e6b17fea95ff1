//! Which constants have to be known.

ghost use Rattle.std.specs.Prelude.{◌≡◌};
ghost use Rattle.verified.specs.Known.{division_premise};
ghost use Rattle.profile_rules.specs.inside.Tracking.{asks_of, asked};

use crate::constants::demands::Demand;
use verified::Premise;
use wasm_ast::{Division, ValType};

/// The constants that have to be known.
#[derive(Clone, Copy)]
pub enum Asks {
    /// The addresses of loads and stores.
    Addresses,
    /// Divisors.
    Divisors,
    /// The numbers of aggregators in `aggregate` and `aggregated`.
    Slots,
    /// All of them.
    All,
}

impl Asks {
    fn includes(self, premise: Premise) -> bool
        ensures { result ≡ asks_of self premise }
    {
        match (self, premise) {
            (Asks::All, _) => true,
            (Asks::Addresses, Premise::Reaches(_, _)) => true,
            (Asks::Divisors, Premise::Divides | Premise::DividesSigned) => true,
            (Asks::Slots, Premise::IsSlot) => true,
            _ => false,
        }
    }

    /// Returns the demand on an operand: a constant that meets the premise, where the premise is selected.
    pub fn demand(self, of: ValType, premise: Premise) -> Demand
        ensures { result ≡ asked self of premise }
    {
        if self.includes(premise) {
            Demand::Constant(of, premise)
        } else {
            Demand::Any
        }
    }
}

/// Returns the condition on a divisor with which no operand traps (Core 1.0, 4.3.2).
pub fn division_premise(division: Division) -> Premise
    ensures { result ≡ division_premise division }
{
    match division {
        Division::DivS => Premise::DividesSigned,
        Division::DivU | Division::RemS | Division::RemU => Premise::Divides,
    }
}
