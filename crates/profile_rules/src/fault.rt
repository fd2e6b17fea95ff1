//! Why a module is not in the bounded profile.

ghost use Rattle.std.specs.Prelude.{◌≡◌, Some};
ghost use Rattle.std.specs.Fmt.{DisplaysOnOk};
ghost use Rattle.profile_rules.specs.declared.fault.ProfileFault.TheVariants.{OutOfMemory};
ghost use Rattle.profile_rules.specs.Faults.{cost_fault};
ghost use Rattle.profile_rules.specs.FaultText.{cycle_text, fault_text, rule_word};

use cost::CostFault;
use std::alloc::{AllocError, AllocFailed};
use std::error::Error;
use std::fmt;
use validate::Place;

/// A rule of the bounded profile.
#[derive(Clone, Copy)]
pub enum ProfileRule {
    /// Every import is a function of the host, with its type.
    P1,
    /// There is an exported function `compute` of no parameters and no results, which the module defines.
    P2,
    /// There is no start function.
    P3,
    /// There are no elements.
    P4,
    /// There is no `call_indirect`.
    P5,
    /// There is no `unreachable`.
    P6,
    /// There is no `memory.grow`.
    P7,
    /// Nothing comes after `br`, `br_table` or `return` in a sequence.
    P8,
    /// Each loop takes an item each time round, at its beginning or at its end, and is left where there is none.
    P9,
    /// The memory begins with at most 16 pages. Each address is a known constant in it.
    P10,
    /// Each divisor is a known constant with which no operand traps.
    P11,
    /// No function calls itself, directly or through others. The fault is the cycle.
    P12,
    /// Each number of an aggregator is a known constant.
    P13,
    /// The size of `compute` with calls inlined is at most `cost::MAX_SIZE`.
    P14,
}

impl ProfileRule {
    // Returns the name of the rule.
    fn word(self) -> &'static str
        ensures { result.now ≡ rule_word self }
    {
        match self {
            ProfileRule::P1 => "P1",
            ProfileRule::P2 => "P2",
            ProfileRule::P3 => "P3",
            ProfileRule::P4 => "P4",
            ProfileRule::P5 => "P5",
            ProfileRule::P6 => "P6",
            ProfileRule::P7 => "P7",
            ProfileRule::P8 => "P8",
            ProfileRule::P9 => "P9",
            ProfileRule::P10 => "P10",
            ProfileRule::P11 => "P11",
            ProfileRule::P12 => "P12",
            ProfileRule::P13 => "P13",
            ProfileRule::P14 => "P14",
        }
    }
}

/// Why a module is not in the bounded profile. It is printed as the rule and the place, and a cycle as `P12` and its
/// numbers.
#[derive(Drop)]
pub enum ProfileFault {
    /// The module breaks the rule at this place.
    Breaks(ProfileRule, Place),
    /// The module breaks P12: each function calls the next one, and the last calls the first. The first has the least
    /// number.
    Cycle(Vec<u32>),
    /// An allocation failed.
    OutOfMemory,
}

impl fmt::Display for ProfileFault {
    ghost output = { λ fault. Some (fault_text fault) };

    fn fmt<W: fmt::Write>(&self, f: &mut fmt::Formatter<W>) -> fmt::Result {
        match self {
            ProfileFault::Breaks(rule, place) => {
                let word = rule.word();
                write!(f, "{word} {place}")
            }
            ProfileFault::Cycle(functions) => write_cycle(functions, f),
            ProfileFault::OutOfMemory => f.write_str("OutOfMemory - -"),
        }
    }
}

// Writes the rule and the numbers of the functions.
fn write_cycle<W: fmt::Write>(functions: &[u32], f: &mut fmt::Formatter<W>) -> fmt::Result
    ensures { DisplaysOnOk W.write_str_gives f.old result (Some (cycle_text functions.now)) f.new }
{
    f.write_str("P12")?;
    for function in functions {
        write!(f, " {function}")?;
    }
    Ok(())
}

impl fmt::Debug for ProfileFault {
    fn fmt<W: fmt::Write>(&self, f: &mut fmt::Formatter<W>) -> fmt::Result {
        write!(f, "{self}")
    }
}

impl Error for ProfileFault {}

impl From<CostFault> for ProfileFault {
    ghost from_gives = { λ fault told. told ≡ cost_fault fault };

    fn from(fault: CostFault) -> ProfileFault {
        match fault {
            CostFault::Cycle(functions) => ProfileFault::Cycle(functions),
            CostFault::OutOfMemory => ProfileFault::OutOfMemory,
        }
    }
}

impl From<AllocError> for ProfileFault {
    ghost from_gives = { λ _ fault. fault ≡ OutOfMemory };

    fn from(_: AllocError) -> ProfileFault {
        ProfileFault::OutOfMemory
    }
}

impl<T: Drop> From<AllocFailed<T>> for ProfileFault {
    ghost from_gives = { λ _ fault. fault ≡ OutOfMemory };

    fn from(_: AllocFailed<T>) -> ProfileFault {
        ProfileFault::OutOfMemory
    }
}
