//! The faults of validation.

ghost use Rattle.std.specs.Prelude.{◌≡◌, Some};
ghost use Rattle.std.specs.Fmt.{DisplaysOnOk};
ghost use Rattle.validate.specs.declared.fault.ValidFault.TheVariants.{Breaks, OutOfMemory};
ghost use Rattle.validate.specs.Faults.{fault_text, nowhere, number_text, place_text, rule_word};
ghost use Rattle.validate.specs.inside.Findings.{placed};

use std::alloc::{AllocError, AllocFailed};
use std::error::Error;
use std::fmt;

/// A rule that a module breaks.
#[derive(Clone, Copy)]
pub enum Rule {
    /// A type index names no type.
    TypeNumber,
    /// A function index names no function.
    Function,
    /// A local index names no local.
    Local,
    /// A global index names no global.
    Global,
    /// A label index names no label.
    Label,
    /// The memory that is used does not exist.
    Memory,
    /// The table that is used does not exist.
    Table,
    /// The operands or results have the wrong types, or there are too many or too few.
    Mismatch,
    /// A constant global is set.
    Immutable,
    /// An alignment is greater than the width of the access.
    Alignment,
    /// Two exports have the same name.
    DuplicateExport,
    /// An initialiser or an offset is not one constant instruction.
    ConstExpr,
    /// There is more than one result, table or memory, a maximum is below its minimum, or a memory is above 65,536 pages.
    /// Or the module is not `wasm_ast::within_limits`.
    Limits,
    /// The start function has parameters or results.
    StartType,
}

impl Rule {
    // Returns the rule's name, as it is printed.
    fn word(self) -> &'static str
        ensures { result.now ≡ rule_word self }
    {
        match self {
            Rule::TypeNumber => "TypeNumber",
            Rule::Function => "Function",
            Rule::Local => "Local",
            Rule::Global => "Global",
            Rule::Label => "Label",
            Rule::Memory => "Memory",
            Rule::Table => "Table",
            Rule::Mismatch => "Mismatch",
            Rule::Immutable => "Immutable",
            Rule::Alignment => "Alignment",
            Rule::DuplicateExport => "DuplicateExport",
            Rule::ConstExpr => "ConstExpr",
            Rule::Limits => "Limits",
            Rule::StartType => "StartType",
        }
    }
}

/// The place where a rule is broken. It is printed as its two numbers, with `-` for one that is absent.
#[derive(Clone, Copy)]
pub struct Place {
    /// The index of the function, imports first, where the fault is in one.
    pub function: Option<u32>,
    /// The number of the instruction in the function's body, where the fault is in one. The first is 0, and a block comes
    /// before the instructions inside it. Numbers stop at 4,294,967,295.
    pub instruction: Option<u32>,
}

impl fmt::Display for Place {
    ghost output = { λ place. Some (place_text place) };

    fn fmt<W: fmt::Write>(&self, f: &mut fmt::Formatter<W>) -> fmt::Result {
        write_number(self.function, f)?;
        f.write_str(" ")?;
        write_number(self.instruction, f)
    }
}

// Writes the number, or `-` where there is none.
fn write_number<W: fmt::Write>(number: Option<u32>, f: &mut fmt::Formatter<W>) -> fmt::Result
    ensures { DisplaysOnOk W.write_str_gives f.old result (Some (number_text number)) f.new }
{
    match number {
        Some(number) => write!(f, "{number}"),
        None => f.write_str("-"),
    }
}

/// The reason why a module is not valid. It is printed as the rule's name and the place.
#[derive(Clone, Copy)]
pub enum ValidFault {
    /// The module breaks the rule at this place.
    Breaks(Rule, Place),
    /// An allocation failed.
    OutOfMemory,
}

impl fmt::Display for ValidFault {
    ghost output = { λ fault. Some (fault_text fault) };

    fn fmt<W: fmt::Write>(&self, f: &mut fmt::Formatter<W>) -> fmt::Result {
        match self {
            ValidFault::Breaks(rule, place) => {
                let word = rule.word();
                write!(f, "{word} {place}")
            }
            ValidFault::OutOfMemory => f.write_str("OutOfMemory - -"),
        }
    }
}

impl fmt::Debug for ValidFault {
    fn fmt<W: fmt::Write>(&self, f: &mut fmt::Formatter<W>) -> fmt::Result {
        write!(f, "{self}")
    }
}

impl Error for ValidFault {}

/// The place of a fault that is in no function.
pub const NOWHERE: Place = Place {
    function: None,
    instruction: None,
};

impl ValidFault {
    /// Returns the fault with this place. Out of memory has no place.
    pub(crate) fn at(self, place: Place) -> ValidFault
        ensures { result ≡ placed self place }
    {
        match self {
            ValidFault::Breaks(rule, _) => ValidFault::Breaks(rule, place),
            ValidFault::OutOfMemory => ValidFault::OutOfMemory,
        }
    }
}

impl From<Rule> for ValidFault {
    ghost from_gives = { λ rule fault. fault ≡ Breaks rule nowhere };

    fn from(rule: Rule) -> ValidFault {
        ValidFault::Breaks(rule, NOWHERE)
    }
}

impl From<AllocError> for ValidFault {
    ghost from_gives = { λ _ fault. fault ≡ OutOfMemory };

    fn from(_: AllocError) -> ValidFault {
        ValidFault::OutOfMemory
    }
}

impl<T: Drop> From<AllocFailed<T>> for ValidFault {
    ghost from_gives = { λ _ fault. fault ≡ OutOfMemory };

    fn from(_: AllocFailed<T>) -> ValidFault {
        ValidFault::OutOfMemory
    }
}
