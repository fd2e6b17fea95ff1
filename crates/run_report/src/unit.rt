//! The units of numbers on an axis.

ghost use Rattle.std.specs.Prelude.{◌≡◌, ◌≤◌, ◌<◌, ◌*◌, max};
ghost use Rattle.run_report.specs.Scale.{letter_of, size_of};

/// A power of a thousand, and its letter.
#[derive(Clone, Copy)]
pub enum Unit {
    One,
    Kilo,
    Mega,
    Giga,
    Tera,
    Peta,
    Exa,
}

impl Unit {
    /// The greatest that is not above this number; for 0 it is one.
    pub fn of(number: u64) -> Unit
        ensures within { size_of result ≤ max number 1 }
        ensures greatest { number < 1000 * size_of result }
    {
        match number {
            0..=999 => Unit::One,
            1_000..=999_999 => Unit::Kilo,
            1_000_000..=999_999_999 => Unit::Mega,
            1_000_000_000..=999_999_999_999 => Unit::Giga,
            1_000_000_000_000..=999_999_999_999_999 => Unit::Tera,
            1_000_000_000_000_000..=999_999_999_999_999_999 => Unit::Peta,
            _ => Unit::Exa,
        }
    }

    /// How great it is.
    pub fn size(self) -> u64
        ensures size { result ≡ size_of self }
        ensures some { 0 < result }
    {
        match self {
            Unit::One => 1,
            Unit::Kilo => 1_000,
            Unit::Mega => 1_000_000,
            Unit::Giga => 1_000_000_000,
            Unit::Tera => 1_000_000_000_000,
            Unit::Peta => 1_000_000_000_000_000,
            Unit::Exa => 1_000_000_000_000_000_000,
        }
    }

    /// What stands for it behind a number.
    pub fn letter(self) -> &'static str
        ensures { result.now ≡ letter_of self }
    {
        match self {
            Unit::One => "",
            Unit::Kilo => "k",
            Unit::Mega => "M",
            Unit::Giga => "G",
            Unit::Tera => "T",
            Unit::Peta => "P",
            Unit::Exa => "E",
        }
    }
}
