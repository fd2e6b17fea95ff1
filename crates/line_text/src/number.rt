//! The numbers in a line.

ghost use Rattle.std.specs.Prelude.{◌≡◌, ◌-◌, ◌^◌, ◌<◌};
ghost use Rattle.line_text.specs.Number.{id_of, number_of, numeral};

// The greatest number of an `i64`.
const MAX_NUMBER: u64 = 9_223_372_036_854_775_807;

/// Reads a number: decimal digits with an optional `-`, in the range of an `i64`.
///
/// Leading zeros and `-0` are allowed. A field with any other character, such as `+`, is no number.
pub fn number_of(field: &[u8]) -> Option<i64>
    ensures { result ≡ number_of field.now }
{
    if let [b'-', ..] = field {
        let (_, digits) = field.split_at(1);
        let number = numeral(MAX_NUMBER + 1, digits)?;
        return Some((-i128::from(number)) as i64);
    }
    let number = numeral(MAX_NUMBER, field)?;
    Some(number as i64)
}

/// Reads an id: decimal digits of a number from 0 to 9,223,372,036,854,775,807.
pub fn id_of(field: &[u8]) -> Option<u64>
    ensures { result ≡ id_of field.now }
{
    numeral(MAX_NUMBER, field)
}

// Reads decimal digits of a number that is at most `most`.
fn numeral(most: u64, digits: &[u8]) -> Option<u64>
    requires { most < 2 ^ 64 - 1 }
    ensures { result ≡ numeral most digits.now }
{
    // It stays at the greatest number of a `u64` where the digits pass it.
    let mut number = 0u64;
    for digit in digits {
        if *digit < b'0' || b'9' < *digit {
            return None;
        }
        number = number
            .saturating_mul(10)
            .saturating_add(u64::from(*digit - b'0'));
    }
    if digits.is_empty() || number > most {
        return None;
    }
    Some(number)
}
