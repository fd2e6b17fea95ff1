ghost use Rattle.std.specs.Prelude.{◌≡◌, ◌↔◌, ℕ, ℤ, ◌≤◌, ◌<◌, ◌^◌, drop, length, IfOk};
ghost use Rattle.leb.specs.Faults.{AreSigns, AreZeros, HasUnusedBits, IsCutShort, IsTooLong};
ghost use Rattle.leb.specs.inside.Reading.{Gives, unsigned_at, signed_at};
ghost use Rattle.leb.specs.Spelling.{IsUnsigned, IsSigned, FitsBits, IsSpelledAt};

use crate::fault::LebFault;

/// Reads the unsigned number of 32 bits whose spelling starts at `at` (Core 1.0, 5.2.2). It returns
/// the number and the position after its spelling.
///
/// A spelling may be longer than the number needs, up to 5 bytes. `at` may be past the end. The fault
/// is `Truncated` where the bytes end within the number, and `TooLong` where it goes on past 5 bytes.
/// It is `UnusedBits` where the fifth byte ends the number but its bits 4 to 6, which are beyond the
/// 32, are not all 0.
pub fn read_u32(bytes: &[u8], at: usize) -> Result<(u32, usize), LebFault>
    // The number returned is spelled there.
    ensures found { IfOk result (λ x. IsSpelledAt (IsUnsigned 32) bytes.now at x.0 x.1) }
    ensures inside { IfOk result (λ x. (at < x.1) × (x.1 ≤ length bytes.now)) }

    // A number spelled there is returned.
    ensures only { (n next : ℕ) → IsSpelledAt (IsUnsigned 32) bytes.now at n next
        → result ≡ Ok (n, next) }

    // When each fault is returned.
    ensures truncated { (result ≡ Err LebFault.Truncated) ↔ IsCutShort 5 (drop at bytes.now) }
    ensures too_long { (result ≡ Err LebFault.TooLong) ↔ IsTooLong 5 (drop at bytes.now) }
    ensures unused_bits { (result ≡ Err LebFault.UnusedBits)
        ↔ HasUnusedBits 4 (AreZeros 4) (drop at bytes.now) }

    // The same as one function, which reads from left to right.
    ensures exact { Gives (λ x. (x.0, drop x.1 bytes.now))
        result (unsigned_at 32 (drop at bytes.now)) }
{
    unsigned(32, bytes, at)
}

/// Reads the signed number of 32 bits whose spelling starts at `at` (Core 1.0, 5.2.2). It returns
/// the number and the position after its spelling.
///
/// A spelling may be longer than the number needs, up to 5 bytes. `at` may be past the end. The fault
/// is `Truncated` where the bytes end within the number, and `TooLong` where it goes on past 5 bytes.
/// It is `UnusedBits` where the fifth byte ends the number but its bits 4 to 6, which are beyond the
/// 32, do not all repeat the sign, bit 3.
pub fn read_s32(bytes: &[u8], at: usize) -> Result<(i32, usize), LebFault>
    // The number returned is spelled there.
    ensures found { IfOk result (λ x. IsSpelledAt (IsSigned 32) bytes.now at x.0 x.1) }
    ensures inside { IfOk result (λ x. (at < x.1) × (x.1 ≤ length bytes.now)) }

    // A number spelled there is returned.
    ensures only { (z : ℤ) (next : ℕ) → IsSpelledAt (IsSigned 32) bytes.now at z next
        → result ≡ Ok (z, next) }

    // When each fault is returned.
    ensures truncated { (result ≡ Err LebFault.Truncated) ↔ IsCutShort 5 (drop at bytes.now) }
    ensures too_long { (result ≡ Err LebFault.TooLong) ↔ IsTooLong 5 (drop at bytes.now) }
    ensures unused_bits { (result ≡ Err LebFault.UnusedBits)
        ↔ HasUnusedBits 4 (AreSigns 4) (drop at bytes.now) }

    // The same as one function, which reads from left to right.
    ensures exact { Gives (λ x. (x.0, drop x.1 bytes.now))
        result (signed_at 32 (drop at bytes.now)) }
{
    signed_32(bytes, at)
}

/// Reads the signed number of 64 bits whose spelling starts at `at` (Core 1.0, 5.2.2). It returns
/// the number and the position after its spelling.
///
/// A spelling may be longer than the number needs, up to 10 bytes. `at` may be past the end. The fault
/// is `Truncated` where the bytes end within the number, and `TooLong` where it goes on past 10 bytes.
/// It is `UnusedBits` where the tenth byte ends the number but its bits 1 to 6, which are beyond the
/// 64, do not all repeat the sign, bit 0.
pub fn read_s64(bytes: &[u8], at: usize) -> Result<(i64, usize), LebFault>
    // The number returned is spelled there.
    ensures found { IfOk result (λ x. IsSpelledAt (IsSigned 64) bytes.now at x.0 x.1) }
    ensures inside { IfOk result (λ x. (at < x.1) × (x.1 ≤ length bytes.now)) }

    // A number spelled there is returned.
    ensures only { (z : ℤ) (next : ℕ) → IsSpelledAt (IsSigned 64) bytes.now at z next
        → result ≡ Ok (z, next) }

    // When each fault is returned.
    ensures truncated { (result ≡ Err LebFault.Truncated) ↔ IsCutShort 10 (drop at bytes.now) }
    ensures too_long { (result ≡ Err LebFault.TooLong) ↔ IsTooLong 10 (drop at bytes.now) }
    ensures unused_bits { (result ≡ Err LebFault.UnusedBits)
        ↔ HasUnusedBits 9 (AreSigns 1) (drop at bytes.now) }

    // The same as one function, which reads from left to right.
    ensures exact { Gives (λ x. (x.0, drop x.1 bytes.now))
        result (signed_at 64 (drop at bytes.now)) }
{
    signed(64, bytes, at)
}

// Reads an unsigned number of `bits` bits at `at`, and returns it with the position after it.
fn unsigned(bits: u32, bytes: &[u8], at: usize) -> Result<(u32, usize), LebFault>
    requires { bits ≤ 32 }
    ensures inside { IfOk result (λ x. (at < x.1) × (x.1 ≤ length bytes.now)) }
    ensures below { IfOk result (λ x. x.0 < 2 ^ bits) }
    ensures exact { Gives (λ x. (x.0, drop x.1 bytes.now))
        result (unsigned_at bits (drop at bytes.now)) }
{
    if at >= bytes.len() {
        return Err(LebFault::Truncated);
    }
    let byte = u32::from(bytes[at]);
    if byte < 128 {
        if u64::from(byte) < 1 << bits {
            Ok((byte, at + 1))
        } else {
            Err(LebFault::UnusedBits)
        }
    } else if bits <= 7 {
        Err(LebFault::TooLong)
    } else {
        let (high, next) = unsigned(bits - 7, bytes, at + 1)?;
        Ok((high * 128 + (byte - 128), next))
    }
}

// Reads a signed number of `bits` bits at `at`, and returns it with the position after it.
fn signed(bits: u32, bytes: &[u8], at: usize) -> Result<(i64, usize), LebFault>
    requires some { 0 < bits }
    requires most { bits ≤ 64 }
    ensures inside { IfOk result (λ x. (at < x.1) × (x.1 ≤ length bytes.now)) }
    ensures fits { IfOk result (λ x. FitsBits bits x.0) }
    ensures exact { Gives (λ x. (x.0, drop x.1 bytes.now))
        result (signed_at bits (drop at bytes.now)) }
{
    if at >= bytes.len() {
        return Err(LebFault::Truncated);
    }
    let byte = i64::from(bytes[at]);
    let half = 1i128 << (bits - 1);
    if byte < 64 {
        if i128::from(byte) < half {
            Ok((byte, at + 1))
        } else {
            Err(LebFault::UnusedBits)
        }
    } else if byte < 128 {
        if 128 <= i128::from(byte) + half {
            Ok((byte - 128, at + 1))
        } else {
            Err(LebFault::UnusedBits)
        }
    } else if bits <= 7 {
        Err(LebFault::TooLong)
    } else {
        let (high, next) = signed(bits - 7, bytes, at + 1)?;
        Ok((high * 128 + (byte - 128), next))
    }
}

// Reads a signed number of 32 bits at `at`, and returns it with the position after it.
fn signed_32(bytes: &[u8], at: usize) -> Result<(i32, usize), LebFault>
    ensures inside { IfOk result (λ x. (at < x.1) × (x.1 ≤ length bytes.now)) }
    ensures exact { Gives (λ x. (x.0, drop x.1 bytes.now))
        result (signed_at 32 (drop at bytes.now)) }
{
    let (number, next) = signed(32, bytes, at)?;
    Ok((number as i32, next))
}
