//! The numeric instructions of i64 (Core 1.0, 4.3.2), on unsigned values.

ghost use Rattle.std.specs.Prelude.{◌≡◌, ◌==◌, false, not, nat_lt, nat_le, int_lt, int_le, bit_and, bit_or, bit_xor};
ghost use Rattle.semantics.specs.Operations.{clz, ctz, popcnt, add, sub, mul, div_s, div_u, rem_s, rem_u, division_traps, shl, shr_s, shr_u, rotl, rotr, eqz_value};
ghost use Rattle.wasm_ast.specs.Numeric.{signed, truth};
ghost use Rattle.wasm_ast.specs.declared.numeric.Division.TheVariants.{DivS, DivU, RemS, RemU};

/// Counts the zero bits above the highest 1 bit: `i64.clz`. It is 64 for 0.
pub fn i64_clz(x: u64) -> u64
    ensures { result ≡ clz 64 x }
{
    u64::from(x.leading_zeros())
}

/// Counts the zero bits below the lowest 1 bit: `i64.ctz`. It is 64 for 0.
pub fn i64_ctz(x: u64) -> u64
    ensures { result ≡ ctz 64 x }
{
    u64::from(x.trailing_zeros())
}

/// Counts the bits that are 1: `i64.popcnt`.
pub fn i64_popcnt(x: u64) -> u64
    ensures { result ≡ popcnt 64 x }
{
    u64::from(x.count_ones())
}

/// Computes `i64.add`: the sum modulo 2^64.
pub fn i64_add(x: u64, y: u64) -> u64
    ensures { result ≡ add 64 x y }
{
    x.wrapping_add(y)
}

/// Computes `i64.sub`: the difference modulo 2^64.
pub fn i64_sub(x: u64, y: u64) -> u64
    ensures { result ≡ sub 64 x y }
{
    x.wrapping_sub(y)
}

/// Computes `i64.mul`: the product modulo 2^64.
pub fn i64_mul(x: u64, y: u64) -> u64
    ensures { result ≡ mul 64 x y }
{
    x.wrapping_mul(y)
}

/// Computes `i64.div_s`, the signed quotient rounded towards 0. `y` must not be 0, and not -1 where `x` is -2^63.
pub fn i64_div_s(x: u64, y: u64) -> u64
    requires { division_traps 64 DivS x y ≡ false }
    ensures { result ≡ div_s 64 x y }
{
    (x.cast_signed() / y.cast_signed()).cast_unsigned()
}

/// Computes `i64.div_u`, the unsigned quotient rounded down. `y` must not be 0.
pub fn i64_div_u(x: u64, y: u64) -> u64
    requires { division_traps 64 DivU x y ≡ false }
    ensures { result ≡ div_u 64 x y }
{
    x / y
}

/// Computes `i64.rem_s`, the signed remainder, which has the sign of `x`. It is 0 where `y` is -1. `y` must not be 0.
pub fn i64_rem_s(x: u64, y: u64) -> u64
    requires { division_traps 64 RemS x y ≡ false }
    ensures { result ≡ rem_s 64 x y }
{
    x.cast_signed()
        .wrapping_rem(y.cast_signed())
        .cast_unsigned()
}

/// Computes `i64.rem_u`, the unsigned remainder. `y` must not be 0.
pub fn i64_rem_u(x: u64, y: u64) -> u64
    requires { division_traps 64 RemU x y ≡ false }
    ensures { result ≡ rem_u 64 x y }
{
    x % y
}

/// Computes `i64.and`: the bits that are 1 in both.
pub fn i64_and(x: u64, y: u64) -> u64
    ensures { result ≡ bit_and x y }
{
    x & y
}

/// Computes `i64.or`: the bits that are 1 in either.
pub fn i64_or(x: u64, y: u64) -> u64
    ensures { result ≡ bit_or x y }
{
    x | y
}

/// Computes `i64.xor`: the bits that differ.
pub fn i64_xor(x: u64, y: u64) -> u64
    ensures { result ≡ bit_xor x y }
{
    x ^ y
}

/// Computes `i64.shl`: `x` shifted left by `y` modulo 64.
pub fn i64_shl(x: u64, y: u64) -> u64
    ensures { result ≡ shl 64 x y }
{
    x << (y % 64)
}

/// Computes `i64.shr_s`: the signed `x` shifted right by `y` modulo 64, with copies of the sign bit on the left.
pub fn i64_shr_s(x: u64, y: u64) -> u64
    ensures { result ≡ shr_s 64 x y }
{
    (x.cast_signed() >> (y % 64)).cast_unsigned()
}

/// Computes `i64.shr_u`: `x` shifted right by `y` modulo 64.
pub fn i64_shr_u(x: u64, y: u64) -> u64
    ensures { result ≡ shr_u 64 x y }
{
    x >> (y % 64)
}

/// Computes `i64.rotl`: `x` rotated left by `y` modulo 64.
pub fn i64_rotl(x: u64, y: u64) -> u64
    ensures { result ≡ rotl 64 x y }
{
    x.rotate_left((y % 64) as u32)
}

/// Computes `i64.rotr`: `x` rotated right by `y` modulo 64.
pub fn i64_rotr(x: u64, y: u64) -> u64
    ensures { result ≡ rotr 64 x y }
{
    x.rotate_right((y % 64) as u32)
}

/// Computes `i64.eqz`: 1 for 0, and 0 for any other value.
pub fn i64_eqz(x: u64) -> u32
    ensures { result ≡ eqz_value x }
{
    u32::from(x == 0)
}

/// Computes `i64.eq`: 1 where the values are equal, else 0.
pub fn i64_eq(x: u64, y: u64) -> u32
    ensures { result ≡ truth (x == y) }
{
    u32::from(x == y)
}

/// Computes `i64.ne`: 1 where the values differ, else 0.
pub fn i64_ne(x: u64, y: u64) -> u32
    ensures { result ≡ truth (not (x == y)) }
{
    u32::from(x != y)
}

/// Computes `i64.lt_s`: 1 where the signed `x` is below the signed `y`, else 0.
pub fn i64_lt_s(x: u64, y: u64) -> u32
    ensures { result ≡ truth (int_lt (signed 64 x) (signed 64 y)) }
{
    u32::from(x.cast_signed() < y.cast_signed())
}

/// Computes `i64.lt_u`: 1 where `x` is below `y`, else 0.
pub fn i64_lt_u(x: u64, y: u64) -> u32
    ensures { result ≡ truth (nat_lt x y) }
{
    u32::from(x < y)
}

/// Computes `i64.gt_s`: 1 where the signed `x` is above the signed `y`, else 0.
pub fn i64_gt_s(x: u64, y: u64) -> u32
    ensures { result ≡ truth (int_lt (signed 64 y) (signed 64 x)) }
{
    u32::from(x.cast_signed() > y.cast_signed())
}

/// Computes `i64.gt_u`: 1 where `x` is above `y`, else 0.
pub fn i64_gt_u(x: u64, y: u64) -> u32
    ensures { result ≡ truth (nat_lt y x) }
{
    u32::from(x > y)
}

/// Computes `i64.le_s`: 1 where the signed `x` is at most the signed `y`, else 0.
pub fn i64_le_s(x: u64, y: u64) -> u32
    ensures { result ≡ truth (int_le (signed 64 x) (signed 64 y)) }
{
    u32::from(x.cast_signed() <= y.cast_signed())
}

/// Computes `i64.le_u`: 1 where `x` is at most `y`, else 0.
pub fn i64_le_u(x: u64, y: u64) -> u32
    ensures { result ≡ truth (nat_le x y) }
{
    u32::from(x <= y)
}

/// Computes `i64.ge_s`: 1 where the signed `x` is at least the signed `y`, else 0.
pub fn i64_ge_s(x: u64, y: u64) -> u32
    ensures { result ≡ truth (int_le (signed 64 y) (signed 64 x)) }
{
    u32::from(x.cast_signed() >= y.cast_signed())
}

/// Computes `i64.ge_u`: 1 where `x` is at least `y`, else 0.
pub fn i64_ge_u(x: u64, y: u64) -> u32
    ensures { result ≡ truth (nat_le y x) }
{
    u32::from(x >= y)
}
