//! The numeric instructions of i32 (Core 1.0, 4.3.2), on unsigned values.

ghost use Rattle.std.specs.Prelude.{◌≡◌, ◌==◌, false, not, nat_lt, nat_le, int_lt, int_le, bit_and, bit_or, bit_xor};
ghost use Rattle.semantics.specs.Operations.{clz, ctz, popcnt, add, sub, mul, div_s, div_u, rem_s, rem_u, division_traps, shl, shr_s, shr_u, rotl, rotr, eqz_value};
ghost use Rattle.wasm_ast.specs.Numeric.{signed, truth};
ghost use Rattle.wasm_ast.specs.declared.numeric.Division.TheVariants.{DivS, DivU, RemS, RemU};

/// Counts the zero bits above the highest 1 bit: `i32.clz`. It is 32 for 0.
pub fn i32_clz(x: u32) -> u32
    ensures { result ≡ clz 32 x }
{
    x.leading_zeros()
}

/// Counts the zero bits below the lowest 1 bit: `i32.ctz`. It is 32 for 0.
pub fn i32_ctz(x: u32) -> u32
    ensures { result ≡ ctz 32 x }
{
    x.trailing_zeros()
}

/// Counts the bits that are 1: `i32.popcnt`.
pub fn i32_popcnt(x: u32) -> u32
    ensures { result ≡ popcnt 32 x }
{
    x.count_ones()
}

/// Computes `i32.add`: the sum modulo 2^32.
pub fn i32_add(x: u32, y: u32) -> u32
    ensures { result ≡ add 32 x y }
{
    x.wrapping_add(y)
}

/// Computes `i32.sub`: the difference modulo 2^32.
pub fn i32_sub(x: u32, y: u32) -> u32
    ensures { result ≡ sub 32 x y }
{
    x.wrapping_sub(y)
}

/// Computes `i32.mul`: the product modulo 2^32.
pub fn i32_mul(x: u32, y: u32) -> u32
    ensures { result ≡ mul 32 x y }
{
    x.wrapping_mul(y)
}

/// Computes `i32.div_s`, the signed quotient rounded towards 0. `y` must not be 0, and not -1 where `x` is -2^31.
pub fn i32_div_s(x: u32, y: u32) -> u32
    requires { division_traps 32 DivS x y ≡ false }
    ensures { result ≡ div_s 32 x y }
{
    (x.cast_signed() / y.cast_signed()).cast_unsigned()
}

/// Computes `i32.div_u`, the unsigned quotient rounded down. `y` must not be 0.
pub fn i32_div_u(x: u32, y: u32) -> u32
    requires { division_traps 32 DivU x y ≡ false }
    ensures { result ≡ div_u 32 x y }
{
    x / y
}

/// Computes `i32.rem_s`, the signed remainder, which has the sign of `x`. It is 0 where `y` is -1. `y` must not be 0.
pub fn i32_rem_s(x: u32, y: u32) -> u32
    requires { division_traps 32 RemS x y ≡ false }
    ensures { result ≡ rem_s 32 x y }
{
    x.cast_signed()
        .wrapping_rem(y.cast_signed())
        .cast_unsigned()
}

/// Computes `i32.rem_u`, the unsigned remainder. `y` must not be 0.
pub fn i32_rem_u(x: u32, y: u32) -> u32
    requires { division_traps 32 RemU x y ≡ false }
    ensures { result ≡ rem_u 32 x y }
{
    x % y
}

/// Computes `i32.and`: the bits that are 1 in both.
pub fn i32_and(x: u32, y: u32) -> u32
    ensures { result ≡ bit_and x y }
{
    x & y
}

/// Computes `i32.or`: the bits that are 1 in either.
pub fn i32_or(x: u32, y: u32) -> u32
    ensures { result ≡ bit_or x y }
{
    x | y
}

/// Computes `i32.xor`: the bits that differ.
pub fn i32_xor(x: u32, y: u32) -> u32
    ensures { result ≡ bit_xor x y }
{
    x ^ y
}

/// Computes `i32.shl`: `x` shifted left by `y` modulo 32.
pub fn i32_shl(x: u32, y: u32) -> u32
    ensures { result ≡ shl 32 x y }
{
    x << (y % 32)
}

/// Computes `i32.shr_s`: the signed `x` shifted right by `y` modulo 32, with copies of the sign bit on the left.
pub fn i32_shr_s(x: u32, y: u32) -> u32
    ensures { result ≡ shr_s 32 x y }
{
    (x.cast_signed() >> (y % 32)).cast_unsigned()
}

/// Computes `i32.shr_u`: `x` shifted right by `y` modulo 32.
pub fn i32_shr_u(x: u32, y: u32) -> u32
    ensures { result ≡ shr_u 32 x y }
{
    x >> (y % 32)
}

/// Computes `i32.rotl`: `x` rotated left by `y` modulo 32.
pub fn i32_rotl(x: u32, y: u32) -> u32
    ensures { result ≡ rotl 32 x y }
{
    x.rotate_left(y)
}

/// Computes `i32.rotr`: `x` rotated right by `y` modulo 32.
pub fn i32_rotr(x: u32, y: u32) -> u32
    ensures { result ≡ rotr 32 x y }
{
    x.rotate_right(y)
}

/// Computes `i32.eqz`: 1 for 0, and 0 for any other value.
pub fn i32_eqz(x: u32) -> u32
    ensures { result ≡ eqz_value x }
{
    u32::from(x == 0)
}

/// Computes `i32.eq`: 1 where the values are equal, else 0.
pub fn i32_eq(x: u32, y: u32) -> u32
    ensures { result ≡ truth (x == y) }
{
    u32::from(x == y)
}

/// Computes `i32.ne`: 1 where the values differ, else 0.
pub fn i32_ne(x: u32, y: u32) -> u32
    ensures { result ≡ truth (not (x == y)) }
{
    u32::from(x != y)
}

/// Computes `i32.lt_s`: 1 where the signed `x` is below the signed `y`, else 0.
pub fn i32_lt_s(x: u32, y: u32) -> u32
    ensures { result ≡ truth (int_lt (signed 32 x) (signed 32 y)) }
{
    u32::from(x.cast_signed() < y.cast_signed())
}

/// Computes `i32.lt_u`: 1 where `x` is below `y`, else 0.
pub fn i32_lt_u(x: u32, y: u32) -> u32
    ensures { result ≡ truth (nat_lt x y) }
{
    u32::from(x < y)
}

/// Computes `i32.gt_s`: 1 where the signed `x` is above the signed `y`, else 0.
pub fn i32_gt_s(x: u32, y: u32) -> u32
    ensures { result ≡ truth (int_lt (signed 32 y) (signed 32 x)) }
{
    u32::from(x.cast_signed() > y.cast_signed())
}

/// Computes `i32.gt_u`: 1 where `x` is above `y`, else 0.
pub fn i32_gt_u(x: u32, y: u32) -> u32
    ensures { result ≡ truth (nat_lt y x) }
{
    u32::from(x > y)
}

/// Computes `i32.le_s`: 1 where the signed `x` is at most the signed `y`, else 0.
pub fn i32_le_s(x: u32, y: u32) -> u32
    ensures { result ≡ truth (int_le (signed 32 x) (signed 32 y)) }
{
    u32::from(x.cast_signed() <= y.cast_signed())
}

/// Computes `i32.le_u`: 1 where `x` is at most `y`, else 0.
pub fn i32_le_u(x: u32, y: u32) -> u32
    ensures { result ≡ truth (nat_le x y) }
{
    u32::from(x <= y)
}

/// Computes `i32.ge_s`: 1 where the signed `x` is at least the signed `y`, else 0.
pub fn i32_ge_s(x: u32, y: u32) -> u32
    ensures { result ≡ truth (int_le (signed 32 y) (signed 32 x)) }
{
    u32::from(x.cast_signed() >= y.cast_signed())
}

/// Computes `i32.ge_u`: 1 where `x` is at least `y`, else 0.
pub fn i32_ge_u(x: u32, y: u32) -> u32
    ensures { result ≡ truth (nat_le y x) }
{
    u32::from(x >= y)
}
