//! The conversions between i32 and i64 (Core 1.0, 4.3.4).

ghost use Rattle.std.specs.Prelude.{◌≡◌};
ghost use Rattle.semantics.specs.Operations.{conversion_value};
ghost use Rattle.wasm_ast.specs.declared.numeric.Conversion.TheVariants.{Wrap, ExtendS, ExtendU};

/// Computes `i32.wrap_i64`: the low 32 bits.
pub fn i32_wrap_i64(x: u64) -> u32
    ensures { result ≡ conversion_value Wrap x }
{
    (x % 0x1_0000_0000) as u32
}

/// Computes `i64.extend_i32_s`: the same signed number in 64 bits.
pub fn i64_extend_i32_s(x: u32) -> u64
    ensures { result ≡ conversion_value ExtendS x }
{
    i64::from(x.cast_signed()).cast_unsigned()
}

/// Computes `i64.extend_i32_u`: the same number in 64 bits.
pub fn i64_extend_i32_u(x: u32) -> u64
    ensures { result ≡ conversion_value ExtendU x }
{
    u64::from(x)
}
