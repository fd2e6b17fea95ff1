//! The numbers that constants are.

ghost use Rattle.std.specs.Prelude.{◌≡◌};
ghost use Rattle.verified.specs.Memory.{number_of};

use wasm_ast::Value;

/// Returns the constant, read unsigned.
pub fn number_of(value: Value) -> u64
    ensures { result ≡ number_of value }
{
    match value {
        Value::I32(number) => u64::from(number),
        Value::I64(number) => number,
    }
}
