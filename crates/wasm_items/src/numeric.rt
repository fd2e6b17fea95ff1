//! The numeric instructions by opcode (Core 1.0, 5.4.5).

ghost use Rattle.std.specs.Prelude.{◌≡◌};
ghost use Rattle.wasm_items.specs.inside.ReadingCode.{numeric_of, test_of, arithmetic_of};

use wasm_ast::{Binary, Comparison, Conversion, Division, Numeric, Unary, ValType};

/// Returns the instruction with this opcode, or `None` where it is not numeric, a constant, or on floats.
#[tactic(auto, unfolding(crate::specs::inside::ReadingCode::numeric_of))]
pub fn numeric(opcode: u8) -> Option<Numeric>
    ensures { result ≡ numeric_of opcode }
{
    match opcode {
        0x45..=0x4F => test(ValType::I32, opcode - 0x45),
        0x50..=0x5A => test(ValType::I64, opcode - 0x50),
        0x67..=0x78 => arithmetic(ValType::I32, opcode - 0x67),
        0x79..=0x8A => arithmetic(ValType::I64, opcode - 0x79),
        0xA7 => Some(Numeric::Conversion(Conversion::Wrap)),
        0xAC => Some(Numeric::Conversion(Conversion::ExtendS)),
        0xAD => Some(Numeric::Conversion(Conversion::ExtendU)),
        _ => None,
    }
}

// Returns the test or comparison at a position among those of its type.
fn test(operand: ValType, place: u8) -> Option<Numeric>
    ensures { result ≡ test_of operand place }
{
    let comparison = match place {
        0 => return Some(Numeric::Eqz(operand)),
        1 => Comparison::Eq,
        2 => Comparison::Ne,
        3 => Comparison::LtS,
        4 => Comparison::LtU,
        5 => Comparison::GtS,
        6 => Comparison::GtU,
        7 => Comparison::LeS,
        8 => Comparison::LeU,
        9 => Comparison::GeS,
        10 => Comparison::GeU,
        _ => return None,
    };
    Some(Numeric::Comparison(operand, comparison))
}

// Returns the arithmetic instruction at a position among those of its type.
fn arithmetic(operand: ValType, place: u8) -> Option<Numeric>
    ensures { result ≡ arithmetic_of operand place }
{
    Some(match place {
        0 => Numeric::Unary(operand, Unary::Clz),
        1 => Numeric::Unary(operand, Unary::Ctz),
        2 => Numeric::Unary(operand, Unary::Popcnt),
        3 => Numeric::Binary(operand, Binary::Add),
        4 => Numeric::Binary(operand, Binary::Sub),
        5 => Numeric::Binary(operand, Binary::Mul),
        6 => Numeric::Division(operand, Division::DivS),
        7 => Numeric::Division(operand, Division::DivU),
        8 => Numeric::Division(operand, Division::RemS),
        9 => Numeric::Division(operand, Division::RemU),
        10 => Numeric::Binary(operand, Binary::And),
        11 => Numeric::Binary(operand, Binary::Or),
        12 => Numeric::Binary(operand, Binary::Xor),
        13 => Numeric::Binary(operand, Binary::Shl),
        14 => Numeric::Binary(operand, Binary::ShrS),
        15 => Numeric::Binary(operand, Binary::ShrU),
        16 => Numeric::Binary(operand, Binary::Rotl),
        17 => Numeric::Binary(operand, Binary::Rotr),
        _ => return None,
    })
}
