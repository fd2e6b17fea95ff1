//! The number of bytes of each load and store, and the type of its value (Core 1.0, 2.4.4 and 3.3.4): `i32.load8_s` prints
//! `i32.load8_s: 1 i32`. Then the types of values, and the first value of a local (4.2.1, 4.4.7).

use crate::host_functions::word_of;
use crate::modules::plain_of;
use conformance_cases::Line;
use std::alloc::Global;
use wasm_ast::{Memory, Plain, ValType, Value};

/// Writes the bytes and the type of an instruction, or the first value of a local.
pub fn answer(alloc: Global, case: &str, line: &mut Line) {
    match case {
        "local i32" => tell_value(Value::zero(ValType::I32), line),
        "local i64" => tell_value(Value::zero(ValType::I64), line),
        _ => match plain_of(alloc, case) {
            Ok(plain) => tell_plain(plain, line),
            Err(_) => line.cut(),
        },
    }
}

fn tell_plain(plain: Option<Plain>, line: &mut Line) {
    match plain {
        Some(Plain::Memory(Memory::Load(load, _))) => {
            tell(u64::from(load.width()), load.val_type(), line)
        }
        Some(Plain::Memory(Memory::Store(store, _))) => {
            tell(u64::from(store.width()), store.val_type(), line)
        }
        Some(Plain::Const(value)) => tell_value(value, line),
        _ => line.put("no load, store or value"),
    }
}

fn tell_value(value: Value, line: &mut Line) {
    tell(number_in(value), value.val_type(), line)
}

fn tell(number: u64, val_type: ValType, line: &mut Line) {
    line.show(&number);
    line.add(" ", &word_of(val_type));
}

fn number_in(value: Value) -> u64 {
    match value {
        Value::I32(number) => u64::from(number),
        Value::I64(number) => number,
    }
}
