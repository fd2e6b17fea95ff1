//! Numbers in LEB128 (Core 1.0, 5.2.2): `u32 BYTES at PLACE` reads one, `u32 NUMBER` writes one.

use conformance_cases::{Line, bytes, halves};
use leb::{LebFault, read_s32, read_s64, read_u32, write_s32, write_s64, write_u32};
use std::alloc::{AllocError, Global};
use std::fmt::{self, Display};

/// Writes the number that bytes spell, or the bytes of a number.
pub fn answer(alloc: Global, case: &str, line: &mut Line) {
    let (kind, rest) = halves(case, " ");
    match rest.split_once("at ") {
        Some((spelling, place)) => {
            tell_read(
                alloc,
                kind,
                spelling,
                place.parse().unwrap_or(usize::MAX),
                line,
            )
        }
        None => tell_written(alloc, kind, rest.parse().unwrap_or(0), line),
    }
}

fn tell_read(alloc: Global, kind: &str, spelling: &str, at: usize, line: &mut Line) {
    match bytes(alloc, spelling) {
        Ok(bytes) => read(kind, bytes.as_slice(), at, line),
        Err(_) => line.cut(),
    }
}

fn read(kind: &str, bytes: &[u8], at: usize, line: &mut Line) {
    match kind {
        "u32" => tell(read_u32(bytes, at), line),
        "s32" => tell(read_s32(bytes, at), line),
        _ => tell(read_s64(bytes, at), line),
    }
}

fn tell<N: Display + Drop>(read: Result<(N, usize), LebFault>, line: &mut Line) {
    match read {
        Ok((number, next)) => {
            line.show(&number);
            line.add(" next ", &next);
        }
        Err(fault) => line.debug(&fault),
    }
}

fn tell_written(alloc: Global, kind: &str, number: i64, line: &mut Line) {
    let mut bytes = Vec::new(alloc);
    match write_number(kind, number, &mut bytes) {
        Ok(()) => tell_bytes(bytes.as_slice(), line),
        Err(_) => line.cut(),
    }
}

// Writes a number, or 0 if it is out of range.
fn write_number(kind: &str, number: i64, bytes: &mut Vec<u8>) -> Result<(), AllocError> {
    match kind {
        "u32" => write_u32(bytes, u32::try_from(number).unwrap_or(0)),
        "s32" => write_s32(bytes, i32::try_from(number).unwrap_or(0)),
        _ => write_s64(bytes, number),
    }
}

fn tell_bytes(bytes: &[u8], line: &mut Line) {
    for byte in bytes {
        line.gap(" ");
        line.show(&Byte(*byte));
    }
}

// A byte in two small hexadecimal digits.
#[derive(Clone, Copy)]
struct Byte(u8);

impl fmt::Display for Byte {
    fn fmt<W: fmt::Write>(&self, f: &mut fmt::Formatter<W>) -> fmt::Result {
        write!(f, "{:02x}", self.0)
    }
}
