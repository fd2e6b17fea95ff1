//! Bytes with sizes before them.

use conformance_cases::push_digits;
use leb::write_u32;
use std::alloc::{AllocError, Global};
use std::mem;

/// Reads the bytes of a spelled text as `conformance_cases::bytes` does. In addition `[ .. ]` is the number of bytes inside,
/// in LEB128, followed by them. Brackets have blanks around them.
pub fn sized_bytes(alloc: Global, text: &str) -> Result<Vec<u8>, AllocError> {
    let mut outside = Vec::new(alloc);
    let mut bytes = Vec::new(alloc);
    for word in text.split_ascii_whitespace() {
        take(alloc, word, &mut outside, &mut bytes)?;
    }
    Ok(bytes)
}

fn take(
    alloc: Global,
    word: &str,
    outside: &mut Vec<Vec<u8>>,
    bytes: &mut Vec<u8>,
) -> Result<(), AllocError> {
    match word {
        "[" => open(alloc, outside, bytes),
        "]" => close(outside, bytes),
        _ => push_digits(word, bytes),
    }
}

// Stores the bytes outside of a bracket.
fn open(alloc: Global, outside: &mut Vec<Vec<u8>>, bytes: &mut Vec<u8>) -> Result<(), AllocError> {
    let before = mem::replace(bytes, Vec::new(alloc));
    outside.push(before)?;
    Ok(())
}

// Appends the number of the bytes in a bracket, and the bytes, to those outside.
fn close(outside: &mut Vec<Vec<u8>>, bytes: &mut Vec<u8>) -> Result<(), AllocError> {
    let Some(mut before) = outside.pop() else {
        return Ok(());
    };
    write_u32(&mut before, u32::try_from(bytes.len()).unwrap_or(0))?;
    before.extend_from_slice(bytes)?;
    *bytes = before;
    Ok(())
}
