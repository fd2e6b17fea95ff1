//! States as bytes. `NAME: HEX` prints the state that the bytes hold and how long it is written, with `alike` if that gives
//! the same bytes; or why they are no checkpoint. `NAME: fronts HEX` counts the shorter fronts of the bytes that are read.
//! `NAME: changes HEX` counts the changes of one byte with which the bytes are read.

use checkpoint::{read, write};
use conformance_cases::{Line, bytes};
use std::alloc::Global;
use superstep::{State, VertexState};

/// Writes the state that bytes hold, or how many of the fronts or changes of the bytes are read.
pub fn answer(alloc: Global, case: &str, line: &mut Line) {
    if let Some(hex) = case.strip_prefix("fronts ") {
        return tell_fronts(alloc, hex, line);
    }
    if let Some(hex) = case.strip_prefix("changes ") {
        return tell_changes(alloc, hex, line);
    }
    tell_state_or_fault(alloc, case, line)
}

fn tell_fronts(alloc: Global, hex: &str, line: &mut Line) {
    let Ok(bytes) = bytes(alloc, hex) else {
        return line.cut();
    };
    line.show(&fronts_read(alloc, bytes.as_slice()));
    line.add(" of ", &bytes.len());
    line.put(" are read");
}

fn tell_changes(alloc: Global, hex: &str, line: &mut Line) {
    let Ok(mut bytes) = bytes(alloc, hex) else {
        return line.cut();
    };
    line.show(&changes_read(alloc, &mut bytes));
    line.add(" of ", &bytes.len().saturating_mul(255));
    line.put(" are read");
}

fn fronts_read(alloc: Global, bytes: &[u8]) -> u64 {
    let mut count = 0u64;
    for length in 0..bytes.len() {
        count = count.saturating_add(u64::from(read(alloc, &bytes[..length]).is_ok()));
    }
    count
}

fn changes_read(alloc: Global, bytes: &mut Vec<u8>) -> u64 {
    let mut count = 0u64;
    for place in 0..bytes.len() {
        count = count.saturating_add(changes_read_at(alloc, bytes, place));
    }
    count
}

fn changes_read_at(alloc: Global, bytes: &mut Vec<u8>, place: usize) -> u64 {
    let Some(old) = bytes.get(place).copied() else {
        return 0;
    };
    let mut count = 0u64;
    for change in 1..=255u8 {
        put(bytes, place, old ^ change);
        count = count.saturating_add(u64::from(read(alloc, bytes.as_slice()).is_ok()));
    }
    put(bytes, place, old);
    count
}

fn put(bytes: &mut Vec<u8>, place: usize, byte: u8) {
    if let Some(at) = bytes.get_mut(place) {
        *at = byte;
    }
}

fn tell_state_or_fault(alloc: Global, hex: &str, line: &mut Line) {
    let Ok(bytes) = bytes(alloc, hex) else {
        return line.cut();
    };
    match read(alloc, bytes.as_slice()) {
        Ok(state) => tell_read(alloc, &state, bytes.as_slice(), line),
        Err(fault) => line.show(&fault),
    }
}

fn tell_read(alloc: Global, state: &State, bytes: &[u8], line: &mut Line) {
    tell_state(alloc, state, line);
    match write(alloc, state) {
        Ok(written) => tell_written(written.as_slice(), bytes, line),
        Err(_) => line.cut(),
    }
}

fn tell_written(written: &[u8], bytes: &[u8], line: &mut Line) {
    line.add(", written ", &written.len());
    if written == bytes {
        line.put(" alike");
    }
}

/// Writes a state, except for the values of its aggregators.
pub fn tell_state(alloc: Global, state: &State, line: &mut Line) {
    line.add("superstep ", &state.superstep());
    line.add(" since ", &state.since());
    line.add(" units ", &state.units());
    line.add(" dropped ", &state.dropped());
    match state.in_order(alloc) {
        Ok(vertices) => tell_vertices(&vertices, line),
        Err(_) => line.cut(),
    }
}

fn tell_vertices(vertices: &[&VertexState], line: &mut Line) {
    for vertex in vertices {
        tell_vertex(vertex, line);
    }
}

fn tell_vertex(vertex: &VertexState, line: &mut Line) {
    line.add(", ", &vertex.id);
    line.add(" ", &vertex.value);
    line.put(if vertex.active { " active" } else { " halted" });
    for message in vertex.inbox.as_slice() {
        line.add(" ", message);
    }
}
