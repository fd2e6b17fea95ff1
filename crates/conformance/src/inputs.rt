//! Inputs of calls. `input TEXT` prints the id, the superstep, the count and the value, then the messages, then the edges
//! as `TARGET:VALUE`. `aggregators TEXT` prints each aggregator's value. A text that is no input prints its first bad line.

use crate::graphs::tell_edges;
use call_lines::Input;
use conformance_cases::{Line, halves};
use sources::CommandFault;
use std::alloc::Global;

/// Writes the input that a text declares.
pub fn answer(alloc: Global, case: &str, line: &mut Line) {
    let (kind, text) = halves(case, " ");
    match Input::read(alloc, text) {
        Ok(input) if kind == "aggregators" => tell_aggregators(&input, line),
        Ok(input) => tell_input(&input, line),
        Err(fault) => line.show(&CommandFault::Input(fault)),
    }
}

fn tell_input(input: &Input, line: &mut Line) {
    let input = input.call_input();
    let (id, superstep) = (input.id, input.superstep);
    let (count, value) = (input.count, input.value);
    line.show(&id);
    line.add(" ", &superstep);
    line.add(" ", &count);
    line.add(" ", &value);
    for value in input.messages {
        line.add(" ", value);
    }
    tell_edges(input.edges, line);
}

fn tell_aggregators(input: &Input, line: &mut Line) {
    for value in &input.call_input().aggregated {
        line.gap(" ");
        line.show(value);
    }
}
