//! The cases of the public functions on numbers, modules, compute calls, graphs and inboxes. Each line of a file of cases in
//! `data/` prints one line, which `stdout` holds beforehand.
//!
//! With the words `FILE FIRST STEP` the program damages the module in FILE instead, in each way at the places FIRST, FIRST
//! + STEP and so on, and prints what becomes of it.
#![tactic(auto)]

mod answers;
mod binary;
mod calls;
mod copies;
mod costs;
mod graphs;
mod host_functions;
mod inboxes;
mod inputs;
mod leb_numbers;
mod limits;
mod modules;
mod numeric;
mod profile;
mod samples;
mod texts;
mod validation;
mod widths;

use crate::binary::sweep::Places;
use anyhow::Result;
use std::env;
use std::num::ParseIntError;

fn main(rt: HostRuntime) -> Result<()> {
    let words: Vec<String> = env::args(&rt)?.collect(rt.alloc())?;
    match words.as_slice() {
        [_, file, first, step] => {
            let places = places_of(first.as_str(), step.as_str())?;
            samples::show_damaged(&rt, file.as_str(), places)
        }
        _ => answers::show(&rt),
    }
}

fn places_of(first: &str, step: &str) -> Result<Places, ParseIntError> {
    Ok(Places {
        first: first.parse()?,
        step: step.parse()?,
    })
}
