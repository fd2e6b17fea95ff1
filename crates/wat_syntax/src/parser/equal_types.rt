//! A map from each type to the first type that is equal to it.

use crate::fault::Failure;
use std::alloc::{AllocError, Global};
use std::collections::HashMap;
use wasm_ast::{FuncType, ValType};

// One element of a type's key: the types of its parameters, a mark, and the types of its results.
#[derive(Clone, Copy, PartialEq, Eq, Hash)]
enum Part {
    I32,
    I64,
    // the mark between the parameters and the results
    Gives,
}

/// The types so far, each with the index of the first that is equal to it.
#[derive(Drop)]
pub struct EqualTypes {
    firsts: HashMap<Vec<Part>, u32>,
}

impl EqualTypes {
    /// Creates an empty map. It allocates nothing.
    pub fn new(alloc: Global) -> EqualTypes {
        EqualTypes {
            firsts: HashMap::new(alloc),
        }
    }

    /// Returns the index of the first type that is equal to this one. Where there is none, it adds this type with the
    /// index `number`.
    pub fn first(&mut self, alloc: Global, t: &FuncType, number: u32) -> Result<u32, Failure> {
        let mut parts = Vec::new(alloc);
        add_type(&mut parts, t)?;
        if let Some(first) = self.firsts.get(parts.as_slice()) {
            return Ok(*first);
        }
        self.firsts.insert(parts, number)?;
        Ok(number)
    }

    /// Adds types with indices from 0.
    pub fn add(&mut self, alloc: Global, types: &[FuncType]) -> Result<(), Failure> {
        let mut number = 0u32;
        for t in types {
            let _first = self.first(alloc, t, number)?;
            number = number.saturating_add(1);
        }
        Ok(())
    }
}

fn part_of(t: ValType) -> Part {
    match t {
        ValType::I32 => Part::I32,
        ValType::I64 => Part::I64,
    }
}

fn add_parts(parts: &mut Vec<Part>, types: &[ValType]) -> Result<(), AllocError> {
    for t in types {
        parts.push(part_of(*t))?;
    }
    Ok(())
}

fn add_type(parts: &mut Vec<Part>, t: &FuncType) -> Result<(), AllocError> {
    add_parts(parts, t.parameters.as_slice())?;
    parts.push(Part::Gives)?;
    add_parts(parts, t.results.as_slice())
}
