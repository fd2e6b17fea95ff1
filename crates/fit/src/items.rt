//! Instructions that take a message or an edge.

use std::alloc::{AllocError, Global};
use verified::HostCall;
use wasm_ast::{Branch, Import, ImportDescription, Instr, Numeric, Plain, ValType};

/// Tells for each imported function whether it takes the next message or the next edge.
pub fn takers(alloc: Global, imports: &[Import]) -> Result<Vec<bool>, AllocError> {
    let mut takers = Vec::new(alloc);
    for import in imports {
        if matches!(import.description, ImportDescription::Function(_)) {
            takers.push(is_taker(import))?;
        }
    }
    Ok(takers)
}

fn is_taker(import: &Import) -> bool {
    let call = HostCall::named(import.module.as_str(), import.name.as_str());
    matches!(call, Some(HostCall::NextMessage | HostCall::NextEdge))
}

/// Whether the instruction takes an item. Its result is 1 where there was one, else 0.
pub fn takes(takers: &[bool], instr: &Instr) -> bool {
    match instr {
        Instr::Call(function) => match takers.get(*function as usize) {
            Some(takes) => *takes,
            None => false,
        },
        _ => false,
    }
}

/// Whether the instruction turns 0 to 1, and anything else to 0.
pub fn inverts(instr: &Instr) -> bool {
    matches!(
        instr,
        Instr::Plain(Plain::Numeric(Numeric::Eqz(ValType::I32)))
    )
}

/// Whether the instruction goes to the innermost label where its operand is not 0.
pub fn goes_back(instr: &Instr) -> bool {
    matches!(instr, Instr::Branch(Branch::BrIf(0)))
}
