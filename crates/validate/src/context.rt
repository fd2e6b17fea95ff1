//! The context of a function's body: the parts that are the same at each instruction (Core 1.0, 3.1.1).

ghost use Rattle.std.specs.Prelude.{◌≡◌, slice_get};

use crate::fault::Place;
use crate::spaces::IndexSpaces;
use wasm_ast::{BlockType, ValType};

/// The parts of the context that are the same throughout a function's body. `Labels` has the others.
#[derive(Drop)]
pub struct BodyContext<'a> {
    pub spaces: &'a IndexSpaces<'a>,
    /// The types of the locals, the parameters first.
    pub locals: Vec<ValType>,
    /// The type of the operand that a return takes, if any.
    pub outcome: BlockType,
    /// The function's index, imports first.
    pub function: Option<u32>,
}

impl<'a> BodyContext<'a> {
    /// Returns the type of the local with this index, where there is one.
    pub fn local_at(&self, number: u32) -> Option<ValType>
        ensures { result ≡ slice_get self.now.locals.items number }
    {
        self.locals.get(number as usize).copied()
    }

    /// Returns the place of the instruction with this number.
    pub fn place_of(&self, instruction: u32) -> Place {
        Place {
            function: self.function,
            instruction: Some(instruction),
        }
    }

    /// Returns the place of the body as a whole.
    pub fn place(&self) -> Place {
        Place {
            function: self.function,
            instruction: None,
        }
    }
}
