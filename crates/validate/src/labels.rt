//! The labels in scope (Core 1.0, 3.3.5), and the number of the next instruction.

ghost use Rattle.std.specs.Prelude.{◌≡◌, ◌++◌, ◌∷◌, [], OnOk, reverse, slice_get, take, length, ◌-◌};

use std::alloc::{AllocError, Global};
use wasm_ast::BlockType;

/// The labels in scope at an instruction, and how many instructions of the body come before it.
#[derive(Drop)]
pub struct Labels {
    // the type of the operand that a branch to each label takes, the innermost last
    pub labels: Vec<BlockType>,
    next: u32,
}

impl Labels {
    /// Creates an empty list of labels. It allocates nothing.
    pub fn new(alloc: Global) -> Labels
        ensures { result.labels.items ≡ [] }
    {
        Labels {
            labels: Vec::new(alloc),
            next: 0,
        }
    }

    /// Adds a label, the innermost. It fails only where an allocation fails.
    pub fn enter(&mut self, label: BlockType) -> Result<(), AllocError>
        ensures { OnOk result (self.new.labels.items ≡ self.old.labels.items ++ label ∷ []) }
    {
        self.labels.push(label)?;
        Ok(())
    }

    /// Removes the innermost label.
    pub fn leave(&mut self)
        ensures { self.new.labels.items
            ≡ take (length self.old.labels.items - 1) self.old.labels.items }
    {
        let _label = self.labels.pop();
    }

    /// Returns the number of this instruction, and counts it. The first number is 0; the count stops at 4,294,967,295.
    pub fn count(&mut self) -> u32
        ensures { self.new.labels ≡ self.old.labels }
    {
        let number = self.next;
        self.next = self.next.saturating_add(1);
        number
    }

    /// Returns the type that a branch to the label takes, where there is such a label. Label 0 is the innermost.
    pub fn label_at(&self, depth: u32) -> Option<BlockType>
        ensures { result ≡ slice_get (reverse self.now.labels.items) depth }
    {
        let depth = depth as usize;
        if depth < self.labels.len() {
            Some(self.labels[self.labels.len() - 1 - depth])
        } else {
            None
        }
    }
}
