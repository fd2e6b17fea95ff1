//! The control entries round the running sequence.

ghost use Rattle.std.specs.Prelude.{◌≡◌, ◌∷◌, ◌<◌, [], reverse, vec_capacity, vec_len, MatchOption};
ghost use Rattle.interp.specs.inside.Meaning.{loop_of};

use verified::{FlatBody, FlatInstr};
use wasm_ast::BlockType;

/// What a branch to a label does: it ends a block, and may keep the topmost operand, or it begins a loop again.
#[derive(Clone, Copy)]
pub enum Form<'a> {
    Block {
        keeps: bool,
    },
    Loop {
        block_type: BlockType,
        body: &'a FlatBody,
    },
}

/// A label or a frame (Core 1.0, 4.2.12), with the code after it. `floor` is where the operands of the enclosing
/// entry begin, and `base` where the locals of the calling function begin.
#[derive(Clone, Copy)]
pub enum ControlEntry<'a> {
    Label {
        form: Form<'a>,
        floor: usize,
        after: &'a [FlatInstr],
    },
    Frame {
        keeps: bool,
        floor: usize,
        base: usize,
        after: &'a [FlatInstr],
    },
}

/// Pushes an entry, for which there is capacity.
#[inline]
pub fn push_entry<'a>(entries: &mut Vec<ControlEntry<'a>>, control: ControlEntry<'a>)
    requires { vec_len entries.old < vec_capacity entries.old }
    ensures put { reverse entries.new.items ≡ control.entry ∷ reverse entries.old.items }
    ensures room { vec_capacity entries.new ≡ vec_capacity entries.old }
{
    entries.push_reserved(control);
}

#[inline]
pub fn pop_entry<'a>(entries: &mut Vec<ControlEntry<'a>>) -> Option<ControlEntry<'a>>
    ensures taken { MatchOption result
        ((reverse entries.old.items ≡ []) × (reverse entries.new.items ≡ []))
        (λ control. reverse entries.old.items ≡ control ∷ reverse entries.new.items) }
    ensures room { vec_capacity entries.new ≡ vec_capacity entries.old }
{
    entries.pop()
}

/// Borrows the body of the loop that a branch to the innermost entry begins again. `None` is the label of a block, a
/// frame, or no entry.
#[inline(always)]
pub fn innermost_loop<'a>(entries: &[ControlEntry<'a>]) -> Option<&'a FlatBody>
    ensures { result ≡ loop_of (reverse entries.now) }
{
    match entries.last() {
        Some(ControlEntry::Label { form, .. }) => match form {
            Form::Loop { body, .. } => Some(*body),
            Form::Block { .. } => None,
        },
        Some(ControlEntry::Frame { .. }) => None,
        None => None,
    }
}
