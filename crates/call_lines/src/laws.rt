//! The meaning of a text is unique.

ghost use Rattle.std.specs.Prelude.{List, ℕ};
ghost use Rattle.verified.specs.declared.call.CallInput.{CallInput as AnyInput};
ghost use Rattle.call_lines.specs.Input.{Means, SameInput};

/// Shows that a text means one input.
pub fn means_what_lines_say()
    ensures { (text : List ℕ) (a b : AnyInput) → Means text a → Means text b → SameInput a b }
{}
