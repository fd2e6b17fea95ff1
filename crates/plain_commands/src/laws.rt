//! The answer of a call is unique.

ghost use Rattle.std.specs.Prelude.{◌≡◌, false, List, ℕ};
ghost use Rattle.plain_commands.specs.ComputeCall.{IsCallAnswer};

use semantics::one_outcome;
use wasm_decode::spells_one_module;

/// Shows that the bytes of a module and the text of an input have one answer.
pub fn one_answer()
    ensures { (bytes text a b : List ℕ)
        → IsCallAnswer false bytes text a → IsCallAnswer false bytes text b → a ≡ b }
{
    spells_one_module();
    one_outcome();
}
