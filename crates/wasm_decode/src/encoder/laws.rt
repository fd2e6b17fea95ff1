//! Laws of the canonical spelling.

ghost use Rattle.std.specs.Prelude.{◌≡◌, ◌≤◌, ℕ, List, length};
ghost use Rattle.wasm_ast.specs.declared.module.Module.{Module as AnyModule};
ghost use Rattle.wasm_ast.specs.Limits.{max_module_bytes, IsWithinLimits};
ghost use Rattle.wasm_decode.specs.Grammar.{Spells};
ghost use Rattle.wasm_decode.specs.Canonical.{canonical};
ghost use Rattle.wasm_ast.specs.Representable.{IsRepresentable};

use crate::laws::spells_one_module;

/// States that the canonical spelling of a module spells this module and no other (Core 1.0, section
/// 5). So decoding it gives the module back. The module must be within the limits and representable
/// in the program's types, and the spelling no longer than a file may be.
pub fn canonical_spells_its_module()
    ensures spells { (m : AnyModule) → IsRepresentable m → IsWithinLimits m
        → length (canonical m) ≤ max_module_bytes → Spells (canonical m) m }
    ensures alone { (m n : AnyModule) → IsRepresentable m → IsWithinLimits m
        → length (canonical m) ≤ max_module_bytes → Spells (canonical m) n → n ≡ m }
{
    spells_one_module();
}

/// States that no spelling of a module is shorter than the canonical one (Core 1.0, section 5). So
/// each module that was decoded can be encoded, unless memory runs out, and the result decodes to the
/// same module.
pub fn canonical_is_shortest()
    ensures shortest { (bytes : List ℕ) (m : AnyModule) → Spells bytes m
        → length (canonical m) ≤ length bytes }
    ensures spells { (bytes : List ℕ) (m : AnyModule) → Spells bytes m → Spells (canonical m) m }
{}
