//! A law of the binary format.

ghost use Rattle.std.specs.Prelude.{◌≡◌, ℕ, List};
ghost use Rattle.wasm_ast.specs.declared.module.Module.{Module as AnyModule};
ghost use Rattle.wasm_decode.specs.Grammar.{Spells};

/// States that bytes spell at most one module (Core 1.0, section 5).
pub fn spells_one_module()
    ensures { (bytes : List ℕ) (m n : AnyModule) → Spells bytes m → Spells bytes n → m ≡ n }
{}
