//! The meaning of a file is unique.

ghost use Rattle.std.specs.Prelude.{◌≡◌, true, false, List, ℕ};
ghost use Rattle.wasm_ast.specs.declared.module.Module.{Module as AnyModule};
ghost use Rattle.sources.specs.Modules.{IsLayoutOf, IsModuleOf};
ghost use Rattle.wat_asm.specs.Paths.{is_text_path};

use wasm_decode::spells_one_module;

/// Shows that a binary file means one module, and that a text as `print` writes it means the module that was printed.
pub fn means_one_module()
    ensures binary { (path content : List ℕ) (m n : AnyModule) → is_text_path path ≡ false
        → IsModuleOf path content m → IsModuleOf path content n → m ≡ n }
    ensures printed { (path content : List ℕ) (m n : AnyModule) → is_text_path path ≡ true
        → IsLayoutOf n content → IsModuleOf path content m → m ≡ n }
{
    spells_one_module();
}
