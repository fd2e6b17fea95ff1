//! Valid modules (Core 1.0, 3.4.10).

ghost use Rattle.std.specs.Prelude.{◌≡◌};
ghost use Rattle.wasm_ast.specs.Limits.{IsWithinLimits};
ghost use Rattle.verified.specs.Modules.{IsTyped};

use std::marker::Model;
use wasm_ast::Module;

/// A valid module (Core 1.0, 3.4.10). `validate::validate` finds out whether a module is one.
pub struct Valid {
    // In a box, so that moving the owner moves one pointer.
    module: Box<Module>,
}

impl Drop for Valid {
    fn drop(self) {
        let Valid { module: _ } = self;
    }
}

impl Model for Valid {
    ghost use Rattle.wasm_ast.specs.declared.module.Module.{Module as AnyModule};
    ghost use Rattle.wasm_ast.specs.Limits.{IsWithinLimits};
    ghost use Rattle.verified.specs.Modules.{IsTyped};
    ghost use Rattle.wasm_ast.specs.contracts.module.Module as module_type;

    ghost Value = { AnyModule };

    ghost coded = { module_type.the_row.coded };

    ghost view = { λ valid. valid.«module».value };

    ghost invariant = { λ valid. IsTyped valid.«module».value
        × IsWithinLimits valid.«module».value };
}

impl Valid {
    /// Makes a valid module of one that is proved to be valid and within the limits. It allocates nothing.
    pub fn of(module: Box<Module>) -> Valid
        requires typed { IsTyped «module».value }
        requires within { IsWithinLimits «module».value }
        ensures { result ≡ «module».value }
    {
        Valid { module }
    }

    /// Borrows the module.
    pub fn module(&self) -> &Module
        ensures value { result.now ≡ self.now }
        ensures typed { IsTyped self.now }
        ensures within { IsWithinLimits self.now }
    {
        &self.module
    }
}
