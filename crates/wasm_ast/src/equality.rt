//! `==` of the types that hold lists: it is true exactly where the two values are the same.

use crate::body::Body;
use crate::module::Module;
use crate::same::Same;
use crate::types::FuncType;

impl PartialEq for FuncType {
    ghost use Rattle.std.specs.Prelude.{◌≡◌, ◌↔◌, IsTrue};
    ghost use Rattle.wasm_ast.specs.inside.Same.{same_by, same_partial};
    ghost use Rattle.wasm_ast.specs.inside.Stored.{stored_func_type};

    ghost eq = { same_by stored_func_type };

    ghost laws = { same_partial stored_func_type };

    fn eq(&self, other: &FuncType) -> bool
        ensures value { result ≡ same_by stored_func_type self.now other.now }
        ensures exact { IsTrue result ↔ (self.now ≡ other.now) }
    {
        self.equals(other)
    }
}

impl Eq for FuncType {
    ghost use Rattle.wasm_ast.specs.inside.Same.{same_equivalence};
    ghost use Rattle.wasm_ast.specs.inside.Stored.{stored_func_type};

    ghost laws = { same_equivalence stored_func_type };
}

impl PartialEq for Body {
    ghost use Rattle.std.specs.Prelude.{◌≡◌, ◌↔◌, IsTrue};
    ghost use Rattle.wasm_ast.specs.inside.Same.{same_by, same_partial};
    ghost use Rattle.wasm_ast.specs.inside.Stored.{stored_body};

    ghost eq = { same_by stored_body };

    ghost laws = { same_partial stored_body };

    fn eq(&self, other: &Body) -> bool
        ensures value { result ≡ same_by stored_body self.now other.now }
        ensures exact { IsTrue result ↔ (self.now ≡ other.now) }
    {
        self.equals(other)
    }
}

impl Eq for Body {
    ghost use Rattle.wasm_ast.specs.inside.Same.{same_equivalence};
    ghost use Rattle.wasm_ast.specs.inside.Stored.{stored_body};

    ghost laws = { same_equivalence stored_body };
}

impl PartialEq for Module {
    ghost use Rattle.std.specs.Prelude.{◌≡◌, ◌↔◌, IsTrue};
    ghost use Rattle.wasm_ast.specs.inside.Same.{same_by, same_partial};
    ghost use Rattle.wasm_ast.specs.inside.Stored.{stored_module};

    ghost eq = { same_by stored_module };

    ghost laws = { same_partial stored_module };

    fn eq(&self, other: &Module) -> bool
        ensures value { result ≡ same_by stored_module self.now other.now }
        ensures exact { IsTrue result ↔ (self.now ≡ other.now) }
    {
        self.equals(other)
    }
}

impl Eq for Module {
    ghost use Rattle.wasm_ast.specs.inside.Same.{same_equivalence};
    ghost use Rattle.wasm_ast.specs.inside.Stored.{stored_module};

    ghost laws = { same_equivalence stored_module };
}
