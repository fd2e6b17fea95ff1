//! Whether the constants that instructions require are known: addresses, divisors and numbers of aggregators.

mod asks;
mod bodies;
mod demands;
mod fault;
mod instructions;
mod operands;
mod setting;

ghost use Rattle.std.specs.Prelude.{OnOk, IsOkUnless};
ghost use Rattle.verified.specs.Known.{ConstantsKnown};
ghost use Rattle.verified.specs.Profile.{NoUnreachable, NothingAfterBranches};
ghost use Rattle.profile_rules.specs.inside.Tracking.{asks_of, AllPass};
ghost use Rattle.profile_rules.specs.inside.ConstantsFaults.{SettlesConstants};

use self::bodies::check_bodies;
use self::setting::ModuleSetting;
pub use asks::Asks;
pub use fault::ConstantsFault;
pub use operands::Operands;
use std::alloc::Global;
use verified::Valid;
use wasm_ast::Module;

/// Checks that each constant that `asks` selects is known. The code has no `unreachable`, and nothing comes after a
/// branch that is always taken. The error has the place of the first instruction in preorder that lacks one, or says
/// that an allocation failed.
///
/// A constant is known from its `const` instruction until it is taken. The results of locals, globals, blocks, calls,
/// `select`, arithmetic and `br_if` are not known. It takes time by the length of the module. It takes memory by the
/// number of functions, and by the operands and labels at a place of a body.
pub fn check_constants(alloc: Global, valid: &Valid, asks: Asks) -> Result<(), ConstantsFault>
    requires reached { NoUnreachable valid.now }
    requires ordered { NothingAfterBranches valid.now }
    ensures accepted { OnOk result (ConstantsKnown (asks_of asks) valid.now) }
    ensures refused { ConstantsKnown (asks_of asks) valid.now
        → IsOkUnless result ConstantsFault.OutOfMemory }
{
    check_module(alloc, valid.module(), asks)
}

fn check_module(alloc: Global, module: &Module, asks: Asks) -> Result<(), ConstantsFault>
    ensures { SettlesConstants (AllPass asks «module».now) result }
{
    let setting = ModuleSetting::new(alloc, module, asks)?;
    check_bodies(alloc, module.functions.as_slice(), &setting)
}
