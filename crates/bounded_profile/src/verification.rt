//! The verification of a module.

ghost use Rattle.std.specs.Prelude.{◌≡◌, IfOk, IfErr, OnOk, IsOkUnless};
ghost use Rattle.profile_rules.specs.Faults.{Refuses};
ghost use Rattle.verified.specs.Profile.{IsBounded};

use crate::tables::tables_of;
use profile_rules::ProfileFault;
use std::alloc::Global;
use verified::{Valid, Verified};

/// Returns the module exactly where it is in the bounded profile. Any other module is refused with a rule that it
/// breaks. The rules are tried in order, and the place is the first in preorder that breaks one. The only other error
/// is that an allocation fails.
///
/// It takes time by the length of the module and of its memory. It takes memory by the number of functions and calls,
/// by the height of the operand stack, and one mark for each byte of the module's memory. The marks are freed when it
/// returns.
pub fn verify(alloc: Global, valid: Valid) -> Result<Verified, ProfileFault>
    ensures kept { IfOk result (λ verified. verified ≡ valid) }
    ensures accepted { OnOk result (IsBounded valid) }
    ensures refused { IsBounded valid → IsOkUnless result ProfileFault.OutOfMemory }
    ensures told { IfErr result (Refuses valid) }
{
    let tables = tables_of(alloc, &valid)?;
    let verified = Verified::of(alloc, valid, tables)?;
    Ok(verified)
}
