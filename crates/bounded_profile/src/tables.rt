//! The tables of a module in the bounded profile.

ghost use Rattle.std.specs.Prelude.{IsOkUnless, MatchResult};
ghost use Rattle.profile_rules.specs.Faults.{Refuses};
ghost use Rattle.verified.specs.Profile.{IsBounded};
ghost use Rattle.verified.specs.inside.Tables.{AreTables};

use crate::cells::cells_table;
use crate::extents::footprint_extents;
use crate::rules::check_rules;
use profile_rules::{ProfileFault, host_calls};
use std::alloc::Global;
use verified::{Tables, Valid};

/// Checks the rules in order, and finds the tables of a module that keeps all of them.
pub fn tables_of(alloc: Global, valid: &Valid) -> Result<Tables, ProfileFault>
    ensures decided { MatchResult result
        (λ tables. IsBounded valid.now × AreTables valid.now tables) (Refuses valid.now) }
    ensures refused { IsBounded valid.now → IsOkUnless result ProfileFault.OutOfMemory }
{
    let facts = check_rules(alloc, valid)?;
    let module = valid.module();
    let calls = host_calls(alloc, module)?;
    let cells = cells_table(alloc, module)?;
    let extents = footprint_extents(alloc, module)?;
    Ok(Tables {
        facts,
        calls,
        cells,
        extents,
    })
}
