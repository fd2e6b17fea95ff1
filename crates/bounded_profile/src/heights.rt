//! The height of the operand stack in a call of a function, the functions that it calls included.

ghost use Rattle.std.specs.Prelude.{◌≡◌, ◌-◌, ◌≤◌, IfOk, length};
ghost use Rattle.cost.specs.Ranks.{IsRanking};
ghost use Rattle.verified.specs.Arities.{arity_table};
ghost use Rattle.profile_rules.specs.inside.StackHeights.{most_along};
ghost use Rattle.verified.specs.Facts.{IsHeightAt};
ghost use Rattle.bounded_profile.specs.inside.Levels.{AreTold};
ghost use Rattle.verified.specs.Profile.{SizeWithin};

use cost::{Ranks, has_one_sizing};
use profile_rules::{Callees, HeightTable, StackHeight, arity_table};
use std::alloc::{AllocError, Global};
use verified::{Arity, Valid};
use wasm_ast::{Body, imported_function_count};

/// Finds the greatest height of the operand stack in a call of the function. The only error is that an allocation
/// fails.
pub fn operand_height(
    alloc: Global,
    valid: &Valid,
    ranks: &Ranks,
    function: u32,
) -> Result<u32, AllocError>
    requires ranked { IsRanking valid.now ranks.now }
    requires small { SizeWithin valid.now function }
    ensures { IfOk result (IsHeightAt valid.now function) }
{
    has_one_sizing(valid, ranks);
    let module = valid.module();
    let arities = arity_table(alloc, module)?;
    let mut heights = HeightTable::new(alloc, arities.len())?;
    for rank in 0..ranks.rank(function) {
        add_heights(valid, &arities, ranks, rank + 1, &mut heights);
    }
    Ok(heights.get(function) as u32)
}

// Sets the heights of the functions of this rank, where those of all lower ranks are set.
fn add_heights(
    valid: &Valid,
    arities: &[Arity],
    ranks: &Ranks,
    rank: u32,
    heights: &mut HeightTable,
)
    requires arities { arities.now ≡ arity_table valid.now }
    requires ranked { IsRanking valid.now ranks.now }
    requires positive { 1 ≤ rank }
    requires long { length heights.old ≡ length arities.now }
    requires told { AreTold valid.now ranks.now heights.old (rank - 1) }
    ensures told { AreTold valid.now ranks.now heights.new rank }
    ensures kept { length heights.new ≡ length heights.old }
{
    let module = valid.module();
    let imported = imported_function_count(module.imports.as_slice());
    for (index, function) in module.functions.as_slice().iter().enumerate() {
        let number = imported + index;
        if ranks.rank(number as u32) == rank {
            let height = height_along(arities, heights, &function.body);
            heights.set(number, height);
        }
    }
}

// Finds the greatest height in code that begins with no operands.
fn height_along(arities: &[Arity], heights: &HeightTable, body: &Body) -> usize
    ensures { result ≡ most_along arities.now heights.now body.now }
{
    StackHeight::most_along(Callees { arities, heights }, body)
}
