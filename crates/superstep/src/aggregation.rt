//! Aggregation of contributions (Pregel 2010, 3.3).

ghost use Rattle.std.specs.Prelude.{◌≡◌};
ghost use Rattle.std.specs.List.{fold};
ghost use Rattle.superstep.specs.Folds.{combined, give};

/// Adds contributions to the aggregators, in order (Pregel 2010, 3.3).
pub fn give_all(aggregators: &mut [i64; 8], contributions: &[(u32, i64)])
    ensures { aggregators.new ≡ fold give aggregators.old contributions.now }
{
    for given in contributions {
        give(aggregators, *given);
    }
}

// Adds a contribution to its aggregator.
fn give(aggregators: &mut [i64; 8], given: (u32, i64))
    ensures { aggregators.new ≡ give aggregators.old given }
{
    let (aggregator, value) = given;
    let place = aggregator as usize;
    if place < aggregators.len() {
        aggregators[place] = combined(aggregator, aggregators[place], value);
    }
}

/// Combines the value of an aggregator with a contribution.
pub fn combined(aggregator: u32, old: i64, given: i64) -> i64
    ensures { result ≡ combined aggregator old given }
{
    if aggregator < 2 {
        old.wrapping_add(given)
    } else if aggregator < 4 {
        old.min(given)
    } else if aggregator < 6 {
        old.max(given)
    } else {
        old | given
    }
}
