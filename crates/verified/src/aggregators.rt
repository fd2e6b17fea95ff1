//! The aggregators of a job, to which its vertices contribute numbers (Pregel 2010, 3.3).

ghost use Rattle.std.specs.Prelude.{◌≡◌};
ghost use Rattle.verified.specs.Aggregators.{aggregator_starts};

/// Returns the values of the aggregators before any contribution.
///
/// Aggregators 0 and 1 sum, and start at 0. Aggregators 2 and 3 keep the least number, and start at the greatest i64.
/// Aggregators 4 and 5 keep the greatest number, and start at the least i64. Aggregators 6 and 7 are the bitwise or, and
/// start at 0.
pub fn aggregator_starts() -> [i64; 8]
    ensures { result ≡ aggregator_starts }
{
    [0, 0, i64::MAX, i64::MAX, i64::MIN, i64::MIN, 0, 0]
}
