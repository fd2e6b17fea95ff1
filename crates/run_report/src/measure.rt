//! What is drawn of each superstep.

ghost use Rattle.std.specs.Prelude.{◌≡◌};
ghost use Rattle.run_report.specs.Measures.{measured, most_of};

use crate::counts::SuperstepCounts;

/// What a panel shows of each superstep.
#[derive(Clone, Copy)]
pub enum Measure {
    Called,
    Sent,
    Units,
}

impl Measure {
    /// What it is of a superstep, where that is known.
    pub fn of(self, counts: &SuperstepCounts) -> Option<u64>
        ensures { result ≡ measured self counts.now }
    {
        match self {
            Measure::Called => counts.called,
            Measure::Sent => counts.sent,
            Measure::Units => counts.units,
        }
    }

    /// The greatest that is known of these supersteps, else 0.
    pub fn most(self, supersteps: &[SuperstepCounts]) -> u64
        ensures { result ≡ most_of self supersteps.now }
    {
        let mut most = 0;
        for counts in supersteps {
            most = most.max(self.of(counts).unwrap_or(0));
        }
        most
    }

    /// What is written above the panel.
    pub fn label(self) -> &'static str {
        match self {
            Measure::Called => "Vertices called",
            Measure::Sent => "Messages sent",
            Measure::Units => "Units (simple instructions)",
        }
    }

    /// The colour of its curve.
    pub fn colour(self) -> &'static str {
        match self {
            Measure::Called => "#1f77b4",
            Measure::Sent => "#2a8c3a",
            Measure::Units => "#c0392b",
        }
    }

    /// How far below the chart's upper edge its panel begins.
    pub fn top(self) -> u64 {
        match self {
            Measure::Called => 1_200,
            Measure::Sent => 3_350,
            Measure::Units => 5_500,
        }
    }
}
