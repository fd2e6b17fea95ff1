//! The counts of a superstep.

/// What was counted of a superstep. A count is missing where it is not known.
#[derive(Clone, Copy)]
pub struct SuperstepCounts {
    /// The superstep, from 0 on.
    pub superstep: u64,
    /// The units of its calls.
    pub units: Option<u64>,
    /// How many vertices were called.
    pub called: Option<u64>,
    /// How many messages they sent.
    pub sent: Option<u64>,
    /// How many of these went to no vertex.
    pub dropped: Option<u64>,
}
