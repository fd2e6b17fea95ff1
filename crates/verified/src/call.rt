/// The number of aggregators of a job. The first is aggregator 0.
pub const AGGREGATORS: u32 = 8;

/// The input of a vertex's compute call.
#[derive(Clone, Copy)]
pub struct CallInput<'a> {
    /// The vertex's id, from 0 to 9,223,372,036,854,775,807.
    pub id: u64,
    /// The superstep, counted from 0.
    pub superstep: u32,
    /// The number of vertices of the graph.
    pub count: u32,
    /// The vertex's value.
    pub value: i64,
    /// The messages that were sent to the vertex in the superstep before, in order.
    pub messages: &'a [i64],
    /// The vertex's edges, each with the id of its target and its value, in order.
    pub edges: &'a [(u64, i64)],
    /// The value of each aggregator in the superstep before.
    pub aggregated: [i64; 8],
}

/// The outcome of a vertex's compute call.
#[derive(Drop)]
pub struct CallOutcome {
    /// The vertex's value after the call.
    pub value: i64,
    /// The messages that the call sent, each with its target and its value, in order.
    pub sends: Vec<(i64, i64)>,
    /// The call's contributions, each with the number of its aggregator, in order.
    pub contributions: Vec<(u32, i64)>,
    /// Whether the vertex voted to halt.
    pub halted: bool,
    /// The units of the call: the sum of the weights of the instructions that it executed.
    pub units: u128,
}
