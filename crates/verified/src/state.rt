use crate::call::{AGGREGATORS, CallInput, CallOutcome};
use std::alloc::{AllocError, Global};
use std::marker::Model;

// The number of messages that the first `send` allocates space for. Growing a few at a time would call the allocator
// more often, and there all workers wait for the same locks.
const FIRST_CAPACITY: usize = 16;

/// The state of a vertex during a compute call. Its model is `Host`.
#[derive(Drop)]
pub struct CallState<'a> {
    id: u64,
    superstep: u32,
    num_vertices: u32,
    value: i64,
    messages: &'a [i64],
    edges: &'a [(u64, i64)],
    last_message: i64,
    last_edge: (i64, i64),
    aggregated: [i64; 8],
    sends: Vec<(i64, i64)>,
    contributions: Vec<(u32, i64)>,
    halted: bool,
}

impl<'a> Model for CallState<'a> {
    ghost use Rattle.std.specs.Prelude.{pos, map};
    ghost use Rattle.std.specs.Int.{cast_signed, w64};
    ghost use Rattle.verified.specs.Host as host;

    ghost Value = { host.Host };

    ghost view = { λ a. record {
      id = cast_signed w64 a.id;
      superstep = pos a.superstep;
      num_vertices = pos a.num_vertices;
      value = a.value;
      messages = a.messages.now;
      edges = map host.seen_edge a.edges.now;
      message = a.last_message;
      edge = a.last_edge;
      aggregated = a.aggregated;
      sends = a.sends.items;
      contributions = a.contributions.items;
      halted = a.halted;
    } };
}

impl<'a> CallState<'a> {
    ghost use Rattle.std.specs.Prelude.{◌≡◌, ◌<◌, OnOk, OnErr};
    ghost use Rattle.verified.specs.Host.{host_of, with_value, take_message, take_edge, with_send, with_contribution, with_halt, aggregator_value, Leaves};

    /// Creates the state before the call. It allocates nothing, and copies neither messages nor edges.
    pub fn new(alloc: Global, input: &CallInput<'a>) -> CallState<'a>
        ensures { result ≡ host_of input.now }
    {
        CallState::with_lists(input, Vec::new(alloc), Vec::new(alloc))
    }

    /// Creates the state before the call, with two lists from an earlier call. It empties them and keeps their capacity: up
    /// to there, messages and contributions need no allocation.
    pub fn with_lists(
        input: &CallInput<'a>,
        mut sends: Vec<(i64, i64)>,
        mut contributions: Vec<(u32, i64)>,
    ) -> CallState<'a>
        ensures { result ≡ host_of input.now }
    {
        sends.clear();
        contributions.clear();
        CallState {
            id: input.id,
            superstep: input.superstep,
            num_vertices: input.count,
            value: input.value,
            messages: input.messages,
            edges: input.edges,
            last_message: 0,
            last_edge: (0, 0),
            aggregated: input.aggregated,
            sends,
            contributions,
            halted: false,
        }
    }

    /// Returns the vertex's id. It is at least 0, since ids are at most 9,223,372,036,854,775,807.
    pub fn vertex_id(&self) -> i64
        ensures { result ≡ self.now.id }
    {
        self.id.cast_signed()
    }

    /// Returns the superstep of the call, counted from 0.
    pub fn superstep(&self) -> i64
        ensures { result ≡ self.now.superstep }
    {
        i64::from(self.superstep)
    }

    /// Returns how many vertices the graph has.
    pub fn num_vertices(&self) -> i64
        ensures { result ≡ self.now.num_vertices }
    {
        i64::from(self.num_vertices)
    }

    /// Returns the vertex's value, as the call has set it so far.
    pub fn get_value(&self) -> i64
        ensures { result ≡ self.now.value }
    {
        self.value
    }

    /// Sets the vertex's value.
    pub fn set_value(&mut self, value: i64)
        ensures { self.new ≡ with_value self.old value }
    {
        self.value = value;
    }

    /// Takes the next message. Where there is none it returns `false` and changes nothing.
    pub fn next_message(&mut self) -> bool
        ensures { (result, self.new) ≡ take_message self.old.messages self.old }
    {
        match self.messages.split_first() {
            Some((message, others)) => {
                self.last_message = *message;
                self.messages = others;
                true
            }
            None => false,
        }
    }

    /// Returns the message that was taken last, or 0 before the first.
    pub fn message_value(&self) -> i64
        ensures { result ≡ self.now.message }
    {
        self.last_message
    }

    /// Takes the next edge. Where there is none it returns `false` and changes nothing.
    pub fn next_edge(&mut self) -> bool
        ensures { (result, self.new) ≡ take_edge self.old.edges self.old }
    {
        match self.edges.split_first() {
            Some((edge, others)) => {
                self.last_edge = (edge.0.cast_signed(), edge.1);
                self.edges = others;
                true
            }
            None => false,
        }
    }

    /// Returns the target of the edge that was taken last, or 0 before the first.
    pub fn edge_target(&self) -> i64
        ensures { result ≡ self.now.edge.0 }
    {
        self.last_edge.0
    }

    /// Returns the value of the edge that was taken last, or 0 before the first.
    pub fn edge_value(&self) -> i64
        ensures { result ≡ self.now.edge.1 }
    {
        self.last_edge.1
    }

    /// Sends a message to the vertex with id `target`. An `Err` means out of memory, and changes nothing.
    pub fn send(&mut self, target: i64, value: i64) -> Result<(), AllocError>
        ensures ok { OnOk result (self.new ≡ with_send self.old target value) }
        ensures err { OnErr result (self.new ≡ self.old) }
    {
        if self.sends.is_empty() {
            self.sends.reserve(FIRST_CAPACITY)?;
        }
        self.sends.push((target, value))?;
        Ok(())
    }

    /// Contributes a number to an aggregator. An `Err` means out of memory, and changes nothing.
    pub fn aggregate(&mut self, slot: u32, value: i64) -> Result<(), AllocError>
        requires { slot < AGGREGATORS }
        ensures ok { OnOk result (self.new ≡ with_contribution self.old slot value) }
        ensures err { OnErr result (self.new ≡ self.old) }
    {
        self.contributions.push((slot, value))?;
        Ok(())
    }

    /// Returns the aggregator's value of the superstep before.
    pub fn aggregated(&self, slot: u32) -> i64
        requires { slot < AGGREGATORS }
        ensures { result ≡ aggregator_value self.now slot }
    {
        self.aggregated[slot as usize]
    }

    /// Votes to halt: the vertex is inactive after the call.
    pub fn vote_to_halt(&mut self)
        ensures { self.new ≡ with_halt self.old }
    {
        self.halted = true;
    }

    /// Ends the call, and returns its outcome with the `units` that it took.
    pub fn into_outcome(self, units: u128) -> CallOutcome
        ensures { Leaves result self.entry units }
    {
        CallOutcome {
            value: self.value,
            sends: self.sends,
            contributions: self.contributions,
            halted: self.halted,
            units,
        }
    }
}
