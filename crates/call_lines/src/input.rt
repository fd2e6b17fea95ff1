//! The text of a call's input.

ghost use Rattle.std.specs.Prelude.{◌≡◌, ◌≢◌, true, false, IfErr, IfOk, OnOk, MatchResult};
ghost use Rattle.std.specs.Option.{is_some};
ghost use Rattle.std.specs.Prelude.{Some, None, []};
ghost use Rattle.call_lines.specs.declared.input.InputFault.TheVariants as told;
ghost use Rattle.call_lines.specs.InputSays.{lines_of};
ghost use Rattle.call_lines.specs.Input.{Lends, Says};
ghost use Rattle.call_lines.specs.inside.Adding.{Adds, fits};
ghost use Rattle.call_lines.specs.InputFaults.{IsInputFault};

use crate::input_line::{Line, line_of};
use std::alloc::{AllocError, AllocFailed, Global};
use thiserror::Error;
use verified::{AGGREGATORS, CallInput, aggregator_starts};

/// The reason why a text is no input.
#[derive(Clone, Copy, Debug, Error)]
pub enum InputFault {
    /// The number of the first bad line. Lines count from 1.
    #[error("line {0} is not one that an input may have")]
    Line(usize),
    /// Memory ran out.
    #[error("out of memory")]
    OutOfMemory,
}

impl From<AllocError> for InputFault {
    ghost from_gives = { λ _ fault. fault ≡ told.OutOfMemory };

    fn from(_: AllocError) -> InputFault {
        InputFault::OutOfMemory
    }
}

impl<T: Drop> From<AllocFailed<T>> for InputFault {
    ghost from_gives = { λ _ fault. fault ≡ told.OutOfMemory };

    fn from(_: AllocFailed<T>) -> InputFault {
        InputFault::OutOfMemory
    }
}

/// The input of a compute call, read from a text.
#[derive(Drop)]
pub struct Input {
    id: Option<u64>,
    superstep: Option<u32>,
    count: Option<u32>,
    value: Option<i64>,
    messages: Vec<i64>,
    edges: Vec<(u64, i64)>,
    aggregated: [i64; 8],
}

impl Input {
    /// Reads the input that a text declares.
    ///
    /// Lines and fields are cut as in a graph file. Blank lines and lines that begin with `#` are skipped. The others are:
    /// * `id N`, `superstep N`, `count N` and `value V`: each at most once. The defaults are 0, 0, 1 and 0.
    /// * `message V` and `edge TARGET V`: each adds one at the end.
    /// * `aggregate SLOT V`: the value of aggregator 0 to 7, where the last line counts. Without one, the aggregator has
    ///   its start.
    ///
    /// Numbers are decimal digits; a value may have a `-` before them. Ids and targets go up to 9,223,372,036,854,775,807,
    /// supersteps and counts have 32 bits, and values are in the range of an `i64`.
    ///
    /// `Line` reports the first line that is none of these, comes once too often, or has a number out of its range.
    pub fn read(alloc: Global, text: &str) -> Result<Input, InputFault>
        ensures says { IfOk result (Says (lines_of text.now)) }
        ensures refused { IfErr result (IsInputFault (lines_of text.now)) }
    {
        let mut input = Input::new(alloc);
        for (index, line) in text.lines().enumerate() {
            input.add(index + 1, line_of(line))?;
        }
        Ok(input)
    }

    /// Returns the input of the call. This allocates nothing and copies neither messages nor edges.
    pub fn call_input(&self) -> CallInput<'_>
        ensures { Lends self.now result }
    {
        CallInput {
            id: self.id.unwrap_or(0),
            superstep: self.superstep.unwrap_or(0),
            count: self.count.unwrap_or(1),
            value: self.value.unwrap_or(0),
            messages: self.messages.as_slice(),
            edges: self.edges.as_slice(),
            aggregated: self.aggregated,
        }
    }

    // Makes the input of no lines.
    fn new(alloc: Global) -> Input
        ensures { Says [] result }
    {
        Input {
            id: None,
            superstep: None,
            count: None,
            value: None,
            messages: Vec::new(alloc),
            edges: Vec::new(alloc),
            aggregated: aggregator_starts(),
        }
    }

    // Adds what the line of this number declares.
    fn add(&mut self, number: usize, line: Line) -> Result<(), InputFault>
        ensures added { OnOk result (Adds line self.old self.new) }
        ensures refused { IfErr result (λ fault. fault ≢ InputFault.OutOfMemory
            → (fault ≡ InputFault.Line number) × (fits line self.old ≡ false)) }
    {
        match line {
            Line::Skipped => Ok(()),
            Line::Id(id) => say_once(&mut self.id, id, number),
            Line::Superstep(superstep) => say_once(&mut self.superstep, superstep, number),
            Line::Count(count) => say_once(&mut self.count, count, number),
            Line::Value(value) => say_once(&mut self.value, value, number),
            Line::Message(value) => {
                self.messages.push(value)?;
                Ok(())
            }
            Line::Edge(target, value) => {
                self.edges.push((target, value))?;
                Ok(())
            }
            Line::Aggregate(aggregator, value) => {
                if aggregator >= AGGREGATORS {
                    return Err(InputFault::Line(number));
                }
                self.aggregated[aggregator as usize] = value;
                Ok(())
            }
            Line::Bad => Err(InputFault::Line(number)),
        }
    }
}

// Sets what may be declared once.
fn say_once<T: Drop>(place: &mut Option<T>, said: T, number: usize) -> Result<(), InputFault>
    ensures { MatchResult result (λ _. (place.old ≡ None) × (place.new ≡ Some said))
        (λ fault. (fault ≡ told.Line number) × (is_some place.old ≡ true)
        × (place.new ≡ place.old)) }
{
    if place.is_some() {
        return Err(InputFault::Line(number));
    }
    *place = Some(said);
    Ok(())
}
