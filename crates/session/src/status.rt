//! The state of a job, as JSON.

ghost use Rattle.std.specs.Prelude.{◌≡◌, IfOk, OnOk, string_bytes};
ghost use Rattle.std.specs.Fmt.{decimal};
ghost use Rattle.serde_json.specs.Data.{no_members, object, put as with_member, string};
ghost use Rattle.serde_json.specs.Written.{compact_text};
ghost use Rattle.serde_json.specs.View.{members_view, view};
ghost use Rattle.session.specs.Replies.{fault_data, numbers_of, state_word, status_data, status_line};

use crate::run_state::RunState;
use call_lines::end_word;
use line_text::TextBuilder;
use serde_json::{Map, Value, put};
use std::alloc::{AllocError, Global};

/// The numbers of the report that a job ended with.
#[derive(Clone, Copy)]
pub struct Numbers {
    pub superstep: u32,
    pub units: u128,
    pub dropped: u128,
    pub epoch: u64,
    pub missed: u64,
    pub restarts: u64,
}

/// Writes `ok` and the state of a job as compact JSON.
pub fn status_text(alloc: Global, name: &str, state: &RunState) -> Result<String, AllocError>
    ensures { IfOk result (λ text. string_bytes text ≡ status_line name.now state.now) }
{
    let json = json_of(alloc, name, state)?;
    let mut text = TextBuilder::new(alloc);
    text.put("ok ");
    text.put(json.as_str());
    text.put("\n");
    text.finish()
}

fn json_of(alloc: Global, name: &str, state: &RunState) -> Result<String, AllocError>
    ensures { IfOk result
        (λ json. string_bytes json ≡ compact_text (status_data name.now state.now)) }
{
    let status = status_value(alloc, name, state)?;
    status.to_string(alloc)
}

fn status_value(alloc: Global, name: &str, state: &RunState) -> Result<Value, AllocError>
    ensures { IfOk result (λ status. view status ≡ status_data name.now state.now) }
{
    let mut map = Map::new(alloc);
    put_status(&mut map, alloc, name, state)?;
    Ok(Value::Object(map))
}

fn put_status(
    map: &mut Map<String, Value>,
    alloc: Global,
    name: &str,
    state: &RunState,
) -> Result<(), AllocError>
    requires { members_view map.old.entries ≡ no_members }
    ensures { OnOk result
        (object (members_view map.new.entries) ≡ status_data name.now state.now) }
{
    let numbers = numbers_of(state);
    put_large(map, alloc, "dropped", numbers.dropped)?;
    put(map, alloc, "epoch", Value::from(numbers.epoch))?;
    let fault = fault_of(alloc, state)?;
    put(map, alloc, "fault", fault)?;
    put(map, alloc, "missed", Value::from(numbers.missed))?;
    put_text(map, alloc, "name", name)?;
    put(map, alloc, "restarts", Value::from(numbers.restarts))?;
    put_text(map, alloc, "state", state_word(state))?;
    put(map, alloc, "superstep", Value::from(numbers.superstep))?;
    put_large(map, alloc, "units", numbers.units)
}

// Puts a number that JSON readers may not hold into an object, as a text.
fn put_large(
    map: &mut Map<String, Value>,
    alloc: Global,
    name: &str,
    number: u128,
) -> Result<(), AllocError>
    ensures { OnOk result (members_view map.new.entries
        ≡ with_member name.now (string (decimal number)) (members_view map.old.entries)) }
{
    let text = number.to_string(alloc)?;
    put(map, alloc, name, Value::String(text))
}

fn put_text(
    map: &mut Map<String, Value>,
    alloc: Global,
    name: &str,
    text: &str,
) -> Result<(), AllocError>
    ensures { OnOk result (members_view map.new.entries
        ≡ with_member name.now (string text.now) (members_view map.old.entries)) }
{
    let text = Value::try_from_str(alloc, text)?;
    put(map, alloc, name, text)
}

// Returns the numbers of the report. All are 0 if there is none.
fn numbers_of(state: &RunState) -> Numbers
    ensures { result ≡ numbers_of state.now }
{
    match state {
        RunState::Ended(report) => Numbers {
            superstep: report.ended.superstep,
            units: report.ended.units,
            dropped: report.ended.dropped,
            epoch: report.epoch,
            missed: report.missed,
            restarts: report.restarts,
        },
        _ => Numbers {
            superstep: 0,
            units: 0,
            dropped: 0,
            epoch: 0,
            missed: 0,
            restarts: 0,
        },
    }
}

fn state_word(state: &RunState) -> &'static str
    ensures { result.now ≡ state_word state.now }
{
    match state {
        RunState::Waiting => "waiting",
        RunState::Ended(report) => end_word(report.ended.how),
        RunState::Failed(_) => "fault",
    }
}

// Returns the word of the fault that the job ended with, or null.
fn fault_of(alloc: Global, state: &RunState) -> Result<Value, AllocError>
    ensures { IfOk result (λ fault. view fault ≡ fault_data state.now) }
{
    match state {
        RunState::Failed(fault) => Value::try_from_str(alloc, fault.word()),
        _ => Ok(Value::Null),
    }
}
