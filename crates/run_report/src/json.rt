//! A run as JSON.

ghost use Rattle.std.specs.Prelude.{◌≡◌, IfOk, OnOk, Some, codes, string_bytes};
ghost use Rattle.run_report.specs.Json.{IsJsonOf, count_data, counts_data, fault_data, numbers_data, outcome_data, report_data, settings_data, superstep_data, with_counts};
ghost use Rattle.serde_json.specs.Data.{no_members, object, put as with_member, string};
ghost use Rattle.serde_json.specs.Read.{read};
ghost use Rattle.serde_json.specs.View.{members_view, view};
ghost use Rattle.serde_json.specs.Written.{compact_text};

use crate::counts::SuperstepCounts;
use crate::report::{JobFiles, Outcome, RunReport, RunSettings};
use serde_json::{Map, Value, put};
use std::alloc::{AllocError, Global};

/// The report as one line of JSON, which reads back as what was reported. The only refusal is that there is no memory.
pub fn json_text(alloc: Global, files: JobFiles, report: &RunReport) -> Result<String, AllocError>
    ensures { IfOk result (λ text. IsJsonOf files.entry report.now (string_bytes text)) }
{
    let mut text = text_of(alloc, files, report)?;
    text.push_str("\n")?;
    Ok(text)
}

// The report as JSON without blanks.
fn text_of(alloc: Global, files: JobFiles, report: &RunReport) -> Result<String, AllocError>
    ensures compact { IfOk result
        (λ json. string_bytes json ≡ compact_text (report_data files.entry report.now)) }
    ensures reads_back { IfOk result
        (λ json. read (string_bytes json) ≡ Some (report_data files.entry report.now)) }
{
    let value = report_value(alloc, files, report)?;
    value.to_string(alloc)
}

fn report_value(alloc: Global, files: JobFiles, report: &RunReport) -> Result<Value, AllocError>
    ensures { IfOk result (λ value. view value ≡ report_data files.entry report.now) }
{
    let mut map = Map::new(alloc);
    put_report(&mut map, alloc, files, report)?;
    Ok(Value::Object(map))
}

fn put_report(
    map: &mut Map<String, Value>,
    alloc: Global,
    files: JobFiles,
    report: &RunReport,
) -> Result<(), AllocError>
    requires { members_view map.old.entries ≡ no_members }
    ensures { OnOk result
        (object (members_view map.new.entries) ≡ report_data files.entry report.now) }
{
    let counts = [
        ("edges", Some(report.edges)),
        ("size", Some(report.size)),
        ("vertices", Some(report.vertices)),
    ];
    put_counts(map, alloc, &counts)?;
    put_text(map, alloc, "graph", files.graph)?;
    put_text(map, alloc, "module", files.module)?;
    let outcome = outcome_value(alloc, &report.outcome)?;
    put(map, alloc, "ended", outcome)?;
    let settings = settings_value(alloc, &report.settings)?;
    put(map, alloc, "settings", settings)?;
    put_lists(map, alloc, report)
}

fn put_lists(
    map: &mut Map<String, Value>,
    alloc: Global,
    report: &RunReport,
) -> Result<(), AllocError>
    ensures { OnOk result (members_view map.new.entries
        ≡ with_member (codes "supersteps") (counts_data report.now.supersteps.items)
        (with_member (codes "spent") (numbers_data report.now.spent.items)
        (members_view map.old.entries))) }
{
    let spent = numbers_value(alloc, &report.spent)?;
    put(map, alloc, "spent", spent)?;
    let supersteps = counts_value(alloc, &report.supersteps)?;
    put(map, alloc, "supersteps", supersteps)
}

fn settings_value(alloc: Global, settings: &RunSettings) -> Result<Value, AllocError>
    ensures { IfOk result (λ value. view value ≡ settings_data settings.now) }
{
    let counts = [
        ("every", Some(u64::from(settings.every))),
        ("lease", Some(u64::from(settings.lease))),
        ("limit", Some(u64::from(settings.limit))),
        ("parts", Some(u64::from(settings.parts))),
        ("workers", Some(u64::from(settings.workers))),
    ];
    object_of(alloc, &counts)
}

fn superstep_value(alloc: Global, counts: &SuperstepCounts) -> Result<Value, AllocError>
    ensures { IfOk result (λ value. view value ≡ superstep_data counts.now) }
{
    let counts = [
        ("called", counts.called),
        ("dropped", counts.dropped),
        ("sent", counts.sent),
        ("superstep", Some(counts.superstep)),
        ("units", counts.units),
    ];
    object_of(alloc, &counts)
}

fn outcome_value(alloc: Global, outcome: &Outcome) -> Result<Value, AllocError>
    ensures { IfOk result (λ value. view value ≡ outcome_data outcome.now) }
{
    let mut map = Map::new(alloc);
    put_outcome(&mut map, alloc, outcome)?;
    Ok(Value::Object(map))
}

fn put_outcome(
    map: &mut Map<String, Value>,
    alloc: Global,
    outcome: &Outcome,
) -> Result<(), AllocError>
    requires { members_view map.old.entries ≡ no_members }
    ensures { OnOk result (object (members_view map.new.entries) ≡ outcome_data outcome.now) }
{
    let counts = [
        ("dropped", outcome.dropped),
        ("epoch", outcome.epoch),
        ("missed", outcome.missed),
        ("restarts", outcome.restarts),
        ("superstep", outcome.superstep),
        ("units", outcome.units),
    ];
    put_counts(map, alloc, &counts)?;
    let fault = fault_value(alloc, outcome.fault)?;
    put(map, alloc, "fault", fault)?;
    put_text(map, alloc, "how", outcome.how)
}

fn fault_value(alloc: Global, fault: Option<&str>) -> Result<Value, AllocError>
    ensures { IfOk result (λ value. view value ≡ fault_data fault.entry) }
{
    match fault {
        Some(fault) => Value::try_from_str(alloc, fault),
        None => Ok(Value::Null),
    }
}

fn put_text(
    map: &mut Map<String, Value>,
    alloc: Global,
    name: &str,
    text: &str,
) -> Result<(), AllocError>
    ensures { OnOk result (members_view map.new.entries
        ≡ with_member name.now (string text.now) (members_view map.old.entries)) }
{
    let text = Value::try_from_str(alloc, text)?;
    put(map, alloc, name, text)
}

// An object of counts by their names.
fn object_of(alloc: Global, counts: &[(&str, Option<u64>)]) -> Result<Value, AllocError>
    ensures { IfOk result (λ value. view value ≡ object (with_counts counts.now no_members)) }
{
    let mut map = Map::new(alloc);
    put_counts(&mut map, alloc, counts)?;
    Ok(Value::Object(map))
}

// Puts counts into an object, each by its name.
fn put_counts(
    map: &mut Map<String, Value>,
    alloc: Global,
    counts: &[(&str, Option<u64>)],
) -> Result<(), AllocError>
    ensures { OnOk result (members_view map.new.entries
        ≡ with_counts counts.now (members_view map.old.entries)) }
{
    for (name, count) in counts {
        put(map, alloc, name, count_value(*count))?;
    }
    Ok(())
}

// A count, or null where it is not known.
fn count_value(count: Option<u64>) -> Value
    ensures { view result ≡ count_data count }
{
    match count {
        Some(count) => Value::from(count),
        None => Value::Null,
    }
}

fn counts_value(alloc: Global, counts: &[SuperstepCounts]) -> Result<Value, AllocError>
    ensures { IfOk result (λ value. view value ≡ counts_data counts.now) }
{
    let mut values = Vec::with_capacity(alloc, counts.len())?;
    for counts in counts {
        let value = superstep_value(alloc, counts)?;
        values.push_reserved(value);
    }
    Ok(Value::Array(values))
}

fn numbers_value(alloc: Global, numbers: &[u64]) -> Result<Value, AllocError>
    ensures { IfOk result (λ value. view value ≡ numbers_data numbers.now) }
{
    let mut values = Vec::with_capacity(alloc, numbers.len())?;
    for number in numbers {
        values.push_reserved(Value::from(*number));
    }
    Ok(Value::Array(values))
}
