//! The text of the file, and whether it is of a job.

ghost use Rattle.std.specs.Prelude.{◌≡◌, IfOk, Some, option_map, string_bytes};
ghost use Rattle.serde_json.specs.Read.{read};
ghost use Rattle.serde_json.specs.View.{view};
ghost use Rattle.checkpoint.specs.Naming.{IsKinship, IsKinshipIn, NamesJob, job_data, text_at};

use crate::job_id::JobId;
use serde_json::{Value, json};
use std::alloc::{AllocError, Global};

/// What a file `job.json` says of a job.
#[derive(Clone, Copy)]
pub enum Kinship {
    /// It is of this job.
    Same,
    /// It is of a job of another module.
    OtherModule,
    /// It is of a job of this module over another graph.
    OtherGraph,
    /// It is no JSON object with the texts `module` and `graph`.
    Unreadable,
}

/// Writes down the job whose states are kept: the SHA-256 of its two files, and with which limit and in how many parts it was
/// run, for the reader.
pub fn job_text(alloc: Global, job: &JobId, limit: u32, parts: u32) -> Result<String, AllocError>
    ensures named { IfOk result (λ text. NamesJob (string_bytes text) job.now) }
    ensures told { IfOk result (λ text.
        read (string_bytes text) ≡ Some (job_data job.now limit parts)) }
{
    let value = job_value(alloc, job, limit, parts)?;
    value.to_string(alloc)
}

fn job_value(alloc: Global, job: &JobId, limit: u32, parts: u32) -> Result<Value, AllocError>
    ensures { IfOk result (λ value. view value ≡ job_data job.now limit parts) }
{
    let module = hex::encode(alloc, job.module)?;
    let graph = hex::encode(alloc, job.graph)?;
    json!(in alloc; {
        "graph": graph,
        "limit": limit,
        "module": module,
        "parts": parts
    })
}

/// Tells whether a file with this text is of a job.
pub fn compare(alloc: Global, text: &str, job: &JobId) -> Result<Kinship, AllocError>
    ensures { IfOk result (IsKinship text.now job.now) }
{
    match Value::from_str(alloc, text) {
        Ok(value) => kinship_of(alloc, &value, job),
        Err(error) => {
            if error.is_memory() {
                Err(AllocError)
            } else {
                Ok(Kinship::Unreadable)
            }
        }
    }
}

fn kinship_of(alloc: Global, value: &Value, job: &JobId) -> Result<Kinship, AllocError>
    ensures { IfOk result (IsKinshipIn (view value.now) job.now) }
{
    let Some(module) = text_of(value, "module") else {
        return Ok(Kinship::Unreadable);
    };
    let Some(graph) = text_of(value, "graph") else {
        return Ok(Kinship::Unreadable);
    };
    let own = hex::encode(alloc, job.module)?;
    if module != own.as_str() {
        return Ok(Kinship::OtherModule);
    }
    let own = hex::encode(alloc, job.graph)?;
    if graph != own.as_str() {
        return Ok(Kinship::OtherGraph);
    }
    Ok(Kinship::Same)
}

// The text that is a member of a JSON object.
fn text_of<'a>(value: &'a Value, name: &str) -> Option<&'a str>
    ensures { option_map (λ text. text.now) result ≡ text_at name.now (view value.now) }
{
    value.get(name).and_then(Value::as_str)
}
