//! Why the module of a command is refused, shown beside its answer.

ghost use Rattle.sources.specs.Disk.{Stays};

use crate::choosing::{explanation, is_explained};
use requests::Request;
use sources::{CommandFault, Files, read_source};
use std::alloc::Global;

/// Shows why the module of a command is refused, if it is. If memory runs out, it shows nothing.
pub fn explain_refusal<F: Files>(
    alloc: Global,
    request: Request<'_>,
    fault: &CommandFault,
    explains: bool,
    files: &mut F,
)
    ensures { Stays (F.disk files.old) (F.disk files.new) }
{
    if !explains || !is_explained(fault) {
        return;
    }
    if let Some(path) = module_path(request) {
        show_explanation(alloc, path, fault, files);
    }
}

// The file of the module of a command that may explain why it is refused.
fn module_path<'a>(request: Request<'a>) -> Option<&'a str> {
    match request {
        Request::Call { module, .. } => Some(module.path),
        Request::Run(asked) => Some(asked.job.module.path),
        Request::Verify { module } => Some(module.path),
        _ => None,
    }
}

// Shows why the module in a file is refused. The file is read again; what cannot be read is explained without its place.
fn show_explanation<F: Files>(alloc: Global, path: &str, fault: &CommandFault, files: &mut F)
    ensures { Stays (F.disk files.old) (F.disk files.new) }
{
    let source = read_source(alloc, path, files).ok();
    if let Ok(Some(text)) = explanation(alloc, source.as_ref(), fault) {
        files.warn(text.as_str().trim_end());
    }
}
