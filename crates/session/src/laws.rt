//! A law of all sessions.

ghost use Rattle.session.specs.Same.{HaveSameValues};

use crate::runner::Runner;
use semantics::calls_are_a_function;
use sources::Files;

/// Shows that two sessions report the same values of two jobs, if these have the same module, graph and limit. The files,
/// the way of running jobs and the other commands do not matter.
pub fn same_values<F: Files, G: Files, N: Runner, M: Runner>(
    files: &F,
    runner: &N,
    other_files: &G,
    other_runner: &M,
)
    ensures { HaveSameValues (F.disk files.now) (G.disk other_files.now) (N.runs runner.now)
        (M.runs other_runner.now) }
{
    calls_are_a_function();
}
