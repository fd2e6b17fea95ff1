//! One line of a replay.

ghost use Rattle.std.specs.Prelude.{◌≡◌};
ghost use Rattle.plain_commands.specs.StepLine.{alone, of_worker, step_line_of};

use call_lines::u32_of;
use line_text::Fields;
use rollback::Step;

/// The meaning of a line.
#[derive(Clone, Copy)]
pub enum StepLine {
    /// It is blank, or a comment.
    Skipped,
    /// `take W`, `work W`, `lose W`, `tick` or `join W`.
    Says(Step),
    /// It is no line of a replay.
    Bad,
}

/// Reads a line, without its line feed.
pub fn step_line_of(line: &str) -> StepLine
    ensures { result ≡ step_line_of line.now }
{
    if line.starts_with('#') {
        return StepLine::Skipped;
    }
    let mut fields = Fields::new(line);
    let Some(name) = fields.next() else {
        return StepLine::Skipped;
    };
    let Some(worker) = fields.next() else {
        return alone(name);
    };
    if fields.next().is_some() {
        return StepLine::Bad;
    }
    of_worker(name, worker)
}

// Reads a line of a name alone.
fn alone(name: &[u8]) -> StepLine
    ensures { result ≡ alone name.now }
{
    if name == b"tick".as_slice() {
        StepLine::Says(Step::Tick)
    } else {
        StepLine::Bad
    }
}

// Reads a line of a name and a worker.
fn of_worker(name: &[u8], worker: &[u8]) -> StepLine
    ensures { result ≡ of_worker name.now worker.now }
{
    let worker = match u32_of(worker) {
        Some(worker) => worker,
        None => return StepLine::Bad,
    };
    if name == b"take".as_slice() {
        return StepLine::Says(Step::Take(worker));
    }
    if name == b"work".as_slice() {
        return StepLine::Says(Step::Work(worker));
    }
    if name == b"lose".as_slice() {
        return StepLine::Says(Step::Lose(worker));
    }
    if name == b"join".as_slice() {
        return StepLine::Says(Step::Join(worker));
    }
    StepLine::Bad
}
