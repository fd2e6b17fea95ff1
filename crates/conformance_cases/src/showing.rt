//! Files of cases, and a line for each.

use crate::case_files::CaseFiles;
use crate::line::Line;
use crate::spelling::{halves, is_case, spelled};
use anyhow::Result;
use std::alloc::{AllocError, Global};

/// The answers to the cases of a file.
pub trait Answers {
    /// Writes the answer to a case.
    fn tell(&self, case: &str, line: &mut Line);
}

/// Prints a line for each case of a file: its name, and the answer. A case is `NAME: TEXT`, or a text that is its own name.
/// The answer is for the text as it is spelled, in the frame of the last line `within FRAME`. A text or a frame that ends in
/// `.wat` is a file, whose content is used.
pub fn show_texts<R: CaseFiles + Print + AllocGlobal, A: Answers>(
    rt: &R,
    path: &str,
    answers: &A,
) -> Result<()> {
    let text = rt.text_of(path)?;
    show_lines(rt, text.as_str(), answers)
}

fn show_lines<R: CaseFiles + Print + AllocGlobal, A: Answers>(
    rt: &R,
    text: &str,
    answers: &A,
) -> Result<()> {
    let mut frame = String::from_str(rt.alloc(), "…")?;
    for line in text.lines() {
        if let Some(name) = line.strip_prefix("within ") {
            frame = text_of(rt, name)?;
        } else if is_case(line) {
            show_text(rt, frame.as_str(), line, answers)?;
        }
    }
    Ok(())
}

fn show_text<R: CaseFiles + Print + AllocGlobal, A: Answers>(
    rt: &R,
    frame: &str,
    line: &str,
    answers: &A,
) -> Result<()> {
    let (name, case) = line.split_once(": ").unwrap_or((line, line));
    let answer = answer(rt, frame, case, answers)?;
    println!(rt; "{name}: {answer}")?;
    Ok(())
}

fn answer<A: Answers>(
    rt: &(impl CaseFiles + AllocGlobal),
    frame: &str,
    case: &str,
    answers: &A,
) -> Result<String> {
    let text = text_of(rt, case)?;
    Ok(answer_in(rt.alloc(), frame, text.as_str(), answers)?)
}

// Returns the answer to a line in the place of the frame's `…`, spelled out.
fn answer_in<A: Answers>(
    alloc: Global,
    frame: &str,
    line: &str,
    answers: &A,
) -> Result<String, AllocError> {
    let whole = framed(alloc, frame, line)?;
    let mut line = Line::new(alloc);
    answers.tell(whole.as_str(), &mut line);
    line.finish()
}

fn text_of(rt: &(impl CaseFiles + AllocGlobal), text: &str) -> Result<String> {
    if text.ends_with(".wat") {
        rt.text_of(text)
    } else {
        Ok(String::from_str(rt.alloc(), text)?)
    }
}

// Puts a line in the place of the frame's `…`, and spells out the whole.
fn framed(alloc: Global, frame: &str, line: &str) -> Result<String, AllocError> {
    let (before, after) = halves(frame, "…");
    let mut whole = Line::new(alloc);
    whole.put(before);
    whole.put(line);
    whole.put(after);
    let whole = whole.finish()?;
    spelled(alloc, whole.as_str())
}
