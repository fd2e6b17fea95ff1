//! The replies that refuse a file or the settings of a job.

ghost use Rattle.std.specs.Prelude.{◌≡◌, ◌++◌, IfOk, MatchOption, None, Some, codes, string_bytes};
ghost use Rattle.session.specs.Words.{words_of};
ghost use Rattle.session.specs.Replies.{no_line, number_of, refusal_line, third, with_word, word_of};
ghost use Rattle.session.specs.inside.SeenLines.{IsToldOrNoMemory, reply_text};

use crate::reply::Reply;
use crate::word::first_word;
use line_text::TextBuilder;
use sources::CommandFault;
use std::alloc::{AllocError, Global};

/// Returns the reply to a fault: the number of the refusal and a word.
pub fn refusal(alloc: Global, fault: &CommandFault) -> Reply
    ensures { IsToldOrNoMemory (refusal_line fault.now) (reply_text result) }
{
    if let CommandFault::Unread(_) = fault {
        return Reply::File;
    }
    match number_of(fault) {
        Some(number) => numbered(alloc, number, fault),
        None => Reply::OutOfMemory,
    }
}

// Returns the number of the refusals of this kind, if their reply has a word.
fn number_of(fault: &CommandFault) -> Option<&'static str>
    ensures { MatchOption result (number_of fault.now ≡ None)
        (λ number. number_of fault.now ≡ Some number.now) }
{
    match fault {
        CommandFault::Decode(_) => Some("5"),
        CommandFault::Text(_) => Some("6"),
        CommandFault::Invalid(_) => Some("7"),
        CommandFault::Unbounded(_) => Some("8"),
        CommandFault::Graph(_) => Some("9"),
        CommandFault::Settings(_) => Some("10"),
        _ => None,
    }
}

// Makes the reply of a number and the third word of the line that the program prints for a fault.
fn numbered(alloc: Global, number: &str, fault: &CommandFault) -> Reply
    ensures { IsToldOrNoMemory (with_word number.now (word_of fault.now)) (reply_text result) }
{
    match fault.to_string(alloc) {
        Ok(line) => worded(alloc, number, third_word(line.as_str())),
        Err(_) => Reply::OutOfMemory,
    }
}

fn third_word(line: &str) -> &str
    ensures { result.now ≡ third (words_of line.now) }
{
    let Some((_, rest)) = first_word(line) else {
        return "";
    };
    let Some((_, rest)) = first_word(rest) else {
        return "";
    };
    match first_word(rest) {
        Some((word, _)) => word,
        None => "",
    }
}

fn worded(alloc: Global, number: &str, word: &str) -> Reply
    ensures { IsToldOrNoMemory (with_word number.now word.now) (reply_text result) }
{
    if word == "OutOfMemory" {
        return Reply::OutOfMemory;
    }
    Reply::of(refusal_text(alloc, number, word))
}

fn refusal_text(alloc: Global, number: &str, word: &str) -> Result<String, AllocError>
    ensures { IfOk result
        (λ text. string_bytes text ≡ no_line (number.now ++ codes " " ++ word.now)) }
{
    let mut text = TextBuilder::new(alloc);
    text.put("no ");
    text.put(number);
    text.put(" ");
    text.put(word);
    text.put("\n");
    text.finish()
}
