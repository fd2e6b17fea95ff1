//! Inboxes. `NAME: IDS; FROM SEQ TO VALUE, FROM SEQ TO VALUE, ..` prints the inbox of each id, and the number of dropped
//! letters. It prints `no number` if a number of the case cannot be read.

pub mod by_part;

ghost use Rattle.std.specs.Prelude.{◌≡◌, IsTrue};
ghost use Rattle.std.specs.List.{IsDistinct, list_any};
ghost use Rattle.std.specs.List.Sorted.{IsStrictlyIncreasing};
ghost use Rattle.inbox.specs.Merging.{are_one};

use conformance_cases::{Line, halves};
use inbox::{Inbox, Letter, merge};
use std::alloc::{AllocError, Global};

/// Writes the inboxes of a case.
pub fn answer(alloc: Global, case: &str, line: &mut Line) {
    let (ids, letters) = halves(case, ";");
    let mut unread = false;
    match ids_in(alloc, ids, &mut unread) {
        Ok(ids) => deliver(alloc, letters, ids.as_slice(), unread, line),
        Err(_) => line.cut(),
    }
}

fn deliver(alloc: Global, letters: &str, ids: &[u64], unread_id: bool, line: &mut Line) {
    let mut unread = unread_id;
    match letters_in(alloc, letters, &mut unread) {
        Ok(_) if unread => line.put("no number"),
        Ok(letters) => tell_merged(alloc, letters.as_slice(), ids, line),
        Err(_) => line.cut(),
    }
}

// Reads the ids, and notes whether one cannot be read.
fn ids_in(alloc: Global, text: &str, unread: &mut bool) -> Result<Vec<u64>, AllocError> {
    let mut ids = Vec::new(alloc);
    for word in text.split_ascii_whitespace() {
        ids.push(natural_in(word, unread))?;
    }
    Ok(ids)
}

// Reads the letters, and notes whether a number of one cannot be read.
fn letters_in(alloc: Global, text: &str, unread: &mut bool) -> Result<Vec<Letter>, AllocError> {
    let mut letters = Vec::new(alloc);
    for spelling in text.split(',') {
        if !spelling.trim().is_empty() {
            letters.push(letter_of(spelling, unread))?;
        }
    }
    Ok(letters)
}

fn letter_of(spelling: &str, unread: &mut bool) -> Letter {
    let mut words = spelling.split_ascii_whitespace();
    Letter {
        from: natural_in(words.next().unwrap_or(""), unread),
        seq: natural_in(words.next().unwrap_or(""), unread),
        to: integer_in(words.next().unwrap_or(""), unread),
        value: integer_in(words.next().unwrap_or(""), unread),
    }
}

fn natural_in(word: &str, unread: &mut bool) -> u64 {
    let Ok(number) = word.parse() else {
        *unread = true;
        return 0;
    };
    number
}

fn integer_in(word: &str, unread: &mut bool) -> i64 {
    let Ok(number) = word.parse() else {
        *unread = true;
        return 0;
    };
    number
}

// Merges the letters, if the ids rise and the letters are distinct.
fn tell_merged(alloc: Global, letters: &[Letter], ids: &[u64], line: &mut Line) {
    if !are_rising(ids) {
        return line.put("the ids do not rise");
    }
    if !are_distinct(letters) {
        return line.put("two letters of one source have one number");
    }
    match merge(alloc, letters, ids) {
        Ok((inboxes, dropped)) => {
            tell_inboxes(&inboxes, line);
            line.add("dropped ", &dropped);
        }
        Err(_) => line.cut(),
    }
}

fn are_rising(ids: &[u64]) -> bool
    ensures { IsTrue result → IsStrictlyIncreasing ids.now }
{
    for index in 1..ids.len() {
        if ids[index] <= ids[index - 1] {
            return false;
        }
    }
    true
}

fn are_distinct(letters: &[Letter]) -> bool
    ensures { IsTrue result → IsDistinct are_one letters.now }
{
    let mut rest = letters;
    while let Some((first, others)) = rest.split_first() {
        if is_among(first, others) {
            return false;
        }
        rest = others;
    }
    true
}

// Returns whether one of the others has the source and the number of this letter.
fn is_among(letter: &Letter, others: &[Letter]) -> bool
    ensures { result ≡ list_any (are_one letter.now) others.now }
{
    others.iter().any(|other| letter.from == other.from && letter.seq == other.seq)
}

fn tell_inboxes(inboxes: &[Inbox], line: &mut Line) {
    for inbox in inboxes {
        tell_messages(inbox, line);
    }
}

fn tell_messages(inbox: &Inbox, line: &mut Line) {
    line.put("[");
    for (place, message) in inbox.as_slice().iter().enumerate() {
        line.put(if place == 0 { "" } else { " " });
        line.show(message);
    }
    line.put("] ");
}
