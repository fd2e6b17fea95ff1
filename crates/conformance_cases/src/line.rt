//! The line that a case prints.

use std::alloc::{AllocError, Global};
use std::fmt::{Debug, Display};

/// An answer that is put together of pieces. It notes that memory ran out, so that no piece has to ask.
#[derive(Drop)]
pub struct Line {
    text: String,
    is_cut: bool,
}

impl Line {
    pub fn new(alloc: Global) -> Line {
        Line {
            text: String::new(alloc),
            is_cut: false,
        }
    }

    /// Appends a piece.
    pub fn put(&mut self, piece: &str) {
        if self.text.push_str(piece).is_err() {
            self.is_cut = true;
        }
    }

    /// Appends a character.
    pub fn push(&mut self, character: char) {
        if self.text.push(character).is_err() {
            self.is_cut = true;
        }
    }

    /// Appends a value as `{}` prints it.
    pub fn show<T: Display>(&mut self, value: &T) {
        if write!(self.text, "{value}").is_err() {
            self.is_cut = true;
        }
    }

    /// Appends a piece and a value.
    pub fn add<T: Display>(&mut self, piece: &str, value: &T) {
        self.put(piece);
        self.show(value);
    }

    /// Appends a value as `{:?}` prints it.
    pub fn debug<T: Debug>(&mut self, value: &T) {
        if write!(self.text, "{value:?}").is_err() {
            self.is_cut = true;
        }
    }

    /// Appends a byte in two hexadecimal digits.
    pub fn byte(&mut self, byte: u8) {
        if write!(self.text, "{byte:02X}").is_err() {
            self.is_cut = true;
        }
    }

    /// Appends the pieces of another line.
    pub fn append(&mut self, other: &Line) {
        self.put(other.as_str());
        self.is_cut |= other.is_cut;
    }

    /// Appends a text, with a word in the place of each LF.
    pub fn put_lines(&mut self, text: &str, end: &str) {
        let Some((first, others)) = text.split_once('\n') else {
            return self.put(text);
        };
        self.put(first);
        for part in others.split('\n') {
            self.put(end);
            self.put(part);
        }
    }

    /// Appends a gap, unless the line is empty.
    pub fn gap(&mut self, gap: &str) {
        if !self.is_empty() {
            self.put(gap);
        }
    }

    /// Notes that memory ran out elsewhere, so that something is missing.
    pub fn cut(&mut self) {
        self.is_cut = true;
    }

    pub fn is_empty(&self) -> bool {
        self.text.is_empty()
    }

    pub fn as_str(&self) -> &str {
        self.text.as_str()
    }

    /// Returns the whole answer, unless memory ran out.
    pub fn finish(self) -> Result<String, AllocError> {
        if self.is_cut {
            Err(AllocError)
        } else {
            Ok(self.text)
        }
    }
}
