//! Modules in the binary format (Core 1.0, section 5).
//!
//! A file begins with a comment. A line `= QUESTION FRAME` asks a question of each case up to the next such line. The text
//! of a case replaces `..` in the frame. The questions are:
//! * `decode`: the module that the bytes spell;
//! * `alike`: the fault that each of several bytes has in the frame;
//! * `encode`: the shortest spelling of the same module;
//! * `length`: the length of the shortest spelling of a text's module;
//! * `damage`: what becomes of the fronts of the bytes, and of their changes.

mod bounded;
mod damage;
mod sized;
pub mod sweep;

use crate::modules::{decoded, module_of, printed, spelling};
use anyhow::Result;
use conformance_cases::{CaseFiles, Line, halves, is_case, named, spelled};
use damage::tell_damaged;
use sized::sized_bytes;
use sources::CommandFault;
use std::alloc::{AllocError, Global};
use wasm_ast::Module;

const FILES: [&str; 6] = [
    "wasm_decode/binary-modules.txt",
    "wasm_decode/binary-sections.txt",
    "wasm_decode/binary-code.txt",
    "wasm_decode/binary-limits.txt",
    "wasm_decode/binary-encoded.txt",
    "wasm_decode/binary-damaged.txt",
];

// From this many on, equal words in a row are written as one.
const MANY: usize = 10;

#[derive(Clone, Copy)]
struct Frame<'a> {
    question: &'a str,
    front: &'a str,
    back: &'a str,
}

impl<'a> Frame<'a> {
    fn new(line: &'a str) -> Frame<'a> {
        let (question, frame) = halves(line, " ");
        let (front, back) = halves(frame, "..");
        Frame {
            question,
            front,
            back,
        }
    }

    fn filled(&self, alloc: Global, text: &str) -> Result<String, AllocError> {
        let mut line = Line::new(alloc);
        line.put(self.front);
        line.put(text);
        line.put(self.back);
        line.finish()
    }

    fn spelled(&self, alloc: Global, text: &str) -> Result<String, AllocError> {
        let line = self.filled(alloc, text)?;
        spelled(alloc, line.as_str())
    }

    fn bytes(&self, alloc: Global, text: &str) -> Result<Vec<u8>, AllocError> {
        let text = self.spelled(alloc, text)?;
        sized_bytes(alloc, text.as_str())
    }
}

pub fn show(rt: &(impl CaseFiles + Print + AllocGlobal)) -> Result<()> {
    for file in FILES {
        show_file(rt, file)?;
    }
    Ok(())
}

fn show_file(rt: &(impl CaseFiles + Print + AllocGlobal), file: &str) -> Result<()> {
    let text = rt.text_of(file)?;
    for part in text.as_str().split("\n= ") {
        show_part(rt, part)?;
    }
    Ok(())
}

// Shows a question with its frame, and a line for each case after it.
fn show_part(rt: &(impl Print + AllocGlobal), part: &str) -> Result<()> {
    let (question, cases) = halves(part, "\n");
    let frame = Frame::new(question);
    for case in cases.lines().filter(|line| is_case(line)) {
        show_case(rt, frame, case)?;
    }
    Ok(())
}

fn show_case(rt: &(impl Print + AllocGlobal), frame: Frame, line: &str) -> Result<()> {
    let (name, text) = named(line);
    let answer = answer(rt.alloc(), frame, text)?;
    println!(rt; "{name}: {answer}")?;
    Ok(())
}

fn answer(alloc: Global, frame: Frame, text: &str) -> Result<String, AllocError> {
    let mut line = Line::new(alloc);
    tell(alloc, frame, text, &mut line);
    line.finish()
}

fn tell(alloc: Global, frame: Frame, text: &str, line: &mut Line) {
    match frame.question {
        "alike" => tell_alike(alloc, frame, text, line),
        "length" => tell_length(alloc, frame, text, line),
        _ => tell_for_bytes(alloc, frame, text, line),
    }
}

fn tell_for_bytes(alloc: Global, frame: Frame, text: &str, line: &mut Line) {
    let Ok(bytes) = frame.bytes(alloc, text) else {
        return line.cut();
    };
    match frame.question {
        "decode" => tell_decoded(alloc, bytes.as_slice(), line),
        "encode" => tell_encoded(alloc, bytes.as_slice(), line),
        _ => tell_damaged(alloc, bytes.as_slice(), line),
    }
}

// Writes the module that the bytes spell.
fn tell_decoded(alloc: Global, bytes: &[u8], line: &mut Line) {
    match decoded(alloc, bytes) {
        Ok(module) => tell_module(alloc, &module, line),
        Err(fault) => line.show(&fault),
    }
}

fn tell_module(alloc: Global, module: &Module, line: &mut Line) {
    match printed(alloc, module) {
        Ok(text) => push_words(alloc, text.as_str(), line),
        Err(_) => line.cut(),
    }
}

// Joins the words of a text by single blanks.
fn push_words(alloc: Global, text: &str, line: &mut Line) {
    let mut run = Run {
        word: String::new(alloc),
        count: 0,
    };
    for word in text.split_ascii_whitespace() {
        run.take(word, line);
    }
    run.write(line);
}

// Equal words in a row.
#[derive(Drop)]
struct Run {
    word: String,
    count: usize,
}

impl Run {
    // Counts the word if it is the same, or writes the row and begins one of this word.
    fn take(&mut self, word: &str, line: &mut Line) {
        if word != self.word.as_str() {
            self.write(line);
            self.begin(word, line);
        }
        self.count = self.count.saturating_add(1);
    }

    fn begin(&mut self, word: &str, line: &mut Line) {
        self.count = 0;
        self.word.clear();
        if self.word.push_str(word).is_err() {
            line.cut();
        }
    }

    // Appends the words, as `⟦N|WORD⟧` if they are many.
    fn write(&self, line: &mut Line) {
        if self.count >= MANY {
            line.gap(" ");
            line.add("⟦", &self.count);
            line.add("|", &self.word);
            return line.put("⟧");
        }
        for _ in 0..self.count {
            line.gap(" ");
            line.put(self.word.as_str());
        }
    }
}

// Writes the answer that each of the bytes has in the frame, or the first byte with another one.
fn tell_alike(alloc: Global, frame: Frame, text: &str, line: &mut Line) {
    let (first, others) = halves(text, " ");
    let Ok(told) = fault_told(alloc, frame, first) else {
        return line.cut();
    };
    for byte in others.split_ascii_whitespace() {
        if !has_answer(alloc, frame, byte, told.as_str()) {
            return line.add("otherwise at ", &byte);
        }
    }
    line.put(told.as_str());
}

// Returns whether this is the answer to the byte in the frame.
fn has_answer(alloc: Global, frame: Frame, byte: &str, told: &str) -> bool {
    match fault_told(alloc, frame, byte) {
        Ok(other) => other.as_str() == told,
        Err(_) => false,
    }
}

fn fault_told(alloc: Global, frame: Frame, text: &str) -> Result<String, AllocError> {
    let mut line = Line::new(alloc);
    tell_fault(alloc, frame, text, &mut line);
    line.finish()
}

fn tell_fault(alloc: Global, frame: Frame, text: &str, line: &mut Line) {
    let Ok(bytes) = frame.bytes(alloc, text) else {
        return line.cut();
    };
    match decoded(alloc, bytes.as_slice()) {
        Ok(_) => line.put("a module"),
        Err(fault) => line.show(&fault),
    }
}

// Encodes the module that the bytes spell.
fn tell_encoded(alloc: Global, bytes: &[u8], line: &mut Line) {
    match decoded(alloc, bytes) {
        Ok(module) => tell_spelling(alloc, &module, bytes, line),
        Err(fault) => line.show(&fault),
    }
}

fn tell_spelling(alloc: Global, module: &Module, bytes: &[u8], line: &mut Line) {
    match spelling(alloc, module) {
        Ok(again) if again.as_slice() == bytes => line.put("the same bytes"),
        Ok(again) => push_hexadecimal(again.as_slice(), line),
        Err(fault) => line.show(&CommandFault::from(fault)),
    }
}

fn push_hexadecimal(bytes: &[u8], line: &mut Line) {
    for byte in bytes {
        line.gap(" ");
        line.byte(*byte);
    }
}

// Writes the length of the shortest spelling of a text's module.
fn tell_length(alloc: Global, frame: Frame, text: &str, line: &mut Line) {
    match frame.spelled(alloc, text) {
        Ok(text) => tell_length_of(alloc, text.as_str(), line),
        Err(_) => line.cut(),
    }
}

fn tell_length_of(alloc: Global, text: &str, line: &mut Line) {
    match module_of(alloc, text) {
        Ok(module) => tell_module_length(alloc, &module, line),
        Err(fault) => line.show(&fault),
    }
}

fn tell_module_length(alloc: Global, module: &Module, line: &mut Line) {
    match spelling(alloc, module) {
        Ok(bytes) => {
            line.show(&bytes.len());
            line.put(" bytes");
        }
        Err(fault) => line.show(&CommandFault::from(fault)),
    }
}
