//! Compute calls of modules in the bounded profile, as text (Core 1.0, section 4). Each answer is that of the second of two calls,
//! which uses the buffers of the first. The script `tests/calls` has the program and a reference answer the same cases.
//!
//! A case is `BODY | with FIELDS | input LINES`. The body and the fields replace the two `□` of `modules/calls.wat`; in
//! `interp/calls-modules.txt` the body is the whole module. Without `input` the vertex is that of `interp/calls-vertex.txt`.

mod second_call;

use crate::modules::verified_of;
use anyhow::Result;
use call_lines::Input;
use conformance_cases::{Answers, CaseFiles, Line, halves, show_texts};
use sources::CommandFault;
use std::alloc::{AllocError, Global};
use verified::CallInput;

// The files of the cases whose frame is `modules/calls.wat`.
const FILES: [&str; 5] = [
    "interp/calls-numbers.txt",
    "interp/calls-control.txt",
    "interp/calls-functions.txt",
    "interp/calls-memories.txt",
    "interp/calls-host.txt",
];

#[derive(Clone, Copy)]
struct Case<'a> {
    body: &'a str,
    fields: &'a str,
    input: &'a str,
}

impl<'a> Case<'a> {
    fn new(text: &'a str, vertex: &'a str) -> Case<'a> {
        let mut case = Case {
            body: "",
            fields: "",
            input: vertex,
        };
        for part in text.split(" | ") {
            case.add(part);
        }
        case
    }

    fn add(&mut self, part: &'a str) {
        if let Some(fields) = part.strip_prefix("with ") {
            self.fields = fields;
        } else if let Some(lines) = part.strip_prefix("input ") {
            self.input = lines;
        } else {
            self.body = part;
        }
    }

    fn in_frame(&self, alloc: Global, frame: &str) -> Result<String, AllocError> {
        let (front, others) = halves(frame, "□");
        let (middle, back) = halves(others, "□");
        let mut text = Line::new(alloc);
        text.put(front);
        text.put(self.body);
        text.put(middle);
        text.put(self.fields);
        text.put(back);
        text.finish()
    }
}

// The answers to calls in a frame, for this vertex.
#[derive(Clone, Copy)]
struct Calls<'a> {
    alloc: Global,
    frame: &'a str,
    vertex: &'a str,
}

impl Answers for Calls<'_> {
    fn tell(&self, case: &str, line: &mut Line) {
        let case = Case::new(case, self.vertex);
        match case.in_frame(self.alloc, self.frame) {
            Ok(text) => tell(self.alloc, text.as_str(), case, line),
            Err(_) => line.cut(),
        }
    }
}

pub fn show(rt: &(impl CaseFiles + Print + AllocGlobal)) -> Result<()> {
    let vertex = rt.text_of("interp/calls-vertex.txt")?;
    show_in_frame(rt, vertex.as_str())?;
    show_file(rt, "interp/calls-modules.txt", "□", vertex.as_str())
}

fn show_in_frame(rt: &(impl CaseFiles + Print + AllocGlobal), vertex: &str) -> Result<()> {
    let frame = rt.text_of("modules/calls.wat")?;
    for file in FILES {
        show_file(rt, file, frame.as_str(), vertex)?;
    }
    Ok(())
}

fn show_file(
    rt: &(impl CaseFiles + Print + AllocGlobal),
    file: &str,
    frame: &str,
    vertex: &str,
) -> Result<()> {
    let alloc = rt.alloc();
    show_texts(
        rt,
        file,
        &Calls {
            alloc,
            frame,
            vertex,
        },
    )
}

fn tell(alloc: Global, text: &str, case: Case, line: &mut Line) {
    match Input::read(alloc, case.input) {
        Ok(input) => tell_call(alloc, text, &input.call_input(), line),
        Err(fault) => line.show(&CommandFault::Input(fault)),
    }
}

fn tell_call(alloc: Global, text: &str, input: &CallInput, line: &mut Line) {
    match verified_of(alloc, text) {
        Ok(verified) => second_call::tell(alloc, &verified, input, line),
        Err(fault) => line.show(&fault),
    }
}
