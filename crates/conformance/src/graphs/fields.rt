//! The fields of lines. `fields LINE` prints each in parentheses; `number FIELD` and `id FIELD` print the number.

use conformance_cases::{Line, halves};
use line_text::{Fields, id_of, number_of};
use std::fmt::Display;

/// Writes the fields of a line, or the number in a field.
pub fn answer(case: &str, line: &mut Line) {
    let (question, text) = halves(case, " ");
    match question {
        "number" => tell_number(number_of(text.as_bytes()), line),
        "id" => tell_number(id_of(text.as_bytes()), line),
        _ => tell_fields(text, line),
    }
}

fn tell_fields(text: &str, line: &mut Line) {
    for field in Fields::new(text) {
        line.put("(");
        line.put(str::from_utf8(field).unwrap_or("no text"));
        line.put(")");
    }
}

fn tell_number<N: Display + Drop>(number: Option<N>, line: &mut Line) {
    match number {
        Some(number) => line.show(&number),
        None => line.put("none"),
    }
}
