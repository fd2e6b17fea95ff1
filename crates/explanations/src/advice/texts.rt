//! Advice on texts that are not a module.

use crate::advice::Advice;
use wat_asm::TextFault;

/// Returns the advice on a text with this fault. No compiler writes such a text.
pub fn advice_of(fault: TextFault) -> Advice {
    let (sentence, text) = words_of(fault);
    Advice {
        sentence,
        text,
        c: "",
        rust: "",
    }
}

// Returns what is wrong, and what to write instead.
fn words_of(fault: TextFault) -> (&'static str, &'static str) {
    match fault {
        TextFault::Lex(_) => (
            "No word, number or string of the text format begins here, or a comment, a string or a name does not end as it has to.",
            "  Usual cause: a quote or a `;)` is missing; a character such as `,` or `{`; a string that goes on in the next line.
  Write instead: strings as \"..\" with \\n and \\22 for what cannot stand in them; comments as ;; .. or (; .. ;).
",
        ),
        TextFault::Syntax(_) => (
            "A module cannot go on like this from here.",
            "  Usual cause: a parenthesis too many or too few; a misspelled instruction; an operand that is missing, as the name after local.get.
  Write instead: instructions of WebAssembly 1.0, folded as (i64.add (local.get $x) (i64.const 1)) or one after another.
",
        ),
        TextFault::UnknownName(_) => (
            "Nothing that can be used here has this name.",
            "  Usual cause: a misspelled name; a local of another function; a label outside its block.
  Write instead: a name that is declared, as (local $x i64), (func $f ..), (block $end ..).
",
        ),
        TextFault::DuplicateName(_) => (
            "The name is given to two things of one kind.",
            "  Usual cause: a local has a parameter's name, or a part of the text stands twice.
  Write instead: another name.
",
        ),
        TextFault::NumberRange(_) => (
            "The number is out of its range.",
            "  Usual cause: i32.const beyond 4,294,967,295 or below -2,147,483,648; the same of i64.const and 64 bits.
  Write instead: i64.const for large numbers.
",
        ),
        TextFault::TypeUse(_) => (
            "A (type ..) is not the type that is written beside it.",
            "  Usual cause: the parameters or results were changed in one place only.
  Write instead: the parameters and results alone, without (type ..).
",
        ),
        TextFault::Unsupported(_) => (
            "This is of floating-point numbers, or came after WebAssembly 1.0.",
            "  Usual cause: f32 or f64; i32.extend8_s, memory.copy and the like; an import that is written within its function.
  Write instead: whole numbers; instructions of WebAssembly 1.0; (import \"pregel\" \"send\" (func $send (param i64 i64))).
",
        ),
        TextFault::OverLimit(_) => (
            "The text passes a limit: 1,024 functions, 1,024 parameters and locals of a function, 128 blocks or 512 parentheses deep, .. .",
            "  Usual cause: generated text.
  Write instead: a function for a part of a large one.
",
        ),
        TextFault::OutOfMemory => ("", ""),
    }
}
