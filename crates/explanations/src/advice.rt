//! The advice on each kind of error: one table for the program, `pregel-cc` and the tests.

pub mod bytes;
pub mod profile;
pub mod texts;
pub mod validity;

/// The advice on a kind of error. Each of the last three fields is some lines, indented by two blanks. It is empty
/// where the error cannot come from that language.
#[derive(Clone, Copy)]
pub struct Advice {
    /// The rule, or what is wrong, in a sentence.
    pub sentence: &'static str,
    /// The usual cause and what to write instead, in WebAssembly text.
    pub text: &'static str,
    /// The same in C.
    pub c: &'static str,
    /// The same in Rust.
    pub rust: &'static str,
}
