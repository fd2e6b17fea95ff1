//! Texts that are put together of pieces.

ghost use Rattle.std.specs.Prelude.{◌≡◌, ◌⊎◌, ◌+◌, ◌<◌, [], true, false, length, IfOk, IfSome, OnErr};
ghost use Rattle.std.specs.String.{string_bytes, string_capacity, string_len};
ghost use Rattle.line_text.specs.TextBuilder.{Gains};

use std::alloc::{AllocError, Global};
use std::fmt::Display;

/// A text that grows piece by piece, and notes when memory ran out.
///
/// Once it is cut it stays so, and `finish` fails.
#[derive(Drop)]
pub struct TextBuilder {
    text: String,
    is_cut: bool,
}

impl TextBuilder {
    /// Begins with no text.
    pub fn new(alloc: Global) -> TextBuilder
        ensures empty { string_bytes result.text ≡ [] }
        ensures whole { result.is_cut ≡ false }
    {
        TextBuilder {
            text: String::new(alloc),
            is_cut: false,
        }
    }

    /// Puts a piece behind the text.
    pub fn put(&mut self, piece: &str)
        ensures gains { Gains self.old self.new piece.now }
        ensures cut { self.new.is_cut ≡ true → (self.old.is_cut ≡ true)
            ⊎ (string_capacity self.old.text < string_len self.old.text + length piece.now) }
    {
        if !self.is_cut {
            self.is_cut = self.text.push_str(piece).is_err();
        }
    }

    /// Puts a value behind the text, as `{}` writes it.
    pub fn show<T: Display>(&mut self, value: &T)
        ensures gains { IfSome (T.output value.now) (Gains self.old self.new) }
        ensures stays { self.old.is_cut ≡ true → self.new.is_cut ≡ true }
    {
        if !self.is_cut {
            self.is_cut = self.text.write(value).is_err();
        }
    }

    /// Gives the text, unless it is cut.
    pub fn finish(self) -> Result<String, AllocError>
        ensures text { IfOk result (λ text. (self.is_cut ≡ false)
            × (string_bytes text ≡ string_bytes self.text)) }
        ensures cut { OnErr result (self.is_cut ≡ true) }
    {
        if self.is_cut {
            return Err(AllocError);
        }
        Ok(self.text)
    }
}
