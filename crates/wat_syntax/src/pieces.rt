//! Writers of the pieces of a printed text: tokens, each with the blanks before it.

ghost use Rattle.std.specs.Prelude.{◌≡◌, ◌∷◌, List};
ghost use Rattle.std.specs.List.{AllByRecursion};
ghost use Rattle.line_text.specs.TextBuilder.{Gains};
ghost use Rattle.wat_syntax.specs.Quoted.{escaped, quoted, needs_no_escape};
ghost use Rattle.wat_syntax.specs.inside.Writing.{Writes};
ghost use Rattle.wat_syntax.specs.Pieces.{Piece, closes, closes_line, counts, each, gap_text, indent, opens, quotes, says, signs};

use crate::keyword::Keyword;
use line_text::TextBuilder;

/// The blanks before a token.
#[derive(Clone, Copy)]
pub enum Gap {
    Nothing,
    Space,
    /// A new line, then two blanks for each level.
    Line(u32),
}

fn write_indent(text: &mut TextBuilder, level: u32)
    ensures { Gains text.old text.new (indent level) }
{
    for _ in 0..level {
        text.put("  ");
    }
}

fn write_gap(text: &mut TextBuilder, gap: Gap)
    ensures { Gains text.old text.new (gap_text gap) }
{
    match gap {
        Gap::Nothing => {}
        Gap::Space => text.put(" "),
        Gap::Line(level) => {
            text.put("\n");
            write_indent(text, level);
        }
    }
}

/// Writes these blanks, an opening parenthesis and a keyword.
#[tactic(auto, unfolding(crate::specs::Pieces::text))]
pub fn write_opening(text: &mut TextBuilder, gap: Gap, keyword: Keyword)
    ensures { Writes text.old text.new (λ more. opens gap keyword ∷ more) }
{
    write_gap(text, gap);
    text.put("(");
    text.put(keyword.text());
}

#[tactic(auto, unfolding(crate::specs::Pieces::text))]
pub fn write_keyword(text: &mut TextBuilder, gap: Gap, keyword: Keyword)
    ensures { Writes text.old text.new (λ more. says gap keyword ∷ more) }
{
    write_gap(text, gap);
    text.put(keyword.text());
}

/// Writes an unsigned number, in decimal.
#[tactic(auto, unfolding(crate::specs::Pieces::text))]
pub fn write_count(text: &mut TextBuilder, n: u32)
    ensures { Writes text.old text.new (λ more. counts n ∷ more) }
{
    text.put(" ");
    text.show(&n);
}

/// Writes a number in decimal, with a sign where it is below 0.
#[tactic(auto, unfolding(crate::specs::Pieces::text))]
pub fn write_i32(text: &mut TextBuilder, z: i32)
    ensures { Writes text.old text.new (λ more. signs z ∷ more) }
{
    text.put(" ");
    text.show(&z);
}

/// Writes a number in decimal, with a sign where it is below 0.
#[tactic(auto, unfolding(crate::specs::Pieces::text))]
pub fn write_i64(text: &mut TextBuilder, z: i64)
    ensures { Writes text.old text.new (λ more. signs z ∷ more) }
{
    text.put(" ");
    text.show(&z);
}

fn needs_no_escape(b: u8) -> bool
    ensures { result ≡ needs_no_escape b }
{
    b >= b' ' && b <= b'~' && b != b'"' && b != b'\\'
}

// Writes a byte of a string, or a backslash and its two lower-case hexadecimal digits.
#[tactic(auto, using(std::proofs::lemmas::Fmt::hex_byte))]
fn write_escaped(text: &mut TextBuilder, b: u8)
    ensures { Gains text.old text.new (escaped b) }
{
    if needs_no_escape(b) {
        text.show(&char::from(b));
    } else {
        text.show(&format_args!("\\{b:02x}"));
    }
}

/// Writes a string of these bytes.
#[tactic(auto, unfolding(crate::specs::Pieces::text))]
pub fn write_string(text: &mut TextBuilder, bytes: &[u8])
    ensures { Writes text.old text.new (λ more. quotes bytes.now ∷ more) }
{
    text.put(" \"");
    write_all_escaped(text, bytes);
    text.put("\"");
}

fn write_all_escaped(text: &mut TextBuilder, bytes: &[u8])
    ensures { Gains text.old text.new (quoted bytes.now) }
{
    for b in bytes {
        write_escaped(text, *b);
    }
}

/// Writes a closing parenthesis.
#[tactic(auto, unfolding(crate::specs::Pieces::text))]
pub fn write_closing(text: &mut TextBuilder)
    ensures { Writes text.old text.new (λ more. closes ∷ more) }
{
    text.put(")");
}

/// Writes a closing parenthesis on a line of its own, after two blanks for each level.
#[tactic(auto, unfolding(crate::specs::Pieces::text))]
pub fn write_closing_line(text: &mut TextBuilder, level: u32)
    ensures { Writes text.old text.new (λ more. closes_line level ∷ more) }
{
    text.put("\n");
    write_indent(text, level);
    text.put(")");
}

/// Writes these blanks, and a keyword and a number in parentheses.
pub fn write_number_in(text: &mut TextBuilder, gap: Gap, keyword: Keyword, n: u32)
    ensures { Writes text.old text.new
        (λ more. opens gap keyword ∷ counts n ∷ closes ∷ more) }
{
    write_opening(text, gap, keyword);
    write_count(text, n);
    write_closing(text);
}

/// A part of a module that is printed as pieces of its own.
pub trait Part {
    /// The type of the part.
    type Of;

    ghost pieces: { Self.Of → List Piece → List Piece };

    ghost IsWithin: { Self.Of → Type 0 } = { λ _. Unit {0} };

    fn write(text: &mut TextBuilder, part: &Self::Of)
        requires { IsWithin part.now }
        ensures { Writes text.old text.new (pieces part.now) };
}

/// Writes parts of one kind, one after another.
pub fn write_each<P: Part>(text: &mut TextBuilder, parts: &[P::Of])
    requires { AllByRecursion P.IsWithin parts.now }
    ensures { Writes text.old text.new (each P.pieces parts.now) }
{
    for part in parts {
        P::write(text, part);
    }
}
