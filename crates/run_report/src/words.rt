//! Words in a chart.

ghost use Rattle.std.specs.Prelude.{flat_map};
ghost use Rattle.std.specs.Str.{chars};
ghost use Rattle.line_text.specs.TextBuilder.{Gains};
ghost use Rattle.run_report.specs.Words.{mark_of};

use line_text::TextBuilder;

/// Puts words behind a text of XML: what would be read as a mark is written as its name, and a blank stands for what XML has no
/// letter for.
pub fn push_words(text: &mut TextBuilder, words: &str)
    ensures { Gains text.old text.new (flat_map mark_of (chars words.now)) }
{
    for letter in words.chars() {
        push_letter(text, letter);
    }
}

fn push_letter(text: &mut TextBuilder, letter: char)
    ensures { Gains text.old text.new (mark_of letter) }
{
    match letter {
        '&' => text.put("&amp;"),
        '<' => text.put("&lt;"),
        '>' => text.put("&gt;"),
        '"' => text.put("&quot;"),
        '\u{fffe}' | '\u{ffff}' => text.put(" "),
        _ if letter < ' ' => text.put(" "),
        _ => text.show(&letter),
    }
}

/// Puts a number behind a text and these words, which are XML already.
pub fn push_number(text: &mut TextBuilder, words: &str, number: u64) {
    text.put(words);
    text.show(&number);
}
