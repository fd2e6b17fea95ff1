//! The words of a line.

ghost use Rattle.std.specs.Prelude.{◌≡◌, ◌∷◌, [], MatchOption};
ghost use Rattle.std.specs.List.{list_all};
ghost use Rattle.session.specs.Words.{is_name, is_name_byte, words_of};

/// Splits off the first word of a line.
pub fn first_word(line: &str) -> Option<(&str, &str)>
    ensures { MatchOption result (words_of line.now ≡ [])
        (λ found. words_of line.now ≡ found.0.now ∷ words_of found.1.now) }
{
    let mut rest = line;
    while let Some((word, others)) = rest.split_once(' ') {
        if !word.is_empty() {
            return Some((word, others));
        }
        rest = others;
    }
    if rest.is_empty() {
        None
    } else {
        Some((rest, ""))
    }
}

/// Returns whether a word may be a name: 1 to 32 ASCII letters, digits, `_` and `-`.
pub fn is_name(word: &str) -> bool
    ensures { result ≡ is_name word.now }
{
    !word.is_empty() && word.len() <= 32 && has_name_bytes(word)
}

fn has_name_bytes(word: &str) -> bool
    ensures { result ≡ list_all is_name_byte word.now }
{
    word.bytes().all(is_name_byte)
}

fn is_name_byte(byte: u8) -> bool
    ensures { result ≡ is_name_byte byte }
{
    byte.is_ascii_alphanumeric() || byte == b'_' || byte == b'-'
}
