//! The fields of a line.

ghost use Rattle.std.specs.Prelude.{◌≡◌, ◌<◌, false, length, slice_index};
ghost use Rattle.std.specs.List.{position_or_len};
ghost use Rattle.std.specs.Iterator.{YieldsFirstRef, item_count};
ghost use Rattle.line_text.specs.Fields.{is_blank, is_filled, fields};

/// An iterator over the fields of a line, which spaces and tabs separate.
#[derive(Drop)]
pub struct Fields<'a> {
    rest: &'a [u8],
}

impl<'a> Fields<'a> {
    pub fn new(line: &'a str) -> Fields<'a>
        ensures { result.rest.now ≡ line.entry.now }
    {
        Fields {
            rest: line.as_bytes(),
        }
    }
}

impl<'a> Iterator for Fields<'a> {
    type Item = &'a [u8];

    ghost next_gives = { YieldsFirstRef (λ s. fields s.rest.now) };

    ghost remaining = { item_count (λ s. fields s.rest.now) };

    fn next(&mut self) -> Option<&'a [u8]> {
        let line = without_leading_blanks(self.rest);
        if line.is_empty() {
            self.rest = line;
            return None;
        }
        let (field, rest) = line.split_at(blank_place(line));
        self.rest = rest;
        Some(field)
    }
}

fn is_blank(byte: u8) -> bool
    ensures { result ≡ is_blank byte }
{
    byte == b' ' || byte == b'\t'
}

// Skips the spaces and tabs at the front.
fn without_leading_blanks(line: &[u8]) -> &[u8]
    ensures same { fields result.now ≡ fields line.now }
    ensures starts { 0 < length result.now → is_blank (slice_index result.now 0) ≡ false }
{
    let mut rest = line;
    while let Some((first, others)) = rest.split_first()
        && is_blank(*first)
    {
        rest = others;
    }
    rest
}

// Returns the place of the first space or tab, or the line's length where there is none.
fn blank_place(line: &[u8]) -> usize
    ensures { result ≡ position_or_len is_blank line.now }
{
    line.iter()
        .position(|byte| is_blank(*byte))
        .unwrap_or(line.len())
}
