//! Tokens. The meaning of a word is decided once, and no token borrows from the text.

use crate::keyword::Keyword;

/// A token (Core 1.0, 6.3.1).
#[derive(Clone, Copy)]
pub enum Token {
    Open,
    Close,
    Key(Keyword),
    /// A number without a sign.
    Number(u64),
    /// A number with a sign.
    Signed(i64),
    /// A number that fits neither `Number` nor `Signed`, or an offset or an alignment of 2^32 or more.
    OutOfRange,
    /// `offset=N`.
    Offset(u32),
    /// `align=N`, in bytes. N need not be a power of 2.
    Align(u32),
    /// A name, which starts with `$`. Two names have the same number exactly where they are equal.
    Name(u32),
    /// A string, given by the position in the text of its first byte, after the quotation mark.
    Text(usize),
    /// A word of the format that this assembler does not support: floats, or a version after 1.0.
    Unsupported,
    /// A word without a meaning.
    Other,
}

/// The tokens of a text.
#[derive(Drop)]
pub struct Tokens {
    pub tokens: Vec<Token>,
    /// The position in the text of each token's first byte.
    pub places: Vec<usize>,
}
