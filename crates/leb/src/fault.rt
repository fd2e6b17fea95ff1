use thiserror::Error;

/// The reason why no number starts at a position (Core 1.0, 5.2.2).
#[derive(Clone, Copy, Debug, PartialEq, Eq, Error)]
pub enum LebFault {
    /// The bytes end before or within the number.
    #[error("the bytes end within a number")]
    Truncated,
    /// The number has more bytes than its width allows.
    #[error("a number takes more bytes than its width allows")]
    TooLong,
    /// The last byte has wrong bits beyond the width. They must be 0, or copies of the sign in a
    /// signed number.
    #[error("a number has bits beyond its width")]
    UnusedBits,
}
