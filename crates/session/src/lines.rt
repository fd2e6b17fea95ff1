//! The lines of the bytes that a session reads.

ghost use Rattle.std.specs.Prelude.{◌≡◌, ◌≤◌, ◌<◌, ◌++◌, length, take, vec_len, IfSome, MatchOption, OnErr, OnOk};
ghost use Rattle.std.specs.List.{position_or_len};
ghost use Rattle.session.specs.Lines.{is_feed};
ghost use Rattle.session.specs.inside.Cutting.{BeginsWithLine, HasNoLine};

use std::alloc::AllocError;

/// How many bytes of a line are kept: one more than the longest line, so that a longer one is noticed.
pub const KEPT: usize = 4_097;

/// Splits bytes at the first line feed.
pub fn cut_line(bytes: &[u8]) -> Option<(&[u8], &[u8])>
    ensures cut { MatchOption result (HasNoLine bytes.now)
        (λ cut. BeginsWithLine bytes.now cut.0.now cut.1.now) }
    ensures shorter { IfSome result (λ cut. length cut.1.now < length bytes.now) }
{
    let place = feed_place(bytes);
    if place == bytes.len() {
        return None;
    }
    let (line, rest) = bytes.split_at(place);
    Some((line, &rest[1..]))
}

// Returns the place of the first line feed, or the number of bytes if there is none.
fn feed_place(bytes: &[u8]) -> usize
    ensures place { result ≡ position_or_len is_feed bytes.now }
    ensures within { result ≤ length bytes.now }
{
    for (place, byte) in bytes.iter().enumerate() {
        if *byte == b'\n' {
            return place;
        }
    }
    bytes.len()
}

/// Adds bytes to the beginning of a line, of which at most `KEPT` bytes are kept.
pub fn keep(line: &mut Vec<u8>, piece: &[u8]) -> Result<(), AllocError>
    requires { vec_len line.old ≤ KEPT }
    ensures kept { OnOk result (line.new.items ≡ take KEPT (line.old.items ++ piece.now)) }
    ensures room { vec_len line.new ≤ KEPT }
    ensures failed { OnErr result (line.new.items ≡ line.old.items) }
{
    let room = piece.len().min(KEPT - line.len());
    let (front, _) = piece.split_at(room);
    line.extend_from_slice(front)
}
