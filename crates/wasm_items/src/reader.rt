//! A reader of bytes, from left to right.

ghost use Rattle.std.specs.Prelude.{◌≡◌, ◌≤◌, ◌<◌, drop, length, slice_get, true, false, OnOk, IfErr};
ghost use Rattle.wasm_items.specs.inside.Reading.{Gives, GivesAndLeaves, IsRefusal, byte_at, u32_at, signed_number_at, take_at, part_at, is_empty};

use crate::fault::{DecodeFault, DecodeRule};
use leb::{LebFault, read_s32, read_s64, read_u32};
use std::marker::Model;

/// The kind of end of a reader's bytes, which decides the fault where they end too early.
#[derive(Clone, Copy)]
enum End {
    /// The end of the file.
    File,
    /// The end of a section or a body in the file.
    Part,
}

/// A reader of a file, a section or a body. Its model is the list of the bytes that are not read yet.
#[derive(Drop)]
pub struct Reader<'a> {
    // the file, up to the end of the part that is read
    bytes: &'a [u8],
    // the position in the file of the next byte
    at: usize,
    end: End,
}

impl<'a> Model for Reader<'a> {
    ghost use Rattle.std.specs.Prelude.{◌≤◌, List, ℕ, drop, length};

    ghost Value = { List ℕ };

    ghost view = { λ reader. drop reader.at reader.bytes.now };

    ghost invariant = { λ reader. reader.at ≤ length reader.bytes.now };
}

impl<'a> Reader<'a> {
    /// Creates a reader of a whole file.
    pub fn new(bytes: &'a [u8]) -> Reader<'a>
        ensures { result ≡ bytes.now }
    {
        Reader {
            bytes,
            at: 0,
            end: End::File,
        }
    }

    /// Returns the position in the file of the next byte.
    pub fn place(&self) -> usize {
        self.at
    }

    // Returns the fault of bytes that end too early: `Truncated` in a file, `SectionSize` in a section or a body.
    fn past_end(&self) -> DecodeFault
        ensures { IsRefusal result }
    {
        match self.end {
            End::File => DecodeFault::Refused(DecodeRule::Truncated, self.bytes.len()),
            End::Part => DecodeFault::Refused(DecodeRule::SectionSize, self.bytes.len()),
        }
    }

    /// Reads the next byte.
    #[tactic(auto, unfolding(crate::specs::inside::Reading::byte_at))]
    pub fn byte(&mut self) -> Result<u8, DecodeFault>
        ensures { GivesAndLeaves result self.new (byte_at self.old) }
    {
        if self.at < self.bytes.len() {
            let byte = self.bytes[self.at];
            self.at += 1;
            Ok(byte)
        } else {
            Err(self.past_end())
        }
    }

    // Returns the fault of a number that is not spelled correctly here.
    fn misspelled(&self, fault: LebFault) -> DecodeFault
        ensures { IsRefusal result }
    {
        match fault {
            LebFault::Truncated => self.past_end(),
            LebFault::TooLong | LebFault::UnusedBits => DecodeFault::Refused(
                DecodeRule::Leb,
                self.at,
            ),
        }
    }

    /// Returns the next byte without reading it, or `None` at the end.
    pub fn peek(&self) -> Option<u8>
        ensures { result ≡ slice_get self.now 0 }
    {
        self.bytes.get(self.at).copied()
    }

    /// Skips the next byte. There must be one.
    pub fn pass(&mut self)
        requires { 0 < length self.old }
        ensures { self.new ≡ drop 1 self.old }
    {
        self.at += 1;
    }

    /// Reads an unsigned number of 32 bits (Core 1.0, 5.2.2).
    #[tactic(auto, unfolding(crate::specs::inside::Reading::u32_at))]
    pub fn u32(&mut self) -> Result<u32, DecodeFault>
        ensures { GivesAndLeaves result self.new (u32_at self.old) }
    {
        match read_u32(self.bytes, self.at) {
            Ok((n, next)) => {
                self.at = next;
                Ok(n)
            }
            Err(fault) => Err(self.misspelled(fault)),
        }
    }

    /// Reads a signed number of 32 bits (Core 1.0, 5.2.2).
    #[tactic(auto, unfolding(crate::specs::inside::Reading::signed_number_at))]
    pub fn s32(&mut self) -> Result<i32, DecodeFault>
        ensures { GivesAndLeaves result self.new (signed_number_at 32 self.old) }
    {
        match read_s32(self.bytes, self.at) {
            Ok((z, next)) => {
                self.at = next;
                Ok(z)
            }
            Err(fault) => Err(self.misspelled(fault)),
        }
    }

    /// Reads a signed number of 64 bits (Core 1.0, 5.2.2).
    #[tactic(auto, unfolding(crate::specs::inside::Reading::signed_number_at))]
    pub fn s64(&mut self) -> Result<i64, DecodeFault>
        ensures { GivesAndLeaves result self.new (signed_number_at 64 self.old) }
    {
        match read_s64(self.bytes, self.at) {
            Ok((z, next)) => {
                self.at = next;
                Ok(z)
            }
            Err(fault) => Err(self.misspelled(fault)),
        }
    }

    /// Reads the next `len` bytes.
    #[tactic(auto, unfolding(crate::specs::inside::Reading::take_at))]
    pub fn take(&mut self, len: u32) -> Result<&'a [u8], DecodeFault>
        ensures { Gives (λ s. (s.now, self.new)) result (take_at len self.old) }
    {
        let len = len as usize;
        if len <= self.bytes.len() - self.at {
            let taken = &self.bytes[self.at..self.at + len];
            self.at += len;
            Ok(taken)
        } else {
            Err(self.past_end())
        }
    }

    /// Reads a size, and returns a reader of the section or body of exactly that many bytes after it.
    #[tactic(auto, unfolding(crate::specs::inside::Reading::part_at, crate::specs::inside::Reading::take_at))]
    pub fn part(&mut self) -> Result<Reader<'a>, DecodeFault>
        ensures { GivesAndLeaves result self.new (part_at self.old) }
    {
        let len = self.u32()? as usize;
        let at = self.at;
        if len > self.bytes.len() - at {
            return Err(self.past_end());
        }
        self.at += len;
        Ok(Reader {
            bytes: &self.bytes[..at + len],
            at,
            end: End::Part,
        })
    }

    /// Ends a section or a body. Bytes that remain are a `SectionSize` fault, at the first of them.
    pub fn finish(self) -> Result<(), DecodeFault>
        ensures ok { OnOk result (is_empty self.entry ≡ true) }
        ensures err { IfErr result (λ fault. IsRefusal fault × (is_empty self.entry ≡ false)) }
    {
        if self.at < self.bytes.len() {
            Err(DecodeFault::Refused(DecodeRule::SectionSize, self.at))
        } else {
            Ok(())
        }
    }
}
