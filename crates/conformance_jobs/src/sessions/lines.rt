//! The readers and writers of sessions.

use std::alloc::Global;
use std::io;
use std::io::{ErrorKind, Read, Write};

/// The limits of a reader and a writer.
#[derive(Clone, Copy)]
pub struct Limits {
    /// The most bytes of a read or a write.
    pub most: u32,
    /// The read that fails, from 1, or 0 where none does.
    pub read: u32,
    /// The write or flush that fails, from 1, or 0 where none does.
    pub write: u32,
}

pub const NO_LIMITS: Limits = Limits {
    most: u32::MAX,
    read: 0,
    write: 0,
};

/// A reader that gives at most so many bytes at a time. Each read except the failing one is interrupted before.
#[derive(Drop)]
pub struct Given<'a> {
    rest: &'a [u8],
    most: u32,
    // the read that fails, from 1, or 0
    left: u32,
    is_interrupted: bool,
}

impl<'a> Given<'a> {
    pub fn new(bytes: &'a [u8], limits: Limits) -> Given<'a> {
        Given {
            rest: bytes,
            most: limits.most,
            left: limits.read,
            is_interrupted: false,
        }
    }
}

impl Read for Given<'_> {
    fn read(&mut self, buffer: &mut [u8]) -> io::Result<usize> {
        self.is_interrupted = !self.is_interrupted;
        if self.is_interrupted {
            return Err(io::Error::from(ErrorKind::Interrupted));
        }
        if fails(&mut self.left) {
            return Err(io::Error::from(ErrorKind::BrokenPipe));
        }
        let count = buffer.len().min(self.rest.len()).min(self.most as usize);
        let (front, rest) = self.rest.split_at(count);
        buffer[..count].copy_from_slice(front);
        self.rest = rest;
        Ok(count)
    }
}

/// A writer that takes at most so many bytes at a time.
#[derive(Drop)]
pub struct Taken {
    pub bytes: Vec<u8>,
    most: u32,
    // the write or flush that fails, from 1, or 0
    left: u32,
}

impl Taken {
    pub fn new(alloc: Global, limits: Limits) -> Taken {
        Taken {
            bytes: Vec::new(alloc),
            most: limits.most,
            left: limits.write,
        }
    }
}

impl Write for Taken {
    fn write(&mut self, bytes: &[u8]) -> io::Result<usize> {
        if fails(&mut self.left) {
            return Err(io::Error::from(ErrorKind::BrokenPipe));
        }
        let count = bytes.len().min(self.most as usize);
        self.bytes.extend_from_slice(&bytes[..count])?;
        Ok(count)
    }

    fn flush(&mut self) -> io::Result<()> {
        if fails(&mut self.left) {
            return Err(io::Error::from(ErrorKind::BrokenPipe));
        }
        Ok(())
    }
}

// Returns whether this is the call that fails.
fn fails(left: &mut u32) -> bool {
    if *left == 0 {
        return false;
    }
    *left -= 1;
    *left == 0
}
