//! Streams that record how they failed.

use std::io;
use std::io::{Read, Write};

/// A stream, and why its last call failed, if it did.
#[derive(Drop)]
pub struct FailureRecorder<S> {
    stream: S,
    failure: Option<io::Error>,
}

impl<S> FailureRecorder<S> {
    /// Makes a stream of this one that has not failed.
    pub fn new(stream: S) -> FailureRecorder<S> {
        FailureRecorder {
            stream,
            failure: None,
        }
    }

    /// Returns why the last call failed, if it did.
    pub fn failure(&self) -> Option<io::Error> {
        self.failure
    }
}

// Returns why a call failed, if it did.
fn failure_of<T>(outcome: &io::Result<T>) -> Option<io::Error> {
    match outcome {
        Ok(_) => None,
        Err(error) => Some(*error),
    }
}

impl<R: Read> Read for FailureRecorder<R> {
    ghost remaining = { λ noting. R.remaining noting.stream };

    fn read(&mut self, buf: &mut [u8]) -> io::Result<usize> {
        let outcome = self.stream.read(buf);
        self.failure = failure_of(&outcome);
        outcome
    }
}

impl<W: Write> Write for FailureRecorder<W> {
    ghost contents = { λ noting. W.contents noting.stream };

    fn write(&mut self, buf: &[u8]) -> io::Result<usize> {
        let outcome = self.stream.write(buf);
        self.failure = failure_of(&outcome);
        outcome
    }

    fn flush(&mut self) -> io::Result<()> {
        let outcome = self.stream.flush();
        self.failure = failure_of(&outcome);
        outcome
    }
}
