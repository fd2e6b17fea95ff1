//! The files that commands read and write.

ghost use Rattle.std.specs.Prelude.{◌≡◌, Some, None, OnErr, OnOk, IfErr, MatchResult, take};
ghost use Rattle.sources.specs.Disk.{Disk, HoldsAt, Stays, Tries, Writes, unknown};

use crate::system::System;
use std::alloc::Global;
use std::{fmt, io};
use thiserror::Error;

/// The reason why a file was not read or written.
#[derive(Clone, Copy, Debug, Error)]
pub enum FileFault {
    /// The file does not exist, or the device failed.
    #[error("the file cannot be read or written")]
    Device,
    /// Memory ran out.
    #[error("out of memory")]
    OutOfMemory,
}

/// A place to read files from and to write them to.
pub trait Files {
    /// The contents that may be found at a path, the paths where writing may fail, and all writes so far in order.
    ghost disk: { Self → Disk };

    /// Reads the bytes of the file at a path.
    fn read(&mut self, alloc: Global, path: &str) -> Result<Vec<u8>, FileFault>
        ensures found { MatchResult result
            (λ bytes. (disk self.old).holds path.now (Some bytes.items))
            (λ fault. fault ≡ FileFault.Device → (disk self.old).holds path.now None) }
        ensures kept { Stays (disk self.old) (disk self.new) };

    /// Reads at most `most` bytes from the beginning of the file at a path.
    fn read_front(&mut self, alloc: Global, path: &str, most: usize) -> Result<Vec<u8>, FileFault>
        ensures found { MatchResult result
            (λ bytes. HoldsAt (disk self.old) path.now (λ content. bytes.items ≡ take most content))
            (λ fault. fault ≡ FileFault.Device → (disk self.old).holds path.now None) }
        ensures kept { Stays (disk self.old) (disk self.new) }
    {
        match self.read(alloc, path) {
            Ok(mut bytes) => {
                bytes.truncate(most);
                Ok(bytes)
            }
            Err(fault) => Err(fault),
        }
    }

    /// Writes these bytes to the file at a path, in place of its old content. After a fault the file may hold a beginning
    /// of them.
    fn write(&mut self, path: &str, bytes: &[u8]) -> Result<(), FileFault>
        ensures written { OnOk result (Writes path.now bytes.now (disk self.old) (disk self.new)) }
        ensures tried { OnErr result (Tries path.now bytes.now (disk self.old) (disk self.new)) }
        ensures refused { IfErr result
            (λ fault. fault ≡ FileFault.Device → (disk self.old).refuses path.now) };

    /// Shows a warning to the user, outside of the answer. This default shows nothing.
    fn warn<D: fmt::Display + Drop>(&mut self, _warning: D)
        ensures kept { Stays (disk self.old) (disk self.new) }
    {}
}

/// The files of the operating system. Their errors are printed on standard error, one line each, if the owner wants that.
///
/// A regular file holds either all bytes after a write, or its old content. Devices and pipes are written in place.
#[derive(Drop)]
pub struct SystemFiles<'a, R> {
    rt: &'a R,
    tells: bool,
}

impl<'a, R> SystemFiles<'a, R> {
    /// Makes the files that a runtime reaches. With `tells`, their errors are printed.
    pub fn new(rt: &'a R, tells: bool) -> SystemFiles<'a, R> {
        SystemFiles { rt, tells }
    }
}

// The contents of these files are unknown to the contracts.
impl<R: System + Eprint> Files for SystemFiles<'_, R> {
    ghost disk = { λ _. unknown };

    fn read(&mut self, alloc: Global, path: &str) -> Result<Vec<u8>, FileFault> {
        match self.rt.read_file(alloc, path, usize::MAX) {
            Ok(bytes) => Ok(bytes),
            Err(error) => Err(fault_of(self.rt, self.tells, path, &error)),
        }
    }

    fn read_front(&mut self, alloc: Global, path: &str, most: usize) -> Result<Vec<u8>, FileFault> {
        match self.rt.read_file(alloc, path, most) {
            Ok(mut bytes) => {
                bytes.truncate(most);
                Ok(bytes)
            }
            Err(error) => Err(fault_of(self.rt, self.tells, path, &error)),
        }
    }

    fn write(&mut self, path: &str, bytes: &[u8]) -> Result<(), FileFault> {
        match self.rt.write_file(path, bytes) {
            Ok(()) => Ok(()),
            Err(error) => Err(fault_of(self.rt, self.tells, path, &error)),
        }
    }

    fn warn<D: fmt::Display + Drop>(&mut self, warning: D) {
        if self.tells {
            let _ = eprintln!(self.rt; "pregel: {warning}");
        }
    }
}

// Returns the fault for an error of the system. With `tells`, an error that is not an allocation's is printed.
fn fault_of(rt: &impl Eprint, tells: bool, path: &str, error: &io::Error) -> FileFault {
    if error.kind() == io::ErrorKind::OutOfMemory {
        return FileFault::OutOfMemory;
    }
    if tells {
        let _ = eprintln!(rt; "pregel: {path}: {error}");
    }
    FileFault::Device
}
