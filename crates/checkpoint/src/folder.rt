//! The folder of a Keep.

use crate::listing::supersteps_in;
use std::alloc::Global;
use std::fs::File;
use std::rt::Files;
use std::{fs, io};

/// What a program may do with the folder of a Keep, before the job begins. Every runtime with `Files` and memory has it.
///
/// Each call fails as the one of `std::fs` that it makes. The calls of a job itself are those of a `Device`.
pub trait Folder {
    /// Reports whether a regular file is at a path. It fails where nothing is there, or the system refuses.
    fn is_file(&self, path: &str) -> io::Result<bool>;

    /// Makes an empty file at a path. One that is there is emptied. It fails where no file can be made there.
    fn make_empty(&self, path: &str) -> io::Result<()>;

    /// Lists the supersteps of a folder's files `ckpt-S.bin`, the newest first. It fails where the folder cannot be listed, or
    /// memory runs out.
    fn supersteps_in(&self, alloc: Global, folder: &str) -> io::Result<Vec<u32>>;

    /// Reads a whole file. It fails where there is none, it cannot be read, or memory runs out.
    fn read_bytes(&self, path: &str) -> io::Result<Vec<u8>>;

    /// Reads a whole file as text. It fails as `read_bytes` does, and with `InvalidData` where that is not in UTF-8.
    fn read_text(&self, path: &str) -> io::Result<String>;

    /// Renames a file. One that has the new name already is replaced. It fails where the file is not there, or the system refuses.
    fn rename(&self, from: &str, to: &str) -> io::Result<()>;

    /// Removes a file. It fails with `NotFound` where there is none, or as the system refuses.
    fn remove_file(&self, path: &str) -> io::Result<()>;
}

impl<R: Files + AllocGlobal> Folder for R {
    fn is_file(&self, path: &str) -> io::Result<bool> {
        Ok(fs::metadata(self, path)?.is_file())
    }

    fn make_empty(&self, path: &str) -> io::Result<()> {
        File::create(self, path)?;
        Ok(())
    }

    fn supersteps_in(&self, alloc: Global, folder: &str) -> io::Result<Vec<u32>> {
        supersteps_in(self, alloc, folder)
    }

    fn read_bytes(&self, path: &str) -> io::Result<Vec<u8>> {
        fs::read(self, path)
    }

    fn read_text(&self, path: &str) -> io::Result<String> {
        fs::read_to_string(self, path)
    }

    fn rename(&self, from: &str, to: &str) -> io::Result<()> {
        fs::rename(self, from, to)
    }

    fn remove_file(&self, path: &str) -> io::Result<()> {
        fs::remove_file(self, path)
    }
}
