//! The files of `data/`.

use anyhow::Result;
use std::fs;
use std::rt::Files;

/// The files that have cases, or that cases name. Every runtime with `Files` has them.
pub trait CaseFiles {
    /// Returns the text of a file.
    fn text_of(&self, path: &str) -> Result<String>;

    /// Returns the bytes of a file.
    fn bytes_of(&self, path: &str) -> Result<Vec<u8>>;

    /// Makes these bytes the content of a file.
    fn put(&self, path: &str, bytes: &[u8]) -> Result<()>;
}

impl<R: Files + AllocGlobal> CaseFiles for R {
    fn text_of(&self, path: &str) -> Result<String> {
        Ok(fs::read_to_string(self, path)?)
    }

    fn bytes_of(&self, path: &str) -> Result<Vec<u8>> {
        Ok(fs::read(self, path)?)
    }

    fn put(&self, path: &str, bytes: &[u8]) -> Result<()> {
        Ok(fs::write(self, path, bytes)?)
    }
}
