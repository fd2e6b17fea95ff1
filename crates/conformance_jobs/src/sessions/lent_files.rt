//! Files that sessions are lent.

ghost use Rattle.sources.specs.Disk.{unknown};

use anyhow::Result;
use conformance_cases::{CaseFiles, bytes, is_case, spelled};
use sources::{FileFault, Files};
use std::alloc::{AllocError, Global};
use std::fmt;

/// A file with its name.
#[derive(Drop)]
struct NamedFile {
    name: String,
    bytes: Vec<u8>,
}

/// Files to read. None is written.
#[derive(Drop)]
pub struct LentFiles {
    files: Vec<NamedFile>,
}

impl LentFiles {
    /// The files that `session/files.txt` names. `NAME at FILE` has the content of that file of `data/`. `NAME text TEXT` and `NAME
    /// bytes BYTES` have the content that is spelled.
    pub fn of_cases(rt: &(impl CaseFiles + AllocGlobal)) -> Result<LentFiles> {
        let text = rt.text_of("session/files.txt")?;
        let mut files = Vec::new(rt.alloc());
        for line in text.lines() {
            if is_case(line) {
                files.push(file_of(rt, line)?)?;
            }
        }
        Ok(LentFiles { files })
    }

    // The bytes of a file, if there is one of this name.
    fn bytes_of(&self, name: &str) -> Option<&[u8]> {
        for file in &self.files {
            if file.name.as_str() == name {
                return Some(&file.bytes);
            }
        }
        None
    }
}

fn file_of(rt: &(impl CaseFiles + AllocGlobal), line: &str) -> Result<NamedFile> {
    let (name, content) = line.split_once(' ').unwrap_or((line, ""));
    let (kind, spelling) = content.split_once(' ').unwrap_or((content, ""));
    let bytes = match kind {
        "at" => rt.bytes_of(spelling)?,
        _ => spelled_bytes(rt.alloc(), kind, spelling)?,
    };
    let name = String::from_str(rt.alloc(), name)?;
    Ok(NamedFile { name, bytes })
}

/// Spells out bytes in hexadecimal digits where the kind is `bytes`, or else a text.
pub fn spelled_bytes(alloc: Global, kind: &str, spelling: &str) -> Result<Vec<u8>, AllocError> {
    if kind == "bytes" {
        return bytes(alloc, spelling);
    }
    match spelled(alloc, spelling) {
        Ok(text) => Ok(text.into_bytes()),
        Err(error) => Err(error),
    }
}

impl Files for LentFiles {
    ghost disk = { λ _. unknown };

    fn read(&mut self, alloc: Global, path: &str) -> Result<Vec<u8>, FileFault> {
        let Some(bytes) = self.bytes_of(path) else {
            return Err(FileFault::Device);
        };
        match Vec::from_slice(alloc, bytes) {
            Ok(bytes) => Ok(bytes),
            Err(_) => Err(FileFault::OutOfMemory),
        }
    }

    fn write(&mut self, path: &str, bytes: &[u8]) -> Result<(), FileFault> {
        Err(FileFault::Device)
    }

    fn warn<D: fmt::Display + Drop>(&mut self, warning: D) {}
}
