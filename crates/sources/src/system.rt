//! The files of the operating system.

use checkpoint::replace;
use std::alloc::{AllocError, Global};
use std::fs::{File, OpenFile, OpenOptions, Permissions};
use std::io::{ErrorKind, Read};
use std::rt::Files;
use std::{fs, io};

/// What [`SystemFiles`](crate::SystemFiles) asks of the operating system. Every runtime with `Files` of std and memory has it.
pub trait System {
    /// Reads at most `most` bytes from the beginning of a file. If the system knows the length of the file, memory for it is
    /// allocated at once. It fails where there is no file, it cannot be read, or memory runs out.
    fn read_file(&self, alloc: Global, path: &str, most: usize) -> io::Result<Vec<u8>>;

    /// Replaces the whole content of the file at a path. If that fails, the file keeps its old content.
    ///
    /// The following are written in place: devices, pipes and other files that are not regular; links to such a file, to
    /// nothing, or to an open file of a process (`/dev/stdout`); and files whose folder allows no new file. Any other link
    /// stays a link, and its file is replaced.
    fn write_file(&self, path: &str, bytes: &[u8]) -> io::Result<()>;
}

impl<R: Files + AllocGlobal> System for R {
    fn read_file(&self, alloc: Global, path: &str, most: usize) -> io::Result<Vec<u8>> {
        read_file(self, alloc, path, most)
    }

    fn write_file(&self, path: &str, bytes: &[u8]) -> io::Result<()> {
        write_file(self, path, bytes)
    }
}

fn read_file<R: Files>(rt: &R, alloc: Global, path: &str, most: usize) -> io::Result<Vec<u8>> {
    let file = fs::open(rt, path)?;
    let room = file.metadata()?.len().min(most as u64);
    let mut bytes = Vec::with_capacity(alloc, room as usize)?;
    file.take(most as u64).read_to_end(&mut bytes)?;
    Ok(bytes)
}

fn write_file<R: Files + AllocGlobal>(rt: &R, path: &str, bytes: &[u8]) -> io::Result<()> {
    if !is_link(rt, path) {
        return write_unlinked(rt, path, bytes);
    }
    if path.starts_with("/dev/") || path.starts_with("/proc/") {
        return fs::write(rt, path, bytes);
    }
    match fs::canonicalize(rt, path) {
        Ok(end) => write_unlinked(rt, end.as_str(), bytes),
        Err(_) => fs::write(rt, path, bytes),
    }
}

fn is_link<R: Files>(rt: &R, path: &str) -> bool {
    match fs::symlink_metadata(rt, path) {
        Ok(found) => found.is_symlink(),
        Err(_) => false,
    }
}

// Writes a file that is no link.
fn write_unlinked<R: Files + AllocGlobal>(rt: &R, path: &str, bytes: &[u8]) -> io::Result<()> {
    match fs::metadata(rt, path) {
        Ok(found) if found.is_file() => {
            // (a read-only file is not replaced either)
            let _ = OpenOptions::new().write(true).open(rt, path)?;
            write_beside(rt, path, Some(found.permissions()), bytes)
        }
        Ok(_) => fs::write(rt, path, bytes),
        Err(_) => write_beside(rt, path, None, bytes),
    }
}

// Writes a new file beside the old one and renames it over that. It gets the permissions of the old file.
fn write_beside<R: Files + AllocGlobal>(
    rt: &R,
    path: &str,
    permissions: Option<Permissions>,
    bytes: &[u8],
) -> io::Result<()> {
    let (mut file, part) = match make_part(rt, path) {
        Ok(made) => made,
        Err(error) => {
            return match error.kind() {
                ErrorKind::PermissionDenied | ErrorKind::InvalidFilename => fs::write(
                    rt, path, bytes,
                ),
                _ => Err(error),
            };
        }
    };
    if let Some(permissions) = permissions {
        let _ = file.set_permissions(permissions);
    }
    replace(rt, &mut file, part.as_str(), path, bytes)
}

// How many names are tried for a new file.
const MOST_PARTS: u32 = 100;

// Makes a new file beside another, and returns it with its path.
fn make_part<R: Files + AllocGlobal>(rt: &R, path: &str) -> io::Result<(R::File, String)> {
    for number in 0..MOST_PARTS {
        let part = part_of(rt.alloc(), path, number)?;
        match File::create_new(rt, part.as_str()) {
            Ok(file) => return Ok((file, part)),
            Err(error) if error.kind() == ErrorKind::AlreadyExists => {}
            Err(error) => return Err(error),
        }
    }
    Err(io::Error::from(ErrorKind::AlreadyExists))
}

fn part_of(alloc: Global, path: &str, number: u32) -> Result<String, AllocError> {
    format!(in alloc; "{path}.{number}.part")
}
