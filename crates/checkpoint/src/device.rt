//! The device of a Keep.

ghost use Rattle.std.specs.Prelude.{◌≡◌, vec_len, IfOk};

use crate::replacing::replace;
use std::alloc::Global;
use std::fs::{File, OpenFile};
use std::io::Read;
use std::rt::Files;
use std::{fs, io};

/// What a Keep may do with files. Every runtime with `Files` is a device.
///
/// Functions that lend a Keep their runtime ask for no more than this: a bound of `Files`, with all its methods, makes each
/// of them dearer to prove.
pub trait Device {
    /// Makes these bytes the whole content of the file `whole`, which may exist or not. They are written to the file `part`
    /// of the same folder first, as [`replace`] says.
    fn write_whole(&self, part: &str, whole: &str, bytes: &[u8]) -> io::Result<()>;

    /// Reads a file, which has to have this size in bytes. Nothing is read past it.
    fn read_whole(&self, alloc: Global, path: &str, size: usize) -> io::Result<Vec<u8>>
        ensures { IfOk result (λ bytes. vec_len bytes ≡ size) };

    /// Removes a file. One that cannot be removed stays.
    fn remove(&self, path: &str);
}

impl<R: Files> Device for R {
    fn write_whole(&self, part: &str, whole: &str, bytes: &[u8]) -> io::Result<()> {
        let mut file = File::create(self, part)?;
        replace(self, &mut file, part, whole, bytes)
    }

    fn read_whole(&self, alloc: Global, path: &str, size: usize) -> io::Result<Vec<u8>> {
        let mut file = fs::open(self, path)?;
        read_exactly(alloc, &mut file, size)
    }

    fn remove(&self, path: &str) {
        let _ = fs::remove_file(self, path);
    }
}

// Reads a whole file, which has to have this size. Nothing is read past it.
fn read_exactly<F: Read + OpenFile>(alloc: Global, file: &mut F, size: usize) -> io::Result<Vec<u8>>
    ensures { IfOk result (λ bytes. vec_len bytes ≡ size) }
{
    if file.metadata()?.len() != size as u64 {
        return Err(io::Error::from(io::ErrorKind::InvalidData));
    }
    let mut bytes = vec![in alloc; 0; size]?;
    file.read_exact(&mut bytes)?;
    Ok(bytes)
}
