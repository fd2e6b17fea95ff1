//! Files that are replaced as a whole.

ghost use Rattle.std.specs.Prelude.{OnOk};
ghost use Rattle.std.specs.Io.KnownBytes.{Appends};

use std::fs::{File, OpenFile};
use std::io::Write;
use std::rt::Files;
use std::{fs, io};

/// Makes these bytes the whole content of a file, which may exist or not. They are written to `part`, an empty file of
/// the same folder that is open as `file`. Once the device has them, `part` takes the place of `whole`. So `whole`
/// holds all of them, or what it held before.
///
/// If it fails, `part` is removed. The folder is synced too, if its file system can do that.
pub fn replace<R: Files>(
    rt: &R,
    file: &mut R::File,
    part: &str,
    whole: &str,
    bytes: &[u8],
) -> io::Result<()>
    // All of the bytes were written to the file, and no others.
    ensures written { OnOk result
        (Appends (R.File.contents file.old) (R.File.contents file.new) bytes.now) }
{
    let replaced = fill_and_rename(rt, file, part, whole, bytes);
    match replaced {
        Ok(()) => {
            let _ = sync_folder(rt, whole);
        }
        Err(_) => {
            let _ = fs::remove_file(rt, part);
        }
    }
    replaced
}

fn fill_and_rename<R: Files>(
    rt: &R,
    file: &mut R::File,
    part: &str,
    whole: &str,
    bytes: &[u8],
) -> io::Result<()>
    ensures { OnOk result
        (Appends (R.File.contents file.old) (R.File.contents file.new) bytes.now) }
{
    file.write_all(bytes)?;
    file.sync_all()?;
    fs::rename(rt, part, whole)
}

// Syncs the folder of a file, so that the device keeps the names in it.
fn sync_folder<R: Files>(rt: &R, path: &str) -> io::Result<()> {
    let folder = match path.rsplit_once('/') {
        Some(("", _)) => "/",
        Some((folder, _)) => folder,
        None => ".",
    };
    File::open(rt, folder)?.sync_all()
}
