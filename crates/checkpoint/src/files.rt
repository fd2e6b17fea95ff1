//! A Keep on disk.

ghost use Rattle.std.specs.Prelude.{◌≡◌, ◌≤◌, None, IfOk, IfSome};
ghost use Rattle.checkpoint.specs.Checkpoint.{seal_of};
ghost use Rattle.checkpoint.specs.Files.{IsOfCheckpoint, IsOfCheckpointAt, IsSealedAs};

use crate::device::Device;
use crate::folder::Folder;
use crate::{CheckpointFault, Keep, KeepFault, read};
use std::alloc::{AllocError, Global};
use std::io;

/// A Keep in a directory. The last save, of the state before superstep `S`, is the file `ckpt-S.bin`. The file of the
/// save before it is removed.
///
/// Nothing is claimed of what files hold, so it is not honest. It remembers the length and the last 32 bytes of the
/// save; a checkpoint ends with its digest. A file with another length or other last bytes counts as a failure of the
/// device.
pub struct FileKeep {
    alloc: Global,
    directory: String,
    saved: Option<Saved>,
    failures: u64,
}

impl Drop for FileKeep {
    fn drop(self) {
        let FileKeep {
            alloc: _,
            directory: _,
            saved: _,
            failures: _,
        } = self;
    }
}

// The superstep, the length and the last 32 bytes of the last good save.
#[derive(Drop)]
struct Saved {
    superstep: u32,
    length: usize,
    seal: Vec<u8>,
}

impl FileKeep {
    ghost use Rattle.checkpoint.specs.Keep.{HasFailed};
    ghost use Rattle.checkpoint.specs.Files.{HasCheckpoint, failures_of, superstep_on};

    /// Makes a Keep without a save in this directory, which has to exist.
    pub fn new(alloc: Global, directory: &str) -> Result<FileKeep, AllocError>
        ensures saved { IfOk result (λ keep. superstep_on keep ≡ None) }
        ensures failures { IfOk result (λ keep. failures_of keep ≡ 0) }
    {
        let directory = String::from_str(alloc, directory)?;
        Ok(FileKeep {
            alloc,
            directory,
            saved: None,
            failures: 0,
        })
    }

    /// Finds what an earlier run has left in this directory, which has to be there: the Keep counts the newest checkpoint that
    /// reads well as saved, and nothing where there is none. A file `ckpt-S.bin` that does not read, or is of another superstep
    /// than S, is passed over. It fails where the directory cannot be listed, or memory runs out.
    pub fn find<R: Folder>(rt: &R, alloc: Global, directory: &str) -> io::Result<FileKeep>
        // What is counted as saved was read as a checkpoint of that superstep.
        ensures found { IfOk result HasCheckpoint }
        ensures failures { IfOk result (λ keep. failures_of keep ≡ 0) }
    {
        let supersteps = rt.supersteps_in(alloc, directory)?;
        let directory = String::from_str(alloc, directory)?;
        let saved = newest(rt, alloc, directory.as_str(), supersteps.as_slice())?;
        Ok(FileKeep {
            alloc,
            directory,
            saved,
            failures: 0,
        })
    }

    /// Gives the superstep of the last good save.
    pub fn newest(&self) -> Option<u32>
        ensures { result ≡ superstep_on self.now }
    {
        match &self.saved {
            Some(saved) => Some(saved.superstep),
            None => None,
        }
    }

    /// Renames each file `ckpt-S.bin` of the directory to `ckpt-S.old`, so that no later run takes it for a checkpoint of its own
    /// job. Answers how many there were.
    pub fn set_aside<R: Folder>(&self, rt: &R) -> io::Result<usize> {
        let supersteps = rt.supersteps_in(self.alloc, self.directory.as_str())?;
        for superstep in &supersteps {
            let whole = self.path(*superstep, "bin")?;
            let aside = self.path(*superstep, "old")?;
            rt.rename(whole.as_str(), aside.as_str())?;
        }
        Ok(supersteps.len())
    }

    /// Creates a file in the directory and removes it. It fails if the directory does not exist or no file can be
    /// created in it.
    pub fn try_directory<R: Folder>(&self, rt: &R) -> io::Result<()> {
        rt.is_file(self.directory.as_str())?;
        let path = format!(in self.alloc; "{}/ckpt.part", self.directory)?;
        rt.make_empty(path.as_str())?;
        let _ = rt.remove_file(path.as_str());
        Ok(())
    }

    // Returns the fault for an error of a file call. A failure of the device is counted.
    fn fault_of(&mut self, error: &io::Error) -> KeepFault
        ensures saved { self.new.saved ≡ self.old.saved }
        ensures later { failures_of self.old ≤ failures_of self.new }
        ensures device { result ≡ KeepFault.Device
            → HasFailed (failures_of self.old) (failures_of self.new) }
    {
        match error.kind() {
            io::ErrorKind::OutOfMemory => KeepFault::OutOfMemory,
            _ => {
                self.failures = self.failures.saturating_add(1);
                KeepFault::Device
            }
        }
    }

    // Makes the path of a superstep's file with this ending.
    fn path(&self, superstep: u32, ending: &str) -> Result<String, AllocError> {
        path_in(self.alloc, self.directory.as_str(), superstep, ending)
    }

    fn write<R: Device>(&self, rt: &R, superstep: u32, bytes: &[u8]) -> io::Result<()> {
        let part = self.path(superstep, "part")?;
        let whole = self.path(superstep, "bin")?;
        rt.write_whole(part.as_str(), whole.as_str(), bytes)
    }

    // Reads the file of the last good save, which has to have its length and its seal.
    fn read<R: Device>(&self, rt: &R, saved: &Saved) -> io::Result<Vec<u8>>
        ensures { IfOk result (λ bytes. IsSealedAs saved.now bytes.items) }
    {
        let whole = self.path(saved.superstep, "bin")?;
        let bytes = rt.read_whole(self.alloc, whole.as_str(), saved.length)?;
        if seal_of(&bytes) != saved.seal.as_slice() {
            return Err(io::Error::from(io::ErrorKind::InvalidData));
        }
        Ok(bytes)
    }

    // Removes the file of the last good save if it is of another superstep. A file that cannot be removed stays.
    fn remove_last<R: Device>(&self, rt: &R, superstep: u32) {
        let Some(saved) = &self.saved else {
            return;
        };
        if saved.superstep == superstep {
            return;
        }
        if let Ok(path) = self.path(saved.superstep, "bin") {
            rt.remove(path.as_str());
        }
    }
}

// The path of the file of a directory with this ending that belongs to a superstep.
fn path_in(
    alloc: Global,
    directory: &str,
    superstep: u32,
    ending: &str,
) -> Result<String, AllocError> {
    format!(in alloc; "{directory}/ckpt-{superstep}.{ending}")
}

// What is remembered of the first of these supersteps whose file has its checkpoint.
fn newest<R: Folder>(
    rt: &R,
    alloc: Global,
    directory: &str,
    supersteps: &[u32],
) -> io::Result<Option<Saved>>
    ensures { IfOk result (λ found. IfSome found IsOfCheckpoint) }
{
    for superstep in supersteps {
        let found = saved_in(rt, alloc, directory, *superstep)?;
        if found.is_some() {
            return Ok(found);
        }
    }
    Ok(None)
}

// What is remembered of the checkpoint of a superstep, where its file has one.
fn saved_in<R: Folder>(
    rt: &R,
    alloc: Global,
    directory: &str,
    superstep: u32,
) -> io::Result<Option<Saved>>
    ensures { IfOk result (λ found. IfSome found IsOfCheckpoint) }
{
    let path = path_in(alloc, directory, superstep, "bin")?;
    match rt.read_bytes(path.as_str()) {
        Ok(bytes) => Ok(saved_of(alloc, superstep, &bytes)?),
        Err(error) if error.kind() == io::ErrorKind::OutOfMemory => Err(error),
        Err(_) => Ok(None),
    }
}

// What is remembered of these bytes, where they are a checkpoint of this superstep.
fn saved_of(alloc: Global, superstep: u32, bytes: &[u8]) -> Result<Option<Saved>, AllocError>
    ensures { IfOk result (λ found. IfSome found (IsOfCheckpointAt superstep bytes.now)) }
{
    match read(alloc, bytes) {
        Ok(state) => {
            if state.superstep() != superstep {
                return Ok(None);
            }
            let seal = seal_of(bytes).to_vec(alloc)?;
            Ok(Some(Saved {
                superstep,
                length: bytes.len(),
                seal,
            }))
        }
        Err(CheckpointFault::OutOfMemory) => Err(AllocError),
        Err(_) => Ok(None),
    }
}

// Returns the last 32 bytes, or all if there are fewer.
fn seal_of(bytes: &[u8]) -> &[u8]
    ensures { result.now ≡ seal_of bytes.now }
{
    &bytes[bytes.len().saturating_sub(32)..]
}

impl Keep for FileKeep {
    ghost use Rattle.std.specs.Prelude.{false, ℕ, List, Some, OnErr, OnOk};
    ghost use Rattle.checkpoint.specs.Keep.{HasCause, IsKeptOrNone};
    ghost use Rattle.checkpoint.specs.Files.{IsSealedOn, failures_of, superstep_on};

    ghost saved = { superstep_on };

    ghost may_load = { IsSealedOn };

    ghost honest = { λ _. false };

    ghost faults = { failures_of };

    fn save<R: Device + AllocGlobal>(
        &mut self,
        rt: &R,
        superstep: u32,
        bytes: &[u8],
    ) -> Result<(), KeepFault>
        ensures saved { OnOk result (superstep_on self.new ≡ Some superstep) }
        // Only bytes with the length and the seal of these may be loaded.
        ensures sealed { OnOk result (IsSealedOn self.new bytes.now) }
        ensures kept { OnErr result
            (IsKeptOrNone superstep (superstep_on self.old) (superstep_on self.new)) }
        ensures kept_bytes { OnErr result ((other : List ℕ)
            → IsSealedOn self.new other → IsSealedOn self.old other) }
        ensures cause { HasCause (failures_of self.old) (failures_of self.new) result }
    {
        let Ok(seal) = seal_of(bytes).to_vec(self.alloc) else {
            return Err(KeepFault::OutOfMemory);
        };
        match self.write(rt, superstep, bytes) {
            Ok(()) => {
                self.remove_last(rt, superstep);
                self.saved = Some(Saved {
                    superstep,
                    length: bytes.len(),
                    seal,
                });
                Ok(())
            }
            Err(error) => Err(self.fault_of(&error)),
        }
    }

    fn load<R: Device + AllocGlobal>(
        &mut self,
        rt: &R,
        _superstep: u32,
    ) -> Result<Vec<u8>, KeepFault> {
        let read = match &self.saved {
            Some(saved) => self.read(rt, saved),
            None => unreachable!(),
        };
        match read {
            Ok(bytes) => Ok(bytes),
            Err(error) => Err(self.fault_of(&error)),
        }
    }

    fn failures(&self) -> u64 {
        self.failures
    }
}
