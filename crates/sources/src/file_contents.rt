//! The contents of files: the text or bytes of a module, other texts, and other bytes.

ghost use Rattle.std.specs.Prelude.{◌≡◌, Some, OnErr, OnOk, IfErr, MatchResult, false, string_bytes, take, true};
ghost use Rattle.sources.specs.Disk.{HoldsAt, Stays, Tries, Writes};
ghost use Rattle.wat_asm.specs.Paths.{is_text_path};
ghost use Rattle.sources.specs.Reading.{HoldsSource, IsNoBinary, IsNoSource, IsUnread, IsUnwritable};

use crate::fault::CommandFault;
use crate::files::{FileFault, Files};
use std::alloc::Global;
use wasm_ast::MAX_MODULE_BYTES;
use wasm_decode::{DecodeFault, DecodeRule};
use wat_asm::is_text_path;

/// The content of a module's file.
#[derive(Drop)]
pub enum Source {
    /// Its text (Core 1.0, section 6).
    Text(String),
    /// Its bytes (section 5).
    Binary(Vec<u8>),
}

/// Reads the file of a module. If its path ends in `.wat`, it is text; any other file is binary.
///
/// At most one byte more than the longest module is read. A longer file is refused with the fault that `decode` has for it.
pub fn read_source<'a, F: Files>(
    alloc: Global,
    path: &'a str,
    files: &mut F,
) -> Result<Source, CommandFault<'a>>
    ensures found { MatchResult result (HoldsSource (F.disk files.old) path.now)
        (IsNoSource (is_text_path path.now) (F.disk files.old) path.now) }
    ensures kept { Stays (F.disk files.old) (F.disk files.new) }
{
    if is_text_path(path) {
        let text = read_text(alloc, path, files)?;
        Ok(Source::Text(text))
    } else {
        let bytes = read_binary(alloc, path, files)?;
        Ok(Source::Binary(bytes))
    }
}

// Reads a module in the binary format.
fn read_binary<'a, F: Files>(
    alloc: Global,
    path: &'a str,
    files: &mut F,
) -> Result<Vec<u8>, CommandFault<'a>>
    ensures found { MatchResult result
        (λ bytes. (F.disk files.old).holds path.now (Some bytes.items))
        (IsNoBinary (F.disk files.old) path.now) }
    ensures kept { Stays (F.disk files.old) (F.disk files.new) }
{
    let bytes = read_front(alloc, path, MAX_MODULE_BYTES + 1, files)?;
    if bytes.len() > MAX_MODULE_BYTES {
        return Err(CommandFault::Decode(TOO_LONG));
    }
    Ok(bytes)
}

// The fault of `decode` for more bytes than a module may have.
const TOO_LONG: DecodeFault = DecodeFault::Refused(DecodeRule::OverLimit, MAX_MODULE_BYTES);

// Reads at most `most` bytes from the beginning of a file.
fn read_front<'a, F: Files>(
    alloc: Global,
    path: &'a str,
    most: usize,
    files: &mut F,
) -> Result<Vec<u8>, CommandFault<'a>>
    ensures found { MatchResult result
        (λ bytes. HoldsAt (F.disk files.old) path.now (λ content. bytes.items ≡ take most content))
        (IsUnread false (F.disk files.old) path.now) }
    ensures kept { Stays (F.disk files.old) (F.disk files.new) }
{
    files
        .read_front(alloc, path, most)
        .map_err(|fault| match fault {
            FileFault::Device => CommandFault::Unread(path),
            FileFault::OutOfMemory => CommandFault::OutOfMemory,
        })
}

/// Reads a file as text. It has to be in UTF-8.
pub fn read_text<'a, F: Files>(
    alloc: Global,
    path: &'a str,
    files: &mut F,
) -> Result<String, CommandFault<'a>>
    ensures found { MatchResult result
        (λ text. (F.disk files.old).holds path.now (Some (string_bytes text)))
        (IsUnread true (F.disk files.old) path.now) }
    ensures kept { Stays (F.disk files.old) (F.disk files.new) }
{
    let bytes = read_bytes(alloc, path, files)?;
    match String::from_utf8(bytes) {
        Ok(text) => Ok(text),
        Err(_) => {
            files.warn(format_args!("{path}: it is no text in UTF-8"));
            Err(CommandFault::Unread(path))
        }
    }
}

/// Reads the bytes of a file.
pub fn read_bytes<'a, F: Files>(
    alloc: Global,
    path: &'a str,
    files: &mut F,
) -> Result<Vec<u8>, CommandFault<'a>>
    ensures found { MatchResult result
        (λ bytes. (F.disk files.old).holds path.now (Some bytes.items))
        (IsUnread false (F.disk files.old) path.now) }
    ensures kept { Stays (F.disk files.old) (F.disk files.new) }
{
    files.read(alloc, path).map_err(|fault| match fault {
        FileFault::Device => CommandFault::Unread(path),
        FileFault::OutOfMemory => CommandFault::OutOfMemory,
    })
}

/// Writes a file, in place of its old content.
pub fn write<'a, F: Files>(
    path: &'a str,
    bytes: &[u8],
    files: &mut F,
) -> Result<(), CommandFault<'a>>
    ensures written { OnOk result
        (Writes path.now bytes.now (F.disk files.old) (F.disk files.new)) }
    ensures tried { OnErr result
        (Tries path.now bytes.now (F.disk files.old) (F.disk files.new)) }
    ensures refused { IfErr result (IsUnwritable (F.disk files.old) path.now) }
{
    files.write(path, bytes).map_err(|fault| match fault {
        FileFault::Device => CommandFault::Unwritable(path),
        FileFault::OutOfMemory => CommandFault::OutOfMemory,
    })
}
