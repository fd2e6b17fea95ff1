//! The words of the command line, and reports of what is wrong with them.

use clap::error::ErrorKind;
use std::rt::Env;
use std::{env, io};

/// Reads the words of the command line. The first is the program's name. Where one is not in UTF-8, the error is `InvalidData`.
pub fn words(rt: &(impl Env + AllocGlobal)) -> io::Result<Vec<String>> {
    let words: Vec<String> = env::args(rt)?.collect(rt.alloc())?;
    Ok(words)
}

/// Reports an argument that is no text, if that is why there are no words, and returns the status 2. Any other error is
/// returned as it is.
pub fn refuse_arguments(rt: &impl Eprint, error: io::Error) -> io::Result<u8> {
    if error.kind() != io::ErrorKind::InvalidData {
        return Err(error);
    }
    eprintln!(rt; "error: an argument is not in UTF-8")?;
    Ok(2)
}

/// Prints why the words are refused, or the help that they ask for, and returns the status, 2 or 0. Fails where that cannot be
/// printed, and where memory ran out as the words were read.
pub fn refuse_words(rt: &(impl Print + Eprint), error: &clap::Error) -> io::Result<u8> {
    if error.kind() == ErrorKind::OutOfMemory {
        return Err(io::Error::from(io::ErrorKind::OutOfMemory));
    }
    error.print(rt)?;
    Ok(if error.use_stderr() { 2 } else { 0 })
}
