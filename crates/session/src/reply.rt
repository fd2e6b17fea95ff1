//! The reply to a line.

ghost use Rattle.std.specs.Prelude.{◌≡◌};
ghost use Rattle.session.specs.inside.SeenLines.{IsReplyOf, reply_text};

use std::alloc::AllocError;

/// The reply to a line.
#[derive(Drop)]
pub enum Reply {
    /// This text, with its line feeds.
    Text(String),
    Dropped,
    Bye,
    Usage,
    NameTaken,
    UnknownName,
    File,
    NotWaiting,
    NotEnded,
    OutOfMemory,
}

impl Reply {
    /// Makes a reply of a text, or of an allocation that failed.
    pub fn of(text: Result<String, AllocError>) -> Reply
        ensures { IsReplyOf text result }
    {
        match text {
            Ok(text) => Reply::Text(text),
            Err(_) => Reply::OutOfMemory,
        }
    }

    /// Returns the bytes of the reply.
    pub fn as_bytes(&self) -> &[u8]
        ensures { result.now ≡ reply_text self.now }
    {
        match self {
            Reply::Text(text) => text.as_bytes(),
            Reply::Dropped => b"ok drop\n".as_slice(),
            Reply::Bye => b"ok bye\n".as_slice(),
            Reply::Usage => b"no 1 Usage\n".as_slice(),
            Reply::NameTaken => b"no 2 NameTaken\n".as_slice(),
            Reply::UnknownName => b"no 3 UnknownName\n".as_slice(),
            Reply::File => b"no 4 File\n".as_slice(),
            Reply::NotWaiting => b"no 11 NotWaiting\n".as_slice(),
            Reply::NotEnded => b"no 12 NotEnded\n".as_slice(),
            Reply::OutOfMemory => b"no 14 OutOfMemory\n".as_slice(),
        }
    }
}
