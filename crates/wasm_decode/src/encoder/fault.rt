//! The faults of the encoder.

ghost use Rattle.std.specs.Prelude.{◌≡◌, Some};
ghost use Rattle.wasm_decode.specs.Faults.{encode_word};
ghost use Rattle.wasm_decode.specs.declared.encoder.fault.EncodeFault.TheVariants.{OutOfMemory};

use std::alloc::AllocError;
use std::error::Error;
use std::fmt;

/// The reason why a module is not encoded. It is printed as its word.
#[derive(Clone, Copy, Debug)]
pub enum EncodeFault {
    /// The module's shortest binary form has more than 1,048,576 bytes.
    OverLimit,
    /// An allocation failed.
    OutOfMemory,
}

impl EncodeFault {
    // Returns the fault's word, as it is printed.
    fn word(self) -> &'static str
        ensures { result.now ≡ encode_word self }
    {
        match self {
            EncodeFault::OverLimit => "OverLimit",
            EncodeFault::OutOfMemory => "OutOfMemory",
        }
    }
}

impl fmt::Display for EncodeFault {
    ghost output = { λ fault. Some (encode_word fault) };

    fn fmt<W: fmt::Write>(&self, f: &mut fmt::Formatter<W>) -> fmt::Result {
        f.write_str(self.word())
    }
}

impl Error for EncodeFault {}

impl From<AllocError> for EncodeFault {
    ghost from_gives = { λ _ fault. fault ≡ OutOfMemory };

    fn from(_: AllocError) -> EncodeFault {
        EncodeFault::OutOfMemory
    }
}
