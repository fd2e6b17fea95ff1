//! What identifies a job.

ghost use Rattle.std.specs.Prelude.{◌≡◌};
ghost use Rattle.sha2.specs.Sha256.{sha256};

use sha2::{Digest, Sha256};

/// Identifies a job by the SHA-256 of its module's file and of its graph's.
#[derive(Clone, Copy)]
pub struct JobId {
    pub module: [u8; 32],
    pub graph: [u8; 32],
}

/// Computes the SHA-256 of a file's bytes.
pub fn digest_of(bytes: &[u8]) -> [u8; 32]
    ensures { result ≡ sha256 bytes.now }
{
    Sha256::digest(bytes)
}
