//! The digest that ends a checkpoint.

ghost use Rattle.std.specs.Prelude.{◌≡◌};
ghost use Rattle.checkpoint.specs.Checkpoint.{digest};

use sha2::{Digest, Sha256};

/// Computes the SHA-256 of these bytes.
#[tactic(auto, unfolding(crate::specs::Checkpoint::digest))]
pub fn digest_of(bytes: &[u8]) -> [u8; 32]
    ensures { result ≡ digest bytes.now }
{
    Sha256::digest(bytes)
}
