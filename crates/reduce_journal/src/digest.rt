//! Digests of starts, by which journals of one start are known.

ghost use Rattle.reduce_journal.specs.Journal.{IsDigestOf};

use sha2::{Digest as HashFunction, Sha256};

/// A SHA-256 digest.
#[derive(Clone, Copy, Debug, PartialEq, Eq)]
pub struct Digest {
    /// Its bytes, in their order.
    pub bytes: [u8; 32],
}

/// The SHA-256 digest of these bytes. It takes no memory.
pub fn digest_of(bytes: &[u8]) -> Digest
    ensures { IsDigestOf bytes.now result }
{
    Digest {
        bytes: Sha256::digest(bytes),
    }
}
