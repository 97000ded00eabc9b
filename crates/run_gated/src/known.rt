//! What is known before a run.

ghost use Rattle.std.specs.Prelude.{◌≡◌, []};
ghost use Rattle.reduce_journal.specs.Journal.{IsDigestOf};

use reduce_journal::{Digest, digest_of};
use std::alloc::Global;
use verdict_table::Kept;

/// What is known before a run.
#[derive(Drop)]
pub struct Known {
    /// The digest of the start's bytes.
    pub start: Digest,
    /// The verdicts that are kept from an earlier run. The texts that have one aren't asked about.
    pub kept: Kept,
}

impl Known {
    /// What is known of a start where no verdict is kept: its digest. It takes no memory.
    pub fn of_start(alloc: Global, start: &[u8]) -> Known
        ensures start { IsDigestOf start.now result.start }
        ensures none { result.kept ≡ [] }
    {
        Known {
            start: digest_of(start),
            kept: Kept::new(alloc),
        }
    }
}
