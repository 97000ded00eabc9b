//! What holds of the bytes of histories.

ghost use Rattle.std.specs.Prelude.{◌≡◌, ◌⊎◌, ◌<◌, ◌≤◌, ◌^◌, ℕ, List, ◌++◌, length};
ghost use Rattle.reduce_journal.specs.History.{History, IsHistory};
ghost use Rattle.reduce_journal.specs.Journal.{IsBadAt, IsDigest, IsJournalOf, LacksHead, head, journal_text};

use crate::digest::Digest;
use crate::head::Head;

/// Where bytes are equal, so are the digests and the histories; and bytes, also of a journal that is cut
/// off, are a journal of one head, one history and one length of a torn tail.
pub fn equal_bytes_have_one_history()
    ensures histories { (start start_other : Digest) (one other : History) → IsDigest start → IsDigest start_other
        → IsHistory one → IsHistory other → journal_text start one ≡ journal_text start_other other
        → (start ≡ start_other) × (one ≡ other) }
    ensures journals { (bytes : List ℕ) (first first_other : Head) (one other : History) (torn torn_other : ℕ)
        → IsJournalOf bytes first one torn → IsJournalOf bytes first_other other torn_other
        → (first ≡ first_other) × (one ≡ other) × (torn ≡ torn_other) }
{}

/// The bytes of a history are a journal of it, of version 2, without a torn tail.
pub fn written_is_read()
    ensures { (start : Digest) (events : History) → IsDigest start → IsHistory events
        → IsJournalOf (journal_text start events) (Head.Version2 start) events 0 }
{}

/// The first bytes of a history's bytes, with the whole head, are a journal of its first events: a run
/// that was killed loses at most the event that it was writing.
pub fn prefixes_are_read()
    ensures { (start : Digest) (events : History) (front back : List ℕ) → IsDigest start → IsHistory events
        → journal_text start events ≡ front ++ back → length (head start) ≤ length front
        → (read later : History) × (torn : ℕ) × (events ≡ read ++ later) × IsJournalOf front (Head.Version2 start) read torn }
{}

/// Bytes lack a whole head, are a journal, or are bad at some offset: there is an answer for all of them
/// that a machine can hold.
pub fn bytes_are_journals_or_bad()
    ensures { (bytes : List ℕ) → length bytes < 2 ^ 64 → LacksHead bytes
        ⊎ (((first : Head) × (events : History) × (torn : ℕ) × IsJournalOf bytes first events torn)
        ⊎ ((offset : ℕ) × IsBadAt bytes offset)) }
{}
