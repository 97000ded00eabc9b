//! Where texts are in a list, by numbers that a hash computes of their bytes.

ghost use Rattle.std.specs.Prelude.{◌≡◌, ◌+◌, ◌≤◌, ◌<◌, [], ◌∷◌, ◌++◌, List, ℕ, length, OnOk, vec_capacity};
ghost use Rattle.std.specs.HashMap.{spare};
ghost use Rattle.verdict_table.specs.inner.TextIndex.{IsIndexOf, IsNewest, text_at, text_number};

use faults::Memory;
use std::alloc::Global;
use std::collections::HashMap;
use std::hash::{FoldHasher, Hasher};

/// The number of a text. Texts of equal bytes have equal numbers, and others may.
#[tactic(auto, unfolding(crate::specs::inner::TextIndex::text_number))]
fn number_of(text: &[u8]) -> u64
    ensures { result ≡ text_number text.now }
{
    let mut hasher = FoldHasher::default();
    hasher.write(text);
    hasher.finish()
}

/// Where texts are in a list, by their numbers. The texts themselves are with the list.
#[derive(Drop)]
pub(crate) struct TextIndex {
    /// For each number the index of the newest text that has it.
    newest: HashMap<u64, usize>,
    /// For each text the index of the newest one before it that has the same number.
    older: Vec<Option<usize>>,
}

impl TextIndex {
    /// The index of an empty list; it takes no memory.
    pub(crate) fn new(alloc: Global) -> TextIndex
        ensures { IsIndexOf [] result.newest result.older.items }
    {
        TextIndex {
            newest: HashMap::new(alloc),
            older: Vec::new(alloc),
        }
    }

    /// Makes room for so many texts more. After an error the texts are where they were.
    pub(crate) fn reserve(&mut self, count: usize) -> Result<(), Memory>
        ensures indexed { (texts : List (List ℕ)) → IsIndexOf texts self.old.newest self.old.older.items
            → IsIndexOf texts self.new.newest self.new.older.items }
        ensures newest_room { OnOk result (count ≤ spare self.new.newest) }
        ensures older_room { OnOk result (length self.new.older.items + count ≤ vec_capacity self.new.older) }
        ensures newest_kept { spare self.old.newest ≤ spare self.new.newest }
        ensures older_kept { vec_capacity self.old.older ≤ vec_capacity self.new.older }
        ensures same_length { length self.new.older.items ≡ length self.old.older.items }
    {
        self.newest.reserve(count)?;
        self.older.reserve(count)?;
        Ok(())
    }

    /// Adds a text at the end, for which there is room; it takes no memory.
    pub(crate) fn push(&mut self, text: &[u8])
        requires newest_room { 0 < spare self.old.newest }
        requires older_room { length self.old.older.items < vec_capacity self.old.older }
        ensures indexed { (texts : List (List ℕ)) → IsIndexOf texts self.old.newest self.old.older.items
            → IsIndexOf (texts ++ text.now ∷ []) self.new.newest self.new.older.items }
        ensures newest_room { spare self.old.newest ≤ spare self.new.newest + 1 }
        ensures older_room { vec_capacity self.old.older ≤ vec_capacity self.new.older }
    {
        let index = self.older.len();
        let inserted: Result<_, _> = self.newest.insert(number_of(text), index);
        self.older.push(inserted.unwrap()).unwrap();
    }

    /// The index of the newest text that has the number of this one.
    pub(crate) fn newest(&self, text: &[u8]) -> Option<usize>
        ensures { (texts : List (List ℕ)) → IsIndexOf texts self.now.newest self.now.older.items
            → IsNewest (text_number text.now) texts (length texts) result }
    {
        self.newest.get(&number_of(text)).copied()
    }

    /// The index of the newest text before this one that has the same number.
    pub(crate) fn older(&self, index: usize) -> Option<usize>
        requires { index < length self.now.older.items }
        ensures { (texts : List (List ℕ)) → IsIndexOf texts self.now.newest self.now.older.items
            → IsNewest (text_number (text_at texts index)) texts index result }
    {
        self.older[index]
    }
}
