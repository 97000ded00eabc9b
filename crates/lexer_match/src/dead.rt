//! Sets of states from which nothing is read any more.
//!
//! A text such as `/* /* /* ..`, in which many tokens begin that never end, is read in time linear
//! in its length, since what a reading found out is kept for those that come after it: Thomas Reps,
//! "Maximal-munch tokenization in linear time", 1998. Here sets of states are kept, and not states
//! alone, since up to where a text is looked at depends on all states that were reached.

ghost use Rattle.std.specs.Prelude.{◌≡◌, ◌⊎◌, [], MatchOption, OnOk, ⊤};
ghost use Rattle.lexer_match.specs.Dead.{HasDead, HasNoDead};
ghost use Rattle.lexer_match.specs.declared.dead.DeadSet.{DeadSet};

use crate::alternative::Seen;
use faults::Memory;
use std::alloc::Global;
use std::collections::BTreeMap;

/// The sets that are kept have at most so many states together, and one for each set. It bounds the
/// memory, and no result depends on it.
const MOST_KEPT: usize = 1_048_576;

/// The states that a reading has reached, in their order, at the position at which so many bytes of the
/// text remain.
#[derive(Drop)]
pub struct SetAt {
    pub remaining: usize,
    pub states: Vec<usize>,
}

/// States at a position of a text, from which nothing is read within the rest of the text, and up to
/// where a reading from them looks at it.
#[derive(Drop)]
pub struct DeadSet {
    pub set: SetAt,
    pub seen: Seen,
}

impl DeadSet {
    /// Up to where a reading looks, if these are the states at this position.
    fn seen_from(&self, remaining: usize, states: &[usize]) -> Option<Seen>
        ensures { MatchOption result ⊤ (λ seen. (self.now.set.remaining ≡ remaining) × (self.now.set.states.items ≡ states.now) × (self.now.seen ≡ seen)) }
    {
        if self.set.remaining == remaining && self.set.states.as_slice() == states {
            return Some(self.seen);
        }
        None
    }
}

/// Such sets of a text.
#[derive(Drop)]
pub struct DeadSets {
    pub sets: Vec<DeadSet>,

    /// The indexes of the sets at each position.
    indexes: BTreeMap<usize, Vec<usize>>,

    /// How many states may still be kept.
    states_left: usize,
}

impl DeadSets {
    /// No set is known to be dead.
    pub(crate) fn new(alloc: Global) -> DeadSets
        ensures { HasNoDead result }
    {
        DeadSets {
            sets: Vec::new(alloc),
            indexes: BTreeMap::new(alloc),
            states_left: MOST_KEPT,
        }
    }

    /// Up to where a reading from these states looks, if the set with the index is that of the states at
    /// this position.
    fn seen_at(&self, index: usize, remaining: usize, states: &[usize]) -> Option<Seen>
        ensures { MatchOption result ⊤ (λ seen. (dead : DeadSet) × HasDead self.now dead × (dead.set.remaining ≡ remaining)
            × (dead.set.states.items ≡ states.now) × (dead.seen ≡ seen)) }
    {
        match self.sets.get(index) {
            Some(dead) => dead.seen_from(remaining, states),
            None => None,
        }
    }

    /// Up to where a reading from these states looks, if it is known that nothing is read from them where
    /// so many bytes remain. They are given in their order.
    pub(crate) fn seen(&self, remaining: usize, states: &[usize]) -> Option<Seen>
        ensures { MatchOption result ⊤ (λ seen. (dead : DeadSet) × HasDead self.now dead
            × (dead.set.remaining ≡ remaining) × (dead.set.states.items ≡ states.now) × (dead.seen ≡ seen)) }
    {
        let Some(indexes) = self.indexes.get(&remaining) else {
            return None;
        };
        for index in indexes {
            let seen = self.seen_at(*index, remaining, states);
            if seen.is_some() {
                return seen;
            }
        }
        None
    }

    /// Notes that the set with the index is at the position.
    fn add_index(&mut self, alloc: Global, remaining: usize, index: usize) -> Result<(), Memory>
        ensures { OnOk result (self.new.sets.items ≡ self.old.sets.items) }
    {
        if let Some(indexes) = self.indexes.get_mut(&remaining) {
            indexes.push(index)?;
            return Ok(());
        }
        let indexes = vec![in alloc; index]?;
        self.indexes.insert(remaining, indexes)?;
        Ok(())
    }

    /// Keeps the dead set, unless so many are kept already.
    pub(crate) fn add(&mut self, alloc: Global, dead: DeadSet) -> Result<(), Memory>
        ensures added { OnOk result ((set : DeadSet) → HasDead self.new set → HasDead self.old set ⊎ (set ≡ dead)) }
    {
        let states = dead.set.states.len();
        if states >= self.states_left {
            return Ok(());
        }
        self.states_left -= states + 1;
        let index = self.sets.len();
        let remaining = dead.set.remaining;
        self.add_index(alloc, remaining, index)?;
        self.sets.push(dead)?;
        Ok(())
    }
}
