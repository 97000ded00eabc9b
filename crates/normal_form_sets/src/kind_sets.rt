//! Sets of kinds.

ghost use Rattle.std.specs.Prelude.{◌≡◌, [], ◌∷◌, ◌++◌, false, IfOk, IfSome, OnOk, length, map, slice_get};
ghost use Rattle.std.specs.List.Sorted.{IsStrictlyIncreasing};
ghost use Rattle.std.specs.Option.{option_map, option_map_or};
ghost use Rattle.grammar_names.specs.KindLists.{IsPartOf, is_in, lacking};
ghost use Rattle.normal_form_sets.specs.Sets.{items_of, no_sets};

use faults::Memory;
use grammar_names::{is_among, without};
use std::alloc::Global;
use std::marker::Model;

/// Sets of kinds, each with a number that counts from 0. What is kept of a set is the kinds that it
/// lacks, since `.` and `~` lack few.
#[derive(Drop)]
pub struct KindSets {
    all: Vec<u32>,
    missing: Vec<Vec<u32>>,
}

impl Model for KindSets {
    ghost use Rattle.std.specs.Prelude.{map};
    ghost use Rattle.normal_form_sets.specs.Sets.{SetsOfKinds, items_of};
    ghost use Rattle.normal_form_sets.specs.inner.Sets.{AreMissing, sets_coded, sets_lacking};

    ghost Value = { SetsOfKinds };

    ghost coded = { sets_coded };

    ghost view = { λ s. sets_lacking s.all.items s.missing.items };

    ghost invariant = { λ s. AreMissing s.all.items (map items_of s.missing.items) };
}

impl KindSets {
    /// No set yet, of these kinds.
    pub(crate) fn new(alloc: Global, all: Vec<u32>) -> KindSets
        requires { IsStrictlyIncreasing all.items }
        ensures { result ≡ no_sets all.items }
    {
        KindSets {
            all,
            missing: Vec::new(alloc),
        }
    }

    /// Adds the set of all kinds but these.
    pub(crate) fn push(&mut self, missing: Vec<u32>) -> Result<(), Memory>
        requires { IsPartOf self.old.all missing.items }
        ensures { OnOk result (self.new ≡ record { all = self.old.all; sets = self.old.sets ++ lacking self.old.all missing.items ∷ [] }) }
    {
        self.missing.push(missing)?;
        Ok(())
    }

    /// All kinds that can be in a set, rising.
    pub fn all(&self) -> &[u32]
        ensures { result.now ≡ self.now.all }
    {
        self.all.as_slice()
    }

    /// How many sets there are.
    pub fn len(&self) -> usize
        ensures { result ≡ length self.now.sets }
    {
        self.missing.len()
    }

    /// What the set with this number lacks of all kinds, rising; None where there is no such set.
    pub fn missing(&self, set: u32) -> Option<&[u32]>
        ensures lacks { option_map (λ missing. lacking self.now.all missing.now) result ≡ slice_get self.now.sets set }
        ensures part { IfSome result (λ missing. IsPartOf self.now.all missing.now) }
        ensures rising { IsStrictlyIncreasing self.now.all }
    {
        match self.missing.get(set as usize) {
            Some(list) => Some(list.as_slice()),
            None => None,
        }
    }

    /// Whether the set with this number has the kind. It takes time logarithmic in the number of
    /// kinds.
    pub fn contains(&self, set: u32, kind: u32) -> bool
        ensures { result ≡ option_map_or (λ kinds. is_in kinds kind) (slice_get self.now.sets set) false }
    {
        match self.missing(set) {
            Some(missing) => is_among(self.all(), kind) && !is_among(missing, kind),
            None => false,
        }
    }

    /// The kinds in the set with this number, rising; none where there is no such set. It takes time
    /// near linear in the number of all kinds.
    pub fn kinds(&self, alloc: Global, set: u32) -> Result<Vec<u32>, Memory>
        ensures { IfOk result (λ kinds. kinds.items ≡ option_map_or (λ kinds. kinds) (slice_get self.now.sets set) []) }
    {
        match self.missing(set) {
            Some(missing) => without(alloc, self.all(), missing),
            None => Ok(Vec::new(alloc)),
        }
    }

    /// For each set, those of the kinds that it lacks, in their order. Where these are all kinds, it
    /// takes time linear in what is kept of the sets. Where they aren't, each set is written out.
    pub fn missing_of(&self, alloc: Global, kinds: &[u32]) -> Result<Vec<Vec<u32>>, Memory>
        ensures { IfOk result (λ missing. map items_of missing.items ≡ map (lacking kinds.now) self.now.sets) }
    {
        if self.all.as_slice() == kinds {
            return copy_lists(alloc, &self.missing);
        }
        missing_among(alloc, kinds, &self.all, &self.missing)
    }

    /// Equal sets.
    pub fn copy(&self, alloc: Global) -> Result<KindSets, Memory>
        ensures { IfOk result (λ copy. copy ≡ self.now) }
    {
        Ok(KindSets {
            all: Vec::from_slice(alloc, &self.all)?,
            missing: copy_lists(alloc, &self.missing)?,
        })
    }
}

fn copy_lists(alloc: Global, lists: &[Vec<u32>]) -> Result<Vec<Vec<u32>>, Memory>
    ensures { IfOk result (λ copies. map items_of copies.items ≡ map items_of lists.now) }
{
    let mut copies = Vec::new(alloc);
    for list in lists {
        copies.push(Vec::from_slice(alloc, list)?)?;
    }
    Ok(copies)
}

/// For each set, which is all kinds but some, those of the kinds that it lacks.
fn missing_among(
    alloc: Global,
    kinds: &[u32],
    all: &[u32],
    missing: &[Vec<u32>],
) -> Result<Vec<Vec<u32>>, Memory>
    ensures { IfOk result (λ others. map items_of others.items ≡ map (lacking kinds.now) (map (lacking all.now) (map items_of missing.now))) }
{
    let mut others = Vec::new(alloc);
    for list in missing {
        let set = without(alloc, all, list)?;
        others.push(without(alloc, kinds, &set)?)?;
    }
    Ok(others)
}
