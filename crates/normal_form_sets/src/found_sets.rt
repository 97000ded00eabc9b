//! Sets of kinds while they are found, each once.

ghost use Rattle.std.specs.Prelude.{◌≡◌, [], ◌∷◌, ◌++◌, IfOk, OnOk, false, is_some, position};
ghost use Rattle.std.specs.List.Sorted.{IsStrictlyIncreasing};
ghost use Rattle.grammar_tree.specs.Kinds.{same_text};
ghost use Rattle.grammar_names.specs.KindLists.{IsPartOf, lacking};
ghost use Rattle.normal_form_sets.specs.Sets.{no_sets, with_each};
ghost use Rattle.normal_form_sets.specs.inner.Sets.{HasNumbers};

use crate::kind_sets::KindSets;
use faults::Memory;
use std::alloc::Global;
use std::collections::BTreeMap;
use std::marker::Model;

/// The sets that were found so far, in the order in which they were found, and the number of each
/// by what it lacks.
#[derive(Drop)]
pub struct FoundSets {
    sets: KindSets,
    numbers: BTreeMap<Vec<u32>, usize>,
}

impl Model for FoundSets {
    ghost use Rattle.normal_form_sets.specs.Sets.{SetsOfKinds};
    ghost use Rattle.normal_form_sets.specs.inner.Sets.{HasNumbers, sets_coded};

    ghost Value = { SetsOfKinds };

    ghost coded = { sets_coded };

    ghost view = { λ f. f.sets };

    ghost invariant = { λ f. HasNumbers f.numbers f.sets };
}

impl FoundSets {
    /// No set yet, of these kinds.
    pub fn new(alloc: Global, all: Vec<u32>) -> FoundSets
        requires { IsStrictlyIncreasing all.items }
        ensures { result ≡ no_sets all.items }
    {
        FoundSets {
            sets: KindSets::new(alloc, all),
            numbers: BTreeMap::new(alloc),
        }
    }

    /// With the set of all kinds but these, unless it is there. It takes time logarithmic in the
    /// number of sets, and linear in how many kinds are missing.
    pub fn with(self, alloc: Global, missing: Vec<u32>) -> Result<FoundSets, Memory>
        requires { IsPartOf self.all missing.items }
        ensures { IfOk result (λ found. found ≡ with_each self (lacking self.all missing.items ∷ [])) }
    {
        if self.number(&missing).is_some() {
            return Ok(self);
        }
        let FoundSets {
            mut sets,
            mut numbers,
        } = self;
        add_number(alloc, &mut numbers, &sets, &missing)?;
        sets.push(missing)?;
        Ok(FoundSets { sets, numbers })
    }

    /// The number of the set of all kinds but these.
    pub fn number(&self, missing: &[u32]) -> Option<usize>
        requires { IsPartOf self.now.all missing.now }
        ensures { result ≡ position (λ other. same_text other (lacking self.now.all missing.now)) self.now.sets }
    {
        self.numbers.get(missing).copied()
    }

    /// The sets alone.
    pub fn into_sets(self) -> KindSets
        ensures { result ≡ self }
    {
        let FoundSets { sets, numbers: _ } = self;
        sets
    }
}

/// Gives the set of all kinds but these, which isn't there, the next number.
fn add_number(
    alloc: Global,
    numbers: &mut BTreeMap<Vec<u32>, usize>,
    sets: &KindSets,
    missing: &[u32],
) -> Result<(), Memory>
    requires numbers { HasNumbers numbers.old sets.now }
    requires part { IsPartOf sets.now.all missing.now }
    requires is_new { is_some (position (λ other. same_text other (lacking sets.now.all missing.now)) sets.now.sets) ≡ false }
    ensures { OnOk result (HasNumbers numbers.new (record { all = sets.now.all; sets = sets.now.sets ++ lacking sets.now.all missing.now ∷ [] })) }
{
    let key = Vec::from_slice(alloc, missing)?;
    numbers.insert(key, sets.len())?;
    Ok(())
}
