//! The states that the reading of a text has reached.

ghost use Rattle.std.specs.Prelude.{◌≡◌, ◌⊎◌, ◌↔◌, ◌<◌, ◌∷◌, [], ℕ, List, Some, false, true, IfOk, OnOk, length, slice_get, slice_index_or};
ghost use Rattle.std.specs.List.{Contains};
ghost use Rattle.lexer_match.specs.Nfa.{IsClosed, Reads};
ghost use Rattle.lexer_match.specs.StateSets.{AreMarked, ReadsFrom, ReadsTo};
ghost use Rattle.lexer_match.specs.inner.StateSets.{ComesAfter, GoesTo, HasGrown, IsFollowed};

use crate::nfa::State;
use faults::Memory;
use std::alloc::Global;

/// The states that reading has reached, which are some of the states of an NFA.
#[derive(Drop)]
pub struct StateSet {
    /// The states, each once.
    pub states: Vec<usize>,

    /// By the number of a state, whether it is one of them.
    pub marks: Vec<bool>,
}

/// The flag of the state; false where it has none.
fn is_flagged(flags: &[bool], state: usize) -> bool
    ensures { result ≡ slice_index_or flags.now state false }
{
    match flags.get(state) {
        Some(flag) => *flag,
        None => false,
    }
}

impl StateSet {
    /// No state, in an NFA with so many.
    pub(crate) fn new(alloc: Global, size: usize) -> Result<StateSet, Memory>
        ensures none { IfOk result (λ current. current.states.items ≡ []) }
        ensures size { IfOk result (λ current. length current.marks.items ≡ size) }
        ensures marked { IfOk result (λ current. AreMarked current.states.items current.marks.items) }
    {
        Ok(StateSet {
            states: Vec::new(alloc),
            marks: vec![in alloc; false; size]?,
        })
    }

    /// Whether the state is in the set.
    pub(crate) fn has(&self, state: usize) -> bool
        requires inside { state < length self.now.marks.items }
        ensures { result ≡ slice_index_or self.now.marks.items state false }
    {
        self.marks[state]
    }

    /// Whether no state is in the set.
    pub(crate) fn is_empty(&self) -> bool
        ensures empty { result ≡ true → self.now.states.items ≡ [] }
        ensures some { result ≡ false → Contains self.now.states.items (slice_index_or self.now.states.items 0 0) }
    {
        self.states.is_empty()
    }

    /// Whether one of the states is flagged.
    pub(crate) fn has_flagged(&self, flags: &[bool]) -> bool
        ensures some { result ≡ true → (n : ℕ) × Contains self.now.states.items n × (slice_index_or flags.now n false ≡ true) }
        ensures none { result ≡ false → (n : ℕ) → Contains self.now.states.items n → slice_index_or flags.now n false ≡ false }
    {
        for state in &self.states {
            if is_flagged(flags, *state) {
                return true;
            }
        }
        false
    }

    fn add(&mut self, state: usize) -> Result<(), Memory>
        requires inside { state < length self.old.marks.items }
        requires marked { AreMarked self.old.states.items self.old.marks.items }
        ensures grown { OnOk result (HasGrown self.old.states.items self.new.states.items self.old.marks.items self.new.marks.items) }
        ensures members { OnOk result ((n : ℕ) → Contains self.new.states.items n ↔ (Contains self.old.states.items n ⊎ (n ≡ state))) }
    {
        if self.marks[state] {
            return Ok(());
        }
        self.states.push(state)?;
        self.marks[state] = true;
        Ok(())
    }

    /// Leaves no state.
    fn clear(&mut self)
        requires marked { AreMarked self.old.states.items self.old.marks.items }
        ensures none { self.new.states.items ≡ [] }
        ensures size { length self.new.marks.items ≡ length self.old.marks.items }
        ensures marked { AreMarked self.new.states.items self.new.marks.items }
    {
        while let Some(state) = self.states.pop() {
            self.marks[state] = false;
        }
    }

    /// Adds the states at which this state goes on without reading a character.
    fn add_splits(&mut self, nfa: &[State], state: usize) -> Result<(), Memory>
        requires nfa { IsClosed nfa.now }
        requires size { length self.old.marks.items ≡ length nfa.now }
        requires marked { AreMarked self.old.states.items self.old.marks.items }
        requires inside { state < length nfa.now }
        ensures grown { OnOk result (HasGrown self.old.states.items self.new.states.items self.old.marks.items self.new.marks.items) }
        ensures members { OnOk result ((n : ℕ) → Contains self.new.states.items n ↔ (Contains self.old.states.items n ⊎ GoesTo nfa.now state n)) }
    {
        match &nfa[state] {
            State::Split(first, second) => {
                self.add(*first)?;
                self.add(*second)?;
                Ok(())
            }
            _ => Ok(()),
        }
    }

    /// Adds the state at which this state goes on after the character, if it reads it.
    fn add_next(&mut self, nfa: &[State], state: usize, c: char) -> Result<(), Memory>
        requires nfa { IsClosed nfa.now }
        requires size { length self.old.marks.items ≡ length nfa.now }
        requires marked { AreMarked self.old.states.items self.old.marks.items }
        requires inside { state < length nfa.now }
        ensures size { OnOk result (length self.new.marks.items ≡ length self.old.marks.items) }
        ensures marked { OnOk result (AreMarked self.new.states.items self.new.marks.items) }
        ensures members { OnOk result ((n : ℕ) → Contains self.new.states.items n ↔ (Contains self.old.states.items n ⊎ ReadsTo nfa.now state c n)) }
    {
        match nfa[state].after(c) {
            Some(next) => {
                self.add(next)?;
                Ok(())
            }
            None => Ok(()),
        }
    }

    /// Adds the states at which those that are there go on without reading a character.
    fn follow(&mut self, nfa: &[State]) -> Result<(), Memory>
        requires nfa { IsClosed nfa.now }
        requires size { length self.old.marks.items ≡ length nfa.now }
        requires marked { AreMarked self.old.states.items self.old.marks.items }
        ensures marked { OnOk result (AreMarked self.new.states.items self.new.marks.items) }
        ensures size { OnOk result (length self.new.marks.items ≡ length self.old.marks.items) }
        ensures followed { OnOk result (IsFollowed nfa.now self.new.states.items) }
        ensures same { OnOk result ((w : List ℕ) → ReadsFrom nfa.now self.new.states.items w ↔ ReadsFrom nfa.now self.old.states.items w) }
    {
        let mut index = 0;
        while index < self.states.len() {
            let state = self.states[index];
            self.add_splits(nfa, state)?;
            index += 1;
        }
        Ok(())
    }

    /// Becomes the set of the state, and of the states at which it goes on without reading a
    /// character.
    pub(crate) fn begin(&mut self, nfa: &[State], state: usize) -> Result<(), Memory>
        requires nfa { IsClosed nfa.now }
        requires size { length self.old.marks.items ≡ length nfa.now }
        requires marked { AreMarked self.old.states.items self.old.marks.items }
        requires state { state < length nfa.now }
        ensures marked { OnOk result (AreMarked self.new.states.items self.new.marks.items) }
        ensures size { OnOk result (length self.new.marks.items ≡ length self.old.marks.items) }
        ensures followed { OnOk result (IsFollowed nfa.now self.new.states.items) }
        ensures reads { OnOk result ((w : List ℕ) → ReadsFrom nfa.now self.new.states.items w ↔ Reads nfa.now state w) }
    {
        self.clear();
        self.add(state)?;
        self.follow(nfa)?;
        Ok(())
    }

    /// Adds where the states of `before` go on after the character.
    fn add_after(&mut self, nfa: &[State], before: &[usize], c: char) -> Result<(), Memory>
        requires nfa { IsClosed nfa.now }
        requires size { length self.old.marks.items ≡ length nfa.now }
        requires marked { AreMarked self.old.states.items self.old.marks.items }
        requires none { self.old.states.items ≡ [] }
        requires before { (n : ℕ) → Contains before.now n → n < length nfa.now }
        ensures marked { OnOk result (AreMarked self.new.states.items self.new.marks.items) }
        ensures size { OnOk result (length self.new.marks.items ≡ length self.old.marks.items) }
        ensures after { OnOk result ((n : ℕ) → Contains self.new.states.items n ↔ ComesAfter nfa.now before.now c n) }
    {
        for state in before {
            self.add_next(nfa, *state, c)?;
        }
        Ok(())
    }

    /// Becomes the set of the states at which those of `before` go on after the character.
    pub(crate) fn step(&mut self, nfa: &[State], before: &StateSet, c: char) -> Result<(), Memory>
        requires nfa { IsClosed nfa.now }
        requires size { length self.old.marks.items ≡ length nfa.now }
        requires marked { AreMarked self.old.states.items self.old.marks.items }
        requires before_size { length before.now.marks.items ≡ length nfa.now }
        requires before_marked { AreMarked before.now.states.items before.now.marks.items }
        requires before_followed { IsFollowed nfa.now before.now.states.items }
        ensures marked { OnOk result (AreMarked self.new.states.items self.new.marks.items) }
        ensures size { OnOk result (length self.new.marks.items ≡ length self.old.marks.items) }
        ensures followed { OnOk result (IsFollowed nfa.now self.new.states.items) }
        ensures reads { OnOk result ((w : List ℕ) → ReadsFrom nfa.now self.new.states.items w ↔ ReadsFrom nfa.now before.now.states.items (c ∷ w)) }
    {
        self.step_from(nfa, &before.states, c)?;
        Ok(())
    }

    /// The same, of states that are given by themselves.
    pub(crate) fn step_from(
        &mut self,
        nfa: &[State],
        before: &[usize],
        c: char,
    ) -> Result<(), Memory>
        requires nfa { IsClosed nfa.now }
        requires size { length self.old.marks.items ≡ length nfa.now }
        requires marked { AreMarked self.old.states.items self.old.marks.items }
        requires before { (n : ℕ) → Contains before.now n → n < length nfa.now }
        requires before_followed { IsFollowed nfa.now before.now }
        ensures marked { OnOk result (AreMarked self.new.states.items self.new.marks.items) }
        ensures size { OnOk result (length self.new.marks.items ≡ length self.old.marks.items) }
        ensures followed { OnOk result (IsFollowed nfa.now self.new.states.items) }
        ensures reads { OnOk result ((w : List ℕ) → ReadsFrom nfa.now self.new.states.items w ↔ ReadsFrom nfa.now before.now (c ∷ w)) }
    {
        self.clear();
        self.add_after(nfa, before, c)?;
        self.follow(nfa)?;
        Ok(())
    }
}
