//! The making of a table: the subset construction (Rabin and Scott 1959), up to a bound.

ghost use Rattle.std.specs.Prelude.{◌≡◌, ◌<◌, [], List, true, false, IfOk, MatchOption, None, OnOk, length, replicate, ⊤};
ghost use Rattle.lexer_match.specs.Alternatives.{IsNfa};
ghost use Rattle.lexer_match.specs.Live.{AreLive};
ghost use Rattle.lexer_match.specs.Nfa.{IsClosed, Reads};
ghost use Rattle.lexer_match.specs.StateSets.{AreMarked, ReadsFrom};
ghost use Rattle.lexer_match.specs.inner.Subsets.{AreSets, HasStepsBefore, IsNumbered, IsReadyFor, IsSame, IsSet, StartsWith};
ghost use Rattle.lexer_match.specs.Table.{AreStarts, AreSteps, IsReached, IsStep, IsTable, states_of};
ghost use Rattle.lexer_match.specs.declared.nfa.State.{State};

use crate::alternative::Alternative;
use crate::nfa::State;
use crate::state_set::StateSet;
use crate::table::{COLUMNS, Reached, Step, Table};
use faults::Memory;
use std::alloc::Global;
use std::collections::BTreeMap;

/// A table has at most so many sets.
const MOST_SETS: usize = 4_096;

/// So many states are looked at for it: those of a set once for each character that is read from it,
/// and once whenever a character leads to it.
const MOST_LOOKS: usize = 8_388_608;

/// Sets of states while they are found, each once.
#[derive(Drop)]
pub(crate) struct FoundSets {
    sets: Vec<Vec<usize>>,

    /// The number of each set, by its states in their order.
    numbers: BTreeMap<Vec<usize>, u32>,

    /// How many states may still be looked at.
    looks_left: usize,
}

impl FoundSets {
    /// No set yet.
    fn new(alloc: Global) -> FoundSets
        ensures { result.sets.items ≡ [] }
    {
        FoundSets {
            sets: Vec::new(alloc),
            numbers: BTreeMap::new(alloc),
            looks_left: MOST_LOOKS,
        }
    }

    /// Whether the table is at its bound.
    fn is_full(&self) -> bool
        ensures { result ≡ false → length self.now.sets.items < 4096 }
    {
        self.looks_left == 0 || self.sets.len() >= MOST_SETS
    }

    /// Whether so many states may be looked at. Where they may not, the table is at its bound.
    fn may_look(&mut self, looks: usize) -> bool
        ensures sets { self.new.sets.items ≡ self.old.sets.items }
        ensures room { result ≡ true → length self.old.sets.items < 4096 }
    {
        let may = !self.is_full() && looks < self.looks_left;
        self.looks_left = self.looks_left.saturating_sub(looks);
        may
    }

    /// The states of the set with this number.
    fn states(&self, number: usize) -> &[usize]
        requires { number < length self.now.sets.items }
        ensures { result.now ≡ states_of self.now.sets.items number }
    {
        self.sets[number].as_slice()
    }

    /// The number, if the set with it has these states in this order.
    fn confirmed(&self, number: u32, states: &[usize]) -> Option<u32>
        ensures { MatchOption result ⊤ (IsNumbered self.now.sets.items states.now) }
    {
        let Some(set) = self.sets.get(number as usize) else {
            return None;
        };
        if set.as_slice() == states {
            return Some(number);
        }
        None
    }

    /// The number of the set of these states, which are in their order, if it was found.
    fn known(&self, states: &[usize]) -> Option<u32>
        ensures { MatchOption result ⊤ (IsNumbered self.now.sets.items states.now) }
    {
        match self.numbers.get(states) {
            Some(number) => self.confirmed(*number, states),
            None => None,
        }
    }

    /// Adds the set of these states, which are in their order, and gives its number. None where the table
    /// is at its bound.
    fn add(&mut self, alloc: Global, states: Vec<usize>) -> Result<Option<u32>, Memory>
        ensures grown { OnOk result (StartsWith self.new.sets.items self.old.sets.items) }
        ensures sets { (P : List State) → IsSet P states.items → AreSets P self.old.sets.items → OnOk result (AreSets P self.new.sets.items) }
        ensures number { IfOk result (λ number. MatchOption number ⊤ (IsNumbered self.new.sets.items states.items)) }
    {
        let may = self.may_look(states.len().saturating_mul(COLUMNS));
        if !may {
            return Ok(None);
        }
        let number = self.sets.len();
        let key = Vec::from_slice(alloc, &states)?;
        self.numbers.insert(key, number as u32)?;
        self.sets.push(states)?;
        Ok(Some(number as u32))
    }

    /// The number of the set of these states, which is added if it wasn't found before. None where the
    /// table is at its bound.
    fn number(&mut self, alloc: Global, states: &[usize]) -> Result<Option<u32>, Memory>
        ensures grown { OnOk result (StartsWith self.new.sets.items self.old.sets.items) }
        ensures sets { (P : List State) → IsSet P states.now → AreSets P self.old.sets.items → OnOk result (AreSets P self.new.sets.items) }
        ensures number { IfOk result (λ number. MatchOption number ⊤ (IsSame self.new.sets.items states.now)) }
    {
        let may = self.may_look(states.len());
        if !may {
            return Ok(None);
        }
        let mut sorted = Vec::from_slice(alloc, states)?;
        sorted.sort_unstable();
        match self.known(&sorted) {
            Some(number) => Ok(Some(number)),
            None => {
                let number = self.add(alloc, sorted)?;
                Ok(number)
            }
        }
    }

    /// The states as a set that a reading has reached. None where the table is at its bound.
    fn reached(
        &mut self,
        alloc: Global,
        live: &[bool],
        states: &StateSet,
    ) -> Result<Option<Reached>, Memory>
        requires inside { 0 < length states.now.marks.items }
        requires marked { AreMarked states.now.states.items states.now.marks.items }
        ensures grown { OnOk result (StartsWith self.new.sets.items self.old.sets.items) }
        ensures sets { (P : List State) → IsSet P states.now.states.items → AreSets P self.old.sets.items → OnOk result (AreSets P self.new.sets.items) }
        ensures reached { (P : List State) → AreLive P live.now → IsSet P states.now.states.items
            → IfOk result (λ found. MatchOption found ⊤ (IsReached P self.new.sets.items (ReadsFrom P states.now.states.items))) }
    {
        let number = self.number(alloc, &states.states)?;
        match number {
            Some(set) => Ok(Some(Reached {
                set,
                ends: states.has(0),
                goes_on: states.has_flagged(live),
            })),
            None => Ok(None),
        }
    }
}

/// The table while it is made.
#[derive(Drop)]
pub(crate) struct Subsets {
    found: FoundSets,
    current: StateSet,
}

impl Subsets {
    /// Where a reading from the state begins.
    fn start(
        &mut self,
        alloc: Global,
        nfa: &[State],
        live: &[bool],
        state: usize,
    ) -> Result<Option<Reached>, Memory>
        requires nfa { IsClosed nfa.now }
        requires live { AreLive nfa.now live.now }
        requires ready { IsReadyFor nfa.now self.old }
        requires state { state < length nfa.now }
        ensures ready { OnOk result (IsReadyFor nfa.now self.new) }
        ensures grown { OnOk result (StartsWith self.new.found.sets.items self.old.found.sets.items) }
        ensures start { IfOk result (λ found. MatchOption found ⊤ (IsReached nfa.now self.new.found.sets.items (Reads nfa.now state))) }
    {
        self.current.begin(nfa, state)?;
        let reached = self.found.reached(alloc, live, &self.current)?;
        Ok(reached)
    }

    /// What comes after a set by the character. Unknown where the table is at its bound.
    fn step(
        &mut self,
        alloc: Global,
        nfa: &[State],
        live: &[bool],
        set: usize,
        c: char,
    ) -> Result<Step, Memory>
        requires nfa { IsClosed nfa.now }
        requires live { AreLive nfa.now live.now }
        requires some { 0 < length nfa.now }
        requires ready { IsReadyFor nfa.now self.old }
        requires set { set < length self.old.found.sets.items }
        ensures ready { OnOk result (IsReadyFor nfa.now self.new) }
        ensures grown { OnOk result (StartsWith self.new.found.sets.items self.old.found.sets.items) }
        ensures step { IfOk result (IsStep nfa.now self.new.found.sets.items set c) }
    {
        if self.found.is_full() {
            return Ok(Step::Unknown);
        }
        self.current.step_from(nfa, self.found.states(set), c)?;
        if self.current.is_empty() {
            return Ok(Step::Stuck);
        }
        let found = self.found.reached(alloc, live, &self.current)?;
        match found {
            Some(reached) => Ok(Step::To(reached)),
            None => Ok(Step::Unknown),
        }
    }

    /// Adds what comes after a set by each character.
    fn add_steps(
        &mut self,
        alloc: Global,
        nfa: &[State],
        live: &[bool],
        steps: &mut Vec<Step>,
        set: usize,
    ) -> Result<(), Memory>
        requires nfa { IsClosed nfa.now }
        requires live { AreLive nfa.now live.now }
        requires some { 0 < length nfa.now }
        requires ready { IsReadyFor nfa.now self.old }
        requires set { set < length self.old.found.sets.items }
        requires before { HasStepsBefore set 0 steps.old.items }
        requires steps { AreSteps nfa.now self.old.found.sets.items steps.old.items }
        ensures ready { OnOk result (IsReadyFor nfa.now self.new) }
        ensures grown { OnOk result (StartsWith self.new.found.sets.items self.old.found.sets.items) }
        ensures steps { OnOk result (AreSteps nfa.now self.new.found.sets.items steps.new.items) }
        ensures all { OnOk result (HasStepsBefore set 128 steps.new.items) }
    {
        for c in 0..128u8 {
            let step = self.step(alloc, nfa, live, set, c as char)?;
            steps.push(step)?;
        }
        Ok(())
    }

    /// What comes after the sets, one after another, with those that are found by it. It ends early
    /// where the table is at its bound.
    fn steps(&mut self, alloc: Global, nfa: &[State], live: &[bool]) -> Result<Vec<Step>, Memory>
        requires nfa { IsClosed nfa.now }
        requires live { AreLive nfa.now live.now }
        requires some { 0 < length nfa.now }
        requires ready { IsReadyFor nfa.now self.old }
        ensures grown { OnOk result (StartsWith self.new.found.sets.items self.old.found.sets.items) }
        ensures steps { IfOk result (λ steps. AreSteps nfa.now self.new.found.sets.items steps.items) }
    {
        let mut steps = Vec::new(alloc);
        for set in 0..MOST_SETS {
            if self.found.is_full() {
                return Ok(steps);
            }
            if set >= self.found.sets.len() {
                return Ok(steps);
            }
            self.add_steps(alloc, nfa, live, &mut steps, set)?;
        }
        Ok(steps)
    }

    /// Where readings of the alternatives begin, by the state.
    fn starts(
        &mut self,
        alloc: Global,
        nfa: &[State],
        live: &[bool],
        alternatives: &[Alternative],
    ) -> Result<Vec<Option<Reached>>, Memory>
        requires nfa { IsNfa nfa.now alternatives.now }
        requires live { AreLive nfa.now live.now }
        requires ready { IsReadyFor nfa.now self.old }
        ensures ready { OnOk result (IsReadyFor nfa.now self.new) }
        ensures starts { IfOk result (λ starts. AreStarts nfa.now self.new.found.sets.items starts.items) }
    {
        let mut starts = no_starts(alloc, nfa.len())?;
        for alternative in alternatives {
            let state = alternative.start;
            let start = self.start(alloc, nfa, live, state)?;
            starts[state] = start;
        }
        Ok(starts)
    }
}

/// For so many states, that nothing is known of where readings from them begin.
fn no_starts(alloc: Global, states: usize) -> Result<Vec<Option<Reached>>, Memory>
    ensures { IfOk result (λ starts. starts.items ≡ replicate states None) }
{
    let mut starts = Vec::new(alloc);
    for _ in 0..states {
        starts.push(None)?;
    }
    Ok(starts)
}

/// The table for reading the alternatives. It has at most 4,096 sets, and 8,388,608 states are looked
/// at for it.
pub fn table_of(
    alloc: Global,
    nfa: &[State],
    live: &[bool],
    alternatives: &[Alternative],
) -> Result<Table, Memory>
    requires nfa { IsNfa nfa.now alternatives.now }
    requires live { AreLive nfa.now live.now }
    ensures { IfOk result (λ table. IsTable nfa.now table) }
{
    let found = FoundSets::new(alloc);
    let current = StateSet::new(alloc, nfa.len())?;
    let mut subsets = Subsets { found, current };
    let starts = subsets.starts(alloc, nfa, live, alternatives)?;
    let steps = subsets.steps(alloc, nfa, live)?;
    let Subsets { found, current: _ } = subsets;
    let FoundSets {
        sets,
        numbers: _,
        looks_left: _,
    } = found;
    Ok(Table {
        sets,
        steps,
        starts,
    })
}
