//! How far an alternative matches.

ghost use Rattle.std.specs.Prelude.{◌≡◌, ◌⊎◌, ◌↔◌, ◌<◌, ◌∷◌, [], ℕ, List, true, false, IfOk, MatchOption, None, OnOk, ⊤, length, slice_index_or};
ghost use Rattle.std.specs.List.{Contains};
ghost use Rattle.std.specs.Str.{chars};
ghost use Rattle.lexer_match.specs.declared.dead.DeadSet.{DeadSet};
ghost use Rattle.lexer_match.specs.declared.dead.SetAt.{SetAt};
ghost use Rattle.lexer_match.specs.Dead.{AreDead, EndsWith, HasDead, HasNoDead, IsDead, StayDead};
ghost use Rattle.lexer_match.specs.inner.Dead.{IsKnownDead, IsSetAt};
ghost use Rattle.lexer_match.specs.Live.{AreLive};
ghost use Rattle.lexer_match.specs.Nfa.{IsClosed, Reads};
ghost use Rattle.lexer_match.specs.Reading.{IsRead, IsReady};
ghost use Rattle.lexer_match.specs.Seen.{IsExtent};
ghost use Rattle.lexer_match.specs.StateSets.{AreFirst, ReadsFrom};
ghost use Rattle.lexer_match.specs.inner.StateSets.{IsFollowed};
ghost use Rattle.lexer_match.specs.Table.{IsTable};
ghost use Rattle.lexer_match.specs.declared.nfa.State.{State};

use crate::alternative::{Alternative, Extent, Seen, bytes_after, is_over, last_match};
use crate::dead::{DeadSet, DeadSets, SetAt};
use crate::nfa::State;
use crate::state_set::StateSet;
use crate::table::Table;
use faults::Memory;
use std::alloc::Global;

/// The sets that are kept as dead are those at the first position in each so many bytes, counted from
/// the end of the text. So a reading ends at most so many bytes after the position at which it
/// could have.
const SPACING: usize = 16;

/// How many bytes of a text the table may read in vain before anything is matched. It bounds the time
/// where many tokens begin that never end, and no result depends on it.
const FIRST_CREDIT: usize = 65_536;

/// How many more it may read in vain for each byte that is matched.
const CREDIT_FOR_A_BYTE: usize = 4;

/// Whether one of these positions lies between the two, of which the first has more bytes after it.
fn is_checkpoint(before: usize, remaining: usize) -> bool {
    before / SPACING != remaining / SPACING
}

/// What reading takes: the states that it has reached before a character, and those after it.
#[derive(Drop)]
pub struct Reading {
    alloc: Global,
    pub current: StateSet,
    pub next: StateSet,

    /// The sets that were current at checkpoints since the last match.
    trace: Vec<SetAt>,

    /// Sets from which nothing is read within the text, as earlier readings found out.
    pub dead: DeadSets,

    /// How many bytes the table may still read in vain: those that it reads after its last match.
    credit: usize,
}

impl Reading {
    /// For an NFA with so many states.
    pub fn new(alloc: Global, size: usize) -> Result<Reading, Memory>
        ensures ready { IfOk result (λ reading. IsReady size reading) }
        ensures none { IfOk result (λ reading. HasNoDead reading.dead) }
    {
        let current = StateSet::new(alloc, size)?;
        let next = StateSet::new(alloc, size)?;
        Ok(Reading {
            alloc,
            current,
            next,
            trace: Vec::new(alloc),
            dead: DeadSets::new(alloc),
            credit: FIRST_CREDIT,
        })
    }

    /// Begins with another text: what is known of the one before it is forgotten.
    pub fn forget(&mut self)
        ensures ready { (size : ℕ) → IsReady size self.old → IsReady size self.new }
        ensures none { HasNoDead self.new.dead }
    {
        self.dead = DeadSets::new(self.alloc);
        self.credit = FIRST_CREDIT;
    }

    /// Goes on after the character.
    fn step(&mut self, nfa: &[State], c: char) -> Result<(), Memory>
        requires nfa { IsClosed nfa.now }
        requires ready { IsReady (length nfa.now) self.old }
        requires followed { IsFollowed nfa.now self.old.current.states.items }
        ensures ready { OnOk result (IsReady (length nfa.now) self.new) }
        ensures followed { OnOk result (IsFollowed nfa.now self.new.current.states.items) }
        ensures trace { OnOk result (self.new.trace ≡ self.old.trace) }
        ensures dead { OnOk result (self.new.dead ≡ self.old.dead) }
        ensures reads { OnOk result ((w : List ℕ) → ReadsFrom nfa.now self.new.current.states.items w
            ↔ ReadsFrom nfa.now self.old.current.states.items (c ∷ w)) }
    {
        self.next.step(nfa, &self.current, c)?;
        std::mem::swap(&mut self.current, &mut self.next);
        Ok(())
    }

    /// The states of which one reads the first character of each text that is read from the state
    /// `start` on.
    pub fn first_states(
        &mut self,
        alloc: Global,
        nfa: &[State],
        start: usize,
    ) -> Result<Vec<usize>, Memory>
        requires nfa { IsClosed nfa.now }
        requires ready { IsReady (length nfa.now) self.old }
        requires start { start < length nfa.now }
        ensures ready { OnOk result (IsReady (length nfa.now) self.new) }
        ensures inside { IfOk result (λ states. (n : ℕ) → Contains states.items n → n < length nfa.now) }
        ensures reads { IfOk result (λ states. AreFirst nfa.now start states.items) }
    {
        self.current.begin(nfa, start)?;
        Ok(Vec::from_slice(alloc, &self.current.states)?)
    }

    /// Whether the text that was read so far is matched. What was current before it is no longer of
    /// use then.
    fn has_ended(&mut self) -> bool
        requires inside { 0 < length self.old.current.marks.items }
        ensures ended { result ≡ slice_index_or self.old.current.marks.items 0 false }
        ensures none { result ≡ true → self.new.trace.items ≡ [] }
        ensures same { result ≡ false → self.new.trace.items ≡ self.old.trace.items }
        ensures current { self.new.current ≡ self.old.current }
        ensures next { self.new.next ≡ self.old.next }
        ensures dead { self.new.dead ≡ self.old.dead }
    {
        let ended = self.current.has(0);
        if ended {
            self.trace.clear();
        }
        ended
    }

    /// The current states in their order, at the position at which so many bytes remain.
    fn current_set(&self, remaining: usize) -> Result<SetAt, Memory>
        ensures { IfOk result (IsSetAt remaining self.now.current.states.items) }
    {
        let mut states = Vec::from_slice(self.alloc, &self.current.states)?;
        states.sort_unstable();
        Ok(SetAt { remaining, states })
    }

    /// Up to where the reading looks, if it is known that nothing is read from the current states. Else
    /// they are added to the trace.
    fn trace_current(&mut self, remaining: usize) -> Result<Option<Seen>, Memory>
        ensures current { OnOk result (self.new.current ≡ self.old.current) }
        ensures next { OnOk result (self.new.next ≡ self.old.next) }
        ensures dead { OnOk result (self.new.dead ≡ self.old.dead) }
        ensures known { IfOk result (λ known. MatchOption known ⊤ (IsKnownDead self.old.dead remaining self.old.current.states.items)) }
        ensures traced { OnOk result ((p : SetAt) → Contains self.new.trace.items p → Contains self.old.trace.items p
            ⊎ IsSetAt remaining self.old.current.states.items p) }
    {
        let set = self.current_set(remaining)?;
        match self.dead.seen(remaining, &set.states) {
            Some(seen) => Ok(Some(seen)),
            None => {
                self.trace.push(set)?;
                Ok(None)
            }
        }
    }

    /// Up to where the reading looks, if it ends here: at a checkpoint that isn't the end of a match, from
    /// states of which it is known that nothing is read from them.
    fn known_end(
        &mut self,
        remaining: usize,
        checkpoint: bool,
        ended: bool,
    ) -> Result<Option<Seen>, Memory>
        ensures current { OnOk result (self.new.current ≡ self.old.current) }
        ensures next { OnOk result (self.new.next ≡ self.old.next) }
        ensures dead { OnOk result (self.new.dead ≡ self.old.dead) }
        ensures known { IfOk result (λ known. MatchOption known ⊤
            (λ seen. (ended ≡ false) × IsKnownDead self.old.dead remaining self.old.current.states.items seen)) }
        ensures traced { OnOk result ((p : SetAt) → Contains self.new.trace.items p → Contains self.old.trace.items p
            ⊎ ((ended ≡ false) × IsSetAt remaining self.old.current.states.items p)) }
    {
        if ended {
            return Ok(None);
        }
        if !checkpoint {
            return Ok(None);
        }
        let known = self.trace_current(remaining)?;
        Ok(known)
    }

    /// Keeps the sets of the trace as dead. A reading from them looks up to there.
    fn keep_dead(&mut self, seen: Seen) -> Result<(), Memory>
        ensures current { OnOk result (self.new.current ≡ self.old.current) }
        ensures next { OnOk result (self.new.next ≡ self.old.next) }
        ensures added { OnOk result ((d : DeadSet) → HasDead self.new.dead d → HasDead self.old.dead d
            ⊎ (Contains self.old.trace.items d.set × (d.seen ≡ seen))) }
    {
        while let Some(set) = self.trace.pop() {
            self.dead.add(self.alloc, DeadSet { set, seen })?;
        }
        Ok(())
    }

    /// The same as `extent`, and the sets of the trace are dead: a reading from them looks up to the same
    /// position.
    fn read_extent(
        &mut self,
        nfa: &[State],
        live: &[bool],
        alternative: Alternative,
        text: &str,
    ) -> Result<Extent, Memory>
        requires nfa { IsClosed nfa.now }
        requires live { AreLive nfa.now live.now }
        requires ready { IsReady (length nfa.now) self.old }
        requires start { alternative.start < length nfa.now }
        requires dead { AreDead nfa.now text.now self.old.dead }
        ensures ready { OnOk result (IsReady (length nfa.now) self.new) }
        ensures extent { IfOk result (IsExtent (IsRead nfa.now alternative) (chars text.now)) }
        ensures same { OnOk result (self.new.dead ≡ self.old.dead) }
        ensures traced { IfOk result (λ extent. (whole : List ℕ) → EndsWith whole text.now → (p : SetAt) → Contains self.new.trace.items p
            → IsDead nfa.now whole (record { set = p; seen = extent.seen })) }
    {
        self.current.begin(nfa, alternative.start)?;
        self.trace.clear();
        let mut longest = 0;
        let mut read = 0;
        let mut checkpoint = false;
        let mut rest = text.chars();
        loop {
            let ended = self.has_ended();
            longest = last_match(ended, read, longest);
            let remaining = text.len() - read;
            let goes_on = self.current.has_flagged(live);
            if is_over(ended, goes_on, alternative) {
                return Ok(Extent {
                    longest,
                    seen: Seen::Until(remaining),
                });
            }
            let known = self.known_end(remaining, checkpoint, ended)?;
            if let Some(seen) = known {
                return Ok(Extent { longest, seen });
            }
            let Some(c) = rest.next() else {
                return Ok(Extent {
                    longest,
                    seen: Seen::All,
                });
            };
            self.step(nfa, c)?;
            read = bytes_after(read, c);
            checkpoint = is_checkpoint(remaining, text.len() - read);
        }
    }

    /// How far the alternative matches, as the table has it. None where the table doesn't say, or where
    /// too much was read by it in vain.
    fn walk(&mut self, table: &Table, alternative: Alternative, text: &str) -> Option<Extent>
        ensures current { self.new.current ≡ self.old.current }
        ensures next { self.new.next ≡ self.old.next }
        ensures dead { self.new.dead ≡ self.old.dead }
        ensures extent { (P : List State) → IsTable P table.now → MatchOption result ⊤ (IsExtent (IsRead P alternative) (chars text.now)) }
    {
        if self.credit == 0 {
            return None;
        }
        let walk = table.walk(alternative, text);
        let longest = match walk.extent {
            Some(extent) => extent.longest,
            None => 0,
        };
        let gained = longest.saturating_mul(1 + CREDIT_FOR_A_BYTE);
        self.credit = self.credit.saturating_add(gained).saturating_sub(walk.read);
        walk.extent
    }

    /// How far the alternative matches, by the states that are reached.
    ///
    /// A reading ends at the latest at the first checkpoint after its last match at which its states are
    /// kept as a dead set. Where it goes on further and fails, its sets at the checkpoints since that match
    /// are kept as dead for the later readings of the same text, up to a bound.
    fn read_from_states(
        &mut self,
        nfa: &[State],
        live: &[bool],
        alternative: Alternative,
        text: &str,
    ) -> Result<Extent, Memory>
        requires nfa { IsClosed nfa.now }
        requires live { AreLive nfa.now live.now }
        requires ready { IsReady (length nfa.now) self.old }
        requires start { alternative.start < length nfa.now }
        requires dead { AreDead nfa.now text.now self.old.dead }
        ensures ready { OnOk result (IsReady (length nfa.now) self.new) }
        ensures extent { IfOk result (IsExtent (IsRead nfa.now alternative) (chars text.now)) }
        ensures dead { OnOk result (StayDead nfa.now text.now self.old.dead self.new.dead) }
    {
        let extent = self.read_extent(nfa, live, alternative, text)?;
        self.keep_dead(extent.seen)?;
        Ok(extent)
    }

    /// How far the alternative matches the text from its beginning on, and up to where the text is looked
    /// at for it: up to the least beginning that isn't a proper prefix of anything that the alternative
    /// matches.
    pub fn extent(
        &mut self,
        nfa: &[State],
        live: &[bool],
        table: &Table,
        alternative: Alternative,
        text: &str,
    ) -> Result<Extent, Memory>
        requires nfa { IsClosed nfa.now }
        requires live { AreLive nfa.now live.now }
        requires table { IsTable nfa.now table.now }
        requires ready { IsReady (length nfa.now) self.old }
        requires start { alternative.start < length nfa.now }
        requires dead { AreDead nfa.now text.now self.old.dead }
        ensures ready { OnOk result (IsReady (length nfa.now) self.new) }
        ensures extent { IfOk result (IsExtent (IsRead nfa.now alternative) (chars text.now)) }
        ensures dead { OnOk result (StayDead nfa.now text.now self.old.dead self.new.dead) }
    {
        match self.walk(table, alternative, text) {
            Some(extent) => Ok(extent),
            None => {
                let extent = self.read_from_states(nfa, live, alternative, text)?;
                Ok(extent)
            }
        }
    }
}
