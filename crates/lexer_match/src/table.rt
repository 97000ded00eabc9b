//! Reading by a table: what a set of states of an NFA becomes after each character below 128.
//!
//! The table is the part of the deterministic automaton for these characters (the subset
//! construction, Rabin and Scott 1959) that was made when the lexer was built.

ghost use Rattle.std.specs.Prelude.{◌≡◌, List, MatchOption, None, Some, ⊤};
ghost use Rattle.std.specs.Str.{chars};
ghost use Rattle.lexer_match.specs.declared.nfa.State.{State};
ghost use Rattle.lexer_match.specs.Seen.{IsExtent};
ghost use Rattle.lexer_match.specs.Reading.{IsRead};
ghost use Rattle.lexer_match.specs.Table.{IsReached, IsStep, IsTable};
ghost use Rattle.lexer_match.specs.Nfa.{Reads};

use crate::alternative::{Alternative, Extent, Seen, bytes_after, is_over, last_match};

/// The table has a column for each character below this one.
pub(crate) const COLUMNS: usize = 128;

/// A set of states that a reading has reached (a state of the deterministic automaton): its number,
/// whether the text up to there is matched, and whether a longer text can be.
#[derive(Clone, Copy)]
pub struct Reached {
    pub set: u32,
    pub ends: bool,
    pub goes_on: bool,
}

/// What comes after a set of states by a character.
#[derive(Clone, Copy)]
pub enum Step {
    /// The table doesn't say.
    Unknown,

    /// Nothing is read that begins with the character.
    Stuck,

    /// Reading goes on at a set.
    To(Reached),
}

/// How far a reading by the table came.
#[derive(Clone, Copy)]
pub(crate) struct Walk {
    /// How far the alternative matches. None where the table doesn't say.
    pub(crate) extent: Option<Extent>,

    /// How many bytes were read.
    pub(crate) read: usize,
}

/// The table says how far the alternative matches.
fn known(longest: usize, seen: Seen, read: usize) -> Walk
    ensures { result ≡ record { extent = Some (record { longest = longest; seen = seen }); read = read } }
{
    Walk {
        extent: Some(Extent { longest, seen }),
        read,
    }
}

/// The table doesn't say.
fn unknown(read: usize) -> Walk
    ensures { result ≡ record { extent = None; read = read } }
{
    Walk { extent: None, read }
}

/// Sets of states of an NFA, and what comes after them.
#[derive(Drop)]
pub struct Table {
    /// The sets by their numbers.
    pub sets: Vec<Vec<usize>>,

    /// What comes after each set, by each character below `COLUMNS`: one set after another. It may
    /// end before all sets have theirs.
    pub steps: Vec<Step>,

    /// By the number of a state, the set at which a reading from it begins.
    pub starts: Vec<Option<Reached>>,
}

impl Table {
    /// What comes after the set by the character.
    fn after(&self, set: u32, c: char) -> Step
        ensures { (P : List State) → IsTable P self.now → IsStep P self.now.sets.items set c result }
    {
        let column = c as usize;
        if column >= COLUMNS {
            return Step::Unknown;
        }
        match self.steps.get(set as usize * COLUMNS + column) {
            Some(step) => *step,
            None => Step::Unknown,
        }
    }

    /// The set at which a reading from the state begins. None where the table doesn't say.
    fn start(&self, state: usize) -> Option<Reached>
        ensures { (P : List State) → IsTable P self.now → MatchOption result ⊤ (IsReached P self.now.sets.items (Reads P state)) }
    {
        match self.starts.get(state) {
            Some(reached) => *reached,
            None => None,
        }
    }

    /// Reads the text from the set on, up to where it is stuck.
    fn walk_from(&self, start: Reached, alternative: Alternative, text: &str) -> Walk
        ensures { (P : List State) → IsTable P self.now → IsReached P self.now.sets.items (Reads P alternative.start) start
            → MatchOption result.extent ⊤ (IsExtent (IsRead P alternative) (chars text.now)) }
    {
        let mut at = start;
        let mut longest = 0;
        let mut read = 0;
        let mut rest = text.chars();
        loop {
            longest = last_match(at.ends, read, longest);
            if is_over(at.ends, at.goes_on, alternative) {
                return known(longest, Seen::Until(text.len() - read), read);
            }
            let Some(c) = rest.next() else {
                return known(longest, Seen::All, read);
            };
            let after = bytes_after(read, c);
            match self.after(at.set, c) {
                Step::To(next) => at = next,
                Step::Stuck => return known(longest, Seen::Until(text.len() - after), read),
                Step::Unknown => return unknown(read),
            }
            read = after;
        }
    }

    /// How far the alternative matches the text, read by the table alone. It takes constant time for
    /// each character that is read.
    pub(crate) fn walk(&self, alternative: Alternative, text: &str) -> Walk
        ensures { (P : List State) → IsTable P self.now → MatchOption result.extent ⊤ (IsExtent (IsRead P alternative) (chars text.now)) }
    {
        match self.start(alternative.start) {
            Some(start) => self.walk_from(start, alternative, text),
            None => unknown(0),
        }
    }
}
