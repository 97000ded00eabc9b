//! Which alternatives have to be read for a text, by its first character.

ghost use Rattle.std.specs.Prelude.{◌≡◌, ◌<◌, ℕ, List, false, IfOk, OnOk, length, map};
ghost use Rattle.std.specs.List.{Contains};
ghost use Rattle.lexer_match.specs.Alternatives.{IsNfa};
ghost use Rattle.lexer.specs.declared.candidates.Beginning.{Beginning};
ghost use Rattle.lexer_match.specs.declared.nfa.State.{State};
ghost use Rattle.lexer.specs.inner.Candidates.{AreBeginnings, AreCandidates, AreListed, IsBeginning};
ghost use Rattle.lexer_match.specs.Reading.{IsReady};
ghost use Rattle.lexer_match.specs.StateSets.{ReadsTo};

use faults::Memory;
use lexer_match::{Alternative, Reading, State};
use std::alloc::Global;

/// The lists of alternatives together have at most so many entries. Where they would have more there
/// is none, and all alternatives are read for each text.
const MOST_LISTED: usize = 1_000_000;

/// An alternative, and the states of which one reads the first character of each text that it
/// matches.
#[derive(Drop)]
pub(crate) struct Beginning {
    pub(crate) alternative: Alternative,
    pub(crate) states: Vec<usize>,
}

/// How each of the alternatives begins.
pub(crate) fn beginnings(
    alloc: Global,
    nfa: &[State],
    alternatives: &[Alternative],
) -> Result<Vec<Beginning>, Memory>
    requires { IsNfa nfa.now alternatives.now }
    ensures { IfOk result (λ list. AreBeginnings nfa.now alternatives.now list.items) }
{
    let mut reading = Reading::new(alloc, nfa.len())?;
    let mut list = Vec::new(alloc);
    for alternative in alternatives {
        let alternative = *alternative;
        let states = reading.first_states(alloc, nfa, alternative.start)?;
        list.push(Beginning {
            alternative,
            states,
        })?;
    }
    Ok(list)
}

/// Whether the state reads the character.
fn reads(nfa: &[State], state: usize, c: char) -> bool
    requires inside { state < length nfa.now }
    ensures not { result ≡ false → (next : ℕ) → ¬ ReadsTo nfa.now state c next }
{
    match nfa[state].after(c) {
        Some(_) => true,
        None => false,
    }
}

/// Whether one of the states reads the character.
fn is_read(nfa: &[State], states: &[usize], c: char) -> bool
    requires inside { (n : ℕ) → Contains states.now n → n < length nfa.now }
    ensures not { result ≡ false → (n next : ℕ) → Contains states.now n → ¬ ReadsTo nfa.now n c next }
{
    for state in states {
        if reads(nfa, *state, c) {
            return true;
        }
    }
    false
}

/// The alternatives that can match a text which begins with the character.
fn beginning_with(
    alloc: Global,
    nfa: &[State],
    beginnings: &[Beginning],
    c: char,
) -> Result<Vec<Alternative>, Memory>
    requires { (b : Beginning) → Contains beginnings.now b → IsBeginning nfa.now b }
    ensures { IfOk result (λ list. AreCandidates nfa.now (map (λ (b : Beginning). b.alternative) beginnings.now) list.items c) }
{
    let mut list = Vec::new(alloc);
    for beginning in beginnings {
        if is_read(nfa, &beginning.states, c) {
            list.push(beginning.alternative)?;
        }
    }
    Ok(list)
}

/// By its first character, for each below 128, the alternatives that can match a text. Empty where
/// these lists would be too long.
pub(crate) fn by_first_character(
    alloc: Global,
    nfa: &[State],
    beginnings: &[Beginning],
) -> Result<Vec<Vec<Alternative>>, Memory>
    requires { (b : Beginning) → Contains beginnings.now b → IsBeginning nfa.now b }
    ensures { IfOk result (λ lists. AreListed nfa.now (map (λ (b : Beginning). b.alternative) beginnings.now) lists.items) }
{
    let mut lists = Vec::new(alloc);
    let mut entries_left = MOST_LISTED;
    for c in 0..128u8 {
        let list = beginning_with(alloc, nfa, beginnings, c as char)?;
        if list.len() > entries_left {
            return Ok(Vec::new(alloc));
        }
        entries_left -= list.len();
        lists.push(list)?;
    }
    Ok(lists)
}

/// The alternatives that have to be read for a text which begins with the character. It takes
/// constant time.
pub(crate) fn candidates<'a>(
    lists: &'a [Vec<Alternative>],
    alternatives: &'a [Alternative],
    c: char,
) -> &'a [Alternative]
    ensures { (P : List State) → AreListed P alternatives.now lists.now → AreCandidates P alternatives.now result.now c }
{
    let at = c as usize;
    if at >= lists.len() {
        return alternatives;
    }
    lists[at].as_slice()
}
