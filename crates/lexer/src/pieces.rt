//! What comes next in a text.

ghost use Rattle.std.specs.Prelude.{◌≡◌, ◌⊎◌, ◌<◌, ◌≤◌, ℕ, List, true, false, IfOk, MatchOption, OnOk, ⊤, length};
ghost use Rattle.std.specs.List.{Contains};
ghost use Rattle.std.specs.Str.{chars};
ghost use Rattle.lexer_match.specs.declared.alternative.Alternative.{Alternative};
ghost use Rattle.lexer_match.specs.Alternatives.{IsNfa};
ghost use Rattle.lexer.specs.inner.Candidates.{AreListed, ComesNext, HasNoNext, IsBestOf, IsMatchedByOne, IsNoNearer};
ghost use Rattle.lexer_match.specs.Dead.{AreDead, StayDead};
ghost use Rattle.lexer_match.specs.Live.{AreLive};
ghost use Rattle.lexer_match.specs.Nfa.{IsClosed};
ghost use Rattle.lexer_match.specs.Reading.{IsReady};
ghost use Rattle.lexer_match.specs.Seen.{IsSeenTo};
ghost use Rattle.lexer_match.specs.Table.{IsTable};

use crate::candidates::candidates;
use faults::Memory;
use lexer_match::{Alternative, Reading, Seen, State, Table};

/// A match at the beginning of a text: the number of its kind, and its length in bytes. The length
/// 0 means none.
#[derive(Clone, Copy)]
pub(crate) struct Match {
    pub(crate) kind: u32,
    pub(crate) len: usize,
}

/// A match at the beginning of a text, and up to where the text decides that it is what comes next.
#[derive(Clone, Copy)]
pub(crate) struct NextMatch {
    pub(crate) found: Match,
    pub(crate) seen: Seen,
}

/// Whether the other one is farther in the text.
fn is_farther(seen: Seen, other: Seen) -> bool
    ensures yes { result ≡ true → IsNoNearer seen other }
    ensures no { result ≡ false → IsNoNearer other seen }
{
    match seen {
        Seen::All => false,
        Seen::Until(left) => match other {
            Seen::All => true,
            Seen::Until(other_left) => other_left < left,
        },
    }
}

/// The one that is farther in the text.
fn farther(seen: Seen, other: Seen) -> Seen
    ensures { ((result ≡ other) × IsNoNearer seen other) ⊎ ((result ≡ seen) × IsNoNearer other seen) }
{
    if is_farther(seen, other) { other } else { seen }
}

/// The longer of the two, and the first one where they have one length.
fn longer(best: Match, other: Match) -> Match
    ensures one { (result ≡ best) ⊎ (result ≡ other) }
    ensures no_shorter { best.len ≤ result.len }
    ensures no_shorter_other { other.len ≤ result.len }
{
    let is_longer = other.len > best.len;
    if is_longer { other } else { best }
}

/// That of the lesser kind, and the first one where they have one kind.
fn lesser(best: Match, other: Match) -> Match
    ensures one { (result ≡ best) ⊎ (result ≡ other) }
    ensures least { result.kind ≤ best.kind }
    ensures least_other { result.kind ≤ other.kind }
{
    let is_lesser = other.kind < best.kind;
    if is_lesser { other } else { best }
}

/// The longer of the two, and that of the lesser kind where they have one length.
fn better(best: Match, other: Match) -> Match
    ensures one { (result ≡ best) ⊎ (result ≡ other) }
    ensures no_shorter { best.len ≤ result.len }
    ensures no_shorter_other { other.len ≤ result.len }
    ensures least { best.len ≡ result.len → result.kind ≤ best.kind }
    ensures least_other { other.len ≡ result.len → result.kind ≤ other.kind }
{
    if other.len == best.len {
        lesser(best, other)
    } else {
        longer(best, other)
    }
}

/// The best match of the alternatives.
fn best_match(
    nfa: &[State],
    live: &[bool],
    table: &Table,
    alternatives: &[Alternative],
    reading: &mut Reading,
    text: &str,
) -> Result<NextMatch, Memory>
    requires nfa { IsClosed nfa.now }
    requires live { AreLive nfa.now live.now }
    requires inside { (a : Alternative) → Contains alternatives.now a → a.start < length nfa.now }
    requires table { IsTable nfa.now table.now }
    requires ready { IsReady (length nfa.now) reading.old }
    requires dead { AreDead nfa.now text.now reading.old.dead }
    ensures ready { OnOk result (IsReady (length nfa.now) reading.new) }
    ensures dead { OnOk result (StayDead nfa.now text.now reading.old.dead reading.new.dead) }
    ensures best { IfOk result (λ m. IsBestOf nfa.now alternatives.now (chars text.now) m.found.kind m.found.len) }
    ensures seen { IfOk result (λ m. IsSeenTo (IsMatchedByOne nfa.now alternatives.now) (chars text.now) m.seen) }
{
    let mut best = Match { kind: 0, len: 0 };
    let mut seen = Seen::Until(text.len());
    for alternative in alternatives {
        let alternative = *alternative;
        let extent = reading.extent(nfa, live, table, alternative, text)?;
        let other = Match {
            kind: alternative.kind,
            len: extent.longest,
        };
        best = better(best, other);
        seen = farther(seen, extent.seen);
    }
    Ok(NextMatch { found: best, seen })
}

/// What comes next in the text. None where no alternative matches at least one character.
pub(crate) fn next_match(
    nfa: &[State],
    live: &[bool],
    table: &Table,
    alternatives: &[Alternative],
    lists: &[Vec<Alternative>],
    reading: &mut Reading,
    text: &str,
) -> Result<Option<NextMatch>, Memory>
    requires nfa { IsNfa nfa.now alternatives.now }
    requires live { AreLive nfa.now live.now }
    requires listed { AreListed nfa.now alternatives.now lists.now }
    requires table { IsTable nfa.now table.now }
    requires ready { IsReady (length nfa.now) reading.old }
    requires dead { AreDead nfa.now text.now reading.old.dead }
    ensures ready { OnOk result (IsReady (length nfa.now) reading.new) }
    ensures dead { OnOk result (StayDead nfa.now text.now reading.old.dead reading.new.dead) }
    ensures next { IfOk result (λ found. MatchOption found (HasNoNext nfa.now alternatives.now (chars text.now))
        (λ m. ComesNext nfa.now alternatives.now (chars text.now) m.found.kind m.found.len)) }
    ensures seen { IfOk result (λ found. MatchOption found ⊤ (λ m. IsSeenTo (IsMatchedByOne nfa.now alternatives.now) (chars text.now) m.seen)) }
{
    let Some(c) = text.chars().next() else {
        return Ok(None);
    };
    let list = candidates(lists, alternatives, c);
    let best = best_match(nfa, live, table, list, reading, text)?;
    let is_none = best.found.len == 0;
    if is_none {
        return Ok(None);
    }
    Ok(Some(best))
}
