//! Which characters are gap text by themselves.
//!
//! The text of one character is one piece of gap text where a gap kind matches it, and no lesser
//! kind does. So first the characters are found that each kind matches by themselves, and then
//! those among them of which the least kind is a gap kind, half of the kinds after the other.

ghost use Rattle.std.specs.Prelude.{◌≡◌, ◌≢◌, ◌⊎◌, ◌↔◌, ◌<◌, ◌≤◌, ◌&&◌, ◌||◌, ◌∷◌, [], ℕ, Bool, true, false, not};
ghost use Rattle.std.specs.Prelude.{Some, IfOk, OnOk, length, map, slice_get, slice_index_or};
ghost use Rattle.std.specs.Char.{IsScalar};
ghost use Rattle.std.specs.List.{Contains};
ghost use Rattle.grammar_tree.specs.Chars.{HasExactlyChars, has};
ghost use Rattle.grammar_tree.specs.GrammarView.{kind_of};
ghost use Rattle.grammar_tree.specs.Kinds.{kinds_of};
ghost use Rattle.grammar_tree.specs.Lexes.{is_gap_kind};
ghost use Rattle.grammar_tree.specs.Written.{WrittenGrammar};
ghost use Rattle.lexer.specs.declared.candidates.Beginning.{Beginning};
ghost use Rattle.lexer_match.specs.Alternatives.{HasAlternative, IsNfa};
ghost use Rattle.lexer_nfa.specs.GrammarNfa.{IsNfaOf};
ghost use Rattle.lexer.specs.inner.Candidates.{IsBeginning};
ghost use Rattle.lexer.specs.inner.Gaps.{AreDecided, AreEmptyFlags, AreGapChars, HasSingle, IsLastOf, SinglesAreUpTo, SinglesNeverFall};
ghost use Rattle.lexer_match.specs.Nfa.{GoesBelow, IsClosed};
ghost use Rattle.lexer_nfa.specs.Order.{NeverFall};
ghost use Rattle.lexer_match.specs.Reading.{IsRead};

use crate::candidates::Beginning;
use crate::empty::read_nothing;
use crate::tokens::is_gap;
use faults::Memory;
use grammar_tree::{CharSet, Kind};
use lexer_match::{Alternative, State};
use std::alloc::Global;

/// Characters that a kind matches, each by itself.
#[derive(Drop)]
pub(crate) struct Singles {
    pub(crate) kind: u32,
    pub(crate) set: CharSet,
}

/// Some characters: those that a kind matches, and those among them of which the least kind is a
/// gap kind.
#[derive(Drop)]
pub(crate) struct Decided {
    pub(crate) matched: CharSet,
    pub(crate) gaps: CharSet,
}

/// Adds the characters after which the state goes on at a flagged one.
fn add_state(
    alloc: Global,
    singles: &mut Vec<Singles>,
    flags: &[bool],
    kind: u32,
    state: &State,
) -> Result<(), Memory>
    requires inside { GoesBelow (length flags.now) state.now }
    ensures added { OnOk result ((k c : ℕ) → IsScalar c → HasSingle singles.new.items k c
        ↔ (HasSingle singles.old.items k c ⊎ ((k ≡ kind) × IsLastOf flags.now state.now c))) }
    ensures order { SinglesAreUpTo singles.old.items kind → OnOk result (SinglesAreUpTo singles.new.items kind) }
{
    match state {
        State::Char(c, next) => {
            if flags[*next] {
                let set = CharSet::new(alloc, &[(*c, *c)])?;
                singles.push(Singles { kind, set })?;
            }
            Ok(())
        }
        State::Set(set, next) => {
            if flags[*next] {
                let set = set.copy()?;
                singles.push(Singles { kind, set })?;
            }
            Ok(())
        }
        _ => Ok(()),
    }
}

/// Whether the alternative is non-greedy and its start is flagged: it matches nothing but the empty
/// text then.
fn ends_at_once(alternative: Alternative, flags: &[bool]) -> bool
    requires { alternative.start < length flags.now }
    ensures yes { result ≡ true → (alternative.short ≡ true) × (slice_index_or flags.now alternative.start false ≡ true) }
    ensures no { result ≡ false → alternative.short ≡ true → slice_index_or flags.now alternative.start false ≡ false }
{
    alternative.short && flags[alternative.start]
}

/// The state with this number.
fn state_at(nfa: &[State], number: usize) -> &State
    requires { number < length nfa.now }
    ensures { slice_get nfa.now number ≡ Some result.now }
{
    &nfa[number]
}

/// Adds the characters that the alternative matches, each by itself.
fn add_alternative(
    alloc: Global,
    singles: &mut Vec<Singles>,
    nfa: &[State],
    flags: &[bool],
    beginning: &Beginning,
) -> Result<(), Memory>
    requires closed { IsClosed nfa.now }
    requires size { length flags.now ≡ length nfa.now }
    requires flags { AreEmptyFlags nfa.now flags.now }
    requires beginning { IsBeginning nfa.now beginning.now }
    requires start { beginning.now.alternative.start < length nfa.now }
    ensures added { OnOk result ((k c : ℕ) → IsScalar c → HasSingle singles.new.items k c
        ↔ (HasSingle singles.old.items k c ⊎ ((k ≡ beginning.now.alternative.kind) × IsRead nfa.now beginning.now.alternative (c ∷ [])))) }
    ensures order { SinglesAreUpTo singles.old.items beginning.now.alternative.kind
        → OnOk result (SinglesAreUpTo singles.new.items beginning.now.alternative.kind) }
{
    let alternative = beginning.alternative;
    if ends_at_once(alternative, flags) {
        return Ok(());
    }
    for number in &beginning.states {
        add_state(
            alloc,
            singles,
            flags,
            alternative.kind,
            state_at(nfa, *number),
        )?;
    }
    Ok(())
}

/// The characters that the kinds match, each by itself.
fn singles_of(
    alloc: Global,
    nfa: &[State],
    beginnings: &[Beginning],
) -> Result<Vec<Singles>, Memory>
    requires nfa { IsNfa nfa.now (map (λ (b : Beginning). b.alternative) beginnings.now) }
    requires beginnings { (b : Beginning) → Contains beginnings.now b → IsBeginning nfa.now b }
    requires order { NeverFall (λ (b : Beginning). b.alternative.kind) beginnings.now }
    ensures singles { IfOk result (λ list. (k c : ℕ) → IsScalar c → HasSingle list.items k c
        ↔ HasAlternative nfa.now (map (λ (b : Beginning). b.alternative) beginnings.now) k (c ∷ [])) }
    ensures order { IfOk result (λ list. SinglesNeverFall list.items) }
{
    let flags = read_nothing(alloc, nfa)?;
    let mut singles = Vec::new(alloc);
    for beginning in beginnings {
        add_alternative(alloc, &mut singles, nfa, &flags, beginning)?;
    }
    Ok(singles)
}

/// The characters of the set that the other one doesn't have.
fn without(set: &CharSet, other: &CharSet) -> Result<CharSet, Memory>
    ensures { IfOk result (λ rest. HasExactlyChars rest (λ c. has set.now c && not (has other.now c))) }
{
    let outside = set.complement()?.union(other)?;
    outside.complement()
}

/// The characters of the set where their kind is a gap kind, and else none.
fn if_gap(alloc: Global, is_gap: bool, set: &CharSet) -> Result<CharSet, Memory>
    ensures { IfOk result (λ gaps. HasExactlyChars gaps (λ c. is_gap && has set.now c)) }
{
    if is_gap {
        let gaps = set.copy()?;
        return Ok(gaps);
    }
    let gaps = CharSet::new(alloc, &[])?;
    Ok(gaps)
}

/// What is decided for the characters of one kind.
fn decided_by(alloc: Global, is_gap: bool, set: &CharSet) -> Result<Decided, Memory>
    ensures matched { IfOk result (λ d. d.matched ≡ set.now) }
    ensures gaps { IfOk result (λ d. HasExactlyChars d.gaps (λ c. is_gap && has set.now c)) }
{
    let matched = set.copy()?;
    let gaps = if_gap(alloc, is_gap, set)?;
    Ok(Decided { matched, gaps })
}

/// What is decided for the characters of the kinds of both, where those of the first one are the
/// lesser ones.
fn joined(lesser: &Decided, other: &Decided) -> Result<Decided, Memory>
    ensures matched { IfOk result (λ d. HasExactlyChars d.matched (λ c. has lesser.now.matched c || has other.now.matched c)) }
    ensures gaps { IfOk result (λ d. HasExactlyChars d.gaps (λ c. has lesser.now.gaps c || (has other.now.gaps c && not (has lesser.now.matched c)))) }
{
    let matched = lesser.matched.union(&other.matched)?;
    let gaps = lesser.gaps.union(&without(&other.gaps, &lesser.matched)?)?;
    Ok(Decided { matched, gaps })
}

/// What is decided for the characters. It takes time near linear in the ranges of the sets.
fn decide(alloc: Global, kinds: &[Kind], singles: &[Singles]) -> Result<Decided, Memory>
    requires order { SinglesNeverFall singles.now }
    ensures { (grammar : WrittenGrammar) → kinds_of grammar ≡ map kind_of kinds.now → IfOk result (AreDecided (is_gap_kind grammar) singles.now) }
{
    if singles.len() == 0 {
        let none = CharSet::new(alloc, &[])?;
        let decided = decided_by(alloc, false, &none)?;
        return Ok(decided);
    }
    if singles.len() == 1 {
        let single = &singles[0];
        let decided = decided_by(alloc, is_gap(kinds, single.kind), &single.set)?;
        return Ok(decided);
    }
    let half = singles.len() / 2;
    let lesser = decide(alloc, kinds, &singles[..half])?;
    let other = decide(alloc, kinds, &singles[half..])?;
    let decided = joined(&lesser, &other)?;
    Ok(decided)
}

/// The characters that are gap text by themselves.
pub(crate) fn gap_characters(
    alloc: Global,
    kinds: &[Kind],
    nfa: &[State],
    beginnings: &[Beginning],
) -> Result<CharSet, Memory>
    requires beginnings { (b : Beginning) → Contains beginnings.now b → IsBeginning nfa.now b }
    requires nfa { IsNfa nfa.now (map (λ (b : Beginning). b.alternative) beginnings.now) }
    requires order { NeverFall (λ (b : Beginning). b.alternative.kind) beginnings.now }
    ensures { (grammar : WrittenGrammar) → kinds_of grammar ≡ map kind_of kinds.now
        → IsNfaOf grammar nfa.now (map (λ (b : Beginning). b.alternative) beginnings.now) → IfOk result (AreGapChars grammar) }
{
    let singles = singles_of(alloc, nfa, beginnings)?;
    let decided = decide(alloc, kinds, &singles)?;
    Ok(decided.gaps)
}
