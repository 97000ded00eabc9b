//! Which states of an NFA read the empty text.

ghost use Rattle.std.specs.Prelude.{◌≡◌, ◌⊎◌, ◌↔◌, ◌<◌, ◌^◌, ℕ, IfOk, OnOk, length, map, vec_len};
ghost use Rattle.grammar_check_nodes.specs.Graph.{HasEdge};
ghost use Rattle.lexer.specs.inner.Gaps.{AreEmptyFlags};
ghost use Rattle.lexer_match.specs.Nfa.{IsClosed};
ghost use Rattle.lexer_match.specs.inner.StateSets.{GoesFrom, GoesTo};

use faults::{Limit, Memory};
use grammar_check_nodes::reached_from;
use lexer_match::State;
use std::alloc::Global;

/// For each state those that go on at it without reading a character.
fn sources(alloc: Global, nfa: &[State]) -> Result<Vec<Vec<u32>>, Memory>
    requires closed { IsClosed nfa.now }
    requires small { length nfa.now < 2 ^ 32 }
    ensures len { IfOk result (λ rows. vec_len rows ≡ length nfa.now) }
    ensures edges { IfOk result (λ rows. (i j : ℕ) → HasEdge (map (λ row. row.items) rows.items) i j ↔ GoesTo nfa.now j i) }
{
    let mut rows = no_sources(alloc, nfa.len())?;
    for (number, state) in nfa.iter().enumerate() {
        add_source(&mut rows, number as u32, state)?;
    }
    Ok(rows)
}

/// As many rows as there are states, each empty.
pub(crate) fn no_sources(alloc: Global, states: usize) -> Result<Vec<Vec<u32>>, Memory>
    ensures len { IfOk result (λ rows. vec_len rows ≡ states) }
    ensures none { IfOk result (λ rows. (i j : ℕ) → ¬ HasEdge (map (λ row. row.items) rows.items) i j) }
{
    let mut rows = Vec::new(alloc);
    for _ in 0..states {
        rows.push(Vec::new(alloc))?;
    }
    Ok(rows)
}

/// Adds the state with this number to the rows of those at which it goes on without reading a
/// character.
pub(crate) fn add_source(rows: &mut Vec<Vec<u32>>, number: u32, state: &State) -> Result<(), Memory>
    requires inside { (next : ℕ) → GoesFrom state.now next → next < vec_len rows.old }
    ensures len { OnOk result (vec_len rows.new ≡ vec_len rows.old) }
    ensures edges { OnOk result ((i j : ℕ) → HasEdge (map (λ row. row.items) rows.new.items) i j
        ↔ (HasEdge (map (λ row. row.items) rows.old.items) i j ⊎ (GoesFrom state.now i × (j ≡ number)))) }
{
    match state {
        State::Split(first, second) => {
            add_edge(rows, *first, number)?;
            add_edge(rows, *second, number)?;
            Ok(())
        }
        _ => Ok(()),
    }
}

/// Adds the number to the row with this index.
pub(crate) fn add_edge(rows: &mut Vec<Vec<u32>>, index: usize, number: u32) -> Result<(), Memory>
    requires { index < vec_len rows.old }
    ensures len { OnOk result (vec_len rows.new ≡ vec_len rows.old) }
    ensures edges { OnOk result ((i j : ℕ) → HasEdge (map (λ row. row.items) rows.new.items) i j
        ↔ (HasEdge (map (λ row. row.items) rows.old.items) i j ⊎ ((i ≡ index) × (j ≡ number)))) }
{
    rows[index].push(number)?;
    Ok(())
}

/// For each state whether it reads the empty text. It takes time and memory in proportion to the
/// states.
pub(crate) fn read_nothing(alloc: Global, nfa: &[State]) -> Result<Vec<bool>, Memory>
    requires closed { IsClosed nfa.now }
    requires some { 0 < length nfa.now }
    ensures len { IfOk result (λ flags. vec_len flags ≡ length nfa.now) }
    ensures flags { IfOk result (λ flags. AreEmptyFlags nfa.now flags.items) }
{
    Limit::Numbers.within(nfa.len())?;
    let rows = sources(alloc, nfa)?;
    let mut flags = reached_from(alloc, &rows, 0)?;
    flags[0] = true;
    Ok(flags)
}
