//! Which states of an NFA are live: they read a character, and then some text.

ghost use Rattle.std.specs.Prelude.{◌≡◌, ◌⊎◌, ◌↔◌, ◌<◌, ◌^◌, ℕ, Some, true, false, IfOk, OnOk, length, map, vec_len, slice_index_or};
ghost use Rattle.grammar_check_nodes.specs.Graph.{HasEdge};
ghost use Rattle.grammar_tree.specs.Chars.{has};
ghost use Rattle.lexer.specs.inner.Live.{AreReadFlags, LeadsFrom, LeadsTo, StepsFrom};
ghost use Rattle.lexer_match.specs.Live.{AreLive};
ghost use Rattle.lexer_match.specs.Nfa.{IsClosed};

use crate::empty::{add_edge, add_source, no_sources};
use faults::{Limit, Memory};
use grammar_check_nodes::reached_from;
use grammar_tree::CharSet;
use lexer_match::State;
use std::alloc::Global;

/// Whether the set has a character.
fn is_some_set(set: &CharSet) -> bool
    ensures { (result ≡ true) ↔ ((c : ℕ) × (has set.now c ≡ true)) }
{
    set.is_char_set();
    !set.ranges().is_empty()
}

/// The state at which this one goes on after a character. None where it reads none.
fn next_of(state: &State) -> Option<usize>
    ensures { (next : ℕ) → (result ≡ Some next) ↔ StepsFrom state.now next }
{
    match state {
        State::Char(_, next) => Some(*next),
        State::Set(set, next) => { if is_some_set(set) { Some(*next) } else { None } }
        _ => None,
    }
}

/// Adds the state with this number to the rows of those at which it goes on, whether it reads a
/// character or not.
fn add_all_sources(rows: &mut Vec<Vec<u32>>, number: u32, state: &State) -> Result<(), Memory>
    requires inside { (next : ℕ) → LeadsFrom state.now next → next < vec_len rows.old }
    ensures len { OnOk result (vec_len rows.new ≡ vec_len rows.old) }
    ensures edges { OnOk result ((i j : ℕ) → HasEdge (map (λ row. row.items) rows.new.items) i j
        ↔ (HasEdge (map (λ row. row.items) rows.old.items) i j ⊎ (LeadsFrom state.now i × (j ≡ number)))) }
{
    match next_of(state) {
        Some(next) => {
            add_edge(rows, next, number)?;
            Ok(())
        }
        None => {
            add_source(rows, number, state)?;
            Ok(())
        }
    }
}

/// For each state those that go on at it.
fn all_sources(alloc: Global, nfa: &[State]) -> Result<Vec<Vec<u32>>, Memory>
    requires closed { IsClosed nfa.now }
    requires small { length nfa.now < 2 ^ 32 }
    ensures len { IfOk result (λ rows. vec_len rows ≡ length nfa.now) }
    ensures edges { IfOk result (λ rows. (i j : ℕ) → HasEdge (map (λ row. row.items) rows.items) i j ↔ LeadsTo nfa.now j i) }
{
    let mut rows = no_sources(alloc, nfa.len())?;
    for (number, state) in nfa.iter().enumerate() {
        add_all_sources(&mut rows, number as u32, state)?;
    }
    Ok(rows)
}

/// For each state whether it reads some text.
fn read_something(alloc: Global, nfa: &[State]) -> Result<Vec<bool>, Memory>
    requires closed { IsClosed nfa.now }
    requires some { 0 < length nfa.now }
    ensures len { IfOk result (λ flags. vec_len flags ≡ length nfa.now) }
    ensures flags { IfOk result (λ flags. AreReadFlags nfa.now flags.items) }
{
    Limit::Numbers.within(nfa.len())?;
    let rows = all_sources(alloc, nfa)?;
    let mut flags = reached_from(alloc, &rows, 0)?;
    flags[0] = true;
    Ok(flags)
}

/// Whether the state reads a character, and goes on at a flagged one.
fn is_live(flags: &[bool], state: &State) -> bool
    ensures { (result ≡ true) ↔ ((next : ℕ) × StepsFrom state.now next × (slice_index_or flags.now next false ≡ true)) }
{
    match next_of(state) {
        Some(next) => next < flags.len() && flags[next],
        None => false,
    }
}

/// For each state whether it is live. It takes time and memory in proportion to the states.
pub(crate) fn live_states(alloc: Global, nfa: &[State]) -> Result<Vec<bool>, Memory>
    requires closed { IsClosed nfa.now }
    requires some { 0 < length nfa.now }
    ensures { IfOk result (λ live. AreLive nfa.now live.items) }
{
    let flags = read_something(alloc, nfa)?;
    let mut live = Vec::new(alloc);
    for state in nfa {
        live.push(is_live(&flags, state))?;
    }
    Ok(live)
}
