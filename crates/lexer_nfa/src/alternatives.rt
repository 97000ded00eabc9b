//! The alternatives of the kinds of a grammar.

ghost use Rattle.std.specs.Prelude.{◌≡◌, ◌⊎◌, ◌↔◌, ◌∷◌, [], ℕ, List, OnOk, map};
ghost use Rattle.grammar_tree.specs.Faults.{LexerHasEmptyLoopAlts, LexerHasEmptyLoopSeq};
ghost use Rattle.grammar_tree.specs.GrammarView.{rule_of, source_of};
ghost use Rattle.grammar_tree.specs.Kinds.{lexer_rules};
ghost use Rattle.grammar_tree.specs.Lexes.{SourceMatches};
ghost use Rattle.grammar_tree.specs.Matches.{MatchesAlternative, MatchesRule};
ghost use Rattle.grammar_tree.specs.View.{lex_alts, lex_terms};
ghost use Rattle.grammar_tree.specs.Written.{WrittenGrammar, lexer_alts, lexer_seq};
ghost use Rattle.lexer_match.specs.Alternatives.{HasAlternative, IsNfa};
ghost use Rattle.lexer_nfa.specs.GrammarNfa.{IsNfaOf};
ghost use Rattle.lexer_nfa.specs.inner.GrammarNfa.{KindsAreUpTo};

use crate::compile::{Budget, add_literal, compile};
use crate::names::NamedRules;
use faults::Memory;
use grammar_tree::{Checked, Kind, KindSource, LexAlts, LexTerms, Text};
use lexer_match::{Alternative, State};
use std::alloc::Global;

/// Adds an alternative of a lexer rule, whose kind has this number.
fn add_alternative(
    states: &mut Vec<State>,
    alternatives: &mut Vec<Alternative>,
    names: &NamedRules,
    budget: &mut Budget,
    kind: u32,
    terms: &LexTerms,
) -> Result<(), Memory>
    requires nfa { IsNfa states.old.items alternatives.old.items }
    requires no_loop { ¬ LexerHasEmptyLoopSeq (lexer_rules (map rule_of names.now.rules.now)) (lexer_seq (lex_terms terms.now)) }
    ensures nfa { OnOk result (IsNfa states.new.items alternatives.new.items) }
    ensures added { OnOk result ((k : ℕ) (w : List ℕ) → HasAlternative states.new.items alternatives.new.items k w
        ↔ (HasAlternative states.old.items alternatives.old.items k w
        ⊎ ((k ≡ kind) × MatchesAlternative (lexer_rules (map rule_of names.now.rules.now)) (lexer_seq (lex_terms terms.now)) w))) }
    ensures order { KindsAreUpTo alternatives.old.items kind → OnOk result (KindsAreUpTo alternatives.new.items kind) }
{
    let start = compile(states, names, budget, terms, 0)?;
    let short = terms.is_short();
    alternatives.push(Alternative { kind, short, start })?;
    Ok(())
}

/// Adds the alternatives of a lexer rule, whose kind has this number.
fn add_rule(
    states: &mut Vec<State>,
    alternatives: &mut Vec<Alternative>,
    names: &NamedRules,
    budget: &mut Budget,
    kind: u32,
    alts: &LexAlts,
) -> Result<(), Memory>
    requires nfa { IsNfa states.old.items alternatives.old.items }
    requires no_loop { ¬ LexerHasEmptyLoopAlts (lexer_rules (map rule_of names.now.rules.now)) (lexer_alts (lex_alts alts.now)) }
    ensures nfa { OnOk result (IsNfa states.new.items alternatives.new.items) }
    ensures added { OnOk result ((k : ℕ) (w : List ℕ) → HasAlternative states.new.items alternatives.new.items k w
        ↔ (HasAlternative states.old.items alternatives.old.items k w
        ⊎ ((k ≡ kind) × MatchesRule (lexer_rules (map rule_of names.now.rules.now)) (lexer_alts (lex_alts alts.now)) w))) }
    ensures order { KindsAreUpTo alternatives.old.items kind → OnOk result (KindsAreUpTo alternatives.new.items kind) }
{
    for i in 0..alts.items.len() {
        add_alternative(states, alternatives, names, budget, kind, &alts.items[i])?;
    }
    Ok(())
}

/// Adds the alternative of an implicit token, whose kind has this number.
fn add_implicit(
    states: &mut Vec<State>,
    alternatives: &mut Vec<Alternative>,
    kind: u32,
    text: &Text,
) -> Result<(), Memory>
    requires nfa { IsNfa states.old.items alternatives.old.items }
    ensures nfa { OnOk result (IsNfa states.new.items alternatives.new.items) }
    ensures added { OnOk result ((k : ℕ) (w : List ℕ) → HasAlternative states.new.items alternatives.new.items k w
        ↔ (HasAlternative states.old.items alternatives.old.items k w ⊎ ((k ≡ kind) × (w ≡ text.now)))) }
    ensures order { KindsAreUpTo alternatives.old.items kind → OnOk result (KindsAreUpTo alternatives.new.items kind) }
{
    let start = add_literal(states, text.as_str(), 0)?;
    alternatives.push(Alternative {
        kind,
        short: false,
        start,
    })?;
    Ok(())
}

/// Adds the alternatives of a kind, which has this number.
fn add_kind(
    states: &mut Vec<State>,
    alternatives: &mut Vec<Alternative>,
    names: &NamedRules,
    budget: &mut Budget,
    number: u32,
    kind: &Kind,
) -> Result<(), Memory>
    requires nfa { IsNfa states.old.items alternatives.old.items }
    ensures nfa { OnOk result (IsNfa states.new.items alternatives.new.items) }
    ensures added { (grammar : WrittenGrammar) → grammar.rules ≡ map rule_of names.now.rules.now
        → OnOk result ((k : ℕ) (w : List ℕ) → HasAlternative states.new.items alternatives.new.items k w
        ↔ (HasAlternative states.old.items alternatives.old.items k w ⊎ ((k ≡ number) × SourceMatches grammar (source_of kind.now.source) kind.now.name w))) }
    ensures order { KindsAreUpTo alternatives.old.items number → OnOk result (KindsAreUpTo alternatives.new.items number) }
{
    match kind.source {
        KindSource::Implicit => {
            add_implicit(states, alternatives, number, &kind.name)?;
            Ok(())
        }
        KindSource::Written(index) => match names.alternatives(index as usize) {
            Some(alts) => {
                add_rule(states, alternatives, names, budget, number, alts)?;
                Ok(())
            }
            None => Ok(()),
        },
        KindSource::Declared => Ok(()),
    }
}

/// Adds the alternatives of all kinds of the grammar to an NFA that has its end alone. An alternative
/// takes as many states as its terms have with the rules that they name written out; there are at
/// most 1,000,000 states, and 4,000,000 ranges of characters in them, and more are refused.
pub fn add_kinds(
    alloc: Global,
    states: &mut Vec<State>,
    alternatives: &mut Vec<Alternative>,
    checked: &Checked,
) -> Result<(), Memory>
    requires states { states.old.items ≡ State.Never ∷ [] }
    requires none { alternatives.old.items ≡ [] }
    ensures { OnOk result (IsNfaOf checked.now.grammar states.new.items alternatives.new.items) }
{
    checked.is_checked();
    let names = NamedRules::new(alloc, &checked.grammar().rules)?;
    let mut budget = Budget::new();
    let kinds = checked.kinds();
    for i in 0..kinds.len() {
        add_kind(
            states,
            alternatives,
            &names,
            &mut budget,
            i as u32,
            &kinds[i],
        )?;
    }
    Ok(())
}
