//! From the terms of lexer rules to the states of an NFA.
//!
//! A term is made into states by recursion along its blocks, of which at most 64 are nested. A name
//! in it becomes a call of its rule. Then the calls are replaced by states for their rules, one after
//! another, until there is none: so no recursion is as deep as a chain of rules is long.

ghost use Rattle.std.specs.Prelude.{◌≡◌, ◌<◌, ◌≤◌, ◌∷◌, [], ◌++◌, List, length, map, IfOk, OnOk, slice_set};
ghost use Rattle.std.specs.Str.{chars};
ghost use Rattle.grammar_tree.specs.Faults.{LexerHasEmptyLoop, LexerHasEmptyLoopAlts, LexerHasEmptyLoopSeq};
ghost use Rattle.grammar_tree.specs.GrammarView.{rule_of};
ghost use Rattle.grammar_tree.specs.Kinds.{lexer_rules};
ghost use Rattle.grammar_tree.specs.Matches.{Matches, MatchesAlts, MatchesSeq};
ghost use Rattle.grammar_tree.specs.View.{lex_alts, lex_term, lex_terms};
ghost use Rattle.grammar_tree.specs.Written.{LexerTerm, WrittenRule, lexer_alts, lexer_seq};
ghost use Rattle.lexer_nfa.specs.inner.Compile.{AreExpanded, IsAdded, IsCompiled, IsExpanded, MatchesRuleAt};
ghost use Rattle.lexer_match.specs.Nfa.{IsClosed};
ghost use Rattle.lexer_match.specs.declared.nfa.State.{State};

use crate::names::NamedRules;
use faults::{Limit, Memory};
use grammar_tree::{CharSet, LexAlts, LexTerm, LexTerms, Text};
use lexer_match::State;

/// How much the states of an NFA take.
#[derive(Drop)]
pub(crate) struct Budget {
    /// The ranges of all sets.
    ranges: usize,
}

impl Budget {
    /// That of an NFA with no state.
    pub(crate) fn new() -> Budget {
        Budget { ranges: 0 }
    }

    /// A copy of the set. Refused where all sets together have too many ranges.
    fn copy(&mut self, set: &CharSet) -> Result<CharSet, Memory>
        ensures { IfOk result (λ copy. copy ≡ set.now) }
    {
        let ranges = self.ranges.saturating_add(set.ranges().len());
        Limit::Ranges.within(ranges)?;
        self.ranges = ranges;
        set.copy()
    }
}

/// Adds the state, and gives its number. Refused where there are as many states as there may be.
fn add(states: &mut Vec<State>, state: State) -> Result<usize, Memory>
    ensures added { OnOk result (states.new.items ≡ states.old.items ++ state ∷ []) }
    ensures number { IfOk result (λ n. n ≡ length states.old.items) }
{
    let number = states.len();
    Limit::States.within(number + 1)?;
    states.push(state)?;
    Ok(number)
}

/// Adds states that read the text.
pub(crate) fn add_literal(states: &mut Vec<State>, text: &str, next: usize) -> Result<usize, Memory>
    requires closed { IsClosed states.old.items }
    requires next { next < length states.old.items }
    ensures { (rules : List WrittenRule) → IfOk result (λ entry. IsAdded rules (λ w. w ≡ chars text.now) states.old.items states.new.items entry next) }
{
    let mut entry = next;
    let mut rest = text.chars();
    while let Some(c) = rest.next_back() {
        entry = add(states, State::Char(c, entry))?;
    }
    Ok(entry)
}

/// Adds a state that reads a character of the set.
fn add_set(
    states: &mut Vec<State>,
    budget: &mut Budget,
    set: &CharSet,
    next: usize,
) -> Result<usize, Memory>
    requires closed { IsClosed states.old.items }
    requires next { next < length states.old.items }
    ensures { (rules : List WrittenRule) → IfOk result
        (λ entry. IsAdded rules (Matches (lexer_rules rules) (LexerTerm.set set.now)) states.old.items states.new.items entry next) }
{
    let number = add(states, State::Set(budget.copy(set)?, next))?;
    Ok(number)
}

/// Closes a loop: the state `again` goes on at the loop's body, or after it at `next`. Gives `again`,
/// which is where the loop begins if its body may be left out.
fn close_loop(states: &mut Vec<State>, again: usize, body: usize, next: usize) -> usize
    requires { again < length states.old.items }
    ensures closed { states.new.items ≡ slice_set states.old.items again (State.Split body next) }
    ensures again { result ≡ again }
{
    states[again] = State::Split(body, next);
    again
}

/// Adds states that read any number of characters of the set.
fn add_short(
    states: &mut Vec<State>,
    budget: &mut Budget,
    set: &CharSet,
    next: usize,
) -> Result<usize, Memory>
    requires closed { IsClosed states.old.items }
    requires next { next < length states.old.items }
    ensures { (rules : List WrittenRule) → IfOk result
        (λ entry. IsAdded rules (Matches (lexer_rules rules) (LexerTerm.short set.now)) states.old.items states.new.items entry next) }
{
    let again = add(states, State::Never)?;
    let body = add_set(states, budget, set, again)?;
    let entry = close_loop(states, again, body, next);
    Ok(entry)
}

/// Adds a call of the rule with this name. Where no lexer rule has it, nothing is read.
fn add_call(
    states: &mut Vec<State>,
    names: &NamedRules,
    name: &Text,
    next: usize,
) -> Result<usize, Memory>
    requires closed { IsClosed states.old.items }
    requires next { next < length states.old.items }
    ensures { IfOk result (λ entry. IsAdded (map rule_of names.now.rules.now)
        (Matches (lexer_rules (map rule_of names.now.rules.now)) (LexerTerm.name name.now)) states.old.items states.new.items entry next) }
{
    let state = match names.index_of(name) {
        Some(rule) => State::Call(rule as usize, next),
        None => State::Never,
    };
    let number = add(states, state)?;
    Ok(number)
}

/// Adds states that read what the term matches. A name is added as a call.
#[cycle(add)]
fn add_term(
    states: &mut Vec<State>,
    names: &NamedRules,
    budget: &mut Budget,
    term: &LexTerm,
    next: usize,
) -> Result<usize, Memory>
    requires closed { IsClosed states.old.items }
    requires next { next < length states.old.items }
    requires no_loop { ¬ LexerHasEmptyLoop (lexer_rules (map rule_of names.now.rules.now)) (lex_term term.now) }
    ensures { IfOk result (λ entry. IsAdded (map rule_of names.now.rules.now)
        (Matches (lexer_rules (map rule_of names.now.rules.now)) (lex_term term.now)) states.old.items states.new.items entry next) }
{
    match term {
        LexTerm::Literal(text) => {
            let entry = add_literal(states, text.as_str(), next)?;
            Ok(entry)
        }
        LexTerm::Set(set) => {
            let entry = add_set(states, budget, set, next)?;
            Ok(entry)
        }
        LexTerm::Name(name) => {
            let entry = add_call(states, names, name, next)?;
            Ok(entry)
        }
        LexTerm::Block(alts) => {
            let entry = add_alts(states, names, budget, alts, next)?;
            Ok(entry)
        }
        LexTerm::Opt(term) => {
            let present = add_term(states, names, budget, term, next)?;
            let entry = add(states, State::Split(present, next))?;
            Ok(entry)
        }
        LexTerm::Star(term) => {
            let again = add(states, State::Never)?;
            let body = add_term(states, names, budget, term, again)?;
            let entry = close_loop(states, again, body, next);
            Ok(entry)
        }
        LexTerm::Plus(term) => {
            let again = add(states, State::Never)?;
            let body = add_term(states, names, budget, term, again)?;
            close_loop(states, again, body, next);
            Ok(body)
        }
        LexTerm::Short(set) => {
            let entry = add_short(states, budget, set, next)?;
            Ok(entry)
        }
    }
}

/// Adds states that read what the terms match one after another.
#[cycle(add)]
fn add_terms(
    states: &mut Vec<State>,
    names: &NamedRules,
    budget: &mut Budget,
    terms: &LexTerms,
    next: usize,
) -> Result<usize, Memory>
    requires closed { IsClosed states.old.items }
    requires next { next < length states.old.items }
    requires no_loop { ¬ LexerHasEmptyLoopSeq (lexer_rules (map rule_of names.now.rules.now)) (lexer_seq (lex_terms terms.now)) }
    ensures { IfOk result (λ entry. IsAdded (map rule_of names.now.rules.now)
        (MatchesSeq (lexer_rules (map rule_of names.now.rules.now)) (lexer_seq (lex_terms terms.now))) states.old.items states.new.items entry next) }
{
    let mut entry = next;
    let mut i = terms.items.len();
    while i > 0 {
        i -= 1;
        entry = add_term(states, names, budget, &terms.items[i], entry)?;
    }
    Ok(entry)
}

/// Adds states that read what one of the alternatives matches.
#[cycle(add)]
fn add_alts(
    states: &mut Vec<State>,
    names: &NamedRules,
    budget: &mut Budget,
    alts: &LexAlts,
    next: usize,
) -> Result<usize, Memory>
    requires closed { IsClosed states.old.items }
    requires next { next < length states.old.items }
    requires no_loop { ¬ LexerHasEmptyLoopAlts (lexer_rules (map rule_of names.now.rules.now)) (lexer_alts (lex_alts alts.now)) }
    ensures { IfOk result (λ entry. IsAdded (map rule_of names.now.rules.now)
        (MatchesAlts (lexer_rules (map rule_of names.now.rules.now)) (lexer_alts (lex_alts alts.now))) states.old.items states.new.items entry next) }
{
    let mut entry = add(states, State::Never)?;
    for i in 0..alts.items.len() {
        let first = add_terms(states, names, budget, &alts.items[i], next)?;
        entry = add(states, State::Split(first, entry))?;
    }
    Ok(entry)
}

/// Adds states that read what the rule at this index matches.
fn add_rule(
    states: &mut Vec<State>,
    names: &NamedRules,
    budget: &mut Budget,
    rule: usize,
    next: usize,
) -> Result<usize, Memory>
    requires closed { IsClosed states.old.items }
    requires next { next < length states.old.items }
    ensures { IfOk result (λ entry. IsAdded (map rule_of names.now.rules.now)
        (MatchesRuleAt (map rule_of names.now.rules.now) rule) states.old.items states.new.items entry next) }
{
    match names.alternatives(rule) {
        Some(alts) => {
            let entry = add_alts(states, names, budget, alts, next)?;
            Ok(entry)
        }
        None => {
            let entry = add(states, State::Never)?;
            Ok(entry)
        }
    }
}

/// Replaces the state, if it is a call, by states for its rule.
fn expand(
    states: &mut Vec<State>,
    names: &NamedRules,
    budget: &mut Budget,
    number: usize,
) -> Result<(), Memory>
    requires closed { IsClosed states.old.items }
    requires number { number < length states.old.items }
    requires some { 0 < number }
    ensures { OnOk result (IsExpanded (map rule_of names.now.rules.now) states.old.items states.new.items number) }
{
    let (rule, next) = match &states[number] {
        State::Call(rule, next) => (*rule, *next),
        _ => return Ok(()),
    };
    let entry = add_rule(states, names, budget, rule, next)?;
    states[number] = State::Split(entry, entry);
    Ok(())
}

/// Replaces the calls from this state on, and those that come with their rules, until there is none.
fn expand_all(
    states: &mut Vec<State>,
    names: &NamedRules,
    budget: &mut Budget,
    first: usize,
) -> Result<(), Memory>
    requires closed { IsClosed states.old.items }
    requires some { 0 < first }
    requires within { first ≤ length states.old.items }
    ensures { OnOk result (AreExpanded (map rule_of names.now.rules.now) states.old.items states.new.items first (length states.new.items)) }
{
    let mut number = first;
    while number < states.len() {
        expand(states, names, budget, number)?;
        number += 1;
    }
    Ok(())
}

/// Adds states, none of them a call, that read what the terms match one after another.
pub(crate) fn compile(
    states: &mut Vec<State>,
    names: &NamedRules,
    budget: &mut Budget,
    terms: &LexTerms,
    next: usize,
) -> Result<usize, Memory>
    requires closed { IsClosed states.old.items }
    requires next { next < length states.old.items }
    requires no_loop { ¬ LexerHasEmptyLoopSeq (lexer_rules (map rule_of names.now.rules.now)) (lexer_seq (lex_terms terms.now)) }
    ensures { IfOk result (λ entry. IsCompiled
        (MatchesSeq (lexer_rules (map rule_of names.now.rules.now)) (lexer_seq (lex_terms terms.now))) states.old.items states.new.items entry next) }
{
    let first = states.len();
    let entry = add_terms(states, names, budget, terms, next)?;
    expand_all(states, names, budget, first)?;
    Ok(entry)
}
