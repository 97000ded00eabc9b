//! Which texts the terms and rules of a lexer match.
//!
//! A name is looked up among all rules, and each alternative is tried at all positions of the text: time
//! grows with a power of the text's length, of the grammar's size and of the depth of its terms.

ghost use Rattle.std.specs.Prelude.{◌≡◌, ◌↔◌, ◌<◌, ◌≤◌, ◌+◌, ℕ, IsTrue, IfOk, false, length, true, vec_len, map};
ghost use Rattle.std.specs.Str.{chars};
ghost use Rattle.grammar_tree.specs.GrammarView.{grammar_of, rule_of};
ghost use Rattle.grammar_tree.specs.Kinds.{lexer_rules};
ghost use Rattle.grammar_tree.specs.Matches.{Matches, MatchesAlternative, MatchesRule};
ghost use Rattle.grammar_tree.specs.View.{lex_alts, lex_term, lex_terms};
ghost use Rattle.grammar_tree.specs.Written.{lexer_alts, lexer_seq};
ghost use Rattle.cases_languages.specs.Positions.{Fit, IsExact, IsIn};
ghost use Rattle.cases_languages.specs.Spelled.{is_lexer_rule_named, named_from, spelled, spelled_alts, spelled_rule, spelled_rules, spelled_seq, spelled_text};
ghost use Rattle.cases_languages.specs.View.{pattern};

use crate::chart::{Row, closed_rows, ends_from_start};
use crate::pattern::Pattern;
use faults::Memory;
use grammar_tree::{Grammar, LexAlts, LexTerm, LexTerms, Rule, Text};
use std::alloc::Global;

/// Whether the term, in this grammar, matches the whole text. A non-greedy loop in it is read as a
/// greedy one.
pub(crate) fn matches(
    alloc: Global,
    grammar: &Grammar,
    term: &LexTerm,
    text: &str,
) -> Result<bool, Memory>
    ensures { IfOk result (λ b. IsTrue b ↔ Matches (lexer_rules (grammar_of grammar.now).rules) (lex_term term.now) (chars text.now)) }
{
    let list = characters(alloc, text)?;
    let rows = rule_rows(alloc, &grammar.rules, &list)?;
    let whole = term_pattern(alloc, &grammar.rules, term)?;
    let ends = ends_from_start(alloc, &rows, &list, &whole)?;
    Ok(ends[list.len()])
}

/// Whether a rule with these alternatives, in this grammar, matches the whole text.
pub(crate) fn matches_rule(
    alloc: Global,
    grammar: &Grammar,
    alts: &LexAlts,
    text: &str,
) -> Result<bool, Memory>
    ensures { IfOk result (λ b. IsTrue b ↔ MatchesRule (lexer_rules (grammar_of grammar.now).rules) (lexer_alts (lex_alts alts.now)) (chars text.now)) }
{
    let list = characters(alloc, text)?;
    let rows = rule_rows(alloc, &grammar.rules, &list)?;
    let matched = any_matches(alloc, &grammar.rules, &rows, &list, alts)?;
    Ok(matched)
}

/// Whether one of the alternatives matches the whole list.
fn any_matches(
    alloc: Global,
    rules: &[Rule],
    rows: &[Row],
    list: &[u32],
    alts: &LexAlts,
) -> Result<bool, Memory>
    requires fit { Fit rows.now (length list.now + 1) }
    requires exact { IsExact rows.now (spelled_rules (map rule_of rules.now)) list.now (length list.now + 1) }
    ensures { IfOk result (λ b. IsTrue b ↔ MatchesRule (lexer_rules (map rule_of rules.now)) (lexer_alts (lex_alts alts.now)) list.now) }
{
    for i in 0..alts.items.len() {
        if alternative_matches(alloc, rules, rows, list, &alts.items[i])? {
            return Ok(true);
        }
    }
    Ok(false)
}

/// Whether the alternative matches the whole list: greedily, and, if it is non-greedy, no shorter
/// front of the list.
fn alternative_matches(
    alloc: Global,
    rules: &[Rule],
    rows: &[Row],
    list: &[u32],
    terms: &LexTerms,
) -> Result<bool, Memory>
    requires fit { Fit rows.now (length list.now + 1) }
    requires exact { IsExact rows.now (spelled_rules (map rule_of rules.now)) list.now (length list.now + 1) }
    ensures { IfOk result (λ b. IsTrue b ↔ MatchesAlternative (lexer_rules (map rule_of rules.now)) (lexer_seq (lex_terms terms.now)) list.now) }
{
    let whole = seq_pattern(alloc, rules, terms)?;
    let ends = ends_from_start(alloc, rows, list, &whole)?;
    if !ends[list.len()] {
        return Ok(false);
    }
    if !terms.is_short() {
        return Ok(true);
    }
    Ok(!is_any_before(&ends, list.len()))
}

/// Whether a position before the end is marked.
fn is_any_before(marks: &[bool], end: usize) -> bool
    requires { end ≤ length marks.now }
    ensures some { result ≡ true → (j : ℕ) × (j < end) × IsIn marks.now j }
    ensures none { result ≡ false → (j : ℕ) → j < end → ¬ IsIn marks.now j }
{
    for i in 0..end {
        if marks[i] {
            return true;
        }
    }
    false
}

/// Where the rules span in the list.
fn rule_rows(alloc: Global, rules: &[Rule], list: &[u32]) -> Result<Vec<Row>, Memory>
    ensures fit { IfOk result (λ rows. Fit rows.items (length list.now + 1)) }
    ensures exact { IfOk result (λ rows. IsExact rows.items (spelled_rules (map rule_of rules.now)) list.now (length list.now + 1)) }
{
    let bodies = rule_patterns(alloc, rules)?;
    let rows = closed_rows(alloc, &bodies, list)?;
    Ok(rows)
}

/// The pattern of each rule, at its position.
fn rule_patterns(alloc: Global, rules: &[Rule]) -> Result<Vec<Pattern>, Memory>
    ensures { IfOk result (λ patterns. map pattern patterns.items ≡ spelled_rules (map rule_of rules.now)) }
{
    let mut patterns = Vec::new(alloc);
    for rule in rules {
        patterns.push(rule_pattern(alloc, rules, rule)?)?;
    }
    Ok(patterns)
}

fn rule_pattern(alloc: Global, rules: &[Rule], rule: &Rule) -> Result<Pattern, Memory>
    ensures { IfOk result (λ p. pattern p ≡ spelled_rule (map rule_of rules.now) (rule_of rule.now)) }
{
    match rule {
        Rule::Parser { .. } => Ok(Pattern::Never),
        Rule::Lexer { alts, .. } => {
            let body = alts_pattern(alloc, rules, alts)?;
            Ok(body)
        }
    }
}

#[cycle(patterns)]
fn term_pattern(alloc: Global, rules: &[Rule], term: &LexTerm) -> Result<Pattern, Memory>
    ensures { IfOk result (λ p. pattern p ≡ spelled (map rule_of rules.now) (lex_term term.now)) }
{
    match term {
        LexTerm::Literal(text) => {
            let whole = text_pattern(alloc, text)?;
            Ok(whole)
        }
        LexTerm::Set(set) => Ok(Pattern::One(Vec::from_slice(alloc, set.ranges())?)),
        LexTerm::Name(name) => {
            let whole = named_pattern(alloc, rules, name)?;
            Ok(whole)
        }
        LexTerm::Block(alts) => {
            let whole = alts_pattern(alloc, rules, alts)?;
            Ok(whole)
        }
        LexTerm::Opt(part) => {
            let whole = Pattern::optional(alloc, term_pattern(alloc, rules, part)?)?;
            Ok(whole)
        }
        LexTerm::Star(part) => {
            let whole = Pattern::star(alloc, term_pattern(alloc, rules, part)?)?;
            Ok(whole)
        }
        LexTerm::Plus(part) => {
            let whole = Pattern::repeated(alloc, term_pattern(alloc, rules, part)?)?;
            Ok(whole)
        }
        LexTerm::Short(set) => {
            let one = Pattern::One(Vec::from_slice(alloc, set.ranges())?);
            let whole = Pattern::star(alloc, one)?;
            Ok(whole)
        }
    }
}

#[cycle(patterns)]
fn seq_pattern(alloc: Global, rules: &[Rule], terms: &LexTerms) -> Result<Pattern, Memory>
    ensures { IfOk result (λ p. pattern p ≡ spelled_seq (map rule_of rules.now) (lexer_seq (lex_terms terms.now))) }
{
    let mut whole = Pattern::Empty;
    for i in (0..terms.items.len()).rev() {
        let first = term_pattern(alloc, rules, &terms.items[i])?;
        whole = Pattern::then(alloc, first, whole)?;
    }
    Ok(whole)
}

#[cycle(patterns)]
fn alts_pattern(alloc: Global, rules: &[Rule], alts: &LexAlts) -> Result<Pattern, Memory>
    ensures { IfOk result (λ p. pattern p ≡ spelled_alts (map rule_of rules.now) (lexer_alts (lex_alts alts.now))) }
{
    let mut whole = Pattern::Never;
    for i in (0..alts.items.len()).rev() {
        let first = seq_pattern(alloc, rules, &alts.items[i])?;
        whole = Pattern::either(alloc, first, whole)?;
    }
    Ok(whole)
}

/// The lexer rules that have the name.
fn named_pattern(alloc: Global, rules: &[Rule], name: &Text) -> Result<Pattern, Memory>
    ensures { IfOk result (λ p. pattern p ≡ named_from 0 (map rule_of rules.now) name.now) }
{
    let mut whole = Pattern::Never;
    for position in (0..rules.len()).rev() {
        if is_lexer_rule_named(&rules[position], name) {
            whole = Pattern::either(alloc, Pattern::Rule(position), whole)?;
        }
    }
    Ok(whole)
}

fn is_lexer_rule_named(rule: &Rule, name: &Text) -> bool
    ensures { result ≡ is_lexer_rule_named (rule_of rule.now) name.now }
{
    match rule {
        Rule::Parser { .. } => false,
        Rule::Lexer { name: other, .. } => other.is(name),
    }
}

/// The text's characters, one after another.
fn text_pattern(alloc: Global, text: &Text) -> Result<Pattern, Memory>
    ensures { IfOk result (λ p. pattern p ≡ spelled_text text.now) }
{
    let characters = characters(alloc, text.as_str())?;
    let mut whole = Pattern::Empty;
    for i in (0..characters.len()).rev() {
        let first = Pattern::number(alloc, characters[i])?;
        whole = Pattern::then(alloc, first, whole)?;
    }
    Ok(whole)
}

/// The numbers of the text's characters.
fn characters(alloc: Global, text: &str) -> Result<Vec<u32>, Memory>
    ensures { IfOk result (λ list. list.items ≡ chars text.now) }
{
    let mut list = Vec::new(alloc);
    for c in text.chars() {
        list.push(u32::from(c))?;
    }
    Ok(list)
}
