//! Where `EOF` is in parser rules.

ghost use Rattle.std.specs.Prelude.{◌≡◌, ◌||◌, ◌++◌, ◌∷◌, [], ℕ, ◌<◌, List, Option, IfOk, OnOk, is_some, map, not};
ghost use Rattle.std.specs.List.{filter_map};
ghost use Rattle.grammar_tree.specs.Faults.{EofPlace, any_has_eof, has_eof, is_misplaced, is_misplaced_in, seq_has_eof};
ghost use Rattle.grammar_tree.specs.GrammarView.{grammar_of, rule_of};
ghost use Rattle.grammar_tree.specs.Kinds.{as_name};
ghost use Rattle.grammar_tree.specs.View.{parser_alts, parser_term, parser_terms, token_ref};
ghost use Rattle.grammar_tree.specs.Written.{written_alts, written_seq};
ghost use Rattle.grammar_names.specs.Index.{Finds};
ghost use Rattle.grammar_check_faults.specs.inner.Eof.{is_misplaced_rule, is_misplaced_term};
ghost use Rattle.grammar_check_nodes.specs.First.{IsFirstOrNone};
ghost use Rattle.grammar_check_faults.specs.inner.Seen.{seen_in};

use crate::rule_checks::name_of;
use faults::Memory;
use grammar_check_parser_rules::references_of;
use grammar_names::Index;
use grammar_tree::{Grammar, ParserAlts, ParserTerm, ParserTerms, Rule, TokenRef};
use std::alloc::Global;

/// Whether `EOF` is in the term.
#[cycle(eof)]
fn term_has_eof(term: &ParserTerm) -> bool
    ensures { result ≡ has_eof (parser_term term.now) }
{
    match term {
        ParserTerm::Literal(_) | ParserTerm::Name(_) | ParserTerm::Any | ParserTerm::Not(_) => {
            false
        }
        ParserTerm::Block(alts) => alts_have_eof(alts),
        ParserTerm::Opt(term) | ParserTerm::Star(term) | ParserTerm::Plus(term) => {
            term_has_eof(term)
        }
        ParserTerm::Eof => true,
    }
}

#[cycle(eof)]
fn terms_have_eof(terms: &ParserTerms) -> bool
    ensures { result ≡ seq_has_eof (written_seq (parser_terms terms.now)) }
{
    for i in 0..terms.items.len() {
        if term_has_eof(&terms.items[i]) {
            return true;
        }
    }
    false
}

#[cycle(eof)]
fn alts_have_eof(alts: &ParserAlts) -> bool
    ensures { result ≡ any_has_eof (written_alts (parser_alts alts.now)) }
{
    for i in 0..alts.items.len() {
        if terms_have_eof(&alts.items[i]) {
            return true;
        }
    }
    false
}

/// Whether `EOF` is in the term, other than as the last term of an alternative.
fn term_is_misplaced(term: &ParserTerm, is_last: bool) -> bool
    ensures { result ≡ is_misplaced_term (parser_term term.now) is_last }
{
    match term {
        ParserTerm::Eof => !is_last,
        ParserTerm::Literal(_) | ParserTerm::Name(_) | ParserTerm::Any | ParserTerm::Not(_) => {
            false
        }
        ParserTerm::Block(_) | ParserTerm::Opt(_) | ParserTerm::Star(_) | ParserTerm::Plus(_) =>
            term_has_eof(term),
    }
}

/// Whether `EOF` is in the alternative other than as its last term.
fn terms_are_misplaced(terms: &ParserTerms) -> bool
    ensures { result ≡ is_misplaced_in (written_seq (parser_terms terms.now)) }
{
    for i in 0..terms.items.len() {
        if term_is_misplaced(&terms.items[i], i + 1 == terms.items.len()) {
            return true;
        }
    }
    false
}

/// Whether `EOF` is in an alternative other than as its last term.
fn some_is_misplaced(alts: &ParserAlts) -> bool
    ensures { result ≡ is_misplaced (written_alts (parser_alts alts.now)) }
{
    for i in 0..alts.items.len() {
        if terms_are_misplaced(&alts.items[i]) {
            return true;
        }
    }
    false
}

/// Adds the name that the reference is.
fn add_used(alloc: Global, reference: &TokenRef, used: &mut Index) -> Result<(), Memory>
    ensures { (texts : List (List ℕ)) → Finds used.old (seen_in texts)
        → OnOk result (Finds used.new (seen_in (texts ++ filter_map as_name (token_ref reference.now ∷ [])))) }
{
    match reference {
        TokenRef::Literal(_) => Ok(()),
        TokenRef::Name(name) => {
            used.add(alloc, name, 0)?;
            Ok(())
        }
    }
}

/// The names that the references are.
fn used_names(alloc: Global, references: &[TokenRef]) -> Result<Index, Memory>
    ensures { IfOk result (λ used. Finds used (seen_in (filter_map as_name (map token_ref references.now)))) }
{
    let mut used = Index::new(alloc);
    for reference in references {
        add_used(alloc, reference, &mut used)?;
    }
    Ok(used)
}

/// Whether a rule may have `EOF` at the ends of its alternatives: the start may, and a rule that no
/// rule uses.
fn may_have_eof(is_start: bool, is_used: bool) -> bool
    ensures { result ≡ (is_start || not is_used) }
{
    is_start || !is_used
}

/// Whether `EOF` is misplaced in the rule, or is in it though it isn't the start and is used.
fn rule_is_misplaced(rule: &Rule, is_start: bool, is_used: bool) -> bool
    ensures { result ≡ is_misplaced_rule (rule_of rule.now) is_start is_used }
{
    match rule {
        Rule::Parser { alts, .. } => {
            some_is_misplaced(alts) || (!may_have_eof(is_start, is_used) && alts_have_eof(alts))
        }
        Rule::Lexer { .. } => false,
    }
}

/// The first parser rule in which `EOF` is misplaced: other than last in an alternative, or in a
/// rule that isn't the start and that some rule uses.
pub(crate) fn first_misplaced_eof(
    alloc: Global,
    grammar: &Grammar,
    start: usize,
) -> Result<Option<usize>, Memory>
    ensures { IfOk result (IsFirstOrNone (EofPlace (grammar_of grammar.now) start)) }
{
    let references = references_of(alloc, &grammar.rules)?;
    let used = used_names(alloc, &references)?;
    for index in 0..grammar.rules.len() {
        let rule = &grammar.rules[index];
        let is_used = used.get(name_of(rule)).is_some();
        if rule_is_misplaced(rule, index == start, is_used) {
            return Ok(Some(index));
        }
    }
    Ok(None)
}
