//! Facts of lexer rules: terms that match the empty text, loops over these,
//! and the names in them.

ghost use Rattle.std.specs.Prelude.{◌≡◌, ◌++◌, ℕ, ◌<◌, List, OnOk, map};
ghost use Rattle.grammar_tree.specs.Faults.{seq_names, term_names, used_names};
ghost use Rattle.grammar_tree.specs.View.{lex_alts, lex_term, lex_terms};
ghost use Rattle.grammar_tree.specs.GrammarView.{rule_of};
ghost use Rattle.grammar_tree.specs.Written.{LexerTerm, lexer_alts, lexer_seq};
ghost use Rattle.grammar_check_nodes.specs.Flags.{flag};
ghost use Rattle.grammar_check_lexer_rules.specs.Lexer.{is_nil, lexer_alts_are_empty, lexer_alts_have_loop, lexer_has_loop};
ghost use Rattle.grammar_check_lexer_rules.specs.Lexer.{lexer_is_empty, lexer_index, lexer_seq_has_loop, lexer_seq_is_empty};

use crate::lexer_names::LexerNames;
use faults::Memory;
use grammar_check_nodes::is_flagged;
use grammar_tree::{LexAlts, LexTerm, LexTerms, Text};

/// Whether the rule of a name matches the empty text, where the table says which rules do.
fn name_can_be_empty(name: &Text, names: &LexerNames, flags: &[bool]) -> bool
    ensures { result ≡ lexer_is_empty (lexer_index (map rule_of names.now.rules.now)) (flag flags.now) (LexerTerm.name name.now) }
{
    match names.index(name) {
        Some(index) => is_flagged(flags, index),
        None => false,
    }
}

/// Whether a text is empty.
pub fn is_empty_text(text: &Text) -> bool
    ensures { result ≡ is_nil text.now }
{
    text.as_str().is_empty()
}

/// Whether a term matches the empty text, where the table says which rules do.
#[cycle(lexer_empty)]
fn term_can_be_empty(term: &LexTerm, names: &LexerNames, flags: &[bool]) -> bool
    ensures { result ≡ lexer_is_empty (lexer_index (map rule_of names.now.rules.now)) (flag flags.now) (lex_term term.now) }
{
    match term {
        LexTerm::Literal(text) => is_empty_text(text),
        LexTerm::Set(_) => false,
        LexTerm::Name(name) => name_can_be_empty(name, names, flags),
        LexTerm::Block(alts) => alts_can_be_empty(alts, names, flags),
        LexTerm::Opt(_) | LexTerm::Star(_) => true,
        LexTerm::Plus(term) => term_can_be_empty(term, names, flags),
        LexTerm::Short(_) => true,
    }
}

#[cycle(lexer_empty)]
fn seq_can_be_empty(terms: &LexTerms, names: &LexerNames, flags: &[bool]) -> bool
    ensures { result ≡ lexer_seq_is_empty (lexer_index (map rule_of names.now.rules.now)) (flag flags.now) (lexer_seq (lex_terms terms.now)) }
{
    for i in 0..terms.items.len() {
        if !term_can_be_empty(&terms.items[i], names, flags) {
            return false;
        }
    }
    true
}

#[cycle(lexer_empty)]
pub(crate) fn alts_can_be_empty(alts: &LexAlts, names: &LexerNames, flags: &[bool]) -> bool
    ensures { result ≡ lexer_alts_are_empty (lexer_index (map rule_of names.now.rules.now)) (flag flags.now) (lexer_alts (lex_alts alts.now)) }
{
    for i in 0..alts.items.len() {
        if seq_can_be_empty(&alts.items[i], names, flags) {
            return true;
        }
    }
    false
}

/// Whether a star or plus over a term that matches the empty text is in the term.
#[cycle(lexer_loops)]
fn term_has_empty_loop(term: &LexTerm, names: &LexerNames, flags: &[bool]) -> bool
    ensures { result ≡ lexer_has_loop (lexer_index (map rule_of names.now.rules.now)) (flag flags.now) (lex_term term.now) }
{
    match term {
        LexTerm::Literal(_) | LexTerm::Set(_) | LexTerm::Name(_) | LexTerm::Short(_) => false,
        LexTerm::Block(alts) => lexer_alts_have_empty_loop(alts, names, flags),
        LexTerm::Opt(term) => term_has_empty_loop(term, names, flags),
        LexTerm::Star(term) | LexTerm::Plus(term) => {
            term_can_be_empty(term, names, flags) || term_has_empty_loop(term, names, flags)
        }
    }
}

#[cycle(lexer_loops)]
fn seq_has_empty_loop(terms: &LexTerms, names: &LexerNames, flags: &[bool]) -> bool
    ensures { result ≡ lexer_seq_has_loop (lexer_index (map rule_of names.now.rules.now)) (flag flags.now) (lexer_seq (lex_terms terms.now)) }
{
    for i in 0..terms.items.len() {
        if term_has_empty_loop(&terms.items[i], names, flags) {
            return true;
        }
    }
    false
}

/// Whether a star or plus over what matches the empty text is in alternatives of a lexer rule,
/// where the table says which rules do.
#[cycle(lexer_loops)]
pub fn lexer_alts_have_empty_loop(alts: &LexAlts, names: &LexerNames, flags: &[bool]) -> bool
    ensures { result ≡ lexer_alts_have_loop (lexer_index (map rule_of names.now.rules.now)) (flag flags.now) (lexer_alts (lex_alts alts.now)) }
{
    for i in 0..alts.items.len() {
        if seq_has_empty_loop(&alts.items[i], names, flags) {
            return true;
        }
    }
    false
}

/// Adds the names in a term.
#[cycle(names)]
fn add_term_names(term: &LexTerm, found: &mut Vec<Text>) -> Result<(), Memory>
    ensures { OnOk result (found.new.items ≡ found.old.items ++ term_names (lex_term term.now)) }
{
    match term {
        LexTerm::Literal(_) | LexTerm::Set(_) | LexTerm::Short(_) => Ok(()),
        LexTerm::Name(name) => {
            found.push(name.copy()?)?;
            Ok(())
        }
        LexTerm::Block(alts) => add_names(alts, found),
        LexTerm::Opt(term) | LexTerm::Star(term) | LexTerm::Plus(term) => {
            add_term_names(term, found)
        }
    }
}

#[cycle(names)]
fn add_seq_names(terms: &LexTerms, found: &mut Vec<Text>) -> Result<(), Memory>
    ensures { OnOk result (found.new.items ≡ found.old.items ++ seq_names (lexer_seq (lex_terms terms.now))) }
{
    for i in 0..terms.items.len() {
        add_term_names(&terms.items[i], found)?;
    }
    Ok(())
}

/// Adds the names in alternatives, in written order.
#[cycle(names)]
pub fn add_names(alts: &LexAlts, found: &mut Vec<Text>) -> Result<(), Memory>
    ensures { OnOk result (found.new.items ≡ found.old.items ++ used_names (lexer_alts (lex_alts alts.now))) }
{
    for i in 0..alts.items.len() {
        add_seq_names(&alts.items[i], found)?;
    }
    Ok(())
}
