//! The literals and names in parser rules, in written order.

ghost use Rattle.std.specs.Prelude.{◌≡◌, ◌++◌, ◌∷◌, List, [], OnOk, IfOk, map};
ghost use Rattle.grammar_tree.specs.GrammarView.{rule_of};
ghost use Rattle.grammar_tree.specs.Kinds.{all_references, references, seq_references, term_references};
ghost use Rattle.grammar_tree.specs.View.{parser_alts, parser_term, parser_terms, token_ref};
ghost use Rattle.grammar_tree.specs.Written.{Reference, written_alts, written_seq};
ghost use Rattle.grammar_check_parser_rules.specs.inner.Rules.{rule_references};

use faults::Memory;
use grammar_tree::{ParserAlts, ParserTerm, ParserTerms, Rule, Text, TokenRef, TokenRefs};
use std::alloc::Global;

/// Adds a literal.
fn add_literal(text: &Text, found: &mut Vec<TokenRef>) -> Result<(), Memory>
    ensures { OnOk result (map token_ref found.new.items ≡ map token_ref found.old.items ++ Reference.literal text.now ∷ []) }
{
    found.push(TokenRef::Literal(text.copy()?))?;
    Ok(())
}

/// Adds a name.
fn add_name(name: &Text, found: &mut Vec<TokenRef>) -> Result<(), Memory>
    ensures { OnOk result (map token_ref found.new.items ≡ map token_ref found.old.items ++ Reference.name name.now ∷ []) }
{
    found.push(TokenRef::Name(name.copy()?))?;
    Ok(())
}

/// Adds the tokens that a `~` leaves out.
fn add_tokens(tokens: &TokenRefs, found: &mut Vec<TokenRef>) -> Result<(), Memory>
    ensures { OnOk result (map token_ref found.new.items ≡ map token_ref found.old.items ++ map token_ref tokens.now.items.items) }
{
    for token in tokens.items.iter() {
        found.push(token.copy()?)?;
    }
    Ok(())
}

/// Adds the literals and names in a term.
#[cycle(references)]
fn add_term_references(term: &ParserTerm, found: &mut Vec<TokenRef>) -> Result<(), Memory>
    ensures { OnOk result (map token_ref found.new.items ≡ map token_ref found.old.items ++ term_references (parser_term term.now)) }
{
    match term {
        ParserTerm::Literal(text) => add_literal(text, found),
        ParserTerm::Name(name) => add_name(name, found),
        ParserTerm::Any | ParserTerm::Eof => Ok(()),
        ParserTerm::Not(tokens) => add_tokens(tokens, found),
        ParserTerm::Block(alts) => add_references(alts, found),
        ParserTerm::Opt(term) | ParserTerm::Star(term) | ParserTerm::Plus(term) => {
            add_term_references(term, found)
        }
    }
}

#[cycle(references)]
fn add_seq_references(terms: &ParserTerms, found: &mut Vec<TokenRef>) -> Result<(), Memory>
    ensures { OnOk result (map token_ref found.new.items ≡ map token_ref found.old.items ++ seq_references (written_seq (parser_terms terms.now))) }
{
    for i in 0..terms.items.len() {
        add_term_references(&terms.items[i], found)?;
    }
    Ok(())
}

/// Adds the literals and names in alternatives.
#[cycle(references)]
pub fn add_references(alts: &ParserAlts, found: &mut Vec<TokenRef>) -> Result<(), Memory>
    ensures { OnOk result (map token_ref found.new.items ≡ map token_ref found.old.items ++ references (written_alts (parser_alts alts.now))) }
{
    for i in 0..alts.items.len() {
        add_seq_references(&alts.items[i], found)?;
    }
    Ok(())
}

/// Adds the literals and names in a rule, where it is a parser rule.
fn add_rule_references(rule: &Rule, found: &mut Vec<TokenRef>) -> Result<(), Memory>
    ensures { OnOk result (map token_ref found.new.items ≡ map token_ref found.old.items ++ rule_references (rule_of rule.now)) }
{
    match rule {
        Rule::Parser { alts, .. } => add_references(alts, found),
        Rule::Lexer { .. } => Ok(()),
    }
}

/// The literals and names in the parser rules.
pub fn references_of(alloc: Global, rules: &[Rule]) -> Result<Vec<TokenRef>, Memory>
    ensures { IfOk result (λ found. map token_ref found.items ≡ all_references (map rule_of rules.now)) }
{
    let mut found = Vec::new(alloc);
    for rule in rules {
        add_rule_references(rule, &mut found)?;
    }
    Ok(found)
}
