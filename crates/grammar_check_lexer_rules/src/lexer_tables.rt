//! Which lexer rules each lexer rule uses, and which match the empty text, by their indices.

ghost use Rattle.std.specs.Prelude.{◌≡◌, ◌++◌, ◌∷◌, [], ℕ, ◌<◌, ◌^◌, List, IfOk, OnOk, length, map};
ghost use Rattle.std.specs.List.{filter_map};
ghost use Rattle.grammar_tree.specs.Faults.{used_names};
ghost use Rattle.grammar_tree.specs.GrammarView.{rule_of};
ghost use Rattle.grammar_tree.specs.View.{lex_alts};
ghost use Rattle.grammar_tree.specs.Written.{lexer_alts};
ghost use Rattle.grammar_check_lexer_rules.specs.Lexer.{AreEmptyLexerRules, OneRule, lexer_index, lexer_successors, lexer_edges};

use crate::lexer_names::LexerNames;
use crate::lexer_rules::{add_names, alts_can_be_empty, is_empty_text};
use faults::Memory;
use grammar_check_nodes::{Condition, Test, least_table};
use grammar_tree::{LexAlts, LexTerm, LexTerms, Rule, Text};
use std::alloc::Global;

/// Adds the index of the lexer rule with this name, where there is one.
fn add_index(name: &Text, names: &LexerNames, successors: &mut Vec<u32>) -> Result<(), Memory>
    ensures { OnOk result (successors.new.items ≡ successors.old.items ++ filter_map (lexer_index (map rule_of names.now.rules.now)) (name.now ∷ [])) }
{
    if let Some(index) = names.index(name) {
        successors.push(index)?;
    }
    Ok(())
}

/// The indices of the rules that the alternatives use.
fn alts_successors(alloc: Global, alts: &LexAlts, names: &LexerNames) -> Result<Vec<u32>, Memory>
    ensures { IfOk result (λ successors. successors.items ≡ filter_map (lexer_index (map rule_of names.now.rules.now))
        (used_names (lexer_alts (lex_alts alts.now)))) }
{
    let mut used = Vec::new(alloc);
    add_names(alts, &mut used)?;
    let mut successors = Vec::new(alloc);
    for name in used.iter() {
        add_index(name, names, &mut successors)?;
    }
    Ok(successors)
}

/// The indices of the rules that a rule uses, where it is a lexer rule.
fn rule_successors(alloc: Global, rule: &Rule, names: &LexerNames) -> Result<Vec<u32>, Memory>
    ensures { IfOk result (λ successors. successors.items ≡ lexer_successors (lexer_index (map rule_of names.now.rules.now)) (rule_of rule.now)) }
{
    match rule {
        Rule::Parser { .. } => Ok(Vec::new(alloc)),
        Rule::Lexer { alts, .. } => {
            let successors = alts_successors(alloc, alts, names)?;
            Ok(successors)
        }
    }
}

/// For each rule the indices of the lexer rules that it uses.
pub fn lexer_edges(alloc: Global, names: &LexerNames) -> Result<Vec<Vec<u32>>, Memory>
    ensures { IfOk result (λ edges. map (λ successors. successors.items) edges.items ≡ lexer_edges (map rule_of names.now.rules.now)) }
{
    let mut edges = Vec::new(alloc);
    for rule in names.rules {
        edges.push(rule_successors(alloc, rule, names)?)?;
    }
    Ok(edges)
}

/// Where the term matches the empty text.
fn condition<'t>(term: &'t LexTerm, names: &LexerNames) -> Condition<'t, LexTerms> {
    match term {
        LexTerm::Literal(text) if is_empty_text(text) => Condition::Always,
        LexTerm::Literal(_) | LexTerm::Set(_) => Condition::Never,
        LexTerm::Opt(_) | LexTerm::Star(_) | LexTerm::Short(_) => Condition::Always,
        LexTerm::Name(name) => Condition::of_node(names.index(name)),
        LexTerm::Plus(term) => return condition(term, names),
        LexTerm::Block(alts) => return Condition::Block(&alts.items),
    }
}

impl<'a> Test for LexerNames<'a> {
    ghost use Rattle.std.specs.Prelude.{length, map};
    ghost use Rattle.grammar_tree.specs.GrammarView.{rule_of};
    ghost use Rattle.grammar_check_lexer_rules.specs.inner.Lexer.{lexer_rule_is_empty};

    type Alternative = LexTerms;

    type Term = LexTerm;

    ghost nodes = { λ names. length names.rules.now };

    ghost test = { λ names flags index. lexer_rule_is_empty (map rule_of names.rules.now) flags index };

    fn count(&self) -> usize {
        self.rules.len()
    }

    fn passes(&self, flags: &[bool], node: usize) -> bool {
        match &self.rules[node] {
            Rule::Parser { .. } => false,
            Rule::Lexer { alts, .. } => alts_can_be_empty(alts, self, flags),
        }
    }

    fn alternatives(&self, node: usize) -> &[LexTerms] {
        match &self.rules[node] {
            Rule::Parser { .. } => &[],
            Rule::Lexer { alts, .. } => &alts.items,
        }
    }

    fn terms(alternative: &LexTerms) -> &[LexTerm] {
        &alternative.items
    }

    fn condition<'t>(&self, term: &'t LexTerm) -> Condition<'t, LexTerms> {
        condition(term, self)
    }
}

/// Which lexer rules match the empty text, by their indices. It takes time near linear in the
/// rules' size.
pub fn empty_lexer_rules(alloc: Global, names: &LexerNames) -> Result<Vec<bool>, Memory>
    requires small { length names.now.rules.now < 2 ^ 32 }
    requires one { OneRule (map rule_of names.now.rules.now) }
    ensures { IfOk result (λ flags. AreEmptyLexerRules (map rule_of names.now.rules.now) flags.items) }
{
    let flags = least_table(alloc, names)?;
    Ok(flags)
}
