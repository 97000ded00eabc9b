//! The rules of a grammar, by the names of its lexer rules.

ghost use Rattle.std.specs.Prelude.{◌≡◌, ◌<◌, ◌^◌, IfNone, IfOk, IfSome, OnOk, Some, length, map, slice_get};
ghost use Rattle.grammar_names.specs.Index.{Finds};
ghost use Rattle.grammar_names.specs.inner.Index.{IsAdded};
ghost use Rattle.grammar_tree.specs.GrammarView.{rule_of};
ghost use Rattle.grammar_tree.specs.View.{lex_alts};
ghost use Rattle.grammar_tree.specs.Written.{LexerRule, WrittenRule, lexer_alts};
ghost use Rattle.lexer_nfa.specs.inner.Names.{HaveNoLoops, HaveOneName, is_named, rule_index};

use faults::Memory;
use grammar_names::Index;
use grammar_tree::{LexAlts, Rule, Text};
use std::alloc::Global;

/// The rules of a grammar, and where its lexer rules are among them, by their names.
#[derive(Drop)]
pub(crate) struct NamedRules<'a> {
    /// All rules of the grammar, in written order. No two lexer rules have one name, and none has a
    /// loop over a term that matches the empty text.
    pub(crate) rules: &'a [Rule],
    indexes: Index,
    ghost found: { Finds indexes (rule_index (map rule_of rules.now)) },
    ghost one_name: { HaveOneName (map rule_of rules.now) },
    ghost no_loops: { HaveNoLoops (map rule_of rules.now) },
}

impl<'a> NamedRules<'a> {
    /// These rules. It takes time near linear in their number.
    pub(crate) fn new(alloc: Global, rules: &'a [Rule]) -> Result<NamedRules<'a>, Memory>
        requires one_name { HaveOneName (map rule_of rules.now) }
        requires no_loops { HaveNoLoops (map rule_of rules.now) }
        requires small { length rules.now < 2 ^ 32 }
        ensures { IfOk result (λ names. names.rules.now ≡ rules.now) }
    {
        let indexes = indexes_of(alloc, rules)?;
        Ok(NamedRules { rules, indexes })
    }

    /// The index, among all rules, of the lexer rule with this name.
    pub(crate) fn index_of(&self, name: &Text) -> Option<u32>
        ensures { result ≡ rule_index (map rule_of self.now.rules.now) name.now }
    {
        self.indexes.get(name)
    }

    /// The alternatives of the lexer rule at an index among all rules.
    pub(crate) fn alternatives(&self, index: usize) -> Option<&LexAlts>
        ensures found { IfSome result (λ alts. (rule : LexerRule) × (slice_get (map rule_of self.now.rules.now) index ≡ Some (WrittenRule.lexer_rule rule))
            × (rule.alts ≡ lexer_alts (lex_alts alts.now))) }
        ensures missing { IfNone result ((rule : LexerRule) → ¬ (slice_get (map rule_of self.now.rules.now) index ≡ Some (WrittenRule.lexer_rule rule))) }
    {
        if index >= self.rules.len() {
            return None;
        }
        match &self.rules[index] {
            Rule::Lexer { alts, .. } => Some(alts),
            Rule::Parser { .. } => None,
        }
    }
}

/// Adds the rule at this index, if it is a lexer rule.
fn add_rule(alloc: Global, indexes: &mut Index, rule: &Rule, index: u32) -> Result<(), Memory>
    ensures { OnOk result (IsAdded indexes.old indexes.new (λ t. is_named t (rule_of rule.now)) index) }
{
    match rule {
        Rule::Lexer { name, .. } => indexes.add(alloc, name, index),
        Rule::Parser { .. } => Ok(()),
    }
}

/// The index of the first lexer rule with each name.
fn indexes_of(alloc: Global, rules: &[Rule]) -> Result<Index, Memory>
    requires { length rules.now < 2 ^ 32 }
    ensures { IfOk result (λ indexes. Finds indexes (rule_index (map rule_of rules.now))) }
{
    let mut indexes = Index::new(alloc);
    for (index, rule) in rules.iter().enumerate() {
        add_rule(alloc, &mut indexes, rule, index as u32)?;
    }
    Ok(indexes)
}
