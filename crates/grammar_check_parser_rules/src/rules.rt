//! Rules, looked up by their names and literals.

ghost use Rattle.std.specs.Prelude.{◌≡◌, ℕ, ◌<◌, ◌^◌, List, IfOk, OnOk, false, length, map, position};
ghost use Rattle.std.specs.Option.{option_map_or};
ghost use Rattle.grammar_tree.specs.GrammarView.{rule_of};
ghost use Rattle.grammar_tree.specs.Kinds.{same_text};
ghost use Rattle.grammar_names.specs.Index.{Finds};
ghost use Rattle.grammar_names.specs.inner.Index.{IsAdded};
ghost use Rattle.grammar_check_parser_rules.specs.Rules.{has_key};

use faults::Memory;
use grammar_names::{Index, literal_of};
use grammar_tree::{Rule, Text};
use std::alloc::Global;

/// What a rule is looked up by.
#[derive(Clone, Copy)]
pub enum Key {
    /// Its name.
    Name,

    /// Its name, where it is a lexer rule.
    LexerName,

    /// Its name, where it is a lexer rule that makes tokens.
    Token,

    /// The literal of parser rules that can name it.
    Literal,
}

/// The text that a rule is looked up by.
fn key_of(rule: &Rule, key: Key) -> Option<&Text>
    ensures { (t : List ℕ) → has_key key t (rule_of rule.now) ≡ option_map_or (λ u. same_text u.now t) result false }
{
    match key {
        Key::Name => match rule {
            Rule::Parser { name, .. } => Some(name),
            Rule::Lexer { name, .. } => Some(name),
        },
        Key::LexerName => match rule {
            Rule::Parser { .. } => None,
            Rule::Lexer { name, .. } => Some(name),
        },
        Key::Token => match rule {
            Rule::Lexer {
                name,
                fragment: false,
                ..
            } => Some(name),
            _ => None,
        },
        Key::Literal => literal_of(rule),
    }
}

/// Adds the rule at an index to those that are found, where it has the text.
fn add_rule(
    alloc: Global,
    found: &mut Index,
    rule: &Rule,
    key: Key,
    index: u32,
) -> Result<(), Memory>
    ensures { OnOk result (IsAdded found.old found.new (λ t. has_key key t (rule_of rule.now)) index) }
{
    match key_of(rule, key) {
        Some(text) => found.add(alloc, text, index),
        None => Ok(()),
    }
}

/// The index of the first rule for each text. It takes time near linear in the number of rules.
pub fn rules_by(alloc: Global, rules: &[Rule], key: Key) -> Result<Index, Memory>
    requires { length rules.now < 2 ^ 32 }
    ensures { IfOk result (λ found. Finds found (λ t. position (has_key key t) (map rule_of rules.now))) }
{
    let mut found = Index::new(alloc);
    for (index, rule) in rules.iter().enumerate() {
        add_rule(alloc, &mut found, rule, key, index as u32)?;
    }
    Ok(found)
}
