//! Faults of rules by their names: twins, the start rule, and uses of non-greedy rules.

ghost use Rattle.std.specs.Prelude.{◌≡◌, ◌&&◌, ℕ, ◌<◌, ◌^◌, List, Option, IfOk, length, map, option_map, position};
ghost use Rattle.std.specs.Str.{chars};
ghost use Rattle.grammar_tree.specs.Faults.{NoStart, FragmentLoop, ShortUse, is_parser_rule, is_parser_rule_named, start_of};
ghost use Rattle.grammar_tree.specs.GrammarView.{grammar_of, rule_of};
ghost use Rattle.grammar_tree.specs.Kinds.{rule_name};
ghost use Rattle.grammar_names.specs.Index.{Finds};
ghost use Rattle.grammar_check_nodes.specs.First.{IsFirstOrNone, Nowhere};
ghost use Rattle.grammar_check_faults.specs.LexerFaults.{AreEdgesOf};
ghost use Rattle.grammar_check_faults.specs.inner.LexerFaults.{is_short_rule};
ghost use Rattle.grammar_check_faults.specs.Twins.{IsTwinAt};
ghost use Rattle.grammar_check_faults.specs.inner.Twins.{IsEarliest};

use faults::Memory;
use grammar_check_nodes::{is_flagged, targets};
use grammar_check_parser_rules::{Key, rules_by};
use grammar_names::Index;
use grammar_tree::{Grammar, Rule, Text};
use std::alloc::Global;

/// The name of a rule.
pub(crate) fn name_of(rule: &Rule) -> &Text
    ensures { result.now ≡ rule_name (rule_of rule.now) }
{
    match rule {
        Rule::Parser { name, .. } => name,
        Rule::Lexer { name, .. } => name,
    }
}

/// The lesser of an index and that of the first rule with the rule's name, where that is before
/// the rule.
fn earliest(first: usize, indices: &Index, rule: &Rule, index: usize) -> usize
    ensures { (f : List ℕ → Option ℕ) → Finds indices.now f → IsEarliest (f (rule_name (rule_of rule.now))) index first result }
{
    match indices.get(name_of(rule)) {
        Some(other) if (other as usize) < index => first.min(other as usize),
        _ => first,
    }
}

/// The first rule that has a twin: another rule with its name.
pub(crate) fn first_twin(alloc: Global, grammar: &Grammar) -> Result<Option<usize>, Memory>
    requires { length grammar.now.rules.items < 2 ^ 32 }
    ensures { IfOk result (IsFirstOrNone (IsTwinAt (grammar_of grammar.now))) }
{
    let indices = rules_by(alloc, &grammar.rules, Key::Name)?;
    let mut first = grammar.rules.len();
    for index in 0..grammar.rules.len() {
        first = earliest(first, &indices, &grammar.rules[index], index);
    }
    if first < grammar.rules.len() {
        return Ok(Some(first));
    }
    Ok(None)
}

/// Whether the rule is a parser rule.
fn is_parser(rule: &Rule) -> bool
    ensures { result ≡ is_parser_rule (rule_of rule.now) }
{
    match rule {
        Rule::Parser { .. } => true,
        Rule::Lexer { .. } => false,
    }
}

/// Whether the rule is a parser rule with this name.
fn is_parser_named(rule: &Rule, wanted: &Text) -> bool
    ensures { result ≡ is_parser_rule_named wanted.now (rule_of rule.now) }
{
    match rule {
        Rule::Parser { name, .. } => name.is(wanted),
        Rule::Lexer { .. } => false,
    }
}

/// The index of the first parser rule.
fn first_parser_rule(rules: &[Rule]) -> Option<usize>
    ensures { result ≡ position is_parser_rule (map rule_of rules.now) }
{
    for index in 0..rules.len() {
        if is_parser(&rules[index]) {
            return Some(index);
        }
    }
    None
}

/// The index of the parser rule with this name.
fn parser_rule_named(rules: &[Rule], wanted: &Text) -> Option<usize>
    ensures { result ≡ position (is_parser_rule_named wanted.now) (map rule_of rules.now) }
{
    for index in 0..rules.len() {
        if is_parser_named(&rules[index], wanted) {
            return Some(index);
        }
    }
    None
}

/// The index of the start rule: the parser rule of the wanted name, and the first parser rule where
/// none is wanted.
pub fn find_start(
    alloc: Global,
    grammar: &Grammar,
    wanted: Option<&str>,
) -> Result<Option<usize>, Memory>
    ensures { IfOk result (λ index. index ≡ start_of (grammar_of grammar.now) (option_map (λ s. chars s.now) wanted.entry)) }
{
    let Some(wanted) = wanted else {
        return Ok(first_parser_rule(&grammar.rules));
    };
    let name = Text::new(alloc, wanted)?;
    Ok(parser_rule_named(&grammar.rules, &name))
}

/// Whether the rule is used, and is a lexer rule with a non-greedy alternative.
fn is_used_short(rule: &Rule, used: bool) -> bool
    ensures { result ≡ (used && is_short_rule (rule_of rule.now)) }
{
    match rule {
        Rule::Parser { .. } => false,
        Rule::Lexer { alts, .. } => {
            let has_short = alts.any_is_short();
            used && has_short
        }
    }
}

/// The first lexer rule with a non-greedy alternative that another lexer rule uses.
pub fn first_short_use(
    alloc: Global,
    grammar: &Grammar,
    edges: &[Vec<u32>],
) -> Result<Option<usize>, Memory>
    requires edges { AreEdgesOf grammar.now.rules.items (map (λ successors. successors.items) edges.now) }
    requires no_loops { Nowhere (FragmentLoop (grammar_of grammar.now)) }
    ensures { IfOk result (IsFirstOrNone (ShortUse (grammar_of grammar.now))) }
{
    let flags = targets(alloc, edges)?;
    for index in 0..grammar.rules.len() {
        let used = is_flagged(&flags, index as u32);
        if is_used_short(&grammar.rules[index], used) {
            return Ok(Some(index));
        }
    }
    Ok(None)
}

/// The name of a start rule that isn't there; empty where there is no parser rule at all.
pub fn missing_name(alloc: Global, grammar: &Grammar, wanted: Option<&str>) -> Result<Text, Memory>
    requires { start_of (grammar_of grammar.now) (option_map (λ s. chars s.now) wanted) ≡ None }
    ensures { IfOk result (NoStart (grammar_of grammar.now) (option_map (λ s. chars s.now) wanted.entry)) }
{
    let Some(wanted) = wanted else {
        let name = Text::new(alloc, "")?;
        return Ok(name);
    };
    if first_parser_rule(&grammar.rules).is_none() {
        let name = Text::new(alloc, "")?;
        return Ok(name);
    }
    let name = Text::new(alloc, wanted)?;
    Ok(name)
}
