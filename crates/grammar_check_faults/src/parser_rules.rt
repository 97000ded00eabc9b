//! The indices of the parser rules.

ghost use Rattle.std.specs.Prelude.{◌≡◌, ◌++◌, ◌∷◌, [], ℕ, ◌<◌, ◌^◌, List, Option, IfOk, OnOk, length, map};
ghost use Rattle.grammar_tree.specs.GrammarView.{grammar_of, rule_of};
ghost use Rattle.grammar_tree.specs.Derives.{bodies};
ghost use Rattle.grammar_tree.specs.Faults.{EmptyLoop, LeftRecursion, NoBase};
ghost use Rattle.grammar_tree.specs.View.{parser_alts};
ghost use Rattle.grammar_check_parser_rules.specs.Empty.{AreBodies, AreEmptyRules};
ghost use Rattle.grammar_check_nodes.specs.First.{IsFirstOrNone};
ghost use Rattle.grammar_check_faults.specs.LexerFaults.{LexerLoopAt};
ghost use Rattle.grammar_check_faults.specs.ParserFaults.{ParserLoopAt};
ghost use Rattle.grammar_check_faults.specs.ParserIndices.{indices_from};
ghost use Rattle.grammar_check_faults.specs.inner.ParserIndices.{earlier_index, index_at};

use crate::parser_checks::{first_left_recursive, first_with_loop, first_without_base};
use faults::Memory;
use grammar_names::Names;
use grammar_tree::{Grammar, ParserAlts, Rule};
use std::alloc::Global;

/// Adds the index of a rule, if it is of the parser.
fn add_index(rule: &Rule, index: u32, indices: &mut Vec<u32>) -> Result<(), Memory>
    ensures { OnOk result (indices.new.items ≡ indices.old.items ++ indices_from index (rule_of rule.now ∷ [])) }
{
    match rule {
        Rule::Parser { .. } => {
            indices.push(index)?;
            Ok(())
        }
        Rule::Lexer { .. } => Ok(()),
    }
}

/// The indices of the parser rules, in the order of their numbers.
pub fn parser_indices(alloc: Global, rules: &[Rule]) -> Result<Vec<u32>, Memory>
    requires { length rules.now < 2 ^ 32 }
    ensures { IfOk result (λ indices. indices.items ≡ indices_from 0 (map rule_of rules.now)) }
{
    let mut indices = Vec::new(alloc);
    for (index, rule) in rules.iter().enumerate() {
        add_index(rule, index as u32, &mut indices)?;
    }
    Ok(indices)
}

/// The index of the rule with this number.
fn index_of(indices: &[u32], number: Option<usize>) -> Option<usize>
    ensures { result ≡ index_at indices.now number }
{
    match number {
        None => None,
        Some(number) => {
            if number < indices.len() {
                Some(indices[number] as usize)
            } else {
                None
            }
        }
    }
}

/// The earlier of two indices, where there are any.
fn earlier(first: Option<usize>, second: Option<usize>) -> Option<usize>
    ensures { result ≡ earlier_index first second }
{
    match first {
        None => second,
        Some(one) => match second {
            None => Some(one),
            Some(other) => Some(one.min(other)),
        },
    }
}

/// The first index of an empty loop, in a rule of the parser or of the lexer.
pub fn first_empty_loop(
    grammar: &Grammar,
    parser: Option<usize>,
    lexer: Option<usize>,
) -> Option<usize>
    requires parser { IsFirstOrNone (ParserLoopAt (grammar_of grammar.now)) parser }
    requires lexer { IsFirstOrNone (LexerLoopAt (grammar_of grammar.now)) lexer }
    ensures { IsFirstOrNone (EmptyLoop (grammar_of grammar.now)) result }
{
    let _ = grammar;
    earlier(parser, lexer)
}

/// The first parser rule without a base, by its index.
pub fn index_without_base(rules: &[&ParserAlts], names: &Names, indices: &[u32]) -> Option<usize>
    requires small { length rules.now < 2 ^ 32 }
    requires bodies { AreBodies names.now (map (λ a. parser_alts a.now) rules.now) }
    requires indices { indices.now ≡ indices_from 0 names.now.rules }
    ensures { IsFirstOrNone (NoBase names.now) result }
{
    index_of(indices, first_without_base(rules, names))
}

/// The first parser rule with an empty loop or an empty rest, by its index.
pub fn index_with_loop(
    rules: &[&ParserAlts],
    names: &Names,
    flags: &[bool],
    indices: &[u32],
) -> Option<usize>
    requires small { length rules.now < 2 ^ 32 }
    requires bodies { AreBodies names.now (map (λ a. parser_alts a.now) rules.now) }
    requires empty { AreEmptyRules (bodies names.now) flags.now }
    requires indices { indices.now ≡ indices_from 0 names.now.rules }
    ensures { IsFirstOrNone (ParserLoopAt names.now) result }
{
    index_of(indices, first_with_loop(rules, names, flags))
}

/// The first rule on a cycle of left corners, by its index.
pub fn left_recursive_index(
    alloc: Global,
    rules: &[&ParserAlts],
    names: &Names,
    flags: &[bool],
    indices: &[u32],
) -> Result<Option<usize>, Memory>
    requires small { length rules.now < 2 ^ 32 }
    requires bodies { AreBodies names.now (map (λ a. parser_alts a.now) rules.now) }
    requires empty { AreEmptyRules (bodies names.now) flags.now }
    requires indices { indices.now ≡ indices_from 0 names.now.rules }
    ensures { IfOk result (IsFirstOrNone (LeftRecursion names.now)) }
{
    let number = first_left_recursive(alloc, rules, names, flags)?;
    Ok(index_of(indices, number))
}
