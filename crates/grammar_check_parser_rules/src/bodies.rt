//! The alternatives of the parser rules.

ghost use Rattle.std.specs.Prelude.{◌≡◌, ◌++◌, ◌<◌, ◌^◌, ◌∷◌, [], List, IfOk, OnOk, map, sum_by, vec_len};
ghost use Rattle.std.specs.List.{filter_map};
ghost use Rattle.grammar_tree.specs.GrammarView.{grammar_of, rule_of};
ghost use Rattle.grammar_tree.specs.View.{parser_alts};
ghost use Rattle.grammar_tree.specs.Written.{written_alts};
ghost use Rattle.grammar_tree.specs.Size.{alts_size, grammar_size};
ghost use Rattle.grammar_check_parser_rules.specs.Empty.{AreBodies};
ghost use Rattle.grammar_check_parser_rules.specs.inner.Rules.{body_of};

use faults::Memory;
use grammar_names::Names;
use grammar_tree::{Grammar, ParserAlts, Rule};
use std::alloc::Global;

/// Adds the alternatives of the rule, where it is a parser rule.
fn add_body<'a>(rule: &'a Rule, found: &mut Vec<&'a ParserAlts>) -> Result<(), Memory>
    ensures { OnOk result (map (λ a. written_alts (parser_alts a.now)) found.new.items ≡ map (λ a. written_alts (parser_alts a.now)) found.old.items
        ++ filter_map body_of (rule_of rule.now ∷ [])) }
{
    match rule {
        Rule::Parser { alts, .. } => {
            found.push(alts)?;
            Ok(())
        }
        Rule::Lexer { .. } => Ok(()),
    }
}

/// The alternatives of the parser rules, in the order of their numbers.
fn parser_bodies<'a>(alloc: Global, rules: &'a [Rule]) -> Result<Vec<&'a ParserAlts>, Memory>
    ensures { IfOk result (λ found. map (λ a. written_alts (parser_alts a.now)) found.items ≡ filter_map body_of (map rule_of rules.now)) }
{
    let mut found = Vec::new(alloc);
    for rule in rules {
        add_body(rule, &mut found)?;
    }
    Ok(found)
}

/// The alternatives of the parser rules of a grammar, in the order of their numbers.
pub fn numbered_bodies<'a>(
    alloc: Global,
    grammar: &'a Grammar,
    names: &Names,
) -> Result<Vec<&'a ParserAlts>, Memory>
    requires names { names.now ≡ grammar_of grammar.now }
    requires small { grammar_size (grammar_of grammar.now) < 2 ^ 32 }
    ensures few { IfOk result (λ found. vec_len found < 2 ^ 32) }
    ensures size { IfOk result (λ found. sum_by (λ a. alts_size (written_alts (parser_alts a.now))) found.items < 2 ^ 32) }
    ensures bodies { IfOk result (λ found. AreBodies names.now (map (λ a. parser_alts a.now) found.items)) }
{
    let _ = names;
    let found = parser_bodies(alloc, &grammar.rules)?;
    Ok(found)
}
