//! The first lexer rule with each fault, by its index.

ghost use Rattle.std.specs.Prelude.{◌≡◌, ℕ, ◌<◌, ◌^◌, List, length, map};
ghost use Rattle.grammar_tree.specs.Faults.{EmptyToken};
ghost use Rattle.grammar_tree.specs.GrammarView.{grammar_of, rule_of};
ghost use Rattle.grammar_check_nodes.specs.Flags.{flag};
ghost use Rattle.grammar_check_nodes.specs.First.{IsFirstOrNone};
ghost use Rattle.grammar_check_lexer_rules.specs.Lexer.{AreEmptyLexerRules, OneRule, lexer_index};
ghost use Rattle.grammar_check_faults.specs.LexerFaults.{LexerLoopAt};
ghost use Rattle.grammar_check_faults.specs.inner.LexerFaults.{is_empty_token, is_looping_rule};

use grammar_check_lexer_rules::{LexerNames, lexer_alts_have_empty_loop};
use grammar_check_nodes::is_flagged;
use grammar_tree::{Grammar, Rule};

/// Whether the rule makes tokens, and matches the empty text by what a table says of it.
fn makes_empty_token(rule: &Rule, empty: bool) -> bool
    ensures { result ≡ is_empty_token (rule_of rule.now) empty }
{
    match rule {
        Rule::Parser { .. } => false,
        Rule::Lexer { fragment, .. } => !fragment && empty,
    }
}

/// The first lexer rule that isn't a fragment and matches the empty text.
pub fn first_empty_token(grammar: &Grammar, flags: &[bool]) -> Option<usize>
    requires small { length grammar.now.rules.items < 2 ^ 32 }
    requires empty { AreEmptyLexerRules (map rule_of grammar.now.rules.items) flags.now }
    ensures { IsFirstOrNone (EmptyToken (grammar_of grammar.now)) result }
{
    for index in 0..grammar.rules.len() {
        let empty = is_flagged(flags, index as u32);
        if makes_empty_token(&grammar.rules[index], empty) {
            return Some(index);
        }
    }
    None
}

/// Whether the rule is a lexer rule with a star or plus over what matches the empty text.
fn has_empty_loop(rule: &Rule, names: &LexerNames, flags: &[bool]) -> bool
    ensures { result ≡ is_looping_rule (lexer_index (map rule_of names.now.rules.now)) (flag flags.now) (rule_of rule.now) }
{
    match rule {
        Rule::Parser { .. } => false,
        Rule::Lexer { alts, .. } => lexer_alts_have_empty_loop(alts, names, flags),
    }
}

/// The first lexer rule with a star or plus over what matches the empty text.
pub fn first_lexer_loop(grammar: &Grammar, names: &LexerNames, flags: &[bool]) -> Option<usize>
    requires one { OneRule (map rule_of grammar.now.rules.items) }
    requires names { names.now.rules.now ≡ grammar.now.rules.items }
    requires empty { AreEmptyLexerRules (map rule_of grammar.now.rules.items) flags.now }
    ensures { IsFirstOrNone (LexerLoopAt (grammar_of grammar.now)) result }
{
    for index in 0..grammar.rules.len() {
        if has_empty_loop(&grammar.rules[index], names, flags) {
            return Some(index);
        }
    }
    None
}
