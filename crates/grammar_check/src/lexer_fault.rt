//! The first fault of the rules of the lexer.

ghost use Rattle.std.specs.Prelude.{◌≡◌, ℕ, ◌<◌, ◌^◌, List, Option, IfOk, length, map};
ghost use Rattle.grammar_tree.specs.GrammarView.{grammar_of, rule_of};
ghost use Rattle.grammar_check.specs.inner.CheckFaults.{HasNoneBefore, IsFirstBefore, IsLexerAnswer};
ghost use Rattle.grammar_check_lexer_rules.specs.Lexer.{OneRule};
ghost use Rattle.grammar_check_faults.specs.LexerFaults.{AreEdgesOf};

use crate::fault::CheckFault;
use faults::Memory;
use grammar_check_faults::{
    first_empty_token, first_lexer_loop, first_short_use, fragment_loop, name_at,
};
use grammar_check_lexer_rules::{LexerNames, empty_lexer_rules, lexer_edges};
use grammar_tree::Grammar;
use std::alloc::Global;

/// What is found in the rules of the lexer: a fault, or the index of the first empty loop, which is
/// a fault only if no rule of the parser has one of an earlier row.
#[derive(Drop)]
pub(crate) enum LexerAnswer {
    Faulty(CheckFault),
    Sound(Option<usize>),
}

/// The fault of a lexer rule that uses itself, or else of a non-greedy one that another one uses.
fn use_fault(
    alloc: Global,
    grammar: &Grammar,
    edges: &[Vec<u32>],
) -> Result<Option<CheckFault>, Memory>
    requires { AreEdgesOf grammar.now.rules.items (map (λ successors. successors.items) edges.now) }
    ensures { (wanted : Option (List ℕ)) → HasNoneBefore (grammar_of grammar.now) wanted 5 → IfOk result (IsFirstBefore (grammar_of grammar.now) wanted 7) }
{
    if let Some(rule) = fragment_loop(alloc, grammar, edges)? {
        return Ok(Some(CheckFault::FragmentLoop { rule }));
    }
    let index = first_short_use(alloc, grammar, edges)?;
    if let Some(rule) = name_at(grammar, index)? {
        return Ok(Some(CheckFault::ShortUse { rule }));
    }
    Ok(None)
}

/// The first fault of the rules of the lexer, but for empty loops.
pub(crate) fn lexer_fault(
    alloc: Global,
    grammar: &Grammar,
    names: &LexerNames,
) -> Result<LexerAnswer, Memory>
    requires small { length grammar.now.rules.items < 2 ^ 32 }
    requires one { OneRule (map rule_of grammar.now.rules.items) }
    requires names { names.now.rules.now ≡ grammar.now.rules.items }
    ensures { (wanted : Option (List ℕ)) → HasNoneBefore (grammar_of grammar.now) wanted 5 → IfOk result (IsLexerAnswer (grammar_of grammar.now) wanted) }
{
    let edges = lexer_edges(alloc, names)?;
    if let Some(fault) = use_fault(alloc, grammar, &edges)? {
        return Ok(LexerAnswer::Faulty(fault));
    }
    let flags = empty_lexer_rules(alloc, names)?;
    let token = first_empty_token(grammar, &flags);
    if let Some(rule) = name_at(grammar, token)? {
        return Ok(LexerAnswer::Faulty(CheckFault::EmptyToken { rule }));
    }
    Ok(LexerAnswer::Sound(first_lexer_loop(grammar, names, &flags)))
}
