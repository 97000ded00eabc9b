//! The first fault of the rules of the parser, once `EOF` is at ends.

ghost use Rattle.std.specs.Prelude.{◌≡◌, ℕ, ◌<◌, ◌^◌, List, Option, IfOk};
ghost use Rattle.grammar_tree.specs.GrammarView.{grammar_of};
ghost use Rattle.grammar_tree.specs.Corners.{normal_count};
ghost use Rattle.grammar_tree.specs.Derives.{bodies};
ghost use Rattle.grammar_tree.specs.Size.{grammar_size};
ghost use Rattle.grammar_tree.specs.Written.{WrittenGrammar};
ghost use Rattle.grammar_check.specs.inner.CheckFaults.{HasNoneBefore, IsFirstBefore};
ghost use Rattle.grammar_check_nodes.specs.First.{IsFirstOrNone};
ghost use Rattle.grammar_check_faults.specs.LexerFaults.{LexerLoopAt};

use crate::fault::CheckFault;
use faults::Memory;
use grammar_check_faults::{
    first_empty_loop, index_with_loop, index_without_base, left_recursive_index, name_at,
    parser_indices,
};
use grammar_check_parser_rules::{empty_bodies, normal_count, numbered_bodies};
use grammar_names::Names;
use grammar_tree::Grammar;
use std::alloc::Global;

/// The fault of a normal form with this many rules, where they are too many.
fn count_fault(count: u64) -> Option<CheckFault>
    ensures { (G : WrittenGrammar) (wanted : Option (List ℕ)) → count ≡ normal_count (bodies G) → HasNoneBefore G wanted 11 → IsFirstBefore G wanted 12 result }
{
    if count > 65535 {
        Some(CheckFault::TooManyRules { count })
    } else {
        None
    }
}

/// The first fault of the rules of the parser, from rules without a base on; the first lexer rule
/// with an empty loop is at the given index.
pub(crate) fn parser_fault(
    alloc: Global,
    grammar: &Grammar,
    names: &Names,
    lexer_loop: Option<usize>,
) -> Result<Option<CheckFault>, Memory>
    requires names { names.now ≡ grammar_of grammar.now }
    requires small { grammar_size (grammar_of grammar.now) < 2 ^ 32 }
    requires lexer { IsFirstOrNone (LexerLoopAt (grammar_of grammar.now)) lexer_loop }
    ensures { (wanted : Option (List ℕ)) → HasNoneBefore (grammar_of grammar.now) wanted 8 → IfOk result (IsFirstBefore (grammar_of grammar.now) wanted 12) }
{
    let indices = parser_indices(alloc, &grammar.rules)?;
    let rules = numbered_bodies(alloc, grammar, names)?;
    let base = index_without_base(&rules, names, &indices);
    if let Some(rule) = name_at(grammar, base)? {
        return Ok(Some(CheckFault::NoBase { rule }));
    }
    let flags = empty_bodies(alloc, &rules, names)?;
    let inner = index_with_loop(&rules, names, &flags, &indices);
    let empty = first_empty_loop(grammar, inner, lexer_loop);
    if let Some(rule) = name_at(grammar, empty)? {
        return Ok(Some(CheckFault::EmptyLoop { rule }));
    }
    let corner = left_recursive_index(alloc, &rules, names, &flags, &indices)?;
    if let Some(rule) = name_at(grammar, corner)? {
        return Ok(Some(CheckFault::LeftRecursion { rule }));
    }
    Ok(count_fault(normal_count(&rules, names)))
}
