//! The first fault of a grammar.

ghost use Rattle.std.specs.Prelude.{◌≡◌, ◌<◌, ◌^◌, List, Option, IfOk, chars, map, option_map};
ghost use Rattle.grammar_tree.specs.GrammarView.{grammar_of, kind_of};
ghost use Rattle.grammar_tree.specs.Kinds.{kinds_of};
ghost use Rattle.grammar_tree.specs.Size.{grammar_size};
ghost use Rattle.grammar_check.specs.inner.CheckFaults.{IsAnswer};

use crate::fault::{Answer, CheckFault};
use crate::lexer_fault::{LexerAnswer, lexer_fault};
use crate::parser_fault::parser_fault;
use faults::Memory;
use grammar_check_faults::{find_start, first_unknown_use, misplaced_eof, missing_name, twin};
use grammar_check_lexer_rules::LexerNames;
use grammar_names::Names;
use grammar_tree::{Grammar, Kind};
use std::alloc::Global;

/// The fault of a grammar that is first in the table, or the index of its start rule where it has
/// none.
pub(crate) fn first_fault(
    alloc: Global,
    grammar: &Grammar,
    wanted: Option<&str>,
    kinds: &[Kind],
) -> Result<Answer, Memory>
    requires numbered { map kind_of kinds.now ≡ kinds_of (grammar_of grammar.now) }
    requires small { grammar_size (grammar_of grammar.now) < 2 ^ 32 }
    ensures { IfOk result (IsAnswer (grammar_of grammar.now) (option_map (λ s. chars s.now) wanted.entry)) }
{
    if let Some(name) = twin(alloc, grammar)? {
        return Ok(Answer::Broken(CheckFault::TwoRules { name }));
    }
    let names = Names::new(alloc, grammar, kinds)?;
    let lexer = LexerNames::new(alloc, &grammar.rules)?;
    if let Some(name) = first_unknown_use(alloc, &grammar.rules, &names, &lexer)? {
        return Ok(Answer::Broken(CheckFault::NoRule { name }));
    }
    let Some(start) = find_start(alloc, grammar, wanted)? else {
        let name = missing_name(alloc, grammar, wanted)?;
        return Ok(Answer::Broken(CheckFault::NoStart { name }));
    };
    if let Some(rule) = misplaced_eof(alloc, grammar, start)? {
        return Ok(Answer::Broken(CheckFault::EofPlace { rule }));
    }
    match lexer_fault(alloc, grammar, &lexer)? {
        LexerAnswer::Faulty(fault) => Ok(Answer::Broken(fault)),
        LexerAnswer::Sound(index) => match parser_fault(alloc, grammar, &names, index)? {
            Some(fault) => Ok(Answer::Broken(fault)),
            None => Ok(Answer::Fine { start }),
        },
    }
}
