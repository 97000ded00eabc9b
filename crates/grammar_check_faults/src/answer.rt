//! The names of the rules that have a fault.

ghost use Rattle.std.specs.Prelude.{◌≡◌, List, Option, IfOk, ◌<◌, ◌^◌, length, map};
ghost use Rattle.grammar_tree.specs.GrammarView.{grammar_of};
ghost use Rattle.grammar_check_faults.specs.Answer.{IsNamedOrNone, name_at};
ghost use Rattle.grammar_check_faults.specs.Twins.{IsTwinAt};
ghost use Rattle.grammar_tree.specs.Faults.{EofPlace, FragmentLoop};
ghost use Rattle.grammar_check_faults.specs.LexerFaults.{AreEdgesOf};

use crate::eof::first_misplaced_eof;
use crate::rule_checks::{first_twin, name_of};
use faults::Memory;
use grammar_check_nodes::first_on_cycle;
use grammar_tree::{Grammar, Text};
use std::alloc::Global;

/// The name of the rule at an index, from 0, or None past the end.
pub fn name_at(grammar: &Grammar, index: Option<usize>) -> Result<Option<Text>, Memory>
    ensures { IfOk result (λ name. name ≡ name_at (grammar_of grammar.now) index) }
{
    match index {
        None => Ok(None),
        Some(index) => {
            if index < grammar.rules.len() {
                let name = name_of(&grammar.rules[index]).copy()?;
                Ok(Some(name))
            } else {
                Ok(None)
            }
        }
    }
}

/// The name of the first rule that has another one's name.
pub fn twin(alloc: Global, grammar: &Grammar) -> Result<Option<Text>, Memory>
    requires { length grammar.now.rules.items < 2 ^ 32 }
    ensures { IfOk result (IsNamedOrNone (grammar_of grammar.now) (IsTwinAt (grammar_of grammar.now))) }
{
    let index = first_twin(alloc, grammar)?;
    let name = name_at(grammar, index)?;
    Ok(name)
}

/// The name of the first rule in which `EOF` is misplaced, where the start rule is the one at the
/// index `start`, from 0.
pub fn misplaced_eof(alloc: Global, grammar: &Grammar, start: usize) -> Result<Option<Text>, Memory>
    ensures { IfOk result (IsNamedOrNone (grammar_of grammar.now) (EofPlace (grammar_of grammar.now) start)) }
{
    let index = first_misplaced_eof(alloc, grammar, start)?;
    let name = name_at(grammar, index)?;
    Ok(name)
}

/// The name of the first lexer rule that uses itself, directly or through others.
pub fn fragment_loop(
    alloc: Global,
    grammar: &Grammar,
    edges: &[Vec<u32>],
) -> Result<Option<Text>, Memory>
    requires { AreEdgesOf grammar.now.rules.items (map (λ successors. successors.items) edges.now) }
    ensures { IfOk result (IsNamedOrNone (grammar_of grammar.now) (FragmentLoop (grammar_of grammar.now))) }
{
    let index = first_on_cycle(alloc, edges)?;
    let name = name_at(grammar, index)?;
    Ok(name)
}
