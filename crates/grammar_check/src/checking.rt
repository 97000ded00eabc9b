//! Whether a grammar is well-formed.

ghost use Rattle.std.specs.Prelude.{◌<◌, ◌^◌, List, Option, chars, option_map};
ghost use Rattle.grammar_tree.specs.GrammarView.{grammar_of};
ghost use Rattle.grammar_tree.specs.Size.{grammar_size};
ghost use Rattle.grammar_check.specs.Check.{IsCheckAnswer};

use crate::fault::{Answer, CheckFault};
use crate::first_fault::first_fault;
use crate::kinds::kinds_in;
use grammar_tree::{Checked, Grammar};
use std::alloc::Global;

/// The grammar, checked, with its numbered kinds and its start rule: the parser rule of the wanted
/// name, or the first one where none is wanted. If the grammar isn't well-formed, its first fault in
/// the order of the table of faults, with the name of the first rule or use that has it.
///
/// It takes time near linear in the grammar's size.
pub fn check(alloc: Global, grammar: Grammar, start: Option<&str>) -> Result<Checked, CheckFault>
    requires { grammar_size (grammar_of grammar) < 2 ^ 32 }
    ensures { IsCheckAnswer (grammar_of grammar) (option_map (λ s. chars s.now) start.entry) result }
{
    let kinds = match kinds_in(alloc, &grammar) {
        Ok(kinds) => kinds,
        Err(memory) => return Err(CheckFault::Memory(memory)),
    };
    match first_fault(alloc, &grammar, start, &kinds) {
        Err(memory) => Err(CheckFault::Memory(memory)),
        Ok(Answer::Broken(fault)) => Err(fault),
        Ok(Answer::Fine { start }) => Ok(Checked::new(grammar, kinds, start as u32)),
    }
}
