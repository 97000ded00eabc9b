//! Reading and checking a text.

ghost use Rattle.std.specs.Prelude.{◌≡◌, ◌<◌, ◌≤◌, ◌^◌, ℕ, List, Option, IfErr, IfOk, MatchResult, chars, length, option_map};
ghost use Rattle.faults.specs.Memory.{ran_out};
ghost use Rattle.grammar_tree.specs.GrammarView.{grammar_of};
ghost use Rattle.grammar_tree.specs.Size.{grammar_size};
ghost use Rattle.grammar_tree.specs.Written.{CheckedGrammar, WrittenGrammar};
ghost use Rattle.grammar_reader_notation.specs.Reads.{IsProfile};
ghost use Rattle.grammar_load.specs.Answer.{IsGrammarFault, Spells};
ghost use Rattle.grammar_load.specs.declared.fault.GrammarFault.TheVariants.{Memory};

use crate::fault::GrammarFault;
use grammar_check::{CheckFault, check};
use grammar_reader::read_grammar;
use grammar_reader_notation::ReadFault;
use grammar_tree::{Checked, Grammar};
use std::alloc::Global;

/// The grammar that bytes spell.
fn grammar_in(alloc: Global, bytes: &[u8]) -> Result<Grammar, GrammarFault>
    ensures ok { IfOk result (λ grammar. IsProfile bytes.now (grammar_of grammar)) }
    ensures few { IfOk result (λ grammar. grammar_size (grammar_of grammar) ≤ length bytes.now) }
    ensures only { (G : WrittenGrammar) → IsProfile bytes.now G → MatchResult result (λ grammar. grammar_of grammar ≡ G) (λ fault. fault ≡ Memory ran_out) }
    ensures fault { (wanted : Option (List ℕ)) → IfErr result (IsGrammarFault bytes.now wanted) }
{
    match read_grammar(alloc, bytes) {
        Ok(grammar) => Ok(grammar),
        Err(ReadFault::Memory(memory)) => Err(GrammarFault::Memory(memory)),
        Err(fault) => Err(GrammarFault::Read(fault)),
    }
}

/// The grammar that bytes spell, with its numbered kinds and its start rule: the parser rule of the
/// wanted name, or the first one where none is wanted. If the bytes spell no grammar, or one that
/// isn't well-formed, its first fault.
///
/// It takes time near linear in the bytes.
pub fn checked_grammar(
    alloc: Global,
    bytes: &[u8],
    start: Option<&str>,
) -> Result<Checked, GrammarFault>
    requires { length bytes.now < 2 ^ 32 }
    ensures ok { IfOk result (Spells bytes.now (option_map (λ s. chars s.now) start.entry)) }
    ensures only { (it : CheckedGrammar) → Spells bytes.now (option_map (λ s. chars s.now) start.entry) it
        → MatchResult result (λ found. found ≡ it) (λ fault. fault ≡ Memory ran_out) }
    ensures fault { IfErr result (IsGrammarFault bytes.now (option_map (λ s. chars s.now) start.entry)) }
{
    let grammar = match grammar_in(alloc, bytes) {
        Ok(grammar) => grammar,
        Err(fault) => return Err(fault),
    };
    match check(alloc, grammar, start) {
        Ok(checked) => {
            checked.is_checked();
            Ok(checked)
        }
        Err(CheckFault::Memory(memory)) => Err(GrammarFault::Memory(memory)),
        Err(fault) => Err(GrammarFault::Check(fault)),
    }
}
