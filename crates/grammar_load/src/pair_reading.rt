//! Reading and checking two texts.

ghost use Rattle.std.specs.Prelude.{◌≡◌, ◌<◌, ◌≤◌, ◌+◌, ◌^◌, ℕ, List, Option, IfErr, IfOk, MatchResult, chars, length, option_map};
ghost use Rattle.faults.specs.Memory.{ran_out};
ghost use Rattle.grammar_tree.specs.GrammarView.{grammar_of};
ghost use Rattle.grammar_tree.specs.Size.{grammar_size};
ghost use Rattle.grammar_tree.specs.Written.{CheckedGrammar, WrittenGrammar};
ghost use Rattle.grammar_pair.specs.Joined.{IsJoined};
ghost use Rattle.grammar_load.specs.PairAnswer.{IsPairGrammarFault, SpellsPair};
ghost use Rattle.grammar_load.specs.declared.pair_fault.PairGrammarFault.TheVariants.{Memory};

use crate::pair_fault::PairGrammarFault;
use grammar_check::{CheckFault, check};
use grammar_pair::{PairFault, join};
use grammar_tree::{Checked, Grammar};
use std::alloc::Global;

/// The grammar of a lexer text and a parser text.
fn joined_in(alloc: Global, lexer: &[u8], parser: &[u8]) -> Result<Grammar, PairGrammarFault>
    ensures ok { IfOk result (λ grammar. IsJoined lexer.now parser.now (grammar_of grammar)) }
    ensures few { IfOk result (λ grammar. grammar_size (grammar_of grammar) ≤ length lexer.now + length parser.now) }
    ensures only { (G : WrittenGrammar) → IsJoined lexer.now parser.now G
        → MatchResult result (λ grammar. grammar_of grammar ≡ G) (λ fault. fault ≡ Memory ran_out) }
    ensures fault { (wanted : Option (List ℕ)) → IfErr result (IsPairGrammarFault lexer.now parser.now wanted) }
{
    match join(alloc, lexer, parser) {
        Ok(grammar) => Ok(grammar),
        Err(PairFault::Memory(memory)) => Err(PairGrammarFault::Memory(memory)),
        Err(fault) => Err(PairGrammarFault::Pair(fault)),
    }
}

/// The grammar of a lexer text and a parser text, with its numbered kinds and its start rule: the
/// parser rule of the wanted name, or the first one where none is wanted. If the texts give no
/// grammar, or one that isn't well-formed, their first fault.
///
/// It takes time near linear in the bytes of both.
pub fn checked_pair(
    alloc: Global,
    lexer: &[u8],
    parser: &[u8],
    start: Option<&str>,
) -> Result<Checked, PairGrammarFault>
    requires { length lexer.now + length parser.now < 2 ^ 32 }
    ensures ok { IfOk result (SpellsPair lexer.now parser.now (option_map (λ s. chars s.now) start.entry)) }
    ensures only { (it : CheckedGrammar) → SpellsPair lexer.now parser.now (option_map (λ s. chars s.now) start.entry) it
        → MatchResult result (λ found. found ≡ it) (λ fault. fault ≡ Memory ran_out) }
    ensures fault { IfErr result (IsPairGrammarFault lexer.now parser.now (option_map (λ s. chars s.now) start.entry)) }
{
    let grammar = match joined_in(alloc, lexer, parser) {
        Ok(grammar) => grammar,
        Err(fault) => return Err(fault),
    };
    match check(alloc, grammar, start) {
        Ok(checked) => {
            checked.is_checked();
            Ok(checked)
        }
        Err(CheckFault::Memory(memory)) => Err(PairGrammarFault::Memory(memory)),
        Err(fault) => Err(PairGrammarFault::Check(fault)),
    }
}
