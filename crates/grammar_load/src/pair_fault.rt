//! Why two texts give no checked grammar.

use faults::Memory;
use grammar_check::CheckFault;
use grammar_pair::PairFault;
use std::fmt;

/// Why a lexer text and a parser text give no checked grammar.
#[derive(Debug, Drop)]
pub enum PairGrammarFault {
    /// They give no grammar.
    Pair(PairFault),

    /// Their grammar isn't well-formed.
    Check(CheckFault),
    Memory(Memory),
}

impl fmt::Display for PairGrammarFault {
    ghost use Rattle.std.specs.Prelude.{Some};
    ghost use Rattle.grammar_load.specs.PairMessage.{pair_grammar_fault_text};

    ghost output = { λ fault. Some (pair_grammar_fault_text fault) };

    fn fmt<W: fmt::Write>(&self, f: &mut fmt::Formatter<W>) -> fmt::Result {
        match self {
            PairGrammarFault::Pair(fault) => write!(f, "{fault}"),
            PairGrammarFault::Check(fault) => write!(f, "{fault}"),
            PairGrammarFault::Memory(_) => f.write_str("out of memory"),
        }
    }
}

impl std::error::Error for PairGrammarFault {}
