//! Why a text gives no checked grammar.

use faults::Memory;
use grammar_check::CheckFault;
use grammar_reader_notation::ReadFault;
use std::fmt;

/// Why bytes give no checked grammar.
#[derive(Debug, Drop)]
pub enum GrammarFault {
    /// The bytes spell no grammar. Offsets count bytes, from 0.
    Read(ReadFault),

    /// The grammar that they spell isn't well-formed.
    Check(CheckFault),
    Memory(Memory),
}

impl fmt::Display for GrammarFault {
    ghost use Rattle.std.specs.Prelude.{Some};
    ghost use Rattle.grammar_load.specs.Message.{grammar_fault_text};

    ghost output = { λ fault. Some (grammar_fault_text fault) };

    fn fmt<W: fmt::Write>(&self, f: &mut fmt::Formatter<W>) -> fmt::Result {
        match self {
            GrammarFault::Read(fault) => write!(f, "{fault}"),
            GrammarFault::Check(fault) => write!(f, "{fault}"),
            GrammarFault::Memory(_) => f.write_str("out of memory"),
        }
    }
}

impl std::error::Error for GrammarFault {}
