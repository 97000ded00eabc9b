//! Why two texts give no grammar.

ghost use Rattle.std.specs.Prelude.{◌≡◌};
ghost use Rattle.grammar_pair.specs.declared.fault.PairFault.TheVariants as f;

use grammar_literal::PrintedLiteral;
use grammar_reader_notation::ReadFault;
use grammar_tree::{Memory, Text};
use std::fmt;

/// Why a lexer text and a parser text give no grammar: the first of their faults in the order in
/// which they are listed here, or out of memory. Offsets are those of the text that is named.
#[derive(Debug, Drop)]
pub enum PairFault {
    /// The lexer text spells no grammar.
    LexerText(ReadFault),

    /// The first word of the lexer text isn't `lexer`.
    NotLexer,

    /// The parser text spells no grammar.
    ParserText(ReadFault),

    /// The first word of the parser text isn't `parser`.
    NotParser,

    /// The parser text names this vocabulary, the first one that isn't the lexer grammar.
    OtherVocab { name: Text },

    /// This rule is the first parser rule of the lexer text, or else, where it has none, the first lexer
    /// rule of the parser text.
    WrongRule { name: Text },

    /// This literal is the first one in a parser rule that names no lexer rule. It is without quotes,
    /// its escapes read.
    NoLiteral { literal: Text },

    /// Out of memory: it says nothing of the texts.
    Memory(Memory),
}

impl From<Memory> for PairFault {
    ghost from_gives = { λ memory fault. fault ≡ f.Memory memory };

    fn from(memory: Memory) -> PairFault {
        PairFault::Memory(memory)
    }
}

impl fmt::Display for PairFault {
    ghost use Rattle.std.specs.Prelude.{Some};
    ghost use Rattle.grammar_pair.specs.Message.{pair_fault_text};

    ghost output = { λ fault. Some (pair_fault_text fault) };

    fn fmt<W: fmt::Write>(&self, f: &mut fmt::Formatter<W>) -> fmt::Result {
        match self {
            PairFault::LexerText(fault) => write!(f, "in lexer: {fault}"),
            PairFault::NotLexer => f.write_str("not a lexer grammar"),
            PairFault::ParserText(fault) => write!(f, "in parser: {fault}"),
            PairFault::NotParser => f.write_str("not a parser grammar"),
            PairFault::OtherVocab { name } => write!(f, "other vocabulary {name}"),
            PairFault::WrongRule { name } => write!(f, "misplaced rule {name}"),
            PairFault::NoLiteral { literal } => write!(
                f,
                "no token for {}",
                PrintedLiteral(literal)
            ),
            PairFault::Memory(_) => f.write_str("out of memory"),
        }
    }
}

impl std::error::Error for PairFault {}
