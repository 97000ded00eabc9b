//! Why a text is no grammar of the profile.

ghost use Rattle.std.specs.Prelude.{◌≡◌};
ghost use Rattle.grammar_reader_notation.specs.Printed.{name_of};
ghost use Rattle.grammar_reader_notation.specs.declared.fault.ReadFault.TheVariants as f;

use faults::Memory;
use std::fmt;

/// A part of the notation of ANTLR 4 that isn't supported.
#[derive(Clone, Copy, Debug, PartialEq, Eq, Drop)]
pub enum What {
    LexerGrammar,
    ParserGrammar,
    Import,
    Mode,
    Channels,
    Modifier,
    Action,
    Argument,
    Returns,
    Locals,
    Throws,
    Catch,
    Finally,
    Command,
    Property,
    CaseInsensitive,
    TokenVocab,
    NonGreedy,
    Eof,
}

impl What {
    /// The name that is printed.
    pub fn name(&self) -> &'static str
        ensures { result.now ≡ name_of self.now }
    {
        match self {
            What::LexerGrammar => "lexer grammar",
            What::ParserGrammar => "parser grammar",
            What::Import => "import",
            What::Mode => "mode",
            What::Channels => "channels",
            What::Modifier => "modifier",
            What::Action => "action",
            What::Argument => "argument",
            What::Returns => "returns",
            What::Locals => "locals",
            What::Throws => "throws",
            What::Catch => "catch",
            What::Finally => "finally",
            What::Command => "command",
            What::Property => "property",
            What::CaseInsensitive => "caseInsensitive",
            What::TokenVocab => "tokenVocab",
            What::NonGreedy => "non-greedy",
            What::Eof => "EOF",
        }
    }
}

/// Why a text is no grammar of the profile. Offsets count bytes, from 0.
#[derive(Clone, Copy, Debug, PartialEq, Eq, Drop)]
pub enum ReadFault {
    /// The first ill-formed sequence of bytes begins here.
    NotUtf8 { offset: u64 },

    /// The first word that can't follow begins here.
    Syntax { offset: u64 },

    /// The first word that can't follow begins here, and is a part of the notation of
    /// ANTLR 4 that isn't supported.
    Unsupported { what: What, offset: u64 },

    /// The first word that can't follow begins here, and is the bracket that opens the
    /// 65th block, one in another.
    NestedTooDeep { offset: u64 },
    Memory(Memory),
}

impl From<Memory> for ReadFault {
    ghost from_gives = { λ memory e. e ≡ f.Memory memory };

    fn from(memory: Memory) -> ReadFault {
        ReadFault::Memory(memory)
    }
}

impl fmt::Display for ReadFault {
    ghost use Rattle.std.specs.Prelude.{Some};
    ghost use Rattle.grammar_reader_notation.specs.FaultText.{read_fault_text};

    ghost output = { λ fault. Some (read_fault_text fault) };

    fn fmt<W: fmt::Write>(&self, f: &mut fmt::Formatter<W>) -> fmt::Result {
        match self {
            ReadFault::NotUtf8 { offset } => write!(f, "not UTF-8 at byte {offset}"),
            ReadFault::Syntax { offset } => write!(f, "syntax at byte {offset}"),
            ReadFault::Unsupported { what, offset } => {
                let name = what.name();
                write!(f, "unsupported {name} at byte {offset}")
            }
            ReadFault::NestedTooDeep { offset } => write!(f, "nested too deep at byte {offset}"),
            ReadFault::Memory(_) => f.write_str("out of memory"),
        }
    }
}

impl std::error::Error for ReadFault {}
