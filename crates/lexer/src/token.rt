//! Tokens, and the fault of a text that isn't cut into tokens.

use faults::Memory;
use std::alloc::AllocFailed;
use std::fmt;

/// A token of a text: the number of its kind, and where it begins and ends, in bytes from 0. The
/// end is the offset after its last byte.
#[derive(Clone, Copy, Debug, PartialEq, Eq)]
pub struct Token {
    pub kind: u32,
    pub start: u32,
    pub end: u32,
}

/// The tokens of a text in their order. What is before the first one, between two of them and after
/// the last one is gap text.
#[derive(Debug, Drop)]
pub struct Tokens {
    pub items: Vec<Token>,
}

/// Why a text was not cut into tokens.
#[derive(Clone, Copy, Debug, PartialEq, Eq)]
pub enum LexFault {
    /// At this offset, in bytes from 0, no rule matches at least one character.
    NoToken { offset: u64 },

    /// Memory ran out.
    Memory(Memory),
}

impl fmt::Display for LexFault {
    ghost use Rattle.std.specs.Prelude.{Some};
    ghost use Rattle.lexer.specs.FaultText.{fault_text};

    ghost output = { λ fault. Some (fault_text fault) };

    fn fmt<W: fmt::Write>(&self, f: &mut fmt::Formatter<W>) -> fmt::Result {
        match self {
            LexFault::NoToken { offset } => write!(f, "no token at byte {offset}"),
            LexFault::Memory(_) => f.write_str("out of memory"),
        }
    }
}

impl std::error::Error for LexFault {}

impl From<Memory> for LexFault {
    ghost use Rattle.std.specs.Prelude.{◌≡◌};
    ghost use Rattle.lexer.specs.declared.token.LexFault.{LexFault};

    ghost from_gives = { λ memory fault. fault ≡ LexFault.Memory memory };

    fn from(memory: Memory) -> LexFault {
        LexFault::Memory(memory)
    }
}

impl<T: Drop> From<AllocFailed<T>> for LexFault {
    ghost use Rattle.std.specs.Prelude.{◌≡◌};
    ghost use Rattle.faults.specs.Memory.{ran_out};
    ghost use Rattle.lexer.specs.declared.token.LexFault.{LexFault};

    ghost from_gives = { λ _ fault. fault ≡ LexFault.Memory ran_out };

    fn from(refused: AllocFailed<T>) -> LexFault {
        LexFault::Memory(Memory::from(refused))
    }
}
