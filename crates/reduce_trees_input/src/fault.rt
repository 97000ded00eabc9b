//! Why bytes give no input.

use faults::Memory;
use std::alloc::AllocError;
use std::fmt;

/// Why bytes give no input of a grammar. Offsets count bytes, from 0.
#[derive(Clone, Copy, Debug, PartialEq, Eq)]
pub enum InputFault {
    /// The first sequence of bytes that isn't UTF-8 begins at this offset.
    NotUtf8 { offset: u64 },

    /// At this offset no rule matches at least one character.
    NoToken { offset: u64 },

    /// The start rule doesn't derive the tokens.
    NoParse,

    /// Memory ran out.
    Memory(Memory),
}

impl fmt::Display for InputFault {
    ghost use Rattle.std.specs.Prelude.{Some};
    ghost use Rattle.reduce_trees_input.specs.FaultText.{input_fault_text};

    ghost output = { λ fault. Some (input_fault_text fault) };

    fn fmt<W: fmt::Write>(&self, f: &mut fmt::Formatter<W>) -> fmt::Result {
        match self {
            InputFault::NotUtf8 { offset } => write!(f, "input is not UTF-8 at byte {offset}"),
            InputFault::NoToken { offset } => write!(f, "no token at byte {offset}"),
            InputFault::NoParse => f.write_str("input does not parse"),
            InputFault::Memory(_) => f.write_str("out of memory"),
        }
    }
}

impl std::error::Error for InputFault {}

impl From<Memory> for InputFault {
    ghost use Rattle.std.specs.Prelude.{◌≡◌};
    ghost use Rattle.reduce_trees_input.specs.declared.fault.InputFault.{InputFault};

    ghost from_gives = { λ memory fault. fault ≡ InputFault.Memory memory };

    fn from(memory: Memory) -> InputFault {
        InputFault::Memory(memory)
    }
}

impl From<AllocError> for InputFault {
    ghost use Rattle.std.specs.Prelude.{◌≡◌};
    ghost use Rattle.faults.specs.Memory.{ran_out};
    ghost use Rattle.reduce_trees_input.specs.declared.fault.InputFault.{InputFault};

    ghost from_gives = { λ _ fault. fault ≡ InputFault.Memory ran_out };

    fn from(refused: AllocError) -> InputFault {
        InputFault::Memory(Memory::from(refused))
    }
}
