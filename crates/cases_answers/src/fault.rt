//! Why a text gives no language, and a text or a list of kinds no tree.

use faults::Memory;
use test_grammars::Refused;
use thiserror::Error;

/// Why a text spells no grammar whose language can be made.
#[derive(Debug, Drop, Error)]
pub enum LanguageFault {
    #[error("the grammar is refused: {0:?}")]
    Refused(Refused),

    #[error(transparent)]
    Memory(Memory),
}

/// Why it isn't known which tree a text or a list of kinds has, if it has one.
#[derive(Clone, Copy, Debug, PartialEq, Eq, Error)]
pub enum TreeFault {
    /// The text has 2^32 bytes or more.
    #[error("the text is too long")]
    LongText,

    /// At this offset, in bytes from 0, no rule matches at least one character.
    #[error("no token at byte {offset}")]
    NoToken { offset: u64 },

    /// There are 2^32 kinds or more.
    #[error("there are too many tokens")]
    LongList,

    #[error(transparent)]
    Memory(Memory),
}
