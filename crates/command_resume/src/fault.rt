//! What may go wrong beside a run.

use faults::Memory;
use std::alloc::AllocError;
use std::io;
use thiserror::Error;

/// Why a journal couldn't be set aside.
#[derive(Clone, Copy, Debug, Error)]
pub enum AsideCause {
    /// A call of the machine failed.
    #[error("{reason}")]
    Failed { reason: io::Error },
    /// A file under one of the names beside the journal's isn't a journal: it isn't touched.
    #[error("a file of its name and .resumed or .joined isn't a journal")]
    NoJournal,
    /// What was set aside before is of another start.
    #[error("the one that was set aside before is of another input")]
    OtherStart,
    /// One of the journals, or both together, have more bytes than a journal may have.
    #[error("with the one that was set aside before it is too long")]
    TooLong,
    /// Memory ran out.
    #[error("out of memory")]
    Memory(Memory),
}

impl From<io::Error> for AsideCause {
    ghost use Rattle.std.specs.Prelude.{◌≡◌};
    ghost use Rattle.command_resume.specs.declared.fault.AsideCause.TheVariants.{Failed};

    ghost from_gives = { λ reason cause. cause ≡ Failed reason };

    fn from(reason: io::Error) -> AsideCause {
        AsideCause::Failed { reason }
    }
}

impl From<Memory> for AsideCause {
    ghost use Rattle.std.specs.Prelude.{◌≡◌};
    ghost use Rattle.command_resume.specs.declared.fault.AsideCause.TheVariants.{Memory as OutOfMemory};

    ghost from_gives = { λ memory cause. cause ≡ OutOfMemory memory };

    fn from(memory: Memory) -> AsideCause {
        AsideCause::Memory(memory)
    }
}

impl From<AllocError> for AsideCause {
    ghost use Rattle.std.specs.Prelude.{◌≡◌};
    ghost use Rattle.command_resume.specs.declared.fault.AsideCause.TheVariants.{Memory as OutOfMemory};
    ghost use Rattle.faults.specs.Memory.{ran_out};

    ghost from_gives = { λ _ cause. cause ≡ OutOfMemory ran_out };

    fn from(refused: AllocError) -> AsideCause {
        AsideCause::Memory(Memory::from(refused))
    }
}

/// What went wrong beside a run, which goes on as without it.
#[derive(Debug, Drop, Error)]
pub enum AsideFault {
    /// The journal of this name isn't set aside.
    #[error("{journal} isn't set aside ({cause}): where this run is stopped, some of its verdicts may be lost")]
    NotSetAside { journal: String, cause: AsideCause },
    /// The file of this name, in which a journal was set aside, stays.
    #[error("{aside} can't be removed ({reason})")]
    NotRemoved { aside: String, reason: io::Error },
    /// Memory ran out.
    #[error("out of memory")]
    Memory(Memory),
}

impl From<Memory> for AsideFault {
    fn from(memory: Memory) -> AsideFault {
        AsideFault::Memory(memory)
    }
}
