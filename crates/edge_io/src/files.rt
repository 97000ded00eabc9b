ghost use Rattle.std.specs.Prelude.{◌≡◌, ◌≤◌, ℕ, List, Option, IfOk, OnOk, IsErrOf, vec_len};
ghost use Rattle.faults.specs.Count.{Rose};
ghost use Rattle.faults.specs.Memory.{ran_out};
ghost use Rattle.edge_io.specs.Files.{Holds, IsLonger, SameFiles, SameOthers};

use faults::Memory;
use std::alloc::{AllocError, AllocFailed};
use thiserror::Error;

/// Why a file was not read.
#[derive(Clone, Copy, Debug, PartialEq, Eq, Error)]
pub enum FileFault {
    /// The file is missing, or a call of the machine failed.
    #[error("the file cannot be read")]
    Failed,
    /// The file has more bytes than the limit.
    #[error("the file is longer than the limit")]
    TooLong,
    /// Memory ran out.
    #[error("out of memory")]
    Memory(Memory),
}

/// Why a file was not written.
#[derive(Clone, Copy, Debug, PartialEq, Eq, Error)]
pub enum WriteFault {
    /// The file cannot be made, or a call of the machine failed on the way.
    #[error("the file cannot be written")]
    Failed,
    /// Memory ran out, before anything was written.
    #[error("out of memory")]
    Memory(Memory),
}

impl From<AllocError> for FileFault {
    ghost use Rattle.std.specs.Prelude.{◌≡◌};
    ghost use Rattle.faults.specs.Memory.{ran_out};
    ghost use Rattle.edge_io.specs.declared.files.FileFault.TheVariants.{Memory as OutOfMemory};

    ghost from_gives = { λ _ fault. fault ≡ OutOfMemory ran_out };

    fn from(refused: AllocError) -> FileFault {
        FileFault::Memory(Memory::from(refused))
    }
}

impl From<AllocError> for WriteFault {
    ghost use Rattle.std.specs.Prelude.{◌≡◌};
    ghost use Rattle.faults.specs.Memory.{ran_out};
    ghost use Rattle.edge_io.specs.declared.files.WriteFault.TheVariants.{Memory as OutOfMemory};

    ghost from_gives = { λ _ fault. fault ≡ OutOfMemory ran_out };

    fn from(refused: AllocError) -> WriteFault {
        WriteFault::Memory(Memory::from(refused))
    }
}

impl<T: Drop> From<AllocFailed<T>> for WriteFault {
    ghost use Rattle.std.specs.Prelude.{◌≡◌};
    ghost use Rattle.faults.specs.Memory.{ran_out};
    ghost use Rattle.edge_io.specs.declared.files.WriteFault.TheVariants.{Memory as OutOfMemory};

    ghost from_gives = { λ _ fault. fault ≡ OutOfMemory ran_out };

    fn from(refused: AllocFailed<T>) -> WriteFault {
        WriteFault::Memory(Memory::from(refused))
    }
}

/// Files that are read and written whole, by name.
pub trait Files {
    ghost use Rattle.edge_io.specs.Files.{FileContent};
    ghost use Rattle.edge_io.specs.FileCalls.{FileCall, WereMade, read_adds, write_adds};

    /// What the file of a name holds: `None` where that isn't visible, `Some(None)` where the file is
    /// missing.
    ghost content: { Self → List ℕ → Option FileContent };

    /// The calls that were made, in their order, where this is visible. One that ran out of memory isn't there,
    /// nor is the limit of a read.
    ghost calls: { Self → Option (List FileCall) };

    /// How many calls failed. It never falls, and stays at 2^64 - 1 once it is there.
    ghost faults: { Self → ℕ };

    /// The whole bytes of a file that has at most `limit` of them. A missing file fails.
    fn read(&mut self, name: &str, limit: u64) -> Result<Vec<u8>, FileFault>
        ensures bytes { IfOk result (λ bytes. Holds bytes.items (content self.old name.now)) }
        ensures limit { IfOk result (λ bytes. vec_len bytes ≤ limit) }
        ensures too_long { IsErrOf result FileFault.TooLong → IsLonger limit (content self.old name.now) }
        ensures failed { IsErrOf result FileFault.Failed → Rose (faults self.old) (faults self.new) }
        ensures quiet { (¬ IsErrOf result FileFault.Failed) → faults self.new ≡ faults self.old }
        ensures count { faults self.old ≤ faults self.new }
        ensures calls { WereMade (read_adds name.now result) (calls self.old) (calls self.new) }
        ensures same { SameFiles (content self.old) (content self.new) };

    /// Makes the file hold exactly `bytes`, in place of what it held before. After `Failed` this
    /// one file may hold anything.
    fn write(&mut self, name: &str, bytes: &[u8]) -> Result<(), WriteFault>
        ensures written { OnOk result (Holds bytes.now (content self.new name.now)) }
        ensures others { SameOthers (content self.old) (content self.new) name.now }
        ensures failed { IsErrOf result WriteFault.Failed → Rose (faults self.old) (faults self.new) }
        ensures quiet { (¬ IsErrOf result WriteFault.Failed) → faults self.new ≡ faults self.old }
        ensures memory { IsErrOf result (WriteFault.Memory ran_out) → SameFiles (content self.old) (content self.new) }
        ensures calls { WereMade (write_adds name.now result) (calls self.old) (calls self.new) }
        ensures count { faults self.old ≤ faults self.new };
}
