ghost use Rattle.std.specs.Prelude.{◌≡◌, ◌≤◌, ℕ, Option, option_map, OnOk, OnErr, IsErrOf};
ghost use Rattle.faults.specs.Count.{Rose, one_more};
ghost use Rattle.edge_io.specs.Sink.{empty_put, with_piece, GrewByPrefix};

use faults::Memory;
use std::alloc::AllocError;
use thiserror::Error;

/// Why a sink was not opened.
#[derive(Clone, Copy, Debug, PartialEq, Eq, Error)]
pub enum OpenFault {
    /// The file of the name cannot be made.
    #[error("the sink cannot be opened")]
    Failed,
    /// Memory ran out.
    #[error("out of memory")]
    Memory(Memory),
}

/// Why a piece was not put whole.
#[derive(Clone, Copy, Debug, PartialEq, Eq, Error)]
pub enum SinkFault {
    /// The sink is full, or a call of the machine failed.
    #[error("the piece cannot be put")]
    Failed,
}

impl From<AllocError> for OpenFault {
    ghost use Rattle.std.specs.Prelude.{◌≡◌};
    ghost use Rattle.faults.specs.Memory.{ran_out};
    ghost use Rattle.edge_io.specs.declared.sink.OpenFault.TheVariants.{Memory as OutOfMemory};

    ghost from_gives = { λ _ fault. fault ≡ OutOfMemory ran_out };

    fn from(refused: AllocError) -> OpenFault {
        OpenFault::Memory(Memory::from(refused))
    }
}

/// What bytes are put into, piece by piece.
pub trait Sink {
    ghost use Rattle.edge_io.specs.Sink.{Put};

    /// The bytes that were put since the last opening, and its name: `None` where that isn't visible.
    ghost put_so_far: { Self → Option Put };

    /// How many puts were made, failed ones too, where this is visible. It stays at 2^64 - 1 once it is there.
    ghost puts: { Self → Option ℕ };

    /// How many calls failed. It never falls, and stays at 2^64 - 1 once it is there.
    ghost faults: { Self → ℕ };

    /// Begins anew under this name. After an error the sink is as before.
    fn open(&mut self, name: &str) -> Result<(), OpenFault>
        ensures ok { OnOk result
            (put_so_far self.new ≡ option_map (λ _. empty_put name.now) (put_so_far self.old)) }
        ensures err { OnErr result (put_so_far self.new ≡ put_so_far self.old) }
        ensures none_put { puts self.new ≡ puts self.old }
        ensures failed { IsErrOf result OpenFault.Failed → Rose (faults self.old) (faults self.new) }
        ensures quiet { (¬ IsErrOf result OpenFault.Failed) → faults self.new ≡ faults self.old }
        ensures count { faults self.old ≤ faults self.new };

    /// Puts the piece after what was put before, and takes no memory. An empty piece is a put as
    /// well. After an error some prefix of the piece may have been put.
    fn put(&mut self, piece: &[u8]) -> Result<(), SinkFault>
        ensures ok { OnOk result
            (put_so_far self.new ≡ option_map (with_piece piece.now) (put_so_far self.old)) }
        ensures err { OnErr result (GrewByPrefix piece.now (put_so_far self.old) (put_so_far self.new)) }
        ensures one_put { puts self.new ≡ option_map one_more (puts self.old) }
        ensures failed { OnErr result (Rose (faults self.old) (faults self.new)) }
        ensures quiet { OnOk result (faults self.new ≡ faults self.old) }
        ensures count { faults self.old ≤ faults self.new };
}
