//! Why a run ends without a result.

ghost use Rattle.std.specs.Prelude.{◌≡◌};
ghost use Rattle.run_gated.specs.Faults.{fault_of};

use edge_io::OpenFault;
use faults::Memory;
use ordered_commit::PoolFault;
use script_gate_trait::GateFault;
use std::alloc::AllocError;

/// Why a run ends without a result.
#[derive(Clone, Copy, Debug, PartialEq, Eq)]
pub enum RunFault {
    /// The verdict on the start is no.
    NotInteresting,
    /// A call failed of the gate of the worker of this number, from 1.
    Script { worker: u32 },
    /// A call of the journal failed.
    Journal,
    /// Memory ran out.
    Memory(Memory),
}

impl From<PoolFault> for RunFault {
    ghost use Rattle.std.specs.Prelude.{◌≡◌};
    ghost use Rattle.run_gated.specs.Faults.{fault_kept};

    ghost from_gives = { λ fault run_fault. run_fault ≡ fault_kept fault };

    fn from(fault: PoolFault) -> RunFault {
        match fault {
            PoolFault::Script { worker } => RunFault::Script { worker },
            PoolFault::Journal => RunFault::Journal,
            PoolFault::Memory(memory) => RunFault::Memory(memory),
        }
    }
}

impl RunFault {
    /// Why the gate of the worker of this number wasn't opened.
    pub fn of_gate(worker: u32, fault: GateFault) -> RunFault
        ensures { result ≡ fault_of worker fault }
    {
        match fault {
            GateFault::Failed => RunFault::Script { worker },
            GateFault::Memory(memory) => RunFault::Memory(memory),
        }
    }
}

impl From<OpenFault> for RunFault {
    ghost use Rattle.std.specs.Prelude.{◌≡◌};
    ghost use Rattle.run_gated.specs.Faults.{fault_of_opening};

    ghost from_gives = { λ fault run_fault. run_fault ≡ fault_of_opening fault };

    fn from(fault: OpenFault) -> RunFault {
        match fault {
            OpenFault::Failed => RunFault::Journal,
            OpenFault::Memory(memory) => RunFault::Memory(memory),
        }
    }
}

impl From<AllocError> for RunFault {
    ghost use Rattle.std.specs.Prelude.{◌≡◌};
    ghost use Rattle.faults.specs.Memory.{ran_out};
    ghost use Rattle.run_gated.specs.declared.fault.RunFault.{RunFault};

    ghost from_gives = { λ _ fault. fault ≡ RunFault.Memory ran_out };

    fn from(refused: AllocError) -> RunFault {
        RunFault::Memory(Memory::from(refused))
    }
}
