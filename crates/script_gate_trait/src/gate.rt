ghost use Rattle.std.specs.Prelude.{◌≡◌, ◌≤◌, ℕ, List, Option, option_map, IfOk, OnOk, OnErr, IsErrOf};
ghost use Rattle.faults.specs.Count.{Rose};

use faults::Memory;
use thiserror::Error;

/// A gate's answer to a text: yes where it is interesting.
#[derive(Clone, Copy, Debug, PartialEq, Eq)]
pub enum Verdict {
    /// The text is interesting: it still shows what is looked for.
    Yes,
    /// It isn't.
    No,
}

/// Why a gate gave no verdict.
#[derive(Clone, Copy, Debug, PartialEq, Eq, Error)]
pub enum GateFault {
    /// The gate itself failed, and counted it.
    #[error("the gate failed")]
    Failed,
    /// Memory ran out; nothing is counted.
    #[error("out of memory")]
    Memory(Memory),
}

impl From<Memory> for GateFault {
    ghost use Rattle.script_gate_trait.specs.declared.gate.GateFault.TheVariants.{Memory as OutOfMemory};

    ghost from_gives = { λ memory fault. fault ≡ OutOfMemory memory };

    fn from(memory: Memory) -> GateFault {
        GateFault::Memory(memory)
    }
}

/// What answers yes or no to a text, for one worker.
pub trait Gate {
    ghost use Rattle.script_gate_trait.specs.declared.gate.Verdict.{Verdict};
    ghost use Rattle.script_gate_trait.specs.declared.log.Log.{Log};
    ghost use Rattle.script_gate_trait.specs.Log.{with_asked, with_opening};

    /// How often it failed. It never falls.
    ghost faults: { Self → ℕ };

    /// What it was asked and last opened with, where this is visible.
    ghost log: { Self → Option Log };

    /// Which verdict on a text it may give.
    ghost may_say: { List ℕ → Verdict → Type 0 };

    /// Readies the gate for the worker with this number: `work` is the work folder, `script` the script's name,
    /// and `name` that of the file that a candidate is written to. It asks nothing.
    fn open(&mut self, work: &str, script: &str, name: &str, number: u32) -> Result<(), GateFault>
        ensures opened { OnOk result
            (log self.new ≡ option_map (with_opening work.now script.now name.now number) (log self.old)) }
        ensures refused { OnErr result (log self.new ≡ log self.old) }
        ensures count { faults self.old ≤ faults self.new }
        ensures failed { IsErrOf result GateFault.Failed → Rose (faults self.old) (faults self.new) }
        ensures quiet { (¬ IsErrOf result GateFault.Failed) → faults self.new ≡ faults self.old };

    /// Asks once for the verdict on a text. A refused ask isn't in the log.
    fn ask(&mut self, text: &[u8]) -> Result<Verdict, GateFault>
        ensures verdict { IfOk result (λ verdict. may_say text.now verdict) }
        ensures asked { OnOk result (log self.new ≡ option_map (with_asked text.now) (log self.old)) }
        ensures refused { OnErr result (log self.new ≡ log self.old) }
        ensures count { faults self.old ≤ faults self.new }
        ensures failed { IsErrOf result GateFault.Failed → Rose (faults self.old) (faults self.new) }
        ensures quiet { (¬ IsErrOf result GateFault.Failed) → faults self.new ≡ faults self.old };
}
