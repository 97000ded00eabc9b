ghost use Rattle.std.specs.Prelude.{◌≡◌, ◌≤◌, ◌↔◌, Some, IfOk, OnOk, OnErr, IsErrOf, IsOkUnless};
ghost use Rattle.faults.specs.Memory.{ran_out};
ghost use Rattle.faults.specs.Count.{one_more};
ghost use Rattle.script_gate_trait.specs.Listed.{moved_on, next_answer, verdict_of};
ghost use Rattle.script_gate_trait.specs.Log.{empty_log, with_asked, with_opening};

use crate::gate::{Gate, GateFault, Verdict};
use crate::log::Log;
use std::alloc::Global;
use std::marker::Model;

/// One answer of a `ListGate`.
#[derive(Clone, Copy, Debug, PartialEq, Eq)]
pub enum Said {
    /// The verdict yes.
    Yes,
    /// The verdict no.
    No,
    /// The call fails.
    Fail,
}

/// A gate that answers from a list, and each ask after the list's end by one last answer.
/// Contracts see what it is asked and opened with.
#[derive(Drop)]
pub struct ListGate {
    alloc: Global,
    answers: Vec<Said>,
    given: usize,
    later: Said,
    faults: u64,
    log: Log,
}

impl Model for ListGate {
    ghost use Rattle.std.specs.Prelude.{drop};
    ghost use Rattle.script_gate_trait.specs.Listed.{Listed};

    ghost Value = { Listed };

    ghost view = { λ gate. record {
      answers = drop gate.given gate.answers.items;
      later = gate.later;
      faults = gate.faults;
      log = gate.log;
    } };
}

impl ListGate {
    /// It gives these answers in their order, and `later` to each ask after them.
    pub fn new(alloc: Global, answers: Vec<Said>, later: Said) -> ListGate
        ensures { result ≡ record { answers = answers.items; later = later; faults = 0; log = empty_log } }
    {
        ListGate {
            alloc,
            answers,
            given: 0,
            later,
            faults: 0,
            log: Log::new(alloc),
        }
    }

    /// What it was asked and opened with; failed asks aren't in it.
    pub fn log(&self) -> &Log
        ensures { result.now ≡ self.now.log }
    {
        &self.log
    }

    fn next_answer(&self) -> Said
        ensures { result ≡ next_answer self.now }
    {
        self.answers.get(self.given).copied().unwrap_or(self.later)
    }

    fn move_on(&mut self)
        ensures { self.new ≡ moved_on self.old }
    {
        if self.given < self.answers.len() {
            self.given += 1;
        }
    }
}

impl Gate for ListGate {
    ghost faults = { λ gate. gate.faults };

    ghost log = { λ gate. Some gate.log };

    ghost may_say = { λ _ _. Unit {0} };

    fn open(&mut self, work: &str, script: &str, name: &str, number: u32) -> Result<(), GateFault>
        ensures opened { OnOk result
            (self.new ≡ record self.old { log = with_opening work.now script.now name.now number self.old.log }) }
        ensures refused { OnErr result (self.new ≡ self.old) }
        ensures never_fails { IsOkUnless result (GateFault.Memory ran_out) }
    {
        self.log
            .set_opening(self.alloc, work, script, name, number)?;
        Ok(())
    }

    /// Where memory runs out, the answer stays the next one.
    fn ask(&mut self, text: &[u8]) -> Result<Verdict, GateFault>
        ensures verdict { IfOk result (λ verdict. verdict_of (next_answer self.old) ≡ Some verdict) }
        ensures asked { OnOk result
            (self.new ≡ record (moved_on self.old) { log = with_asked text.now self.old.log }) }
        ensures fails { IsErrOf result GateFault.Failed ↔ (next_answer self.old ≡ Said.Fail) }
        ensures moved { IsErrOf result GateFault.Failed
            → self.new ≡ record (moved_on self.old) { faults = one_more self.old.faults } }
        ensures count { self.old.faults ≤ self.new.faults }
        ensures memory { IsErrOf result (GateFault.Memory ran_out) → self.new ≡ self.old }
    {
        let verdict = match self.next_answer() {
            Said::Yes => Verdict::Yes,
            Said::No => Verdict::No,
            Said::Fail => {
                self.faults = self.faults.saturating_add(1);
                self.move_on();
                return Err(GateFault::Failed);
            }
        };
        self.log.add_ask(self.alloc, text)?;
        self.move_on();
        Ok(verdict)
    }
}
