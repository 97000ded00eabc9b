//! The gate.

ghost use Rattle.std.specs.Prelude.{◌≡◌, ◌≤◌, Some, IfOk, OnOk, OnErr, IsErrOf};
ghost use Rattle.faults.specs.Count.{one_more};
ghost use Rattle.script_gate_trait.specs.Log.{empty_log, with_asked, with_opening};
ghost use Rattle.script_gate_trait.specs.Rule.{rule_verdict};

use crate::hold_count::HoldCount;
use script_gate_trait::{Gate, GateFault, RuleGate, Verdict};
use std::alloc::Global;
use std::marker::Model;
use std::sync::Arc;

/// A gate that gives the verdicts of a [`RuleGate`], or at each ask the same fault, and holds its asks as
/// its [`HoldCount`] says. An ask that is held for too long fails. A clause sees what it is asked and
/// opened with, and how often it failed.
#[derive(Drop)]
pub struct HoldGate<const R: u64> {
    rule: RuleGate<R>,
    count: Arc<HoldCount>,
    fault: Option<GateFault>,
    faults: u64,
}

impl<const R: u64> Model for HoldGate<R> {
    ghost use Rattle.test_workers.specs.Held.{Held};

    ghost Value = { Held };

    ghost view = { λ gate. record { log = gate.rule; faults = gate.faults } };
}

impl<const R: u64> HoldGate<R> {
    /// A gate of the test that has this count.
    pub fn new(alloc: Global, count: Arc<HoldCount>) -> HoldGate<R>
        ensures { result ≡ record { log = Some empty_log; faults = 0 } }
    {
        HoldGate {
            rule: RuleGate::new(alloc, true),
            count,
            fault: None,
            faults: 0,
        }
    }

    /// A gate of that test which gives no verdict: each of its asks has this fault.
    pub fn faulty(alloc: Global, count: Arc<HoldCount>, fault: GateFault) -> HoldGate<R>
        ensures { result ≡ record { log = Some empty_log; faults = 0 } }
    {
        HoldGate {
            rule: RuleGate::new(alloc, true),
            count,
            fault: Some(fault),
            faults: 0,
        }
    }

    /// How many asks it answered.
    pub fn asked(&self) -> u64 {
        match self.rule.log() {
            Some(log) => log.asked.len() as u64,
            None => 0,
        }
    }
}

impl<const R: u64> Gate for HoldGate<R> {
    ghost faults = { λ gate. gate.faults };

    ghost log = { λ gate. gate.log };

    ghost may_say = { λ text verdict. verdict ≡ rule_verdict R text };

    fn open(&mut self, work: &str, script: &str, name: &str, number: u32) -> Result<(), GateFault> {
        self.rule.open(work, script, name, number)
    }

    fn ask(&mut self, text: &[u8]) -> Result<Verdict, GateFault> {
        let fault = if self.count.begin() {
            self.fault
        } else {
            Some(GateFault::Failed)
        };
        match fault {
            None => self.rule.ask(text),
            Some(GateFault::Memory(memory)) => Err(GateFault::Memory(memory)),
            Some(GateFault::Failed) => {
                self.faults = self.faults.saturating_add(1);
                Err(GateFault::Failed)
            }
        }
    }
}
