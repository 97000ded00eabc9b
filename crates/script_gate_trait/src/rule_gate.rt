ghost use Rattle.std.specs.Prelude.{◌≡◌, None, Some, IsOk, IsOkUnless, IfOk, OnOk, OnErr, option_map, if◌then◌else◌};
ghost use Rattle.std.specs.Option.{option_copied};
ghost use Rattle.faults.specs.Memory.{ran_out};
ghost use Rattle.script_gate_trait.specs.Rule.{occur_all, rule_verdict};
ghost use Rattle.script_gate_trait.specs.Log.{empty_log, with_asked, with_opening};

use crate::gate::{Gate, GateFault, Verdict};
use crate::log::Log;
use std::alloc::Global;
use std::marker::Model;

/// A gate that answers by a rule: `R` is its eight bytes as a number, the first one lowest, and the verdict is yes exactly where
/// each of them that isn't zero occurs in the text. A clause sees it as its log.
#[derive(Drop)]
pub struct RuleGate<const R: u64> {
    alloc: Global,
    log: Option<Log>,
}

impl<const R: u64> Model for RuleGate<R> {
    ghost use Rattle.std.specs.Prelude.{Option};
    ghost use Rattle.script_gate_trait.specs.declared.log.Log.{Log};

    ghost Value = { Option Log };

    ghost view = { λ gate. gate.log };
}

impl<const R: u64> RuleGate<R> {
    /// With `logs` it keeps what it is asked and opened with; without, it never takes memory.
    pub fn new(alloc: Global, logs: bool) -> RuleGate<R>
        ensures { result ≡ (if logs then Some empty_log else None) }
    {
        let log = if logs { Some(Log::new(alloc)) } else { None };
        RuleGate { alloc, log }
    }

    /// What it was asked and opened with, where it keeps this.
    pub fn log(&self) -> Option<&Log>
        ensures { option_copied result ≡ self.now }
    {
        self.log.as_ref()
    }
}

fn obeys(rule: u64, text: &[u8]) -> bool
    ensures { result ≡ occur_all rule text.now }
{
    rule.to_le_bytes()
        .iter()
        .all(|byte| *byte == 0 || text.contains(byte))
}

impl<const R: u64> Gate for RuleGate<R> {
    ghost faults = { λ gate. 0 };

    ghost log = { λ gate. gate };

    ghost may_say = { λ text verdict. verdict ≡ rule_verdict R text };

    fn open(&mut self, work: &str, script: &str, name: &str, number: u32) -> Result<(), GateFault>
        ensures opened { OnOk result
            (self.new ≡ option_map (with_opening work.now script.now name.now number) self.old) }
        ensures refused { OnErr result (self.new ≡ self.old) }
        ensures never_fails { IsOkUnless result (GateFault.Memory ran_out) }
        ensures silent { self.old ≡ None → IsOk result }
    {
        if let Some(log) = &mut self.log {
            log.set_opening(self.alloc, work, script, name, number)?;
        }
        Ok(())
    }

    fn ask(&mut self, text: &[u8]) -> Result<Verdict, GateFault>
        ensures verdict { IfOk result (λ verdict. verdict ≡ rule_verdict R text.now) }
        ensures asked { OnOk result (self.new ≡ option_map (with_asked text.now) self.old) }
        ensures refused { OnErr result (self.new ≡ self.old) }
        ensures never_fails { IsOkUnless result (GateFault.Memory ran_out) }
        ensures silent { self.old ≡ None → IsOk result }
    {
        if let Some(log) = &mut self.log {
            log.add_ask(self.alloc, text)?;
        }
        if obeys(R, text) {
            Ok(Verdict::Yes)
        } else {
            Ok(Verdict::No)
        }
    }
}
