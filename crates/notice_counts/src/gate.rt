ghost use Rattle.std.specs.Prelude.{◌≡◌};

use crate::counts::Counts;
use script_gate_trait::{Gate, GateFault, Verdict};
use std::marker::Model;
use std::sync::Arc;
use std::time::Clock;

/// A gate that passes each call on to the one within it, and counts the asks. Contracts see the inner gate.
#[derive(Drop)]
pub struct CountedGate<G: Drop, C: Drop> {
    gate: G,
    clock: C,
    counts: Arc<Counts>,
}

impl<G: Drop, C: Drop> Model for CountedGate<G, C> {
    ghost Value = { G };

    ghost view = { λ counted. counted.gate };
}

impl<G: Drop, C: Drop> CountedGate<G, C> {
    /// Counts the asks of this gate, and times them by this clock.
    pub fn new(gate: G, clock: C, counts: Arc<Counts>) -> CountedGate<G, C>
        ensures { result ≡ gate }
    {
        CountedGate {
            gate,
            clock,
            counts,
        }
    }

    /// The gate within it.
    pub fn inner(&self) -> &G
        ensures { result.now ≡ self.now }
    {
        &self.gate
    }
}

impl<G: Gate + Drop, C: Clock + Drop> Gate for CountedGate<G, C> {
    ghost faults = { G.faults };

    ghost log = { G.log };

    ghost may_say = { G.may_say };

    fn open(&mut self, work: &str, script: &str, name: &str, number: u32) -> Result<(), GateFault> {
        self.gate.open(work, script, name, number)
    }

    fn ask(&mut self, text: &[u8]) -> Result<Verdict, GateFault> {
        let began = self.counts.begin_ask(&self.clock);
        let answer = self.gate.ask(text);
        let yes = matches!(answer, Ok(Verdict::Yes));
        self.counts.end_ask(&self.clock, began, yes);
        answer
    }
}
