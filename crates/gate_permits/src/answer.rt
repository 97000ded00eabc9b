//! The answer to a permit.

ghost use Rattle.std.specs.Prelude.{◌≡◌, ◌≤◌, option_map, IfErr, IfOk, OnErr, OnOk};
ghost use Rattle.faults.specs.Count.{Rose};
ghost use Rattle.script_gate_trait.specs.Log.{with_asked};
ghost use Rattle.boxcar.specs.Table.{Shows};
ghost use Rattle.gate_permits.specs.Permits.{GateFailed, IsAnswerTo};

use crate::permit::{Permit, Texts, Unasked};
use boxcar::Pushed;
use script_gate_trait::{Bytes, Gate, Verdict};
use std::marker::{Model, PhantomData};

/// A verdict on the text of a claim, which a gate of the type `G` may say of it. Only [`ask_once`] makes
/// one.
#[derive(Drop)]
pub struct Answer<G: Gate> {
    claim: u64,
    token: Pushed<Bytes>,
    verdict: Verdict,
    gate: PhantomData<G>,
}

impl<G: Gate> Model for Answer<G> {
    ghost use Rattle.gate_permits.specs.Permits.{AnsweredText};

    ghost Value = { AnsweredText };

    ghost view = { λ answer. record { claim = answer.claim; text = answer.token.value; token = answer.token; verdict = answer.verdict } };

    ghost invariant = { λ answer. G.may_say answer.token.value answer.verdict };
}

impl<G: Gate> Answer<G> {
    /// The number of the claim.
    pub fn claim(&self) -> u64
        ensures { result ≡ self.now.claim }
    {
        self.claim
    }

    /// Where the text that was asked about is among the [`Texts`].
    pub fn token(&self) -> &Pushed<Bytes>
        ensures token { result.now ≡ self.now.token }
        ensures text { result.now.value ≡ self.now.text }
    {
        &self.token
    }

    /// The gate's verdict.
    pub fn verdict(&self) -> Verdict
        ensures verdict { result ≡ self.now.verdict }
        ensures said { G.may_say self.now.text self.now.verdict }
    {
        self.verdict
    }

    /// Spends the answer. It takes no memory.
    pub fn spend(self) {
        let Answer {
            claim: _,
            token: _,
            verdict: _,
            gate: _,
        } = self;
    }
}

/// Asks the gate once, about the permit's text, and spends the permit. The permit's token has to be of
/// these texts. Where the gate refuses, the permit and the gate's fault are in the error. It may wait
/// where the gate does.
pub fn ask_once<G: Gate>(gate: &mut G, texts: &Texts, permit: Permit) -> Result<Answer<G>, Unasked>
    requires { Shows texts.now permit.token }
    ensures answer { IfOk result (λ answer. IsAnswerTo permit answer) }
    ensures said { IfOk result (λ answer. G.may_say answer.text answer.verdict) }
    ensures asked { OnOk result (G.log gate.new ≡ option_map (with_asked permit.text) (G.log gate.old)) }
    ensures unasked { IfErr result (λ unasked. unasked.permit ≡ permit) }
    ensures refused { OnErr result (G.log gate.new ≡ G.log gate.old) }
    ensures count { G.faults gate.old ≤ G.faults gate.new }
    ensures failed { GateFailed result → Rose (G.faults gate.old) (G.faults gate.new) }
    ensures quiet { (¬ GateFailed result) → G.faults gate.new ≡ G.faults gate.old }
{
    match gate.ask(texts.value(&permit.token).as_slice()) {
        Err(fault) => Err(Unasked { permit, fault }),
        Ok(verdict) => {
            let Permit { claim, token } = permit;
            Ok(Answer {
                claim,
                token,
                verdict,
                gate: PhantomData,
            })
        }
    }
}
