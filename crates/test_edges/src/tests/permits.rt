//! What a permit is spent for.

use gate_permits::{Permit, Texts, ask_once};
use script_gate_trait::{Bytes, Gate, GateFault, ListGate, RuleGate, Said, Verdict};
use std::alloc::Global;
use std::sync::Wait;
use std::test::Fail;

/// The verdict that a permit gives, or what it was spent for where the gate gives none.
type Spent = Result<Verdict, (u64, GateFault)>;

/// What a permit of this number gives for the text of these bytes. Nothing where that has no token.
fn spent_on<G: Gate, W: Wait>(
    rt: &W,
    texts: &Texts,
    gate: &mut G,
    number: u64,
    bytes: Bytes,
) -> Option<Spent> {
    let Ok(token) = texts.push_shown(rt, bytes) else {
        return None;
    };
    match ask_once(gate, texts, Permit::new(number, token)) {
        Ok(answer) => Some(Ok(answer.verdict())),
        Err(unasked) => Some(Err(unasked.spend())),
    }
}

/// What one gives for this text.
fn spent<G: Gate, W: Wait>(
    rt: &W,
    alloc: Global,
    gate: &mut G,
    number: u64,
    text: &[u8],
) -> Result<Option<Spent>, Fail> {
    let texts = Texts::new(alloc)?;
    let bytes = Bytes::from_slice(alloc, text)?;
    Ok(spent_on(rt, &texts, gate, number, bytes))
}

/// What one gives for a text with a `b`, which the gate says yes to.
fn spent_by_rule<W: Wait>(rt: &W, alloc: Global) -> Result<Option<Spent>, Fail> {
    let mut gate = RuleGate::<98>::new(alloc, true);
    spent(rt, alloc, &mut gate, 7, b"a=1;b=2;")
}

#[test]
fn answers_where_the_gate_does(rt: HostRuntime) -> Result<(), Fail> {
    let came = spent_by_rule(&rt, rt.alloc())?;
    assert_eq!(rt; came, Some(Ok(Verdict::Yes)));
    Ok(())
}

/// What one gives where the gate fails.
fn spent_on_a_failure<W: Wait>(rt: &W, alloc: Global) -> Result<Option<Spent>, Fail> {
    let mut gate = ListGate::new(alloc, Vec::new(alloc), Said::Fail);
    spent(rt, alloc, &mut gate, 3, b"a")
}

#[test]
fn gives_the_permit_back_where_the_gate_fails(rt: HostRuntime) -> Result<(), Fail> {
    let came = spent_on_a_failure(&rt, rt.alloc())?;
    assert_eq!(rt; came, Some(Err((3, GateFault::Failed))));
    Ok(())
}
