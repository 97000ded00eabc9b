//! A gate whose candidates' files take one byte at a time, and what a gate keeps of its last ask.

use super::held::holds;
use super::machine::SlowMachine;
use script_gate::{ProcessGate, ScriptCall};
use script_gate_trait::{Gate, GateFault, Verdict};
use std::fs;
use std::test::Fail;

/// Candidates, each with its verdict. The shell is the script, and each candidate a program for it.
const ASKED: [(&str, Verdict); 3] = [
    (
        "test \"$(tail -n 1 \"$0\")\" = '# last line'\n# last line\n",
        Verdict::Yes,
    ),
    ("false\n", Verdict::No),
    ("", Verdict::Yes),
];

/// The number, from 0, of the first candidate with another verdict.
fn first_other<G: Gate>(gate: &mut G) -> Option<usize> {
    for (number, (text, verdict)) in ASKED.iter().enumerate() {
        if gate.ask(text.as_bytes()) != Ok(*verdict) {
            return Some(number);
        }
    }
    None
}

/// How a gate over the slow machine is opened; that number; and how it is opened below a file.
type Slowly = (Result<(), GateFault>, Option<usize>, Result<(), GateFault>);

fn by_slow_machine(rt: HostRuntime) -> Slowly {
    let alloc = rt.alloc();
    let mut slow = ProcessGate::new(SlowMachine::new(rt), alloc);
    let opened = slow.open("candidates", "/bin/sh", "candidate", 1);
    let other = first_other(&mut slow);
    let below_a_file = slow.open("candidates/1/candidate", "/bin/sh", "candidate", 1);
    (opened, other, below_a_file)
}

/// That, and whether an empty candidate is an empty file.
fn written_slowly(rt: &HostRuntime) -> Result<(Slowly, bool), Fail> {
    let slowly = by_slow_machine(rt.clone()?);
    let is_empty = holds(rt, "candidates/1/candidate", "");
    fs::remove_dir_all(rt, "candidates")?;
    Ok((slowly, is_empty))
}

#[test]
fn a_candidate_is_written_whole(rt: HostRuntime) -> Result<(), Fail> {
    let wanted = (Ok(()), None, Err(GateFault::Failed));
    assert_eq!(rt; written_slowly(&rt)?, (wanted, true));
    Ok(())
}

/// What the gate was doing when it failed, and the machine's number of the failure.
type Fault = Option<(ScriptCall, Option<i32>)>;

/// The last fault of the gate.
fn last_fault(gate: &ProcessGate<HostRuntime>) -> Fault {
    let fault = gate.last_fault()?;
    Some((fault.call, fault.error.raw_os_error()))
}

/// The status of a script that says no by it; none where it goes otherwise.
fn last_status(gate: &mut ProcessGate<HostRuntime>) -> Option<i32> {
    if gate.open("ends", "/bin/sh", "candidate", 1) != Ok(()) {
        return None;
    }
    if gate.ask(b"exit 7\n") != Ok(Verdict::No) {
        return None;
    }
    gate.last_end().and_then(|end| end.code())
}

/// The last fault where the folder is a device; none where it goes otherwise.
fn folder_fault(gate: &mut ProcessGate<HostRuntime>) -> Fault {
    if gate.open("/dev/null", "/bin/sh", "candidate", 1) != Err(GateFault::Failed) {
        return None;
    }
    last_fault(gate)
}

/// The last fault where there is no script; none where it goes otherwise.
fn script_fault(gate: &mut ProcessGate<HostRuntime>) -> Fault {
    if gate.open("ends", "no-such-script", "candidate", 1) != Ok(()) {
        return None;
    }
    if gate.ask(b"") != Err(GateFault::Failed) {
        return None;
    }
    last_fault(gate)
}

/// Whether a gate has no end and no fault at first, and then those, one after another.
type Ends = (bool, Option<i32>, Fault, Fault);

fn kept_by_a_gate(rt: HostRuntime) -> Ends {
    let alloc = rt.alloc();
    let mut gate = ProcessGate::new(rt, alloc);
    let is_new = gate.last_end().is_none() && gate.last_fault().is_none();
    let status = last_status(&mut gate);
    let folder = folder_fault(&mut gate);
    let script = script_fault(&mut gate);
    (is_new, status, folder, script)
}

/// That, after which its folder is removed.
fn kept_at_its_ends(rt: &HostRuntime) -> Result<Ends, Fail> {
    let kept = kept_by_a_gate(rt.clone()?);
    fs::remove_dir_all(rt, "ends")?;
    Ok(kept)
}

#[test]
fn a_gate_keeps_the_last_end_and_the_last_fault(rt: HostRuntime) -> Result<(), Fail> {
    let folder = Some((ScriptCall::MakeFolder, Some(20)));
    let script = Some((ScriptCall::RunScript, Some(2)));
    assert_eq!(rt; kept_at_its_ends(&rt)?, (true, Some(7), folder, script));
    Ok(())
}
