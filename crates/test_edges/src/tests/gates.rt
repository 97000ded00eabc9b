//! Gates in memory and over real scripts.

use super::held::holds;
use script_gate::ProcessGate;
use script_gate_trait::{Gate, GateFault, ListGate, Log, RuleGate, Said, Verdict};
use std::alloc::Global;
use std::os::fd::AsRawFd;
use std::test::Fail;
use std::{fs, process};

/// A call of a gate, with the answer that is wanted: an opening by work folder, script, name and number,
/// or an ask about a text.
#[derive(Clone, Copy)]
enum Call<'a> {
    Open(&'a str, &'a str, &'a str, u32, Result<(), GateFault>),
    Ask(&'a str, Result<Verdict, GateFault>),
}

const YES: Result<Verdict, GateFault> = Ok(Verdict::Yes);

const NO: Result<Verdict, GateFault> = Ok(Verdict::No);

const FAILED: Result<Verdict, GateFault> = Err(GateFault::Failed);

/// The number, from 0, of the first call that isn't answered so. The bound `Send` shows that each gate
/// may go to a thread.
fn first_other<G: Gate + Send>(gate: &mut G, calls: &[Call<'_>]) -> Option<usize> {
    for (number, call) in calls.iter().enumerate() {
        let is_answered = match *call {
            Call::Open(work, script, name, worker, wanted) => {
                gate.open(work, script, name, worker) == wanted
            }
            Call::Ask(text, wanted) => gate.ask(text.as_bytes()) == wanted,
        };
        if !is_answered {
            return Some(number);
        }
    }
    None
}

/// Whether these are the texts that were asked.
fn is_log_of(log: &Log, texts: &[&str]) -> bool {
    let asked = log.asked.as_slice();
    for (one, text) in asked.iter().zip(texts) {
        if one.as_slice() != text.as_bytes() {
            return false;
        }
    }
    asked.len() == texts.len()
}

/// Whether the last opening was with these.
fn is_opened(log: &Log, work: &str, script: &str, name: &str, number: u32) -> bool {
    match &log.opening {
        None => false,
        Some(opening) => {
            opening.work.as_slice() == work.as_bytes()
                && opening.script.as_slice() == script.as_bytes()
                && opening.name.as_slice() == name.as_bytes()
                && opening.number == number
        }
    }
}

/// A gate's first answers, and the last one again.
const IN_ORDER: [Call<'static>; 6] = [
    Call::Open("work", "test.sh", "input", 1, Ok(())),
    Call::Ask("a", NO),
    Call::Ask("b", FAILED),
    Call::Ask("c", YES),
    Call::Ask("d", NO),
    Call::Ask("e", NO),
];

/// The number of the first call that isn't answered so; and whether the log has the asks that didn't fail.
fn other_in_order(alloc: Global) -> Result<(Option<usize>, bool), Fail> {
    let answers = Vec::from_slice(alloc, &[Said::No, Said::Fail, Said::Yes])?;
    let mut gate = ListGate::new(alloc, answers, Said::No);
    let other = first_other(&mut gate, &IN_ORDER);
    Ok((other, is_log_of(gate.log(), &["a", "c", "d", "e"])))
}

#[test]
fn answers_in_order_and_then_by_the_last_answer(rt: HostRuntime) -> Result<(), Fail> {
    assert_eq!(rt; other_in_order(rt.alloc())?, (None, true));
    Ok(())
}

fn by_rule<const R: u64>(alloc: Global, calls: &[Call<'static>]) -> Option<usize> {
    first_other(&mut RuleGate::<R>::new(alloc, true), calls)
}

/// What a gate answers by the rule 0, which is always yes.
const ALWAYS: [Call<'static>; 2] = [Call::Ask("", YES), Call::Ask("any", YES)];

/// By the rule 255, which is always no.
const NEVER: [Call<'static>; 2] = [Call::Ask("", NO), Call::Ask("any \u{e9}\u{10ffff}", NO)];

/// By the rule 97, which is yes where there is an a.
const WITH_A: [Call<'static>; 2] = [Call::Ask("bca", YES), Call::Ask("bcd", NO)];

/// By the rule 98, which is yes where there is a b.
const WITH_B: [Call<'static>; 2] = [Call::Ask("bca", YES), Call::Ask("aca", NO)];

/// By the rule 30769, which is yes where there are a 1 and an x.
const WITH_1_AND_X: [Call<'static>; 3] = [
    Call::Ask("x = 1;", YES),
    Call::Ask("x = 2;", NO),
    Call::Ask("y = 1;", NO),
];

/// By the rule 23121, which is yes where there are a Q and a Z.
const WITH_Q_AND_Z: [Call<'static>; 2] = [Call::Ask("ZQ", YES), Call::Ask("QQ", NO)];

/// For each rule the number of the first call that isn't answered so.
fn others_by_rule(alloc: Global) -> [Option<usize>; 6] {
    [
        by_rule::<0>(alloc, &ALWAYS),
        by_rule::<255>(alloc, &NEVER),
        by_rule::<97>(alloc, &WITH_A),
        by_rule::<98>(alloc, &WITH_B),
        by_rule::<30769>(alloc, &WITH_1_AND_X),
        by_rule::<23121>(alloc, &WITH_Q_AND_Z),
    ]
}

#[test]
fn a_rule_asks_for_its_bytes(rt: HostRuntime) {
    assert_eq!(rt; others_by_rule(rt.alloc()), [None; 6]);
}

fn logs_opening_and_asks(gate: &RuleGate<97>) -> bool {
    match gate.log() {
        None => false,
        Some(log) => is_log_of(log, &["a", "b"]) && is_opened(log, "work", "test.sh", "input", 3),
    }
}

const LOGGED: [Call<'static>; 3] = [
    Call::Open("work", "test.sh", "input", 3, Ok(())),
    Call::Ask("a", YES),
    Call::Ask("b", NO),
];

fn other_logged(alloc: Global) -> (Option<usize>, bool) {
    let mut gate = RuleGate::<97>::new(alloc, true);
    let other = first_other(&mut gate, &LOGGED);
    (other, logs_opening_and_asks(&gate))
}

#[test]
fn logs_its_opening_and_its_asks(rt: HostRuntime) {
    assert_eq!(rt; other_logged(rt.alloc()), (None, true));
}

// The shell is the script, and each candidate a program for it. The first worker has the number of the
// process, so that a candidate can compare its path and the script's parent.
const BY_A_SHELL: [Call<'static>; 7] = [
    Call::Ask("true\n", YES),
    Call::Ask("false\n", NO),
    Call::Ask("exit 3\n", NO),
    Call::Ask("kill -9 $$\n", NO),
    Call::Ask("test $# = 0 && test -s \"$0\"\n", YES),
    Call::Ask("test \"$0\" = scripts/$PPID/candidate\n", YES),
    Call::Ask("test -z \"$(cat)\"\n", YES),
];

const WITHOUT_A_SCRIPT: [Call<'static>; 4] = [
    Call::Open("scripts", "/no/such/script", "candidate", 7, Ok(())),
    Call::Ask("true\n", FAILED),
    Call::Open("scripts", "no-such-script", "candidate", 7, Ok(())),
    Call::Ask("true\n", FAILED),
];

/// Whether the first worker is opened, and the numbers of the first calls that aren't answered so.
fn other_scripts(rt: HostRuntime, alloc: Global) -> (bool, Option<usize>, Option<usize>) {
    let process = process::id(rt.process());
    let mut gate = ProcessGate::new(rt, alloc);
    let is_open = gate.open("scripts", "/bin/sh", "candidate", process) == Ok(());
    (
        is_open,
        first_other(&mut gate, &BY_A_SHELL),
        first_other(&mut gate, &WITHOUT_A_SCRIPT),
    )
}

/// That, and whether the last candidate is in its file.
fn judged(rt: &HostRuntime) -> Result<((bool, Option<usize>, Option<usize>), bool), Fail> {
    let others = other_scripts(rt.clone()?, rt.alloc());
    let is_written = holds(rt, "scripts/7/candidate", "true\n");
    fs::remove_dir_all(rt, "scripts")?;
    Ok((others, is_written))
}

#[test]
fn judges_by_the_status_of_the_script(rt: HostRuntime) -> Result<(), Fail> {
    assert_eq!(rt; judged(&rt)?, ((true, None, None), true));
    Ok(())
}

const ON_A_FULL_DEVICE: [Call<'static>; 2] = [Call::Ask("text", FAILED), Call::Ask("", YES)];

/// Whether a gate is opened whose candidate is this file, and the number of the first call that isn't
/// answered so.
fn other_on_a_full_device(rt: HostRuntime, alloc: Global, entry: &str) -> (bool, Option<usize>) {
    let process = process::id(rt.process());
    let mut gate = ProcessGate::new(rt, alloc);
    let is_open = gate.open("/proc", "/bin/true", entry, process) == Ok(());
    (is_open, first_other(&mut gate, &ON_A_FULL_DEVICE))
}

/// That of a device with this number among the open files.
fn other_at(rt: &HostRuntime, number: i32) -> Result<(bool, Option<usize>), Fail> {
    let entry = format!(in rt.alloc(); "fd/{number}")?;
    Ok(other_on_a_full_device(rt.clone()?, rt.alloc(), &entry))
}

// The file of a candidate is removed before it is written, and the entry of an open file can't be:
// so the write goes to the device.
fn other_on_full(rt: &HostRuntime) -> Result<(bool, Option<usize>), Fail> {
    let device = fs::create(rt, "/dev/full")?;
    other_at(rt, device.as_raw_fd())
}

#[test]
fn a_full_device_is_a_failed_ask(rt: HostRuntime) -> Result<(), Fail> {
    assert_eq!(rt; other_on_full(&rt)?, (true, None));
    Ok(())
}
