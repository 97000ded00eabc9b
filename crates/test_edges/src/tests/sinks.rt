//! Sinks in memory and on the machine.

use super::held::holds;
use super::machine::SlowMachine;
use edge_io::{CutSink, MemSink, NullSink, OpenFault, Sink, SinkFault, StreamSink};
use std::alloc::Global;
use std::fs;
use std::test::Fail;

/// A call of a sink, with the answer that is wanted.
#[derive(Clone, Copy)]
enum Call {
    Open(&'static str, Result<(), OpenFault>),
    Put(&'static str, Result<(), SinkFault>),
}

/// The number, from 0, of the first call that isn't answered so. The bound `Send` shows that each
/// sink may go to a thread.
fn first_other<S: Sink + Send>(sink: &mut S, calls: &[Call]) -> Option<usize> {
    for (number, call) in calls.iter().enumerate() {
        let is_answered = match *call {
            Call::Open(name, wanted) => sink.open(name) == wanted,
            Call::Put(piece, wanted) => sink.put(piece.as_bytes()) == wanted,
        };
        if !is_answered {
            return Some(number);
        }
    }
    None
}

/// Calls of a sink in memory, and the bytes, the name and the number of faults that they leave.
#[derive(Clone, Copy)]
struct Step {
    calls: &'static [Call],
    text: &'static str,
    name: &'static str,
    faults: u64,
}

/// A sink in memory takes pieces while they fit.
const FITTING: [Step; 3] = [
    Step {
        calls: &[
            Call::Put("abc", Ok(())),
            Call::Put("de", Err(SinkFault::Failed)),
            Call::Put("d", Ok(())),
            Call::Put("", Ok(())),
            Call::Put("e", Err(SinkFault::Failed)),
        ],
        text: "abcd",
        name: "",
        faults: 2,
    },
    Step {
        calls: &[Call::Open("next", Ok(()))],
        text: "",
        name: "next",
        faults: 2,
    },
    Step {
        calls: &[Call::Put("efgh", Ok(()))],
        text: "efgh",
        name: "next",
        faults: 2,
    },
];

/// It fails the puts 3 and 4.
const FAILING: [Step; 1] = [Step {
    calls: &[
        Call::Put("a", Ok(())),
        Call::Put("", Ok(())),
        Call::Open("n", Ok(())),
        Call::Put("b", Err(SinkFault::Failed)),
        Call::Put("", Err(SinkFault::Failed)),
        Call::Put("c", Ok(())),
    ],
    text: "c",
    name: "n",
    faults: 2,
}];

/// Whether these bytes, this name and this number of faults are what the step leaves.
fn is_left(step: &Step, bytes: &[u8], name: &str, faults: u64) -> bool {
    bytes == step.text.as_bytes() && name == step.name && faults == step.faults
}

/// The number, from 0, of the first step that isn't so in a sink with this capacity and these failing
/// puts, counted from 1.
fn first_other_step(
    alloc: Global,
    capacity: u64,
    failing: &[u64],
    steps: &[Step],
) -> Result<Option<usize>, Fail> {
    let mut sink = MemSink::new(alloc, capacity, Vec::from_slice(alloc, failing)?)?;
    for (number, step) in steps.iter().enumerate() {
        if first_other(&mut sink, step.calls).is_some()
            || !is_left(step, sink.bytes(), sink.name(), sink.faults())
        {
            return Ok(Some(number));
        }
    }
    Ok(None)
}

#[test]
fn a_sink_in_memory_takes_what_fits_and_fails_as_listed(rt: HostRuntime) -> Result<(), Fail> {
    let others = (
        first_other_step(rt.alloc(), 4, &[], &FITTING)?,
        first_other_step(rt.alloc(), 9, &[3, 4], &FAILING)?,
    );
    assert_eq!(rt; others, (None, None));
    Ok(())
}

/// Sinks whose puts 1 and 3 fail: how many bytes each takes, how many of a piece whose put fails, and what they
/// are asked. A part ends where its piece does, or where the sink is full.
const CUT: [(u64, u64, Step); 3] = [
    (
        9,
        2,
        Step {
            calls: &[
                Call::Put("abc", Err(SinkFault::Failed)),
                Call::Put("d", Ok(())),
                Call::Put("e", Err(SinkFault::Failed)),
            ],
            text: "abde",
            name: "",
            faults: 2,
        },
    ),
    (
        4,
        3,
        Step {
            calls: &[
                Call::Put("ab", Err(SinkFault::Failed)),
                Call::Put("c", Ok(())),
                Call::Put("def", Err(SinkFault::Failed)),
                Call::Put("x", Err(SinkFault::Failed)),
                Call::Put("", Ok(())),
            ],
            text: "abcd",
            name: "",
            faults: 3,
        },
    ),
    (
        9,
        0,
        Step {
            calls: &[
                Call::Put("ab", Err(SinkFault::Failed)),
                Call::Open("n", Ok(())),
                Call::Put("abc", Ok(())),
                Call::Put("d", Err(SinkFault::Failed)),
            ],
            text: "abc",
            name: "n",
            faults: 2,
        },
    ),
];

/// Whether such a sink goes so.
fn is_cut_so(alloc: Global, capacity: u64, part: u64, step: &Step) -> Result<bool, Fail> {
    let mut sink = CutSink::new(alloc, capacity, Vec::from_slice(alloc, &[1, 3])?, part)?;
    let is_answered = first_other(&mut sink, step.calls).is_none();
    Ok(is_answered && is_left(step, sink.bytes(), sink.name(), sink.faults()))
}

#[test]
fn a_put_that_is_cut_off_adds_a_part_of_its_piece(rt: HostRuntime) -> Result<(), Fail> {
    for (capacity, part, step) in CUT.iter() {
        assert!(rt; is_cut_so(rt.alloc(), *capacity, *part, step)?);
    }
    Ok(())
}

/// A stream puts into what was opened last.
const ON_THE_MACHINE: [Call; 9] = [
    Call::Put("", Err(SinkFault::Failed)),
    Call::Put("x", Err(SinkFault::Failed)),
    Call::Open("sinks/file", Ok(())),
    Call::Put("first ", Ok(())),
    Call::Open("sinks/missing/below", Err(OpenFault::Failed)),
    Call::Put("second", Ok(())),
    Call::Open("/dev/full", Ok(())),
    Call::Put("", Ok(())),
    Call::Put("x", Err(SinkFault::Failed)),
];

const SLOWLY: [Call; 3] = [
    Call::Open("sinks/slow", Ok(())),
    Call::Put("put ", Ok(())),
    Call::Put("whole", Ok(())),
];

fn other_in_a_file(rt: HostRuntime) -> Option<usize> {
    first_other(&mut StreamSink::file(rt), &ON_THE_MACHINE)
}

fn other_slowly(rt: HostRuntime) -> Option<usize> {
    first_other(&mut StreamSink::file(SlowMachine::new(rt)), &SLOWLY)
}

/// Nothing is put on the standard output, and what is put on a null sink isn't kept.
fn other_without_a_file(rt: HostRuntime) -> (Option<usize>, Option<usize>) {
    let nothing = [Call::Put("", Ok(()))];
    let some = [Call::Put("put", Ok(()))];
    (
        first_other(&mut StreamSink::output(rt), &nothing),
        first_other(&mut NullSink::new(), &some),
    )
}

/// The numbers of the first calls that aren't answered so, in a file, slowly, and without a file.
type Others = [Option<usize>; 4];

fn other_puts(rt: &HostRuntime) -> Result<Others, Fail> {
    let in_a_file = other_in_a_file(rt.clone()?);
    let slowly = other_slowly(rt.clone()?);
    let (output, nothing) = other_without_a_file(rt.clone()?);
    Ok([in_a_file, slowly, output, nothing])
}

/// Those, in a folder of their own, and whether the files are whole.
fn whole_puts(rt: &HostRuntime) -> Result<(Others, bool), Fail> {
    fs::create_dir_all(rt, "sinks")?;
    let others = other_puts(rt)?;
    let held = holds(rt, "sinks/file", "first second") && holds(rt, "sinks/slow", "put whole");
    fs::remove_dir_all(rt, "sinks")?;
    Ok((others, held))
}

#[test]
fn a_stream_puts_into_what_was_opened_last(rt: HostRuntime) -> Result<(), Fail> {
    assert_eq!(rt; whole_puts(&rt)?, ([None; 4], true));
    Ok(())
}

/// The machine's number of the last failure of the sink.
fn last_reason(sink: &StreamSink<HostRuntime>) -> Option<i32> {
    sink.reason().and_then(|error| error.raw_os_error())
}

/// Whether there is no reason at first, a file can't be opened, and another one can't be written; and that
/// number after each of these two failures.
fn reasons_of(rt: HostRuntime) -> (bool, [Option<i32>; 2]) {
    let mut sink = StreamSink::file(rt);
    let is_quiet = sink.reason().is_none();
    let is_refused = sink.open("/dev/null/below").is_err();
    let opened = last_reason(&sink);
    let is_full = sink.open("/dev/full").is_ok() && sink.put(b"x").is_err();
    let put = last_reason(&sink);
    (is_quiet && is_refused && is_full, [opened, put])
}

#[test]
fn a_stream_keeps_the_last_reason(rt: HostRuntime) -> Result<(), Fail> {
    let wanted = [Some(20), Some(28)];
    assert_eq!(rt; reasons_of(rt.clone()?), (true, wanted));
    Ok(())
}
