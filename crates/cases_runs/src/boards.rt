//! Boards of two workers, step after step.

ghost use Rattle.std.specs.Prelude.{◌≡◌, [], IfSome};

use crate::alone::{add_outcome, add_refused, list_gate, sink_of};
use crate::case::Case;
use crate::hands::{Got, Hand, are_free, commits, recalls, record_for, seats_of, take_for};
use crate::shown::START;
use crate::small_step::SmallStep;
use crate::{first_of, number_of};
use edge_io::{MemSink, Sink};
use faults::Memory;
use gate_permits::Texts;
use ordered_commit::{Board, BoardFault, Seat};
use reduce_journal::digest_of;
use script_gate_trait::{Gate, RuleGate};
use std::alloc::{AllocError, Global};
use std::sync::Wait;
use verdict_table::Kept;

/// Adds what a worker got; of a text also which one.
fn add_got<G: Gate>(out: &mut String, got: Got, hand: &Hand<'_, G>) -> Result<(), AllocError> {
    match got {
        Got::Work => {
            out.push_str("work ")?;
            hand.add_asked(out)
        }
        Got::Unasked => out.push_str("unasked"),
        Got::NotYet => out.push_str("not yet"),
        Got::Done => out.push_str("done"),
        Got::Stopped => out.push_str("stopped"),
        Got::Refused => out.push_str("refused"),
    }
}

/// Adds the number of the record, or how many records the worker has made where there is none.
fn add_record(out: &mut String, number: Option<u64>, records: u64) -> Result<(), AllocError> {
    match number {
        Some(number) => write!(out, "record {number}"),
        None => write!(out, "no record, {records} made"),
    }
}

/// Adds how many of these were made.
fn add_made(out: &mut String, made: Option<u64>, what: &str) -> Result<(), AllocError> {
    match made {
        Some(count) => write!(out, "{count} {what}"),
        None => write!(out, "{what} fail"),
    }
}

/// Adds what comes of one recall.
fn add_recall<G: Gate>(
    out: &mut String,
    board: &mut Board<SmallStep, G, MemSink>,
) -> Result<(), AllocError> {
    out.push_str(match board.recall() {
        Ok(true) => "recalled",
        Ok(false) => "nothing is recalled",
        Err(BoardFault::Journal) => "a recall is not written",
        Err(BoardFault::Memory(_)) => "out of memory",
    })
}

/// Adds what comes of a worker's step: `takes`, or `records`.
fn add_worker_step<'a, G: Gate, W: Wait>(
    out: &mut String,
    rt: &W,
    texts: &'a Texts,
    board: &mut Board<SmallStep, G, MemSink>,
    hand: &mut Hand<'a, G>,
    word: &str,
) -> Result<(), AllocError> {
    if word == "takes" {
        let got = take_for(rt, texts, board, hand);
        return add_got(out, got, hand);
    }
    let number = record_for(board, hand);
    add_record(out, number, hand.seat.records)
}

/// Adds what comes of a step: `takes N`, by the worker of this number, from 0: a text, or why there is none;
/// `records N`; `recalls` and `commits`, how many are made until no more can be; and `recall`, of one.
fn add_step<'a, G: Gate, W: Wait>(
    out: &mut String,
    rt: &W,
    texts: &'a Texts,
    board: &mut Board<SmallStep, G, MemSink>,
    hands: &mut Vec<Hand<'a, G>>,
    step: &str,
) -> Result<(), AllocError> {
    let (word, worker) = first_of(step);
    match word {
        "recalls" => return add_made(out, recalls(board), word),
        "commits" => return add_made(out, commits(board), word),
        "recall" => return add_recall(out, board),
        _ => {}
    }
    match hands.get_mut(number_of(worker) as usize) {
        Some(hand) => add_worker_step(out, rt, texts, board, hand, word),
        None => out.push_str("no such worker"),
    }
}

/// Adds what comes of each step, on a line of its own.
fn add_steps<'a, G: Gate, W: Wait>(
    out: &mut String,
    rt: &W,
    texts: &'a Texts,
    board: &mut Board<SmallStep, G, MemSink>,
    hands: &mut Vec<Hand<'a, G>>,
    steps: &str,
) -> Result<(), AllocError> {
    for step in steps.split(" / ") {
        add_step(out, rt, texts, board, hands, step)?;
        out.push('\n')?;
    }
    Ok(())
}

/// The two workers, with these gates.
fn hands_of<'a, G: Gate + Drop>(
    alloc: Global,
    seats: &[Seat],
    gates: (G, G),
) -> Result<Vec<Hand<'a, G>>, Memory> {
    let (first, second) = gates;
    let mut hands = Vec::new(alloc);
    if let (Some(one), Some(two)) = (seats.first(), seats.get(1)) {
        hands.push(Hand::new(*one, first))?;
        hands.push(Hand::new(*two, second))?;
    }
    Ok(hands)
}

fn add_busy(out: &mut String) -> Result<(), Memory> {
    Ok(out.push_str("a worker has a claim")?)
}

/// Adds what the board has come to, once its workers have no claim.
fn add_board<G: Gate>(
    out: &mut String,
    alloc: Global,
    board: Board<SmallStep, G, MemSink>,
    hands: &Vec<Hand<'_, G>>,
) -> Result<(), Memory> {
    let seats = seats_of(alloc, hands)?;
    if !are_free(&board, &seats) {
        return add_busy(out);
    }
    let outcome = board.end(seats);
    add_outcome(out, &outcome)
}

/// Adds what comes of the steps, and then of the board.
fn add_on_board<'a, G: Gate + Drop, W: Wait>(
    out: &mut String,
    rt: &W,
    alloc: Global,
    texts: &'a Texts,
    mut board: Board<SmallStep, G, MemSink>,
    mut hands: Vec<Hand<'a, G>>,
    steps: &str,
) -> Result<(), Memory> {
    add_steps(out, rt, texts, &mut board, &mut hands, steps)?;
    add_board(out, alloc, board, &hands)
}

/// Adds what comes of the steps over this journal, which is empty, with these kept verdicts and gates.
fn add_with<G: Gate + Drop, W: Wait>(
    out: &mut String,
    rt: &W,
    alloc: Global,
    journal: MemSink,
    kept: Kept,
    gates: (G, G),
    steps: &str,
) -> Result<(), Memory>
    requires { IfSome (⟦<MemSink as Sink>⟧.put_so_far journal) (λ put. put.bytes ≡ []) }
{
    let texts = Texts::new(alloc)?;
    let front = SmallStep::new(alloc);
    match Board::<SmallStep, G, MemSink>::new(alloc, front, journal, 2, digest_of(START), kept) {
        Err(refused) => add_refused(out, &refused),
        Ok((board, seats)) => {
            let hands = hands_of(alloc, &seats, gates)?;
            add_on_board(out, rt, alloc, &texts, board, hands, steps)
        }
    }
}

/// Adds what comes of `SIZE N STEPS` with these gates: a journal of so many bytes whose put N fails.
fn add_by_gates<G: Gate + Drop, W: Wait>(
    out: &mut String,
    rt: &W,
    alloc: Global,
    case: &Case,
    gates: (G, G),
    text: &str,
) -> Result<(), Memory> {
    let (size, text) = first_of(text);
    let (failing, steps) = first_of(text);
    let kept = case.kept(alloc)?;
    let journal = sink_of(alloc, number_of(size), number_of(failing))?;
    add_with(out, rt, alloc, journal, kept, gates, steps)
}

/// Adds what two workers come to by hand, and each step before it: `GATE GATE SIZE N STEPS`, with ` / ` between two
/// steps.
pub(crate) fn add_hands<W: Wait>(
    out: &mut String,
    rt: &W,
    alloc: Global,
    case: &Case,
    text: &str,
) -> Result<(), Memory> {
    let (first, text) = first_of(text);
    let (second, text) = first_of(text);
    if first == "b" && second == "b" {
        let gates = (
            RuleGate::<98>::new(alloc, false),
            RuleGate::<98>::new(alloc, false),
        );
        return add_by_gates(out, rt, alloc, case, gates, text);
    }
    let gates = (list_gate(alloc, first)?, list_gate(alloc, second)?);
    add_by_gates(out, rt, alloc, case, gates, text)
}
