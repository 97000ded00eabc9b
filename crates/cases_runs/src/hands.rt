//! Workers by hand: each looks before it calls, as a worker does that has just got the board.

ghost use Rattle.std.specs.Prelude.{IsTrue};
ghost use Rattle.boxcar.specs.Table.{Shows};
ghost use Rattle.ordered_commit.specs.BoardState.{IsSettled};
ghost use Rattle.ordered_commit.specs.Seats.{AreFreeSeats};

use crate::shown::add_text;
use crate::small_step::SmallStep;
use edge_io::{MemSink, Sink};
use faults::Memory;
use gate_permits::{Answer, Texts, ask_once};
use ordered_commit::{Board, Seat, Take};
use reduce_step::Step;
use script_gate_trait::Gate;
use std::alloc::{AllocError, Global};
use std::sync::Wait;

/// An answer, with the texts among which its text is.
#[derive(Drop)]
struct Asked<'a, G: Gate> {
    texts: &'a Texts,
    answer: Answer<G>,
    ghost shown: { Shows texts.now answer.token },
}

/// A worker: its seat, its gate, and the answer that it has to record.
#[derive(Drop)]
pub(crate) struct Hand<'a, G: Gate> {
    pub(crate) seat: Seat,
    gate: G,
    asked: Option<Asked<'a, G>>,
}

impl<'a, G: Gate> Hand<'a, G> {
    pub(crate) fn new(seat: Seat, gate: G) -> Hand<'a, G> {
        Hand {
            seat,
            gate,
            asked: None,
        }
    }

    /// Adds the text about which it has an answer.
    pub(crate) fn add_asked(&self, out: &mut String) -> Result<(), AllocError> {
        match &self.asked {
            Some(asked) => add_text(out, asked.texts.value(asked.answer.token()).as_slice()),
            None => out.push_str("nothing"),
        }
    }
}

/// How a take went.
#[derive(Clone, Copy, Debug, PartialEq, Eq)]
pub(crate) enum Got {
    /// A text, about which the gate was asked.
    Work,
    /// A text, about which the gate gave no verdict: the claim was given up.
    Unasked,
    /// Nothing now.
    NotYet,
    /// Nothing more.
    Done,
    /// Nothing more, since a fault is kept.
    Stopped,
    /// Memory ran out, or the worker may not take.
    Refused,
}

/// Makes a recall or a commit if one can be made, and says whether none could.
fn is_settled<S: Step + Drop, G: Gate, J: Sink + Drop>(board: &mut Board<S, G, J>) -> bool
    ensures { IsTrue result → IsSettled S.plan board.new }
{
    match board.recall() {
        Ok(true) => false,
        Ok(false) => match board.commit() {
            Ok(committed) => !committed,
            Err(_) => false,
        },
        Err(_) => false,
    }
}

/// Takes for a worker, and asks its gate.
pub(crate) fn take_for<'a, G: Gate, W: Wait>(
    rt: &W,
    texts: &'a Texts,
    board: &mut Board<SmallStep, G, MemSink>,
    hand: &mut Hand<'a, G>,
) -> Got {
    if !is_settled(board) || hand.seat.claim.is_some() || !board.agrees(&hand.seat) {
        return Got::Refused;
    }
    match board.take(rt, texts, &mut hand.seat) {
        Err(_) => Got::Refused,
        Ok(Take::NotYet) => Got::NotYet,
        Ok(Take::Done) => Got::Done,
        Ok(Take::Stopped) => Got::Stopped,
        Ok(Take::Work(permit)) => match ask_once(&mut hand.gate, texts, permit) {
            Ok(answer) => {
                hand.asked = Some(Asked { texts, answer });
                Got::Work
            }
            Err(unasked) => {
                board.give_up(&mut hand.seat, unasked);
                Got::Unasked
            }
        },
    }
}

/// Records the answer that the worker has, if it may. The record's number.
pub(crate) fn record_for<G: Gate>(
    board: &mut Board<SmallStep, G, MemSink>,
    hand: &mut Hand<'_, G>,
) -> Option<u64> {
    let Asked { texts, answer } = hand.asked.take()?;
    let claim = hand.seat.claim?;
    if claim != answer.claim()
        || !board.agrees(&hand.seat)
        || !board.holds(claim, texts.value(answer.token()).as_slice())
    {
        return None;
    }
    board.record(&mut hand.seat, answer).ok()
}

/// How many recalls are made until no more can be; none where one fails.
pub(crate) fn recalls<G: Gate>(board: &mut Board<SmallStep, G, MemSink>) -> Option<u64> {
    for count in 0..10u64 {
        match board.recall() {
            Ok(true) => {}
            Ok(false) => return Some(count),
            Err(_) => return None,
        }
    }
    None
}

/// How many commits are made until no more can be; none where one fails.
pub(crate) fn commits<G: Gate>(board: &mut Board<SmallStep, G, MemSink>) -> Option<u64> {
    for count in 0..10u64 {
        match board.commit() {
            Ok(true) => {}
            Ok(false) => return Some(count),
            Err(_) => return None,
        }
    }
    None
}

/// Whether these are the free seats of all the board's workers, in order.
#[tactic(auto, using(crate::proofs::FreeSeats::none_looked_at, crate::proofs::FreeSeats::one_more_free, crate::proofs::FreeSeats::all_looked_at))]
pub(crate) fn are_free<G: Gate>(board: &Board<SmallStep, G, MemSink>, seats: &Vec<Seat>) -> bool
    ensures { IsTrue result → AreFreeSeats board.now.seats seats.now.items }
{
    let Some(first) = seats.first() else {
        return false;
    };
    if !board.agrees(first) || seats.len() != board.workers() {
        return false;
    }
    for index in 0..seats.len() {
        let seat = &seats[index];
        if seat.worker as usize != index + 1 || seat.claim.is_some() || !board.agrees(seat) {
            return false;
        }
    }
    true
}

/// The workers' seats.
pub(crate) fn seats_of<G: Gate>(
    alloc: Global,
    hands: &Vec<Hand<'_, G>>,
) -> Result<Vec<Seat>, Memory> {
    let mut seats = Vec::new(alloc);
    for index in 0..hands.len() {
        seats.push(hands[index].seat)?;
    }
    Ok(seats)
}
