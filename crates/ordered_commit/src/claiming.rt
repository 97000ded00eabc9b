//! How a worker gets a text to ask about.

ghost use Rattle.std.specs.Prelude.{◌≡◌, ◌≤◌, ◌*◌, ◌+◌, None, Some, true, IfOk, IfSome, find, length, position, vec_capacity};
ghost use Rattle.boxcar.specs.Table.{Shows};
ghost use Rattle.reduce_step.specs.Limits.{text_limit};
ghost use Rattle.reduce_step.specs.Ahead.{ahead};
ghost use Rattle.reduce_step.specs.Plan.{asked};
ghost use Rattle.ordered_commit.specs.BoardState.{IsSettled};
ghost use Rattle.verdict_table.specs.TableState.{found_in};
ghost use Rattle.ordered_commit.specs.inner.Claiming.{ClaimsNext, is_absent, is_claimed, is_free};
ghost use Rattle.ordered_commit.specs.Seats.{Agrees, SameForOthers};
ghost use Rattle.ordered_commit.specs.TakeEnds.{IsShown, TakeEnds};

use crate::board::Board;
use crate::claim_table::ClaimTable;
use crate::fault::PoolFault;
use crate::seat::{Seat, put_seat, with_claim};
use crate::take::Take;
use edge_io::Sink;
use faults::Memory;
use gate_permits::{Permit, Texts};
use reduce_journal::Event;
use reduce_step::Step;
use script_gate_trait::{Bytes, Gate};
use std::alloc::{AllocError, Global};
use std::sync::Wait;
use verdict_table::{Found, Kept};

/// Whether the table holds neither a record nor an open claim of the text.
pub(crate) fn is_absent(table: &ClaimTable, text: &[u8]) -> bool
    ensures { result ≡ is_absent table.now text.now }
{
    matches!(table.find(text), Found::Absent)
}

/// Whether this is the open claim of the text.
pub(crate) fn is_claimed(table: &ClaimTable, text: &[u8], claim: u64) -> bool
    ensures { result ≡ is_claimed claim (found_in table.now text.now) }
{
    match table.find(text) {
        Found::Claimed(number) => number == claim,
        Found::Absent | Found::Filled { .. } => false,
    }
}

/// Whether the table doesn't hold the text, and no verdict is kept for it.
fn is_free(kept: &Kept, table: &ClaimTable, text: &[u8]) -> bool
    ensures { result ≡ is_free kept.now table.now text.now }
{
    is_absent(table, text) && kept.find(text).is_none()
}

/// Where the first of these texts is that is free.
fn first_free(kept: &Kept, table: &ClaimTable, texts: &[Bytes]) -> Option<usize>
    ensures { result ≡ position (is_free kept.now table.now) texts.now }
{
    texts
        .iter()
        .position(|text| is_free(kept, table, text.as_slice()))
}

/// A copy of the text that the front asks, where it is free.
fn own_text<S: Step>(
    alloc: Global,
    front: &S,
    kept: &Kept,
    table: &ClaimTable,
) -> Result<Option<Bytes>, Memory>
    ensures own { IfOk result (λ text. IfSome text (λ text. (asked (S.plan front.now) ≡ Some text) × (is_free kept.now table.now text ≡ true))) }
    ensures short { IfOk result (λ text. IfSome text (λ text. length text ≤ text_limit)) }
{
    match front.asks() {
        Some(text) if is_free(kept, table, text) => Ok(Some(Bytes::from_slice(alloc, text)?)),
        _ => Ok(None),
    }
}

/// The first of so many texts ahead of the front that is free. It looks further than the front's own
/// text only where that isn't, since a look ahead copies the front.
fn next_text<S: Step>(
    alloc: Global,
    front: &S,
    kept: &Kept,
    table: &ClaimTable,
    most: u32,
) -> Result<Option<Bytes>, Memory>
    requires { 1 ≤ most }
    ensures text { IfOk result (λ text. text ≡ find (is_free kept.now table.now) (ahead most (S.plan front.now))) }
    ensures short { IfOk result (λ text. IfSome text (λ text. length text ≤ text_limit)) }
{
    if let Some(text) = own_text(alloc, front, kept, table)? {
        return Ok(Some(text));
    }
    let mut texts = front.ahead(most)?;
    match first_free(kept, table, &texts) {
        None => Ok(None),
        Some(index) => Ok(Some(texts.swap_remove(index))),
    }
}

/// Claims the first free text ahead of the front, two for each worker, reserves the places of its
/// record and of its event, and pushes it into the texts.
fn claim_next<S: Step, W: Wait>(
    rt: &W,
    texts: &Texts,
    front: &S,
    kept: &Kept,
    table: &mut ClaimTable,
    events: &mut Vec<Event>,
    workers: usize,
) -> Result<Option<Permit>, Memory>
    requires { (1 ≤ workers) × (workers ≤ 16) }
    ensures claim { ClaimsNext kept.now (ahead (2 * workers) (S.plan front.now)) result table.old table.new }
    ensures short { IfOk result (λ permit. IfSome permit (λ permit. length permit.text ≤ text_limit)) }
    ensures shows { IfOk result (λ permit. IfSome permit (λ permit. Shows texts.now permit.token)) }
    ensures events { events.new.items ≡ events.old.items }
    ensures capacity { vec_capacity events.old ≤ vec_capacity events.new }
    ensures places { IfOk result (λ permit. IfSome permit (λ permit. length events.old.items + workers ≤ vec_capacity events.new)) }
{
    let alloc = *events.allocator();
    let Some(text) = next_text(alloc, front, kept, table, 2 * workers as u32)? else {
        return Ok(None);
    };
    events.reserve(workers)?;
    let Ok(token) = texts.push_shown(rt, text.share()?) else {
        // The texts hand the text back where they get no memory for it, and say no more.
        return Err(Memory::from(AllocError));
    };
    let claim = table.claim(text)?;
    Ok(Some(Permit::new(claim, token)))
}

impl<S: Step + Drop, G: Gate, J: Sink + Drop> Board<S, G, J> {
    /// Claims the first free text ahead of the front for the worker of this seat, if there is one. What
    /// its record takes is reserved, so that a verdict that comes is never lost for memory. The text is
    /// pushed into the texts, which may wait for another push; where memory runs out they may hold one
    /// text more.
    ///
    /// It costs a look into the table and the kept verdicts, and a copy of the text, which the texts and
    /// the table share. Where the front's own text is claimed, it also costs a look ahead of two texts
    /// for each worker, and such a look for each.
    pub fn take<W: Wait>(&mut self, rt: &W, texts: &Texts, seat: &mut Seat) -> Result<Take, Memory>
        requires agrees { Agrees self.old.seats seat.old }
        requires free { seat.old.claim ≡ None }
        requires settled { IsSettled S.plan self.old }
        ensures ends { TakeEnds S.plan result seat.old seat.new self.old self.new }
        ensures shows { IfOk result (IsShown texts.now) }
        ensures agrees { Agrees self.new.seats seat.new }
        ensures others { SameForOthers seat.old.worker self.old.seats self.new.seats }
    {
        if self.fault.is_some() {
            return Ok(Take::Stopped);
        }
        if self.front.asks().is_none() {
            return Ok(Take::Done);
        }
        match claim_next(
            rt,
            texts,
            &self.front,
            &self.kept,
            &mut self.table,
            &mut self.events,
            self.seats.len(),
        ) {
            Err(memory) => {
                self.fault = Some(PoolFault::Memory(memory));
                Err(memory)
            }
            Ok(None) => Ok(Take::NotYet),
            Ok(Some(permit)) => {
                *seat = with_claim(*seat, permit.claim());
                put_seat(&mut self.seats, *seat);
                Ok(Take::Work(permit))
            }
        }
    }
}
