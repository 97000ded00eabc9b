//! A mode for tests, which deletes byte by byte.

ghost use Rattle.std.specs.Prelude.{◌≡◌, ◌≤◌, ◌<◌, ◌+◌, length, IfOk, option_map, if◌then◌else◌, drop, ◌∷◌};
ghost use Rattle.reduce_step.specs.Limits.{text_limit};
ghost use Rattle.cases_reducers.specs.Fields.{Agrees, IsWithout};
ghost use Rattle.cases_reducers.specs.FieldProps.{agrees_prop};
ghost use Rattle.reduce_rounds.specs.RoundsPlan.{plan_first};
ghost use Rattle.cases_reducers.specs.ByteMode.{IsNoLonger, byte_mode};

use faults::Memory;
use reduce_rounds::{Round, Rounds};
use reduce_step::Step;
use std::alloc::Global;

/// A round that deletes byte by byte. The start is lent, so that a copy doesn't copy it.
#[derive(Drop)]
pub struct ByteRound<'a> {
    alloc: Global,
    start: &'a [u8],
    text: Vec<u8>,
    next: Option<Vec<u8>>,
    at: usize,
    ghost agrees: { Agrees text.items (option_map (λ v. v.items) next) at } by { agrees_prop text.items (option_map (λ v. v.items) next) at },
}

/// The reducer of a start, whose first byte is a mark.
pub fn byte_reducer<'a>(alloc: Global, start: &'a [u8]) -> Result<Rounds<ByteRound<'a>>, Memory>
    requires some { 1 ≤ length start.now }
    requires short { length start.now ≤ text_limit }
    ensures { IfOk result (λ reducer. ⟦<Rounds<ByteRound<'a>> as Step>⟧.plan reducer ≡ plan_first (byte_mode start.now)) }
{
    let mut next = Vec::from_slice(alloc, start)?;
    next[0] = 9;
    let round = ByteRound {
        alloc,
        start,
        text: Vec::from_slice(alloc, start)?,
        next: Some(next),
        at: 0,
    };
    let text = Vec::from_slice(alloc, start)?;
    Ok(Rounds::new(alloc, text, start.len() as u64, round))
}

/// The text without the byte at a position. None past the end.
fn without(alloc: Global, text: &[u8], at: usize) -> Result<Option<Vec<u8>>, Memory>
    ensures { IfOk result (λ next. IsWithout text.now at (option_map (λ v. v.items) next)) }
{
    if at >= text.len() {
        return Ok(None);
    }
    let mut next = Vec::from_slice(alloc, text)?;
    next.remove(at);
    Ok(Some(next))
}

/// At yes the text is the one that was tried.
fn keep(text: &mut Vec<u8>, next: Vec<u8>, yes: bool)
    ensures { text.new.items ≡ (if yes then next.items else text.old.items) }
{
    if yes {
        *text = next;
    }
}

/// At yes the text is the one that was tried, and at no the next position is tried.
fn go_on(text: &mut Vec<u8>, at: &mut usize, next: Vec<u8>, yes: bool)
    requires { at.old < length text.old.items }
    ensures text { text.new.items ≡ (if yes then next.items else text.old.items) }
    ensures at { at.new ≡ (if yes then at.old else at.old + 1) }
{
    if yes {
        *text = next;
    } else {
        *at += 1;
    }
}

/// A copy of what is tried.
fn copy_of(next: &Option<Vec<u8>>) -> Result<Option<Vec<u8>>, Memory>
    ensures { IfOk result (λ copy. option_map (λ v. v.items) copy ≡ option_map (λ v. v.items) next.now) }
{
    match next {
        None => Ok(None),
        Some(text) => Ok(Some(text.clone()?)),
    }
}

impl<'a> Round for ByteRound<'a> {
    ghost use Rattle.std.specs.Prelude.{List, ℕ};
    ghost use Rattle.reduce_rounds.specs.Mode.{PhasesAgree};
    ghost use Rattle.cases_reducers.specs.Fields.{rest_at};

    ghost Input = { List ℕ };

    ghost State = { List ℕ };

    ghost mode = { byte_mode };

    ghost Kept = { IsNoLonger };

    ghost input = { λ r. r.start.now };

    ghost state = { λ r. r.text.items };

    ghost rest = { λ r. rest_at r.text.items (option_map (λ v. v.items) r.next) r.at };

    fn is_over(&self) -> bool {
        self.next.is_none()
    }

    fn asks(&self) -> Option<&[u8]> {
        match &self.next {
            None => None,
            Some(next) => {
                if next.len() > 1 {
                    Some(next.as_slice())
                } else {
                    None
                }
            }
        }
    }

    fn units(&self) -> u64 {
        match &self.next {
            None => unreachable!(),
            Some(next) => next.len() as u64,
        }
    }

    fn answer(&mut self, yes: bool) -> Result<(), Memory> {
        let Some(next) = self.next.take() else {
            return Ok(());
        };
        if self.at == 0 {
            keep(&mut self.text, next, yes);
            return Ok(());
        }
        go_on(&mut self.text, &mut self.at, next, yes);
        self.next = without(self.alloc, &self.text, self.at)?;
        Ok(())
    }

    fn begin_round(&mut self) -> Result<(), Memory> {
        self.next = None;
        self.at = 1;
        self.next = without(self.alloc, &self.text, 1)?;
        Ok(())
    }

    fn next_phase(&mut self) -> Result<bool, Memory> {
        Ok(false)
    }

    fn phases_agree()
        ensures { (start : List ℕ) → PhasesAgree (byte_mode start) }
    {}

    fn copy(&self) -> Result<ByteRound<'a>, Memory> {
        Ok(ByteRound {
            alloc: self.alloc,
            start: self.start,
            text: self.text.clone()?,
            next: copy_of(&self.next)?,
            at: self.at,
        })
    }
}
