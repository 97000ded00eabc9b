//! Mode `lines`: what a round tries.

ghost use Rattle.std.specs.Prelude.{◌≡◌, ◌≤◌, length, IfOk};
ghost use Rattle.list_ddmin.specs.Machine as list;
ghost use Rattle.reduce_step.specs.Limits.{text_limit};
ghost use Rattle.reduce_core.specs.inner.Fields.{Agrees, AreCopies, IsAsked, IsInLimit};
ghost use Rattle.reduce_core.specs.inner.FieldProps.{agrees_prop};

use crate::lines::{Candidate, Lines};
use faults::Memory;
use keep_guard::{Guard, Relation};
use list_ddmin::Ddmin;
use reduce_rounds::Round;
use std::alloc::Global;

/// A candidate of a list step, and whether the guard admits it.
#[derive(Drop)]
struct Question {
    candidate: Candidate,
    listed: bool,
}

/// A round of delta debugging over the lines of the last yes. The start and the guard are lent, so
/// that a copy doesn't copy them.
///
/// An answer takes time linear in the bytes and lines that the round began with, and calls the guard
/// once.
#[derive(Drop)]
pub struct LineRound<'a, F: Relation> {
    alloc: Global,
    start: &'a [u8],
    guard: &'a Guard<F>,
    lines: Lines,
    step: Ddmin,
    /// None where the list step asks nothing, and after an error.
    asked: Option<Question>,
    ghost agrees: { Agrees (F.admits guard.now) lines step asked } by { agrees_prop (F.admits guard.now) lines step asked },
}

impl<'a, F: Relation> LineRound<'a, F> {
    ghost use Rattle.reduce_core.specs.Lines.{numbered_lines};
    ghost use Rattle.reduce_rounds.specs.Trials.{Done};

    /// Before the first round of the lines of a start, of at most 1,048,576 bytes.
    pub(crate) fn new(
        alloc: Global,
        start: &'a [u8],
        guard: &'a Guard<F>,
        lines: Lines,
    ) -> Result<LineRound<'a, F>, Memory>
        requires short { length start.now ≤ text_limit }
        requires lines { lines ≡ numbered_lines start.now }
        ensures input { IfOk result (λ round. ⟦<LineRound<'a, F> as Round>⟧.input round ≡ record { admits = F.admits guard.now; start = start.now }) }
        ensures state { IfOk result (λ round. ⟦<LineRound<'a, F> as Round>⟧.state round ≡ numbered_lines start.now) }
        ensures rest { IfOk result (λ round. ⟦<LineRound<'a, F> as Round>⟧.rest round ≡ Done) }
    {
        let step = Ddmin::new(alloc, lines.len() as u32, true)?;
        Ok(LineRound {
            alloc,
            start,
            guard,
            lines,
            step,
            asked: None,
        })
    }
}

impl<'a, F: Relation> Round for LineRound<'a, F> {
    ghost use Rattle.std.specs.Prelude.{List};
    ghost use Rattle.list_ddmin.specs.ListStep.{kept_of};
    ghost use Rattle.reduce_core.specs.declared.lines.Line.{Line};
    ghost use Rattle.reduce_core.specs.LineMode.{AreOfStart, LineInput, line_mode};
    ghost use Rattle.reduce_core.specs.inner.Fields.{rest_of};

    ghost Input = { LineInput };

    ghost State = { List Line };

    ghost mode = { line_mode };

    ghost Kept = { AreOfStart };

    ghost input = { λ r. record { admits = F.admits r.guard.now; start = r.start.now } };

    ghost state = { λ r. kept_of (list.kept r.step) r.lines };

    ghost rest = { λ r. rest_of r.lines r.step r.asked };

    fn is_over(&self) -> bool {
        self.asked.is_none()
    }

    fn asks(&self) -> Option<&[u8]> {
        match &self.asked {
            None => None,
            Some(question) => if question.listed {
                Some(question.candidate.text.as_slice())
            } else {
                None
            },
        }
    }

    fn units(&self) -> u64 {
        match &self.asked {
            None => unreachable!(),
            Some(question) => question.candidate.numbers.len() as u64,
        }
    }

    fn answer(&mut self, yes: bool) -> Result<(), Memory> {
        let candidate = spare_candidate(self.alloc, self.asked.take());
        self.step.answer(yes);
        self.asked = ask(self.guard, &self.lines, &self.step, candidate)?;
        Ok(())
    }

    fn begin_round(&mut self) -> Result<(), Memory> {
        let candidate = spare_candidate(self.alloc, self.asked.take());
        let lines = self.lines.kept(self.alloc, self.step.kept())?;
        let step = Ddmin::new(self.alloc, lines.len() as u32, true)?;
        self.lines = lines;
        self.step = step;
        self.asked = ask(self.guard, &self.lines, &self.step, candidate)?;
        Ok(())
    }

    fn next_phase(&mut self) -> Result<bool, Memory> {
        Ok(false)
    }

    fn phases_agree() {}

    fn copy(&self) -> Result<LineRound<'a, F>, Memory> {
        let lines = self.lines.copy(self.alloc)?;
        let step = self.step.copy()?;
        let asked = copy_of(&self.asked)?;
        Ok(LineRound {
            alloc: self.alloc,
            start: self.start,
            guard: self.guard,
            lines,
            step,
            asked,
        })
    }
}

/// A candidate to be written anew: that of a question that was answered, if there is one.
fn spare_candidate(alloc: Global, asked: Option<Question>) -> Candidate {
    match asked {
        None => Candidate::new(alloc),
        Some(question) => question.candidate,
    }
}

/// Makes the candidate what the list step asks, and asks the guard whether it is admitted. None where
/// the list step asks nothing.
fn ask<F: Relation>(
    guard: &Guard<F>,
    lines: &Lines,
    step: &Ddmin,
    mut candidate: Candidate,
) -> Result<Option<Question>, Memory>
    requires same { length (list.kept step.now) ≡ length lines.now }
    requires limit { IsInLimit lines.now }
    ensures { IfOk result (λ asked. IsAsked (F.admits guard.now) (list.asks step.now) lines.now asked) }
{
    let Some(keep) = step.asks() else {
        return Ok(None);
    };
    lines.write_kept(keep, &mut candidate)?;
    let listed = guard.admits(&candidate.numbers, &candidate.text);
    Ok(Some(Question { candidate, listed }))
}

/// The same question again.
fn copy_of(asked: &Option<Question>) -> Result<Option<Question>, Memory>
    ensures { IfOk result (λ copy. AreCopies asked.now copy) }
{
    match asked {
        None => Ok(None),
        Some(question) => {
            let candidate = Candidate {
                text: question.candidate.text.clone()?,
                numbers: question.candidate.numbers.clone()?,
            };
            Ok(Some(Question {
                candidate,
                listed: question.listed,
            }))
        }
    }
}
