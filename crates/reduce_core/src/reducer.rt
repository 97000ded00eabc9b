//! The reducer of mode `lines`.

ghost use Rattle.std.specs.Prelude.{◌≡◌, ◌≤◌, length, IfOk};
ghost use Rattle.reduce_step.specs.Limits.{text_limit};
ghost use Rattle.reduce_core.specs.LineMode.{line_mode, line_plan};
ghost use Rattle.reduce_rounds.specs.RoundsPlan.{IsStart};

use crate::line_round::LineRound;
use crate::lines::Lines;
use faults::Memory;
use keep_guard::{Guard, Relation};
use reduce_rounds::{ReducerStep, Rounds};
use reduce_step::Step;
use std::alloc::Global;

/// The reducer of mode `lines`: the start is asked first, and then rounds of delta debugging over
/// the lines of the last yes are made until one round changes nothing. A candidate that its guard
/// doesn't admit counts as no, and is neither asked nor counted.
///
/// An answer takes time linear in the bytes and lines that its round began with, and so much again,
/// with a call of the guard, for each candidate that isn't admitted before the next one that is: that
/// may be some four for each line of the round.
pub type LineReducer<'a, F> = Rounds<LineRound<'a, F>>;

/// The reduction of the lines of a start, of at most 1,048,576 bytes, in which the guard says what
/// may be asked. The start is asked whatever the guard says of it; the laws on the end and on what is
/// asked speak of a start that the guard admits.
pub fn line_reducer<'a, F: Relation>(
    alloc: Global,
    start: &'a [u8],
    guard: &'a Guard<F>,
) -> Result<Rounds<LineRound<'a, F>>, Memory>
    requires { length start.now ≤ text_limit }
    ensures plan { IfOk result (λ reducer. ⟦<Rounds<LineRound<'a, F>> as Step>⟧.plan reducer ≡ line_plan (F.admits guard.now) start.now) }
    ensures first { IfOk result (λ reducer. ⟦<Rounds<LineRound<'a, F>> as Step>⟧.first reducer ≡ line_plan (F.admits guard.now) start.now) }
    ensures start { IfOk result (λ reducer. IsStart (line_mode (record { admits = F.admits guard.now; start = start.now }))
        (⟦<Rounds<LineRound<'a, F>> as ReducerStep>⟧.so_far reducer)) }
{
    let lines = Lines::split(alloc, start)?;
    let units = lines.len() as u64;
    let text = Vec::from_slice(alloc, start)?;
    let round = LineRound::new(alloc, start, guard, lines)?;
    Ok(Rounds::new(alloc, text, units, round))
}
