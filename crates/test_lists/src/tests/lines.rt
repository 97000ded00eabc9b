//! The reducer of lines beside the plain recursion, and what the plain recursion keeps.

use super::answers::{Always, HasBoth, Remainder, TwoLines};
use crate::guards::{KeepsLine, guard_of};
use faults::Memory;
use keep_guard::{Guard, Relation};
use reduce_core::{
    Candidate, LineReducer, Lines, ReducerStep, Reduction, Test, line_reducer, plain_reduction,
};
use reduce_step::{Step, TEXT_LIMIT};
use script_gate_trait::Verdict;
use std::alloc::Global;
use std::test::Fail;

/// The text of all lines.
fn text_of(alloc: Global, lines: &Lines) -> Result<Vec<u8>, Memory> {
    let all = vec![in alloc; true; lines.len()]?;
    let mut candidate = Candidate::new(alloc);
    lines.write_kept(&all, &mut candidate)?;
    Ok(candidate.text)
}

/// Whether the step asks this text, which the test answers then.
fn asks_this<T: Test, S: Step>(test: &T, step: &mut S, text: &[u8]) -> Result<bool, Memory> {
    let Some(asked) = step.asks() else {
        return Ok(false);
    };
    if asked != text {
        return Ok(false);
    }
    let verdict = if test.test(asked) {
        Verdict::Yes
    } else {
        Verdict::No
    };
    step.answer(verdict)?;
    Ok(true)
}

/// Whether the step asks these texts, in this order, where the test answers each, and then no more.
fn asks_these<T: Test, S: Step>(test: &T, step: &mut S, texts: &[Vec<u8>]) -> Result<bool, Memory> {
    for text in texts {
        if !asks_this(test, step, text)? {
            return Ok(false);
        }
    }
    Ok(step.asks().is_none())
}

/// Whether the reducer asks what the plain recursion asked, and ends with the same.
fn goes_like<T: Test, F: Relation>(
    alloc: Global,
    test: &T,
    mut reducer: LineReducer<'_, F>,
    plain: &Reduction,
) -> Result<bool, Memory> {
    Ok(asks_these(test, &mut reducer, &plain.questions)? && ends_like(alloc, &reducer, plain)?)
}

/// Whether the reducer asks what the plain recursion asks, and ends with the same.
fn agrees<T: Test, F: Relation>(
    alloc: Global,
    test: &T,
    start: &[u8],
    guard: &Guard<F>,
) -> Result<bool, Memory> {
    if start.len() > TEXT_LIMIT {
        return Ok(false);
    }
    let plain = plain_reduction(alloc, test, guard, start)?;
    goes_like(alloc, test, line_reducer(alloc, start, guard)?, &plain)
}

/// Whether the reducer has come to the same as the plain recursion.
fn ends_like<F: Relation>(
    alloc: Global,
    reducer: &LineReducer<'_, F>,
    plain: &Reduction,
) -> Result<bool, Memory> {
    let text = text_of(alloc, &plain.lines)?;
    Ok(
        reducer.result() == text.as_slice()
            && reducer.units() == plain.lines.len() as u64
            && reducer.used() == plain.questions.len() as u64
            && reducer.rounds() == plain.rounds
            && reducer.refused() == plain.refused,
    )
}

/// The same, with a guard over keep texts.
fn agrees_with<T: Test>(
    alloc: Global,
    test: &T,
    start: &[u8],
    keeps: &[&[u8]],
) -> Result<bool, Memory> {
    let guard = guard_of(alloc, keeps)?;
    agrees(alloc, test, start, &guard)
}

/// Whether they agree on the start for each rule without a guard.
fn agrees_on_rules(alloc: Global, start: &[u8]) -> Result<bool, Memory> {
    for (a, b) in [(b'a', b'a'), (b'b', b'b'), (b'b', b'd'), (0, 255)] {
        if !agrees_with(alloc, &HasBoth(a, b), start, &[])? {
            return Ok(false);
        }
    }
    for remainder in 0..3usize {
        if !agrees_with(alloc, &Remainder(remainder), start, &[])? {
            return Ok(false);
        }
    }
    Ok(
        agrees_with(alloc, &Always(true), start, &[])?
            && agrees_with(alloc, &Always(false), start, &[])?
            && agrees_with(alloc, &TwoLines, start, &[])?,
    )
}

/// Whether they agree on the start for guards over keep texts, and over the numbers of lines.
fn agrees_on_guards(alloc: Global, start: &[u8]) -> Result<bool, Memory> {
    for keep in [
        b"b".as_slice(),
        b"\nb".as_slice(),
        b"\n\n".as_slice(),
        b"\xff".as_slice(),
    ] {
        if !agrees_with(alloc, &Remainder(0), start, &[keep])?
            || !agrees_with(alloc, &Always(true), start, &[b"d".as_slice(), keep])?
        {
            return Ok(false);
        }
    }
    for line in 0..4u32 {
        if !agrees(alloc, &TwoLines, start, &Guard::new(KeepsLine(line)))? {
            return Ok(false);
        }
    }
    Ok(true)
}

/// The number of the first start, from 0, on which they don't agree.
fn first_disagreement(alloc: Global, starts: &[&[u8]]) -> Result<Option<usize>, Memory> {
    for (number, start) in starts.iter().enumerate() {
        if !agrees_on_rules(alloc, *start)? || !agrees_on_guards(alloc, *start)? {
            return Ok(Some(number));
        }
    }
    Ok(None)
}

#[test]
fn asks_what_the_plain_recursion_asks(rt: HostRuntime) -> Result<(), Fail> {
    let starts = [
        b"".as_slice(),
        b"\n".as_slice(),
        b"a".as_slice(),
        b"a\n".as_slice(),
        b"a\nb\nc\n".as_slice(),
        b"a\nb\nc\nd\ne".as_slice(),
        b"b\nb\nd\nb\nd\n".as_slice(),
        b"\n\nbd\n\n".as_slice(),
        b"\x00\n\xff\xff\nb\x00\nd".as_slice(),
    ];
    assert_eq!(rt; first_disagreement(rt.alloc(), &starts)?, None);
    Ok(())
}

/// Whether the lines are this text.
fn are_text(alloc: Global, lines: &Lines, wanted: &[u8]) -> Result<bool, Memory> {
    let text = text_of(alloc, lines)?;
    Ok(text.as_slice() == wanted)
}

/// Whether a reduction asks these texts, keeps the line that is needed, and so ends.
fn keeps_b(alloc: Global, found: &Reduction) -> Result<bool, Memory> {
    let asked = match found.questions.get(3) {
        Some(question) => question.as_slice() == b"b\nc\n".as_slice(),
        None => false,
    };
    let is_so = asked && found.questions.len() == 6 && found.rounds == 2 && !found.refused;
    Ok(is_so && are_text(alloc, &found.lines, b"b\n")?)
}

/// Whether the plain recursion with this guard does.
fn plain_keeps_b_with<F: Relation>(alloc: Global, guard: &Guard<F>) -> Result<bool, Memory> {
    let plain = plain_reduction(alloc, &HasBoth(b'b', b'b'), guard, b"a\nb\nc\n")?;
    keeps_b(alloc, &plain)
}

/// Whether the plain recursion does without keep texts.
fn plain_keeps_b(alloc: Global) -> Result<bool, Memory> {
    let guard = guard_of(alloc, &[])?;
    plain_keeps_b_with(alloc, &guard)
}

/// The first line and the last of three.
const OUTER: [bool; 3] = [true, false, true];

/// Whether the lines are three, of which the first and the last are kept as lines.
fn keeps_lines(alloc: Global, lines: &Lines) -> Result<bool, Memory> {
    if lines.len() != OUTER.len() {
        return Ok(false);
    }
    let remaining = lines.kept(alloc, &OUTER)?;
    Ok(remaining.len() == 2 && are_text(alloc, &remaining, b"a\nb")?)
}

/// A candidate that has something already.
fn used_candidate(alloc: Global) -> Result<Candidate, Memory> {
    let mut candidate = Candidate::new(alloc);
    candidate.text.push(b'x')?;
    candidate.numbers.push(7)?;
    Ok(candidate)
}

/// Whether the lines are three, of which the first and the last are kept as a text and as numbers.
fn writes_lines(alloc: Global, lines: &Lines) -> Result<bool, Memory> {
    if lines.len() != OUTER.len() {
        return Ok(false);
    }
    let mut candidate = used_candidate(alloc)?;
    lines.write_kept(&OUTER, &mut candidate)?;
    Ok(
        candidate.text.as_slice() == b"a\nb".as_slice()
            && candidate.numbers.as_slice() == [0, 2].as_slice(),
    )
}

/// Whether a text has three lines, of which the first and the last are kept as a text, as numbers and
/// as lines.
fn keeps_outer_lines(alloc: Global) -> Result<bool, Memory> {
    let lines = Lines::split(alloc, b"a\n\nb")?;
    Ok(keeps_lines(alloc, &lines)? && writes_lines(alloc, &lines)?)
}

#[test]
fn keeps_what_is_needed_and_marked(rt: HostRuntime) -> Result<(), Fail> {
    assert!(rt; plain_keeps_b(rt.alloc())?, "the plain recursion");
    assert!(rt; keeps_outer_lines(rt.alloc())?, "the marked lines");
    Ok(())
}
