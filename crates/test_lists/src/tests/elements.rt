//! The machine against the plain recursion, and against runs worked by hand.

ghost use Rattle.std.specs.Prelude.{◌≡◌, ◌==◌, ◌&&◌, ◌%◌, ◌||◌, not, false, count_by, nat_le, slice_get, unwrap_or};

use faults::Memory;
use list_ddmin::{Ddmin, Outcome, Test, plain_list_step};
use std::alloc::Global;
use std::test::Fail;

/// Yes where these three elements are kept.
#[derive(Drop)]
struct AllOf(usize, usize, usize);

impl Test for AllOf {
    ghost verdict = { λ needed keep.
        unwrap_or (slice_get keep needed.0) false && unwrap_or (slice_get keep needed.1) false && unwrap_or (slice_get keep needed.2) false };

    fn test(&self, keep: &[bool]) -> bool {
        keeps(keep, self.0) && keeps(keep, self.1) && keeps(keep, self.2)
    }
}

/// Whether the list keeps the element at `place`. It keeps none past its end.
fn keeps(keep: &[bool], place: usize) -> bool
    ensures { result ≡ unwrap_or (slice_get keep.now place) false }
{
    keep.get(place).copied().unwrap_or(false)
}

/// Yes where at least so many elements are kept.
#[derive(Drop)]
struct AtLeast(usize);

impl Test for AtLeast {
    ghost verdict = { λ least keep. nat_le least.0 (count_by (λ kept. kept) keep) };

    fn test(&self, keep: &[bool]) -> bool {
        keep.iter().filter(|kept| **kept).count() >= self.0
    }
}

/// Yes where the number of kept elements has this remainder by 3, so that fewer elements may be no
/// and still fewer yes again.
#[derive(Drop)]
struct Remainder(usize);

impl Test for Remainder {
    ghost verdict = { λ remainder keep. (count_by (λ kept. kept) keep % 3) == remainder.0 };

    fn test(&self, keep: &[bool]) -> bool {
        keep.iter().filter(|kept| **kept).count() % 3 == self.0
    }
}

/// Yes where the first element isn't kept, or the second is: a use and its declaration.
#[derive(Drop)]
struct Needs(usize, usize);

impl Test for Needs {
    ghost verdict = { λ needs keep. not (unwrap_or (slice_get keep needs.0) false) || unwrap_or (slice_get keep needs.1) false };

    fn test(&self, keep: &[bool]) -> bool {
        !keeps(keep, self.0) || keeps(keep, self.1)
    }
}

/// Whether the machine asks these questions, where the test answers each, and then no more.
fn asks_these<T: Test>(machine: &mut Ddmin, test: &T, questions: &[Vec<bool>]) -> bool {
    for question in questions {
        let Some(asked) = machine.asks() else {
            return false;
        };
        if asked != question.as_slice() {
            return false;
        }
        let yes = test.test(asked);
        machine.answer(yes);
    }
    machine.asks().is_none()
}

/// Whether the machine asks what the plain recursion asked, and ends with the same.
fn goes_like<T: Test>(mut machine: Ddmin, test: &T, plain: &Outcome) -> bool {
    asks_these(&mut machine, test, &plain.questions) && machine.kept() == plain.result.as_slice()
}

/// Whether the machine asks what the plain recursion asks, and ends with the same.
fn agrees<T: Test>(alloc: Global, test: &T, len: u32, may_be_empty: bool) -> Result<bool, Memory> {
    let plain = plain_list_step(alloc, test, len, may_be_empty)?;
    Ok(goes_like(Ddmin::new(alloc, len, may_be_empty)?, test, &plain))
}

/// Whether they agree on lists of so many elements by each rule with this number.
fn agrees_by_rules(alloc: Global, len: u32, may_be_empty: bool, a: usize) -> Result<bool, Memory> {
    for b in 0..9usize {
        if !agrees(alloc, &AllOf(a, b, b), len, may_be_empty)?
            || !agrees(alloc, &Needs(a, b), len, may_be_empty)?
        {
            return Ok(false);
        }
    }
    Ok(
        agrees(alloc, &AtLeast(a), len, may_be_empty)?
            && agrees(alloc, &Remainder(a), len, may_be_empty)?,
    )
}

#[test]
fn asks_what_the_plain_recursion_asks(rt: HostRuntime) -> Result<(), Fail> {
    for len in 0..9u32 {
        for may_be_empty in [false, true] {
            for a in 0..9usize {
                assert!(rt;
                    agrees_by_rules(rt.alloc(), len, may_be_empty, a)?,
                    "a rule with {a} of {len}"
                );
            }
        }
    }
    Ok(())
}

/// Answers the machine to its end, and counts the answers.
fn answers<T: Test>(test: &T, machine: &mut Ddmin) -> u32 {
    let mut count: u32 = 0;
    for _ in 0..1000u32 {
        let Some(asked) = machine.asks() else {
            return count;
        };
        let yes = test.test(asked);
        machine.answer(yes);
        count = count.saturating_add(1);
    }
    count
}

/// The first and the last of four.
const OUTER: [bool; 4] = [true, false, false, true];

/// How many questions the machine asks of four elements, and whether it keeps the first and the last.
fn outer_by_machine(alloc: Global) -> Result<(u32, bool), Memory> {
    let mut machine = Ddmin::new(alloc, 4, true)?;
    let count = answers(&AllOf(0, 3, 3), &mut machine);
    Ok((count, machine.kept() == OUTER.as_slice()))
}

/// How many the plain recursion asks, and whether it keeps these.
fn outer_by_recursion(alloc: Global) -> Result<(usize, bool), Memory> {
    let plain = plain_list_step(alloc, &AllOf(0, 3, 3), 4, true)?;
    Ok((
        plain.questions.len(),
        plain.result.as_slice() == OUTER.as_slice(),
    ))
}

#[test]
fn keeps_the_first_and_the_last_of_four(rt: HostRuntime) -> Result<(), Fail> {
    assert_eq!(rt; outer_by_machine(rt.alloc())?, (20, true));
    assert_eq!(rt; outer_by_recursion(rt.alloc())?, (20, true));
    Ok(())
}

/// How many questions the machine asks of nine elements; whether it keeps the three that are needed; and
/// whether its copy, which goes on by its own answers, still keeps all.
fn three_of_nine(alloc: Global) -> Result<(u32, bool, bool), Memory> {
    let mut machine = Ddmin::new(alloc, 9, false)?;
    let copy = machine.copy()?;
    let count = answers(&AllOf(1, 4, 5), &mut machine);
    let needed = [false, true, false, false, true, true, false, false, false];
    let keeps_needed = machine.kept() == needed.as_slice();
    Ok((count, keeps_needed, copy.kept() == [true; 9].as_slice()))
}

#[test]
fn keeps_three_of_nine(rt: HostRuntime) -> Result<(), Fail> {
    assert_eq!(rt; three_of_nine(rt.alloc())?, (31, true, true));
    Ok(())
}
