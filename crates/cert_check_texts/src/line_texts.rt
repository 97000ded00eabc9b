//! Texts of lines.

ghost use Rattle.std.specs.Prelude.{◌≡◌, ◌↔◌, ◌<◌, ◌≤◌, ℕ, List, IfOk, IsTrue, length, slice_index};
ghost use Rattle.std.specs.List.Sorted.{IsStrictlyIncreasing};
ghost use Rattle.keep_guard.specs.Keep.{keeps_admit};
ghost use Rattle.reduce_core.specs.Candidates.{IsLineCandidate, IsSubsequence};
ghost use Rattle.reduce_core.specs.Lines.{numbered_lines, text_of};
ghost use Rattle.reduce_core.specs.declared.lines.Line.{Line};
ghost use Rattle.reduce_step.specs.Limits.{text_limit};

use crate::candidates::Candidates;
use crate::numbers::Numbers;
use faults::Memory;
use keep_guard::{KeepTexts, holds_all};
use reduce_core::first_line_end;
use std::alloc::Global;
use std::marker::Model;

/// The lines of a start, and the texts that stay.
#[derive(Drop)]
pub struct LineTexts<'s, 'k> {
    start: &'s [u8],
    numbers: Numbers<'s>,
    keeps: KeepTexts<'k>,
}

impl<'s, 'k> Model for LineTexts<'s, 'k> {
    ghost use Rattle.reduce_core.specs.Lines.{lines_of};
    ghost use Rattle.std.specs.Prelude.{length};
    ghost use Rattle.cert_check_texts.specs.Texts.{LineStart};
    ghost use Rattle.cert_check_texts.specs.inner.Code.{lines_coded};
    ghost use Rattle.cert_check_texts.specs.inner.Numbers.{HasNumbers, line_at};

    ghost Value = { LineStart };

    ghost coded = { lines_coded };

    ghost view = { λ t. record { start = t.start.now; keeps = t.keeps } };

    ghost invariant = { λ t. HasNumbers t.numbers (line_at t.start.now) (length (lines_of t.start.now)) };
}

impl<'s, 'k> Candidates for LineTexts<'s, 'k> {
    ghost IsCandidate = { λ texts text. IsLineCandidate (keeps_admit texts.keeps) texts.start text };

    /// What it takes is said at the head of this crate.
    fn is_candidate(&self, text: &[u8]) -> Result<bool, Memory> {
        if !self.are_lines(text) {
            return Ok(false);
        }
        Ok(holds_all(text, &self.keeps))
    }
}

/// The index of the first of these numbers, which rise, that is no less than this one; or how many there are.
pub(crate) fn index_from(numbers: &[u32], from: usize) -> usize
    requires { IsStrictlyIncreasing numbers.now }
    ensures before { (k : ℕ) → k < result → slice_index numbers.now k < from }
    ensures others { (k : ℕ) → result ≤ k → k < length numbers.now → from ≤ slice_index numbers.now k }
{
    numbers.partition_point(|number| (*number as usize) < from)
}

impl<'s, 'k> LineTexts<'s, 'k> {
    /// Of a start of at most 1,048,576 bytes. It takes the start's bytes times the logarithm of how many
    /// different lines it has.
    pub fn new(
        alloc: Global,
        start: &'s [u8],
        keeps: KeepTexts<'k>,
    ) -> Result<LineTexts<'s, 'k>, Memory>
        requires short { length start.now ≤ text_limit }
        ensures start { IfOk result (λ texts. texts.start ≡ start.now) }
        ensures keeps { IfOk result (λ texts. texts.keeps ≡ keeps.entry) }
    {
        let numbers = Numbers::of_lines(alloc, start)?;
        Ok(LineTexts {
            start,
            numbers,
            keeps,
        })
    }

    /// Whether some of the start's lines, in their order, are the text. For each line of the text the
    /// first one of the start is taken that is the same, and comes after those that were taken: no
    /// other choice leaves more of them.
    fn are_lines(&self, text: &[u8]) -> bool
        ensures { IsTrue result ↔ ((lines : List Line) × IsSubsequence lines (numbered_lines self.now.start) × (text.now ≡ text_of lines)) }
    {
        let mut rest = text;
        let mut next = 0;
        while !rest.is_empty() {
            let (line, later) = rest.split_at(first_line_end(rest));
            let equal = self.numbers.with(line);
            let at = index_from(equal, next);
            if at >= equal.len() {
                return false;
            }
            next = equal[at] as usize + 1;
            rest = later;
        }
        true
    }
}
