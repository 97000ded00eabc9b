//! The runs of a printed text.

ghost use Rattle.std.specs.Prelude.{◌≡◌, ◌≢◌, ◌⊎◌, ◌≤◌, ◌<◌, ◌+◌, ◌-◌, ◌^◌, ◌∷◌, true, false, nat_eq, cond, length, map, drop, slice_index, MatchOption, ⊤};
ghost use Rattle.std.specs.List.{All};
ghost use Rattle.std.specs.List.Sorted.{IsStrictlyIncreasing};
ghost use Rattle.lexer.specs.Tokens.{token_of};
ghost use Rattle.token_print.specs.LexingLaws.{AreInOrder};
ghost use Rattle.token_print.specs.inner.Ahead.{HasPassed, IsStretch, RunsAreShort, all_ahead, runs_from};
ghost use Rattle.token_print.specs.inner.Copies.{run_end};
ghost use Rattle.token_print.specs.Spelling.{gap_text};
ghost use Rattle.token_print.specs.Printed.{separator};
ghost use Rattle.token_print.specs.Runs.{runs, stretches};

use crate::layout::Layout;
use crate::style::Style;

/// A run: a longest stretch of a printed text that is as it is in the start. Offsets are in bytes from 0.
#[derive(Clone, Copy)]
pub struct Run {
    /// Where it begins in the text.
    pub at: usize,

    /// Where it begins in the start.
    pub from: usize,

    /// Where it ends in the start.
    pub to: usize,

    /// Up to which offset of the start a piece may have been seen that it carries.
    pub limit: usize,
}

/// Whether the numbers from the one index up to the other follow one another.
fn follow(kept: &[u32], from: usize, to: usize) -> bool
    requires order { from ≤ to }
    requires inside { to < length kept.now }
    requires rise { IsStrictlyIncreasing kept.now }
    ensures yes { result ≡ true → slice_index kept.now to ≡ slice_index kept.now from + (to - from) }
    ensures no { result ≡ false → slice_index kept.now to ≢ slice_index kept.now from + (to - from) }
{
    (kept[to] - kept[from]) as usize == to - from
}

/// An index from which on the numbers from `from` on follow one another up to there, and one, after it,
/// where they don't or where there are none. They are found by steps that are doubled.
fn around_end(kept: &[u32], from: usize) -> (usize, usize)
    requires inside { from < length kept.now }
    requires rise { IsStrictlyIncreasing kept.now }
    ensures known { (from ≤ result.0) × (result.0 < result.1) × (result.1 ≤ length kept.now) }
    ensures follows { slice_index kept.now result.0 ≡ slice_index kept.now from + (result.0 - from) }
    ensures apart { (result.1 ≡ length kept.now) ⊎ (slice_index kept.now result.1 ≢ slice_index kept.now from + (result.1 - from)) }
{
    let mut known = from;
    let mut step = 1usize;
    while step < kept.len() - known {
        if !follow(kept, from, known + step) {
            return (known, known + step);
        }
        known += step;
        step = step.saturating_mul(2);
    }
    (known, kept.len())
}

/// The index up to which the numbers from `from` on follow one another. It takes time in proportion to the
/// logarithm of how many they are.
fn stretch_end(kept: &[u32], from: usize) -> usize
    requires inside { from < length kept.now }
    requires rise { IsStrictlyIncreasing kept.now }
    ensures { IsStretch kept.now from result }
{
    let (mut known, mut end) = around_end(kept, from);
    while end - known > 1 {
        let middle = known + (end - known) / 2;
        if follow(kept, from, middle) {
            known = middle;
        } else {
            end = middle;
        }
    }
    end
}

/// The index of the kept token after the run that begins at the index.
pub(crate) fn next_run(style: Style, kept: &[u32], first: usize) -> usize
    requires first { first < length kept.now }
    requires rise { IsStrictlyIncreasing kept.now }
    ensures after { first < result }
    ensures inside { result ≤ length kept.now }
    ensures stretches { stretches style (drop first kept.now)
        ≡ (slice_index kept.now first, slice_index kept.now (result - 1)) ∷ stretches style (drop result kept.now) }
{
    match style {
        Style::AsWas => stretch_end(kept, first),
        Style::Squeezed => first + 1,
    }
}

/// The runs of a printed text, one after another.
#[derive(Drop)]
pub(crate) struct Runs<'a> {
    layout: Layout<'a>,
    kept: &'a [u32],

    /// The run, or None after the last one.
    pub(crate) current: Option<Run>,

    /// The index of the first kept token after it.
    next: usize,
}

impl<'a> Runs<'a> {
    /// At the first run.
    pub(crate) fn new(layout: Layout<'a>, kept: &'a [u32]) -> Runs<'a>
        requires rise { IsStrictlyIncreasing kept.now }
        requires kept { All (λ i. i < length layout.tokens.now) kept.now }
        requires order { AreInOrder layout.start.now (map token_of layout.tokens.now) }
        requires small { length layout.start.now < 2 ^ 32 }
        ensures runs { all_ahead result ≡ runs layout.entry.skips layout.entry.start.now (map token_of layout.entry.tokens.now) kept.now layout.entry.style }
        ensures layout { result.layout ≡ layout.entry }
        ensures kept { result.kept.now ≡ kept.now }
    {
        if layout.is_whole() {
            return Runs {
                layout,
                kept,
                current: Some(layout.whole_run()),
                next: kept.len(),
            };
        }
        let mut runs = Runs {
            layout,
            kept,
            current: None,
            next: 0,
        };
        runs.advance(0);
        runs
    }

    /// Where the run begins in the text whose first kept token has this index. What is printed before it
    /// begins at the offset, and is nothing before the first run.
    fn begin(&self, first: usize, at: usize) -> usize
        requires first { first < length self.now.kept.now }
        requires kept { All (λ i. i < length self.now.layout.tokens.now) self.now.kept.now }
        requires order { AreInOrder self.now.layout.start.now (map token_of self.now.layout.tokens.now) }
        requires small { length self.now.layout.start.now < 2 ^ 32 }
        requires room { at < 2 ^ 32 }
        ensures { result ≡ at + cond (nat_eq first 0) 0
            (length (separator self.now.layout.skips
            (gap_text self.now.layout.start.now (map token_of self.now.layout.tokens.now) (slice_index self.now.kept.now first)))) }
    {
        if first == 0 {
            at
        } else {
            at + self.layout.separator(self.kept[first]).len()
        }
    }

    /// Goes to the next run. What is printed before it begins at this offset of the text.
    fn advance(&mut self, at: usize)
        requires rise { IsStrictlyIncreasing self.old.kept.now }
        requires kept { All (λ i. i < length self.old.layout.tokens.now) self.old.kept.now }
        requires order { AreInOrder self.old.layout.start.now (map token_of self.old.layout.tokens.now) }
        requires small { length self.old.layout.start.now < 2 ^ 32 }
        requires room { at < 2 ^ 32 }
        ensures runs { all_ahead self.new ≡ runs_from self.old.layout self.old.kept.now self.old.next at }
        ensures layout { self.new.layout ≡ self.old.layout }
        ensures kept { self.new.kept ≡ self.old.kept }
    {
        let kept = self.kept;
        let first = self.next;
        if first >= kept.len() {
            self.current = None;
            return;
        }
        let end = next_run(self.layout.style, kept, first);
        let begin = self.begin(first, at);
        let run = self.layout.run(begin, kept[first], kept[end - 1]);
        self.current = Some(run);
        self.next = end;
    }

    /// Goes on to the run that the offset of the text is in; where it is in none, to the next one.
    pub(crate) fn go_to(&mut self, offset: usize)
        requires rise { IsStrictlyIncreasing self.old.kept.now }
        requires kept { All (λ i. i < length self.old.layout.tokens.now) self.old.kept.now }
        requires order { AreInOrder self.old.layout.start.now (map token_of self.old.layout.tokens.now) }
        requires small { length self.old.layout.start.now < 2 ^ 32 }
        requires runs { RunsAreShort (all_ahead self.old) }
        ensures runs { HasPassed offset (all_ahead self.old) (all_ahead self.new) }
        ensures current { MatchOption self.new.current ⊤ (λ run. offset < run_end run) }
        ensures layout { self.new.layout ≡ self.old.layout }
        ensures kept { self.new.kept ≡ self.old.kept }
    {
        while let Some(run) = self.current {
            let end = run.at + (run.to - run.from);
            if offset < end {
                return;
            }
            self.advance(end);
        }
    }
}
