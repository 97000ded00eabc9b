//! What is printed of the kept tokens of a start: its runs, and what is between and after them.

ghost use Rattle.std.specs.Prelude.{◌≡◌, ℕ, ◌<◌, ◌≤◌, ◌^◌, ◌++◌, suc, nat_eq, true, false, cond, List, [], ◌∷◌, None, IfOk, length, map};
ghost use Rattle.std.specs.List.{All};
ghost use Rattle.std.specs.List.Sorted.{IsStrictlyIncreasing};
ghost use Rattle.lexer.specs.Tokens.{token_of};
ghost use Rattle.token_print.specs.LexingLaws.{AreInOrder};
ghost use Rattle.token_print.specs.Spelling.{gap_end, gap_start, gap_text, spelling_at};
ghost use Rattle.token_print.specs.Kept.{AreKept};
ghost use Rattle.token_print.specs.Printed.{after, final_newline, printed, printed_after, separator};
ghost use Rattle.token_print.specs.Runs.{run_at, run_from, run_limit, run_to, runs, runs_at, stretches};
ghost use Rattle.token_print.specs.inner.RunTexts.{run_text, runs_text, text_after, text_from};

use crate::runs::{Run, next_run};
use crate::spellings::spelling;
use crate::style::{Skips, Style};
use faults::Memory;
use lexer::Token;
use std::alloc::Global;

/// What is printed before a token that doesn't follow the last kept one, by the token's own gap.
fn separator(skips: Skips, gap: &str) -> &'static str
    ensures { result.now ≡ separator skips gap.now }
{
    if skips.newline && gap.as_bytes().contains(&b'\n') {
        "\n"
    } else if skips.space {
        " "
    } else {
        ""
    }
}

/// A newline where newlines are skipped.
fn final_newline(skips: Skips) -> &'static str
    ensures { result.now ≡ final_newline skips }
{
    if skips.newline { "\n" } else { "" }
}

/// A start with its tokens, and how it is printed. Tokens have their numbers from 0, and offsets count the
/// bytes of the start from 0.
#[derive(Clone, Copy)]
pub struct Layout<'a> {
    pub start: &'a str,
    pub tokens: &'a [Token],
    pub skips: Skips,
    pub style: Style,
}

impl<'a> Layout<'a> {
    /// Where the gap with this number begins, in bytes from 0.
    fn gap_start(&self, index: usize) -> usize
        requires { index ≤ length self.now.tokens.now }
        ensures { result ≡ gap_start self.now.start.now (map token_of self.now.tokens.now) index }
    {
        if index == 0 {
            0
        } else {
            self.tokens[index - 1].end as usize
        }
    }

    /// Where it ends.
    fn gap_end(&self, index: usize) -> usize
        ensures { result ≡ gap_end self.now.start.now (map token_of self.now.tokens.now) index }
    {
        if index < self.tokens.len() {
            self.tokens[index].start as usize
        } else {
            self.start.len()
        }
    }

    /// The gap with this number: before the token of this number, or after all tokens.
    pub fn gap(&self, index: usize) -> &'a str
        requires index { index ≤ length self.now.tokens.now }
        requires order { AreInOrder self.now.start.now (map token_of self.now.tokens.now) }
        ensures { result.now ≡ gap_text self.now.start.now (map token_of self.now.tokens.now) index }
    {
        let from = self.gap_start(index);
        let to = self.gap_end(index);
        &self.start[from..to]
    }

    /// The spelling of the token with this number.
    pub fn spelling(&self, index: u32) -> &'a str
        requires index { index < length self.now.tokens.now }
        requires order { AreInOrder self.now.start.now (map token_of self.now.tokens.now) }
        ensures { result.now ≡ spelling_at self.now.start.now (map token_of self.now.tokens.now) index }
    {
        spelling(self.start, self.tokens[index as usize])
    }

    /// Whether the start is printed whole, as it has no tokens.
    pub(crate) fn is_whole(&self) -> bool
        ensures whole { result ≡ true → (kept : List ℕ)
            → printed self.now.skips self.now.start.now (map token_of self.now.tokens.now) kept self.now.style ≡ self.now.start.now }
        ensures kept { result ≡ false → (kept : List ℕ) → printed self.now.skips self.now.start.now (map token_of self.now.tokens.now) kept self.now.style
            ≡ printed_after self.now.skips self.now.start.now (map token_of self.now.tokens.now) self.now.style None kept }
        ensures whole_run { result ≡ true → (kept : List ℕ)
            → runs self.now.skips self.now.start.now (map token_of self.now.tokens.now) kept self.now.style
            ≡ record { at = 0; from = 0; to = length self.now.start.now; limit = suc (length self.now.start.now) } ∷ [] }
        ensures runs { result ≡ false → (kept : List ℕ) → runs self.now.skips self.now.start.now (map token_of self.now.tokens.now) kept self.now.style
            ≡ runs_at self.now.skips self.now.start.now (map token_of self.now.tokens.now) self.now.style 0 (stretches self.now.style kept) }
    {
        match self.style {
            Style::AsWas => self.tokens.is_empty(),
            Style::Squeezed => false,
        }
    }

    /// What is printed between this token and the kept one before it, where its own gap isn't. It takes time
    /// linear in that gap.
    pub fn separator(&self, index: u32) -> &'static str
        requires index { index < length self.now.tokens.now }
        requires order { AreInOrder self.now.start.now (map token_of self.now.tokens.now) }
        ensures { result.now ≡ separator self.now.skips (gap_text self.now.start.now (map token_of self.now.tokens.now) index) }
    {
        separator(self.skips, self.gap(index as usize))
    }

    /// What is printed as it was after the last kept token.
    fn trailing(&self, last: u32) -> &'a str
        requires order { AreInOrder self.now.start.now (map token_of self.now.tokens.now) }
        ensures { result.now ≡ cond (nat_eq (suc last) (length self.now.tokens.now))
            (gap_text self.now.start.now (map token_of self.now.tokens.now) (length self.now.tokens.now)) (final_newline self.now.skips) }
    {
        let count = self.tokens.len();
        if last as usize + 1 == count {
            self.gap(count)
        } else {
            final_newline(self.skips)
        }
    }

    /// What is printed after the last kept token; nothing where none is kept.
    pub fn after(&self, last: Option<u32>) -> &'a str
        requires order { AreInOrder self.now.start.now (map token_of self.now.tokens.now) }
        ensures { result.now ≡ after self.now.skips self.now.start.now (map token_of self.now.tokens.now) self.now.style last }
    {
        match (self.style, last) {
            (_, None) => "",
            (Style::Squeezed, Some(_)) => final_newline(self.skips),
            (Style::AsWas, Some(last)) => self.trailing(last),
        }
    }

    /// The run that is the whole start, where it is printed whole.
    pub(crate) fn whole_run(&self) -> Run
        requires { length self.now.start.now < 2 ^ 32 }
        ensures { result ≡ record { at = 0; from = 0; to = length self.now.start.now; limit = suc (length self.now.start.now) } }
    {
        Run {
            at: 0,
            from: 0,
            to: self.start.len(),
            limit: self.start.len() + 1,
        }
    }

    /// Where the run that begins with this token begins in the start.
    fn run_start(&self, first: u32) -> usize
        ensures { result ≡ run_from self.now.skips self.now.start.now (map token_of self.now.tokens.now) self.now.style first }
    {
        match self.style {
            Style::AsWas if first == 0 => 0,
            _ => self.gap_end(first as usize),
        }
    }

    /// Whether the run that ends with this token has the trailing gap.
    fn trails(&self, last: u32) -> bool
        ensures to { run_to self.now.skips self.now.start.now (map token_of self.now.tokens.now) self.now.style last ≡ cond result (length self.now.start.now)
            (gap_start self.now.start.now (map token_of self.now.tokens.now) (suc last)) }
        ensures limit { run_limit self.now.skips self.now.start.now (map token_of self.now.tokens.now) self.now.style last ≡ cond result
            (suc (length self.now.start.now)) (gap_start self.now.start.now (map token_of self.now.tokens.now) (suc last)) }
        ensures after { text_after self.now.skips self.now.start.now (map token_of self.now.tokens.now) self.now.style last
            ≡ cond result [] (final_newline self.now.skips) }
    {
        match self.style {
            Style::AsWas => last as usize + 1 == self.tokens.len(),
            Style::Squeezed => false,
        }
    }

    /// Where the run that ends with this token ends in the start.
    fn run_end(&self, last: u32) -> usize
        requires { last < length self.now.tokens.now }
        ensures { result ≡ run_to self.now.skips self.now.start.now (map token_of self.now.tokens.now) self.now.style last }
    {
        if self.trails(last) {
            self.start.len()
        } else {
            self.gap_start(last as usize + 1)
        }
    }

    /// The run of the tokens with the numbers from the first up to the last, which begins there in the
    /// text.
    pub(crate) fn run(&self, at: usize, first: u32, last: u32) -> Run
        requires last { last < length self.now.tokens.now }
        requires small { length self.now.start.now < 2 ^ 32 }
        ensures { result ≡ run_at self.now.skips self.now.start.now (map token_of self.now.tokens.now) self.now.style at (first, last) }
    {
        let from = self.run_start(first);
        let to = self.run_end(last);
        let limit = if self.trails(last) { to + 1 } else { to };
        Run {
            at,
            from,
            to,
            limit,
        }
    }

    /// The bytes of this run.
    fn run_bytes(&self, first: u32, last: u32) -> &'a [u8]
        requires order { AreInOrder self.now.start.now (map token_of self.now.tokens.now) }
        requires rises { first ≤ last }
        requires last { last < length self.now.tokens.now }
        ensures { result.now ≡ run_text self.now.skips self.now.start.now (map token_of self.now.tokens.now) self.now.style (first, last) }
    {
        let from = self.run_start(first);
        let to = self.run_end(last);
        &self.start.as_bytes()[from..to]
    }

    /// What is printed after the last kept token.
    fn ending(&self, kept: &[u32]) -> &'static str
        ensures { result.now ≡ text_from self.now.skips self.now.start.now (map token_of self.now.tokens.now) self.now.style kept.now (length kept.now) }
    {
        match kept.last() {
            Some(last) if !self.trails(*last) => final_newline(self.skips),
            _ => "",
        }
    }

    /// Prints the run that begins with the kept token at the index, after what separates it from the run
    /// before it, and gives the index after the run.
    fn push_run(&self, text: &mut Vec<u8>, kept: &[u32], first: usize) -> Result<usize, Memory>
        requires order { AreInOrder self.now.start.now (map token_of self.now.tokens.now) }
        requires rise { IsStrictlyIncreasing kept.now }
        requires kept { All (λ i. i < length self.now.tokens.now) kept.now }
        requires first { first < length kept.now }
        ensures after { IfOk result (λ next. first < next) }
        ensures inside { IfOk result (λ next. next ≤ length kept.now) }
        ensures text { IfOk result (λ next.
            text.new.items ++ text_from self.now.skips self.now.start.now (map token_of self.now.tokens.now) self.now.style kept.now next
            ≡ text.old.items ++ text_from self.now.skips self.now.start.now (map token_of self.now.tokens.now) self.now.style kept.now first) }
    {
        if first > 0 {
            text.extend_from_slice(self.separator(kept[first]).as_bytes())?;
        }
        let next = next_run(self.style, kept, first);
        let run = self.run_bytes(kept[first], kept[next - 1]);
        text.extend_from_slice(run)?;
        Ok(next)
    }

    /// The text of the kept tokens, run by run.
    fn kept_text(&self, alloc: Global, kept: &[u32]) -> Result<Vec<u8>, Memory>
        requires order { AreInOrder self.now.start.now (map token_of self.now.tokens.now) }
        requires rise { IsStrictlyIncreasing kept.now }
        requires kept { All (λ i. i < length self.now.tokens.now) kept.now }
        ensures { IfOk result (λ text. text.items
            ≡ runs_text self.now.skips self.now.start.now (map token_of self.now.tokens.now) self.now.style (stretches self.now.style kept.now)) }
    {
        let mut text = Vec::new(alloc);
        let mut next = 0;
        while next < kept.len() {
            next = self.push_run(&mut text, kept, next)?;
        }
        text.extend_from_slice(self.ending(kept).as_bytes())?;
        Ok(text)
    }

    /// The text of the kept tokens.
    pub(crate) fn text(&self, alloc: Global, kept: &[u32]) -> Result<Vec<u8>, Memory>
        requires order { AreInOrder self.now.start.now (map token_of self.now.tokens.now) }
        requires kept { AreKept (map token_of self.now.tokens.now) kept.now }
        ensures { IfOk result (λ text. text.items ≡ printed self.now.skips self.now.start.now
            (map token_of self.now.tokens.now) kept.now self.now.style) }
    {
        if self.is_whole() {
            let text = Vec::from_slice(alloc, self.start.as_bytes())?;
            Ok(text)
        } else {
            let text = self.kept_text(alloc, kept)?;
            Ok(text)
        }
    }
}
