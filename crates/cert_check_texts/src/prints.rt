//! Whether a text is printed in one style of some of a start's tokens.

ghost use Rattle.std.specs.Prelude.{◌≡◌, ◌↔◌, ◌<◌, ◌+◌, ◌-◌, ◌*◌, ◌^◌, ℕ, List, [], All, None, Some, IfOk, IsTrue, MatchOption, OnOk, length, map, min};
ghost use Rattle.std.specs.Prelude.{nat_eq, cond, suc};
ghost use Rattle.lexer.specs.Tokens.{token_of};
ghost use Rattle.token_print.specs.LexingLaws.{AreInOrder, IsSlice};
ghost use Rattle.token_print.specs.Spelling.{gap_text, spelling, spelling_at};
ghost use Rattle.token_print.specs.Printed.{before, separator};
ghost use Rattle.std.specs.List.{Contains};
ghost use Rattle.cert_check_texts.specs.declared.reached.Reached.{Reached as SomeReached};
ghost use Rattle.cert_check_texts.specs.inner.Reached.{AreSeparators, AreSorted, AreWith, Follows, IsAfter, LeavesOut, SomeOf};
ghost use Rattle.cert_check_texts.specs.inner.Print.{AreAfterBy, AreAfterFirst, AreAfterToken, CanEnd, GoesOn, IsLaidOut};
ghost use Rattle.cert_check_texts.specs.inner.Print.{AreOf, AreSomeAfter, LeadsTo, LeadsToLater, LeadsToNext, SomeCanEnd, tokens_in};

use crate::line_texts::index_from;
use crate::numbers::Numbers;
use crate::prefix::{rest_after, rest_from};
use crate::reached::{FEW, Reached, first_few, first_pairs, united};
use faults::{Limit, Memory};
use lexer::Token;
use std::alloc::Global;
use token_print::{Layout, Style, spelling};

/// How many pairs are tried: one for each that is reached, and one for each offset and token of the
/// spelling. A start of 2^20 bytes has at most 2^20 tokens, so they are within their limit where one
/// offset is reached.
fn count_tries(reached: usize, offsets: usize, equal: usize) -> usize
    ensures { result ≡ min (min (offsets * equal) (2 ^ 64 - 1) + reached) (2 ^ 64 - 1) }
{
    offsets.saturating_mul(equal).saturating_add(reached)
}

/// What is printed between each token of the start and the kept one before it, where the token's own gap
/// isn't. It takes time linear in the start.
pub(crate) fn separators(alloc: Global, layout: &Layout<'_>) -> Result<Vec<&'static str>, Memory>
    requires few { length layout.now.tokens.now < 2 ^ 32 }
    requires order { AreInOrder layout.now.start.now (map token_of layout.now.tokens.now) }
    ensures { IfOk result (λ all. AreSeparators layout.now.skips layout.now.start.now (map token_of layout.now.tokens.now)
        (length layout.now.tokens.now) all.items) }
{
    let mut all = Vec::new(alloc);
    for index in 0..layout.tokens.len() as u32 {
        all.push(layout.separator(index))?;
    }
    Ok(all)
}

/// A text beside the layout of the print that it may be.
#[derive(Clone, Copy)]
pub(crate) struct Print<'a, 's> {
    pub(crate) alloc: Global,
    pub(crate) layout: Layout<'a>,
    pub(crate) separators: &'a [&'static str],
    pub(crate) equal: &'a Numbers<'s>,
    pub(crate) text: &'a [u8],
}

/// Whether the token comes after the last one, and one at least is left out between them.
fn leaves_out(last: u32, index: u32) -> bool
    ensures { IsTrue result ↔ LeavesOut last index }
{
    last as usize + 1 < index as usize
}

/// What is printed as it was before the first kept token, by its own gap.
fn leading(gap: &str, index: u32) -> &str
    ensures { result.now ≡ cond (nat_eq index 0) gap.now [] }
{
    if index == 0 { gap } else { "" }
}

impl<'a, 's> Print<'a, 's> {
    /// What is printed between this token and the kept one before it, where its own gap isn't.
    fn separator(&self, index: u32) -> &'a str
        requires laid { IsLaidOut self.now }
        requires there { index < length self.now.layout.tokens.now }
        ensures { result.now ≡ separator self.now.layout.skips (gap_text self.now.layout.start.now (tokens_in self.now) index) }
    {
        self.separators[index as usize]
    }

    /// What is printed as it was before a kept token after another one.
    fn between(&self, last: u32, index: u32) -> &'a str
        requires laid { IsLaidOut self.now }
        requires there { index < length self.now.layout.tokens.now }
        ensures { result.now ≡ cond (nat_eq index (suc last)) (gap_text self.now.layout.start.now (tokens_in self.now) index)
            (separator self.now.layout.skips (gap_text self.now.layout.start.now (tokens_in self.now) index)) }
    {
        if index as usize == last as usize + 1 {
            self.layout.gap(index as usize)
        } else {
            self.separator(index)
        }
    }

    /// What is printed before a kept token, after the kept token before it.
    fn before(&self, last: Option<u32>, index: u32) -> &'a str
        requires laid { IsLaidOut self.now }
        requires there { index < length self.now.layout.tokens.now }
        ensures { result.now ≡ before self.now.layout.skips self.now.layout.start.now (tokens_in self.now) self.now.layout.style last index }
    {
        match (self.layout.style, last) {
            (Style::Squeezed, None) => "",
            (Style::Squeezed, Some(_)) => self.separator(index),
            (Style::AsWas, None) => leading(self.layout.gap(index as usize), index),
            (Style::AsWas, Some(last)) => self.between(last, index),
        }
    }

    /// Where a token ends with which the text goes on from the offset, after the last one, if it does.
    fn end_of(&self, last: Option<u32>, offset: usize, index: u32) -> Option<usize>
        requires laid { IsLaidOut self.now }
        requires there { index < length self.now.layout.tokens.now }
        requires after { IsAfter last index }
        ensures { MatchOption result ((end : ℕ) → ¬ GoesOn self.now last offset index end) (GoesOn self.now last offset index) }
    {
        let rest = rest_from(self.text, offset);
        let front = self.before(last, index).as_bytes();
        let after_front = rest_after(rest, front)?;
        let word = self.layout.spelling(index).as_bytes();
        let after_word = rest_after(after_front, word)?;
        Some(self.text.len() - after_word.len())
    }

    /// Adds what is reached after a token, if the text goes on with it from the offset, after the last one.
    fn add(
        &self,
        pairs: &mut Vec<Reached>,
        last: Option<u32>,
        offset: usize,
        index: u32,
    ) -> Result<(), Memory>
        requires laid { IsLaidOut self.now }
        requires there { index < length self.now.layout.tokens.now }
        requires after { IsAfter last index }
        ensures { OnOk result (AreWith pairs.old.items (LeadsTo self.now last offset index) pairs.new.items) }
    {
        match self.end_of(last, offset, index) {
            None => Ok(()),
            Some(end) => {
                let pair = Reached {
                    offset: end,
                    last: index,
                };
                pairs.push(pair)?;
                Ok(())
            }
        }
    }

    /// What is reached after a first token of this spelling.
    fn after_first_token(&self, spelling: &str) -> Result<Vec<Reached>, Memory>
        requires { IsLaidOut self.now }
        ensures { IfOk result (λ first. AreAfterFirst self.now spelling.now first.items) }
    {
        let equal = self.equal.with(spelling.as_bytes());
        let mut first = Vec::new(self.alloc);
        for index in equal {
            self.add(&mut first, None, 0, *index)?;
        }
        Ok(first)
    }

    /// Whether the token with this number has the spelling.
    fn is_spelled(&self, index: u32, spelling: &str) -> bool
        requires laid { IsLaidOut self.now }
        requires there { index < length self.now.layout.tokens.now }
        ensures { IsTrue result ↔ (spelling_at self.now.layout.start.now (tokens_in self.now) index ≡ spelling.now) }
    {
        self.layout.spelling(index) == spelling
    }

    /// Adds what is reached after the token that follows the last one, if that has this spelling.
    fn add_next(
        &self,
        pairs: &mut Vec<Reached>,
        from: Reached,
        spelling: &str,
    ) -> Result<(), Memory>
        requires { IsLaidOut self.now }
        ensures { OnOk result (AreWith pairs.old.items (LeadsToNext self.now spelling.now from) pairs.new.items) }
    {
        if from.last as usize + 1 >= self.layout.tokens.len() {
            return Ok(());
        }
        let index = from.last + 1;
        if !self.is_spelled(index, spelling) {
            return Ok(());
        }
        self.add(pairs, Some(from.last), from.offset, index)
    }

    /// What is reached after a token of this spelling that follows the last one.
    fn after_next_token(&self, reached: &[Reached], spelling: &str) -> Result<Vec<Reached>, Memory>
        requires { IsLaidOut self.now }
        ensures { IfOk result (λ next. AreAfterBy self.now Follows reached.now spelling.now next.items) }
    {
        let mut next = Vec::new(self.alloc);
        for from in reached {
            self.add_next(&mut next, *from, spelling)?;
        }
        Ok(next)
    }

    /// Adds what is reached after this token, if one at least is left out before it.
    fn add_later(&self, pairs: &mut Vec<Reached>, from: Reached, index: u32) -> Result<(), Memory>
        requires laid { IsLaidOut self.now }
        requires there { index < length self.now.layout.tokens.now }
        ensures { OnOk result (AreWith pairs.old.items (LeadsToLater self.now index from) pairs.new.items) }
    {
        if !leaves_out(from.last, index) {
            return Ok(());
        }
        self.add(pairs, Some(from.last), from.offset, index)
    }

    /// Adds what is reached after this token from those pairs from which one at least is left out before it.
    fn add_later_from(
        &self,
        pairs: &mut Vec<Reached>,
        firsts: &[Reached],
        index: u32,
    ) -> Result<(), Memory>
        requires laid { IsLaidOut self.now }
        requires there { index < length self.now.layout.tokens.now }
        ensures { OnOk result (AreWith pairs.old.items (λ pair. SomeOf firsts.now (λ from. LeadsToLater self.now index from pair)) pairs.new.items) }
    {
        for first in firsts {
            self.add_later(pairs, *first, index)?;
        }
        Ok(())
    }

    /// What is reached after a token of this spelling before which one at least is left out. What is
    /// printed before it is then the same, whichever the last one is, so the first pair at each offset
    /// stands for all.
    fn after_later_token(&self, firsts: &[Reached], spelling: &str) -> Result<Vec<Reached>, Memory>
        requires { IsLaidOut self.now }
        ensures { IfOk result (λ later. AreAfterBy self.now LeavesOut firsts.now spelling.now later.items) }
    {
        let equal = self.equal.with(spelling.as_bytes());
        let mut later = Vec::new(self.alloc);
        for index in equal {
            self.add_later_from(&mut later, firsts, *index)?;
        }
        Ok(later)
    }

    /// What is reached after a token of this spelling, sorted, and each pair once. Each pair that is
    /// reached is tried with the token that follows, and each offset with the tokens of the spelling.
    /// Where these are more than `Limit::Tries`, the answer is `Memory`.
    fn after_token(&self, reached: &[Reached], spelling: &str) -> Result<Vec<Reached>, Memory>
        requires { IsLaidOut self.now }
        ensures next { IfOk result (λ next. AreAfterToken self.now reached.now spelling.now next.items) }
        ensures sorted { IfOk result (λ next. AreSorted next.items) }
    {
        let firsts = first_pairs(self.alloc, reached)?;
        let equal = self.equal.with(spelling.as_bytes());
        Limit::Tries.within(count_tries(reached.len(), firsts.len(), equal.len()))?;
        let next = self.after_next_token(reached, spelling)?;
        let later = self.after_later_token(&firsts, spelling)?;
        united(next, &later)
    }

    /// Whether the text ends at the offset, after the last kept token.
    fn ends_at(&self, last: Option<u32>, offset: usize) -> bool
        requires { IsLaidOut self.now }
        ensures { IsTrue result ↔ CanEnd self.now last offset [] }
    {
        rest_from(self.text, offset) == self.layout.after(last).as_bytes()
    }

    /// Whether the text ends at one of these pairs.
    fn ends_at_some(&self, pairs: &[Reached]) -> bool
        requires { IsLaidOut self.now }
        ensures { IsTrue result ↔ SomeCanEnd self.now pairs.now [] }
    {
        for pair in pairs {
            if self.ends_at(Some(pair.last), pair.offset) {
                return true;
            }
        }
        false
    }

    /// Adds what is reached from the pair after the token in this place among those of a spelling, if there
    /// is one, and one at least is left out before it.
    fn add_later_at(
        &self,
        pairs: &mut Vec<Reached>,
        from: Reached,
        equal: &[u32],
        place: usize,
    ) -> Result<(), Memory>
        requires laid { IsLaidOut self.now }
        requires there { (index : ℕ) → Contains equal.now index → index < length self.now.layout.tokens.now }
        ensures { OnOk result ((spelling : List ℕ) (froms : List SomeReached) → AreOf self.now spelling equal.now → Contains froms from
            → AreSomeAfter self.now froms spelling pairs.old.items → AreSomeAfter self.now froms spelling pairs.new.items) }
    {
        match equal.get(place) {
            None => Ok(()),
            Some(index) => self.add_later(pairs, from, *index),
        }
    }

    /// The first of what is reached after a token of this spelling: the one that follows, from each pair, or
    /// one of the first few before which one at least is left out, from this pair.
    fn few_after_from(
        &self,
        reached: &[Reached],
        from: Reached,
        spelling: &str,
    ) -> Result<Vec<Reached>, Memory>
        requires laid { IsLaidOut self.now }
        requires among { Contains reached.now from }
        ensures { IfOk result (λ few. AreSomeAfter self.now reached.now spelling.now few.items) }
    {
        let equal = self.equal.with(spelling.as_bytes());
        let begin = index_from(equal, from.last as usize + 2);
        let mut pairs = self.after_next_token(reached, spelling)?;
        for step in 0..FEW {
            self.add_later_at(&mut pairs, from, equal, begin.saturating_add(step))?;
        }
        Ok(first_few(pairs))
    }

    /// The first of what is reached after a token of this spelling, from these pairs.
    fn few_after(&self, reached: &[Reached], spelling: &str) -> Result<Vec<Reached>, Memory>
        requires { IsLaidOut self.now }
        ensures { IfOk result (λ few. AreSomeAfter self.now reached.now spelling.now few.items) }
    {
        match reached.split_first() {
            None => Ok(Vec::new(self.alloc)),
            Some((first, _)) => self.few_after_from(reached, *first, spelling),
        }
    }

    /// Whether the text goes on so to its end along the first few pairs that are reached each time. It may
    /// along others where it doesn't along these.
    fn ends_by_few(&self, pairs: &[Reached], found: &str, spelled: &[Token]) -> Result<bool, Memory>
        requires laid { IsLaidOut self.now }
        requires slices { All (λ t. IsSlice found.now t.start t.end) spelled.now }
        ensures { IfOk result (λ ends. IsTrue ends → SomeCanEnd self.now pairs.now (map (spelling found.now) (map token_of spelled.now))) }
    {
        let mut reached = Vec::from_slice(self.alloc, pairs)?;
        for token in spelled {
            reached = self.few_after(&reached, spelling(found, *token))?;
        }
        Ok(self.ends_at_some(&reached))
    }

    /// Whether the text goes on from one of these pairs to its end with the tokens of these spellings. All
    /// pairs that are reached are gone on from.
    fn ends_by_all(
        &self,
        pairs: Vec<Reached>,
        found: &str,
        spelled: &[Token],
    ) -> Result<bool, Memory>
        requires laid { IsLaidOut self.now }
        requires slices { All (λ t. IsSlice found.now t.start t.end) spelled.now }
        ensures { IfOk result (λ ends. IsTrue ends ↔ SomeCanEnd self.now pairs.items (map (spelling found.now) (map token_of spelled.now))) }
    {
        let mut reached = pairs;
        for token in spelled {
            if reached.is_empty() {
                return Ok(false);
            }
            reached = self.after_token(&reached, spelling(found, *token))?;
        }
        Ok(self.ends_at_some(&reached))
    }

    /// Whether the text goes on from one of these pairs to its end with the tokens of these spellings. The
    /// first few pairs are tried first.
    fn ends_from(&self, pairs: Vec<Reached>, found: &str, spelled: &[Token]) -> Result<bool, Memory>
        requires laid { IsLaidOut self.now }
        requires slices { All (λ t. IsSlice found.now t.start t.end) spelled.now }
        ensures { IfOk result (λ ends. IsTrue ends ↔ SomeCanEnd self.now pairs.items (map (spelling found.now) (map token_of spelled.now))) }
    {
        let by_few = self.ends_by_few(&pairs, found, spelled)?;
        if by_few {
            return Ok(true);
        }
        self.ends_by_all(pairs, found, spelled)
    }

    /// Whether the text is printed of some of the start's tokens, whose spellings these tokens of
    /// another text have, one after another.
    ///
    /// For each of them, what is reached after it is found from what was reached before it. It ends where
    /// nothing is reached, so at most one token more than the start has is gone through.
    pub(crate) fn is_printed_of(&self, found: &str, spelled: &[Token]) -> Result<bool, Memory>
        requires laid { IsLaidOut self.now }
        requires slices { All (λ t. IsSlice found.now t.start t.end) spelled.now }
        ensures { IfOk result (λ printed. IsTrue printed ↔ CanEnd self.now None 0 (map (spelling found.now) (map token_of spelled.now))) }
    {
        match spelled.split_first() {
            None => Ok(self.ends_at(None, 0)),
            Some((first, later)) => {
                let pairs = self.after_first_token(spelling(found, *first))?;
                self.ends_from(pairs, found, later)
            }
        }
    }
}
