//! The work on where a star or plus can end.

ghost use Rattle.std.specs.Prelude.{◌≡◌, ◌+◌, ◌<◌, ◌^◌, ℕ, drop, if◌then◌else◌, length, IfOk, MatchOption, OnOk};
ghost use Rattle.std.specs.List.{Contains};
ghost use Rattle.std.specs.List.Sorted.{IsStrictlyIncreasing};
ghost use Rattle.chart_parser_ends.specs.inner.Moves.{BeginsRepetition, IsOnwardTo, IsRepetitionProgress, TakesEntry};
ghost use Rattle.chart_parser_ends.specs.inner.Working.{IsNext, IsOnward, IsRepetition, IsStep, IsStepOn};

use crate::positions::{add_all, has};
use crate::table::ChartTable;
use crate::work::{Progress, RuleEnds, Step, Work};
use faults::{Limit, Memory};
use normal_form::Sym;
use std::alloc::Global;

/// The work on a star or plus of the symbol, at the position `first`.
#[derive(Drop)]
pub(crate) struct Repetition {
    pub(crate) rule: u32,
    pub(crate) first: u32,
    pub(crate) symbol: Sym,
    /// Whether it is a plus.
    pub(crate) plus: bool,
    /// Positions that the symbol reaches from `first`, any number of times.
    pub(crate) reached: Vec<u32>,
    /// What the symbol reaches from those below this position is among them, and from those that are
    /// covered.
    pub(crate) from: u32,
    pub(crate) covered: Vec<u32>,
}

impl Repetition {
    /// The work at its beginning.
    pub(crate) fn new(
        alloc: Global,
        rule: u32,
        first: u32,
        symbol: Sym,
        plus: bool,
    ) -> Result<Repetition, Memory>
        ensures { IfOk result (BeginsRepetition rule first symbol plus) }
    {
        Ok(Repetition {
            rule,
            first,
            symbol,
            plus,
            reached: vec![in alloc; first]?,
            from: first,
            covered: Vec::new(alloc),
        })
    }

    /// The least position from `from` on that was reached.
    fn next(&self) -> Option<u32>
        requires { IsStrictlyIncreasing self.now.reached.items }
        ensures least { MatchOption result ((x : ℕ) → Contains self.now.reached.items x → x < self.now.from) (IsNext self.now.reached.items self.now.from) }
        ensures range { self.now.from < 2 ^ 32 }
    {
        let from = self.from;
        match self.reached.binary_search(&from) {
            Ok(_) => Some(from),
            Err(next) => {
                if next < self.reached.len() {
                    Some(self.reached[next])
                } else {
                    None
                }
            }
        }
    }

    /// What was worked for, where no position is left to go on from: a plus can't end where it
    /// begins.
    fn rule_ends(self) -> RuleEnds
        requires { 0 < length self.reached.items }
        ensures rule { result.rule ≡ self.rule }
        ensures first { result.first ≡ self.first }
        ensures ends { result.ends.items ≡ (if self.plus then drop 1 self.reached.items else self.reached.items) }
    {
        let Repetition {
            rule,
            first,
            plus,
            reached,
            ..
        } = self;
        let ends = without_start(plus, reached);
        RuleEnds { rule, first, ends }
    }

    /// All that the same rule reaches from the position, which is all that the symbol goes on to.
    fn with_entry(&mut self, position: u32, ends: &[u32]) -> Result<(), Memory>
        requires rising { IsStrictlyIncreasing self.old.reached.items }
        requires rising_covered { IsStrictlyIncreasing self.old.covered.items }
        ensures { OnOk result (TakesEntry self.old position ends.now self.new) }
    {
        let from = after(position)?;
        add_all(&mut self.reached, ends)?;
        add_all(&mut self.covered, ends)?;
        self.from = from;
        Ok(())
    }

    /// Goes on by the symbol from the position.
    fn with_position(&mut self, position: u32, table: &ChartTable<'_>) -> Result<Progress, Memory>
        requires work { IsRepetition table.now.input.normal table.now.input.kinds self.old }
        requires next { IsNext self.old.reached.items self.old.from position }
        ensures progress { IfOk result (IsRepetitionProgress table.now.input.normal table.now.input.kinds self.new) }
        ensures rule { OnOk result (self.new.rule ≡ self.old.rule) }
        ensures first { OnOk result (self.new.first ≡ self.old.first) }
        ensures onward { IfOk result (IsOnwardTo self.old.from self.new.from) }
    {
        match table.ends_of(self.symbol, position) {
            Ok(ends) => {
                let from = after(position)?;
                add_all(&mut self.reached, ends)?;
                self.from = from;
                Ok(Progress::More)
            }
            Err(missing) => Ok(Progress::Needs(missing, position)),
        }
    }

    /// Passes over a position that is covered.
    fn past(&mut self, position: u32, table: &ChartTable<'_>) -> Result<Progress, Memory>
        requires work { IsRepetition table.now.input.normal table.now.input.kinds self.old }
        requires next { IsNext self.old.reached.items self.old.from position }
        requires covered { Contains self.old.covered.items position }
        ensures progress { IfOk result (IsRepetitionProgress table.now.input.normal table.now.input.kinds self.new) }
        ensures rule { OnOk result (self.new.rule ≡ self.old.rule) }
        ensures first { OnOk result (self.new.first ≡ self.old.first) }
        ensures onward { IfOk result (IsOnwardTo self.old.from self.new.from) }
    {
        let from = after(position)?;
        self.from = from;
        Ok(Progress::More)
    }

    /// One step of the work.
    fn advance(&mut self, table: &ChartTable<'_>) -> Result<Progress, Memory>
        requires { IsRepetition table.now.input.normal table.now.input.kinds self.old }
        ensures progress { IfOk result (IsRepetitionProgress table.now.input.normal table.now.input.kinds self.new) }
        ensures rule { OnOk result (self.new.rule ≡ self.old.rule) }
        ensures first { OnOk result (self.new.first ≡ self.old.first) }
        ensures range { self.old.from < 2 ^ 32 }
        ensures onward { IfOk result (IsOnwardTo self.old.from self.new.from) }
    {
        let Some(position) = self.next() else {
            return Ok(Progress::Done);
        };
        if has(&self.covered, position) {
            return self.past(position, table);
        }
        match table.ends_of(Sym::Rule(self.rule), position) {
            Ok(ends) => {
                self.with_entry(position, ends)?;
                Ok(Progress::More)
            }
            Err(_) => self.with_position(position, table),
        }
    }

    /// The next steps of the work, up to where it is done or needs more.
    pub(crate) fn step(mut self, table: &ChartTable<'_>) -> Result<Step, Memory>
        requires { IsRepetition table.now.input.normal table.now.input.kinds self }
        ensures step { IfOk result (IsStep table.now.input.normal table.now.input.kinds) }
        ensures same { IfOk result (IsStepOn self.rule self.first) }
        ensures onward { IfOk result (IsOnward self.from) }
    {
        table.normal().is_normal();
        loop {
            match self.advance(table)? {
                Progress::More => {}
                Progress::Done => return Ok(Step::Done(self.rule_ends())),
                Progress::Needs(rule, position) => {
                    return Ok(Step::Needs(Work::Repetition(self), rule, position));
                }
            }
        }
    }
}

/// The position after this one.
fn after(position: u32) -> Result<u32, Memory>
    ensures { IfOk result (λ next. next ≡ position + 1) }
{
    Limit::Numbers.within(position as usize + 1)?;
    Ok(position + 1)
}

/// Where a star or plus can end, of the positions that its symbol reaches any number of times. The
/// first one is where it begins.
fn without_start(plus: bool, reached: Vec<u32>) -> Vec<u32>
    requires { 0 < length reached.items }
    ensures { result.items ≡ (if plus then drop 1 reached.items else reached.items) }
{
    if plus {
        without_first(reached)
    } else {
        reached
    }
}

/// The positions without the first one.
fn without_first(mut positions: Vec<u32>) -> Vec<u32>
    requires { 0 < length positions.items }
    ensures { result.items ≡ drop 1 positions.items }
{
    let _ = positions.remove(0);
    positions
}
