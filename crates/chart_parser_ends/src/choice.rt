//! The work on where a rule with alternatives can end.

ghost use Rattle.std.specs.Prelude.{◌+◌, ◌<◌, ◌≡◌, ◌^◌, [], length, IfOk, IfSome, OnOk};
ghost use Rattle.std.specs.List.Sorted.{IsStrictlyIncreasing};
ghost use Rattle.std.specs.Option.{option_map};
ghost use Rattle.chart_parser_ends.specs.inner.Moves.{Begins, FindsAlternative, HasNextAlternative, HasNextSymbol, IsChoiceProgress, IsNextSymbol, IsOnwardTo};
ghost use Rattle.chart_parser_ends.specs.inner.Working.{IsChoice, IsChoiceOnward, IsStep, IsStepOn, choice_progress};

use crate::positions::add_all;
use crate::table::ChartTable;
use crate::work::{Progress, RuleEnds, Step, Work};
use faults::Memory;
use normal_form::{Normal, NormalRule, Sym};
use std::alloc::Global;
use std::mem;

/// The work on a rule at the position `first`. Its alternatives are gone through in their order, and
/// in each of them its symbols.
#[derive(Drop)]
pub(crate) struct Choice {
    pub(crate) rule: u32,
    pub(crate) first: u32,
    /// The number of the present alternative, and of the symbol in it that comes next.
    pub(crate) alternative: usize,
    pub(crate) symbol: usize,
    /// Where the symbols before it can end.
    pub(crate) current: Vec<u32>,
    /// How many of these positions were gone on from by the symbol, and where it ends from them.
    pub(crate) done: usize,
    pub(crate) next: Vec<u32>,
    /// Where the earlier alternatives can end.
    pub(crate) ends: Vec<u32>,
}

/// The alternative of the rule with this number, if it has alternatives and one with this number.
fn alternative(normal: &Normal, rule: u32, number: usize) -> Option<&[Sym]>
    ensures found { FindsAlternative normal.now rule number (option_map (λ a. a.now) result) }
    ensures small { IfSome result (λ a. number + 1 < 2 ^ 64) }
{
    let rules = normal.rules();
    if rule as usize >= rules.len() {
        return None;
    }
    let NormalRule::Regular(alternatives) = &rules[rule as usize] else {
        return None;
    };
    let count = alternatives.len();
    if number >= count {
        return None;
    }
    Some(alternatives[number].as_slice())
}

impl Choice {
    /// The work at its beginning.
    pub(crate) fn new(alloc: Global, rule: u32, first: u32) -> Result<Choice, Memory>
        ensures begins { IfOk result (Begins rule first 0) }
        ensures no_ends { IfOk result (λ w. w.ends.items ≡ []) }
    {
        Ok(Choice {
            rule,
            first,
            alternative: 0,
            symbol: 0,
            current: vec![in alloc; first]?,
            done: 0,
            next: Vec::new(alloc),
            ends: Vec::new(alloc),
        })
    }

    /// The alternative can end where the work on it has come to: the next alternative comes.
    fn next_alternative(&mut self) -> Result<(), Memory>
        requires rising { IsStrictlyIncreasing self.old.ends.items }
        requires small { self.old.alternative + 1 < 2 ^ 64 }
        ensures { OnOk result (HasNextAlternative self.old self.new) }
    {
        add_all(&mut self.ends, &self.current)?;
        self.alternative += 1;
        self.symbol = 0;
        self.current.clear();
        self.current.push(self.first)?;
        self.done = 0;
        self.next.clear();
        Ok(())
    }

    /// The symbol was gone on by from each position: the next symbol comes.
    fn next_symbol(&mut self)
        requires { self.old.symbol + 1 < 2 ^ 64 }
        ensures { HasNextSymbol self.old self.new }
    {
        self.symbol += 1;
        mem::swap(&mut self.current, &mut self.next);
        self.done = 0;
        self.next.clear();
    }

    /// Goes on by the symbol from the next position.
    fn next_position(&mut self, symbol: Sym, table: &ChartTable<'_>) -> Result<Progress, Memory>
        requires work { IsChoice table.now.input.normal table.now.input.kinds self.old }
        requires next { IsNextSymbol table.now.input.normal self.old symbol }
        requires more { self.old.done < length self.old.current.items }
        ensures progress { IfOk result (IsChoiceProgress table.now.input.normal table.now.input.kinds self.new) }
        ensures rule { OnOk result (self.new.rule ≡ self.old.rule) }
        ensures first { OnOk result (self.new.first ≡ self.old.first) }
        ensures onward { IfOk result (IsOnwardTo (choice_progress self.old) (choice_progress self.new)) }
    {
        let position = self.current[self.done];
        match table.ends_of(symbol, position) {
            Ok(more) => {
                add_all(&mut self.next, more)?;
                self.done += 1;
                Ok(Progress::More)
            }
            Err(missing) => Ok(Progress::Needs(missing, position)),
        }
    }

    /// One step of the work.
    fn advance(&mut self, table: &ChartTable<'_>) -> Result<Progress, Memory>
        requires { IsChoice table.now.input.normal table.now.input.kinds self.old }
        ensures progress { IfOk result (IsChoiceProgress table.now.input.normal table.now.input.kinds self.new) }
        ensures rule { OnOk result (self.new.rule ≡ self.old.rule) }
        ensures first { OnOk result (self.new.first ≡ self.old.first) }
        ensures range { choice_progress self.old < 2 ^ 192 }
        ensures onward { IfOk result (IsOnwardTo (choice_progress self.old) (choice_progress self.new)) }
    {
        let Some(symbols) = alternative(table.normal(), self.rule, self.alternative) else {
            return Ok(Progress::Done);
        };
        let reached = self.current.len();
        if self.symbol >= symbols.len() || reached == 0 {
            self.next_alternative()?;
            return Ok(Progress::More);
        }
        if self.done >= reached {
            self.next_symbol();
            return Ok(Progress::More);
        }
        let symbol = symbols[self.symbol];
        self.next_position(symbol, table)
    }

    /// What was worked for, where it is found.
    fn rule_ends(self) -> RuleEnds
        ensures rule { result.rule ≡ self.rule }
        ensures first { result.first ≡ self.first }
        ensures ends { result.ends.items ≡ self.ends.items }
    {
        let Choice {
            rule,
            first,
            ends,
            ..
        } = self;
        RuleEnds { rule, first, ends }
    }

    /// The next steps of the work, up to where it is done or needs more.
    pub(crate) fn step(mut self, table: &ChartTable<'_>) -> Result<Step, Memory>
        requires { IsChoice table.now.input.normal table.now.input.kinds self }
        ensures step { IfOk result (IsStep table.now.input.normal table.now.input.kinds) }
        ensures same { IfOk result (IsStepOn self.rule self.first) }
        ensures onward { IfOk result (IsChoiceOnward (choice_progress self)) }
    {
        loop {
            match self.advance(table)? {
                Progress::More => {}
                Progress::Done => return Ok(Step::Done(self.rule_ends())),
                Progress::Needs(rule, position) => {
                    return Ok(Step::Needs(Work::Choice(self), rule, position));
                }
            }
        }
    }
}
