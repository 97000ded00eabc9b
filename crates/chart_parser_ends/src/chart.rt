//! Where the symbols of a normal form can end in a list of kinds.

ghost use Rattle.std.specs.Prelude.{◌≡◌, ◌↔◌, ◌<◌, ◌^◌, length, IfOk, IsTrue, OnOk};
ghost use Rattle.std.specs.List.Sorted.{IsStrictlyIncreasing};
ghost use Rattle.normal_form.specs.Spans.{DerivesSpan};
ghost use Rattle.chart_parser_ends.specs.Positions.{EndsUpTo, HasAll, IsGrown, IsLastAmong};

use crate::positions::{add_all, has, last_common, up_to};
use crate::table::ChartTable;
use crate::work::work_out;
use faults::Memory;
use normal_form::{Normal, Sym};
use std::alloc::Global;
use std::marker::Model;

/// Where the symbols of one normal form can end in one list of kinds. Contracts see these two.
///
/// Positions count the kinds before them, from 0 up to the length of the list; from a position past
/// that nothing is derived. Each question works out what it needs, each rule at each position once,
/// and what was worked out is kept. The time is about linear in the list where only lists have many
/// ends, and grows with the pairs of positions where other rules do.
#[derive(Drop)]
pub struct Chart<'a> {
    table: ChartTable<'a>,
}

impl<'a> Model for Chart<'a> {
    ghost use Rattle.chart_parser_ends.specs.Input.{ChartInput};
    ghost use Rattle.chart_parser_ends.specs.inner.Input.{input_coded};

    ghost Value = { ChartInput };

    ghost coded = { input_coded };

    ghost view = { λ c. c.table.input };
}

impl<'a> Chart<'a> {
    /// Nothing is worked out yet. It takes time and memory linear in the list, and in the rules of the
    /// form times the kinds that the list has.
    pub fn new(alloc: Global, normal: &'a Normal, kinds: &'a [u32]) -> Result<Chart<'a>, Memory>
        requires { length kinds.now < 2 ^ 32 }
        ensures { IfOk result (λ chart. chart ≡ record { normal = normal.now; kinds = kinds.now }) }
    {
        Ok(Chart {
            table: ChartTable::new(alloc, normal, kinds)?,
        })
    }

    /// Whether the symbol derives the kinds from the position `first` up to but not including `end`.
    pub fn reaches(&mut self, symbol: Sym, first: u32, end: u32) -> Result<bool, Memory>
        ensures same { self.new ≡ self.old }
        ensures answer { IfOk result (λ answer. IsTrue answer ↔ DerivesSpan self.old.normal self.old.kinds symbol first end) }
    {
        let rule = match self.table.ends_of(symbol, first) {
            Ok(ends) => return Ok(has(ends, end)),
            Err(rule) => rule,
        };
        work_out(&mut self.table, rule, first)?;
        Ok(has(self.table.entry_ends(rule, first), end))
    }

    /// The greatest of these positions where the symbol can end that begins at the position `first`.
    pub fn last_among(
        &mut self,
        symbol: Sym,
        first: u32,
        among: &[u32],
    ) -> Result<Option<u32>, Memory>
        requires { IsStrictlyIncreasing among.now }
        ensures same { self.new ≡ self.old }
        ensures last { IfOk result (IsLastAmong (DerivesSpan self.old.normal self.old.kinds symbol first) among.now) }
    {
        let rule = match self.table.ends_of(symbol, first) {
            Ok(ends) => return Ok(last_common(ends, among)),
            Err(rule) => rule,
        };
        work_out(&mut self.table, rule, first)?;
        Ok(last_common(self.table.entry_ends(rule, first), among))
    }

    /// Adds each position up to `last` where the symbol can end that begins at the position `first`.
    pub fn add_ends(
        &mut self,
        symbol: Sym,
        first: u32,
        last: u32,
        positions: &mut Vec<u32>,
    ) -> Result<(), Memory>
        requires { IsStrictlyIncreasing positions.old.items }
        ensures same { self.new ≡ self.old }
        ensures rising { OnOk result (IsStrictlyIncreasing positions.new.items) }
        ensures grown { OnOk result (IsGrown (EndsUpTo self.old.normal self.old.kinds symbol first last) positions.old.items positions.new.items) }
        ensures all { OnOk result (HasAll (EndsUpTo self.old.normal self.old.kinds symbol first last) positions.new.items) }
    {
        let rule = match self.table.ends_of(symbol, first) {
            Ok(ends) => return add_all(positions, up_to(ends, last)),
            Err(rule) => rule,
        };
        work_out(&mut self.table, rule, first)?;
        add_all(positions, up_to(self.table.entry_ends(rule, first), last))
    }
}
