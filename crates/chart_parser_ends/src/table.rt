//! The table of a chart.

ghost use Rattle.std.specs.Prelude.{◌≡◌, ◌≢◌, ◌++◌, ◌∷◌, [], ℕ, ◌<◌, ◌≤◌, ◌^◌, length, IfErr, IfOk, IfSome, OnErr, OnOk};
ghost use Rattle.normal_form.specs.Spans.{DerivesSpan};
ghost use Rattle.chart_parser_ends.specs.Positions.{HasExactly};
ghost use Rattle.chart_parser_ends.specs.inner.Entries.{HasEntry, entry};
ghost use Rattle.chart_parser_ends.specs.inner.Working.{HasRuleEnds};
ghost use Rattle.normal_form.specs.declared.normal.Sym;

use crate::entries::Entries;
use crate::firsts::{
    FirstRow, can_be_left_out, first_rows, is_token, kinds_in, may_be_empty, may_begin_at,
};
use crate::positions::positions_to;
use crate::work::RuleEnds;
use faults::Memory;
use normal_form::{Normal, Sym};
use std::alloc::Global;
use std::marker::Model;

/// What is known of where the symbols of one normal form can end in one list of kinds. Contracts see
/// these two, and the entries that were worked out.
#[derive(Drop)]
pub(crate) struct ChartTable<'a> {
    alloc: Global,
    normal: &'a Normal,
    kinds: &'a [u32],
    /// Each position at its number, so that a single one can be lent.
    positions: Vec<u32>,
    entries: Entries,
    /// What is known of how rules begin.
    firsts: Vec<FirstRow>,
}

impl<'a> Model for ChartTable<'a> {
    ghost use Rattle.chart_parser_ends.specs.inner.Filled.{Filled, filled_coded};

    ghost Value = { Filled };

    ghost coded = { filled_coded };

    ghost use Rattle.chart_parser_ends.specs.inner.Kept.{IsChartOf};

    ghost view = { λ t. record {
      input = record { normal = t.normal.now; kinds = t.kinds.now };
      entries = t.entries;
    } };

    ghost invariant = { λ t. IsChartOf t.normal.now t.kinds.now t.positions.items t.entries t.firsts.items };
}

impl<'a> ChartTable<'a> {
    /// No entries. It takes time and memory linear in the list, and in the rules of the form times the
    /// kinds that the list has.
    pub(crate) fn new(
        alloc: Global,
        normal: &'a Normal,
        kinds: &'a [u32],
    ) -> Result<ChartTable<'a>, Memory>
        requires { length kinds.now < 2 ^ 32 }
        ensures { IfOk result (λ table. table.input ≡ record { normal = normal.now; kinds = kinds.now }) }
    {
        Ok(ChartTable {
            alloc,
            normal,
            kinds,
            positions: positions_to(alloc, kinds.len())?,
            entries: Entries::new(alloc),
            firsts: first_rows(alloc, kinds_in(kinds), normal)?,
        })
    }

    /// The allocator.
    pub(crate) fn alloc(&self) -> Global {
        self.alloc
    }

    /// The normal form.
    pub(crate) fn normal(&self) -> &Normal
        ensures { result.now ≡ self.now.input.normal }
    {
        self.normal
    }

    /// The position after the token at the position `first`, if that is one of the symbol.
    fn token_ends(&self, symbol: Sym, first: u32) -> &[u32]
        requires { (r : ℕ) → symbol ≢ Sym.Rule r }
        ensures { HasExactly (DerivesSpan self.now.input.normal self.now.input.kinds symbol first) result.now }
    {
        let index = first as usize;
        if index < self.kinds.len() && is_token(symbol, self.kinds[index], self.normal) {
            &self.positions[index + 1..index + 2]
        } else {
            &self.positions[..0]
        }
    }

    /// All positions where the rule can end that begins at the position `first`, where the next kind
    /// says so alone: a rule that can't begin with it ends where it begins, or nowhere.
    fn ends_by_kind(&self, rule: u32, first: u32) -> Option<&[u32]>
        requires { first ≤ length self.now.input.kinds }
        ensures { IfSome result (λ ends. HasExactly (DerivesSpan self.now.input.normal self.now.input.kinds (Sym.Rule rule) first) ends.now) }
    {
        let index = first as usize;
        if may_begin_at(rule, first, self.kinds, self.normal, &self.firsts) {
            return None;
        }
        if can_be_left_out(rule, self.normal) {
            return Some(&self.positions[index..index + 1]);
        }
        if may_be_empty(Sym::Rule(rule), &self.firsts) {
            return None;
        }
        Some(&self.positions[..0])
    }

    /// All positions where the rule can end that begins at the position `first`, rising; or the rule,
    /// where they aren't worked out yet.
    fn rule_ends(&self, rule: u32, first: u32) -> Result<&[u32], u32>
        requires { first ≤ length self.now.input.kinds }
        ensures ends { IfOk result (λ ends. HasExactly (DerivesSpan self.now.input.normal self.now.input.kinds (Sym.Rule rule) first) ends.now) }
        ensures missing { IfErr result (λ missing. missing ≡ rule) }
        ensures absent { IfErr result (λ missing. ¬ HasEntry self.now.entries missing first) }
    {
        if let Some(ends) = self.ends_by_kind(rule, first) {
            return Ok(ends);
        }
        match self.entries.find(rule, first) {
            Some(ends) => Ok(ends),
            None => Err(rule),
        }
    }

    /// All positions where the symbol can end that begins at the position `first`, rising; or the
    /// symbol's rule, where they aren't worked out yet.
    pub(crate) fn ends_of(&self, symbol: Sym, first: u32) -> Result<&[u32], u32>
        ensures ends { IfOk result (λ ends. HasExactly (DerivesSpan self.now.input.normal self.now.input.kinds symbol first) ends.now) }
        ensures missing { IfErr result (λ rule. symbol ≡ Sym.Rule rule) }
        ensures within { IfErr result (λ rule. first ≤ length self.now.input.kinds) }
        ensures absent { IfErr result (λ rule. ¬ HasEntry self.now.entries rule first) }
    {
        if first as usize > self.kinds.len() {
            return Ok(&self.positions[..0]);
        }
        match symbol {
            Sym::Rule(rule) => self.rule_ends(rule, first),
            Sym::Kind(_) | Sym::Set(_) => Ok(self.token_ends(symbol, first)),
        }
    }

    /// All positions where the rule can end that begins at the position `first`, rising, where they
    /// were worked out.
    pub(crate) fn entry_ends(&self, rule: u32, first: u32) -> &[u32]
        requires { HasEntry self.now.entries rule first }
        ensures { HasExactly (DerivesSpan self.now.input.normal self.now.input.kinds (Sym.Rule rule) first) result.now }
    {
        match self.entries.find(rule, first) {
            Some(ends) => ends,
            None => unreachable!(),
        }
    }

    /// Keeps what was worked out.
    pub(crate) fn store(&mut self, found: RuleEnds) -> Result<(), Memory>
        requires { HasRuleEnds self.old.input.normal self.old.input.kinds found }
        ensures same { self.new.input ≡ self.old.input }
        ensures ok { OnOk result (self.new.entries ≡ self.old.entries ++ entry found.rule found.first found.ends.items ∷ []) }
        ensures err { OnErr result (self.new.entries ≡ self.old.entries) }
        ensures few { OnOk result (length self.new.entries < 2 ^ 32) }
    {
        self.entries.store(found.rule, found.first, &found.ends)
    }
}
