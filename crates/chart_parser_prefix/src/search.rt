//! Which symbols can come next, from one position to the next.

ghost use Rattle.std.specs.Prelude.{◌≡◌, ◌↔◌, ◌⊎◌, ℕ, ◌+◌, ◌<◌, ◌≤◌, ◌^◌, List, [], Some, true, false, length, slice_get, take, IfOk, IsTrue, OnOk};
ghost use Rattle.std.specs.List.{Contains};
ghost use Rattle.normal_form.specs.Form.{RuleForm};
ghost use Rattle.normal_form.specs.View.{alts_form};
ghost use Rattle.normal_form.specs.declared.normal.Sym;
ghost use Rattle.normal_form.specs.Spans.{DerivesSpan};
ghost use Rattle.chart_parser_ends.specs.Positions.{HasExactly};
ghost use Rattle.chart_parser_ends.specs.inner.Working.{DerivesFrom};
ghost use Rattle.chart_parser_prefix.specs.inner.Expected.{IsElement, IsInAlternative, IsInAlternatives, IsInProductive, Predicts, is_token};
ghost use Rattle.chart_parser_prefix.specs.Prefixes.{IsLongestViable, IsViablePrefix};
ghost use Rattle.chart_parser_prefix.specs.inner.Productive.{AreProductive};
ghost use Rattle.chart_parser_prefix.specs.inner.Walk.{ExpectsAll, IsClosed, IsClosedTo, IsGrownBy, IsWalk, symbols_at};

use crate::expected::{add_at, add_at_each, clear_at, is_same};
use crate::productive::all_derive_some;
use chart_parser_ends::Chart;
use faults::Memory;
use normal_form::{Normal, NormalRule, Sym};
use std::alloc::Global;

/// What a search for the longest viable beginning is given.
#[derive(Drop)]
pub(crate) struct PrefixSearch<'a> {
    pub(crate) alloc: Global,
    pub(crate) normal: &'a Normal,
    pub(crate) kinds: &'a [u32],
    pub(crate) start: Sym,

    /// Which rules derive something.
    pub(crate) productive: Vec<bool>,
    ghost few: { length kinds.now < 2 ^ 32 },
}

/// Where the symbol can end that begins at one of the positions.
fn ends_from(
    alloc: Global,
    chart: &mut Chart<'_>,
    symbol: Sym,
    positions: &[u32],
    last: u32,
) -> Result<Vec<u32>, Memory>
    requires { last ≡ length chart.old.kinds }
    ensures same { chart.new ≡ chart.old }
    ensures ends { IfOk result (λ ends. HasExactly (DerivesFrom chart.old.normal chart.old.kinds symbol positions.now) ends.items) }
{
    let mut ends = Vec::new(alloc);
    for position in positions {
        chart.add_ends(symbol, *position, last, &mut ends)?;
    }
    Ok(ends)
}

/// Adds the symbols of an alternative that begins at the position `first`, each where those before it
/// end.
fn add_alternative(
    alloc: Global,
    chart: &mut Chart<'_>,
    symbols: &[Sym],
    first: u32,
    last: u32,
    lists: &mut Vec<Vec<Sym>>,
) -> Result<(), Memory>
    requires last { last ≡ length chart.old.kinds }
    requires within { first ≤ length chart.old.kinds }
    requires count { length lists.old.items ≡ length chart.old.kinds + 1 }
    ensures same { chart.new ≡ chart.old }
    ensures grown { OnOk result (IsGrownBy (IsInAlternative chart.old.normal chart.old.kinds symbols.now first) lists.old.items lists.new.items) }
    ensures all { OnOk result (ExpectsAll (IsInAlternative chart.old.normal chart.old.kinds symbols.now first) lists.new.items) }
{
    let mut reached = vec![in alloc; first]?;
    for symbol in symbols {
        add_at_each(lists, *symbol, &reached)?;
        reached = ends_from(alloc, chart, *symbol, &reached, last)?;
    }
    Ok(())
}

/// Adds the symbol of a star or plus that begins at the position `first`, where any number of them
/// end.
fn add_elements(
    alloc: Global,
    chart: &mut Chart<'_>,
    rule: u32,
    symbol: Sym,
    first: u32,
    last: u32,
    lists: &mut Vec<Vec<Sym>>,
) -> Result<(), Memory>
    requires repeats { (slice_get chart.old.normal.rules rule ≡ Some (RuleForm.star symbol))
        ⊎ (slice_get chart.old.normal.rules rule ≡ Some (RuleForm.plus symbol)) }
    requires last { last ≡ length chart.old.kinds }
    requires within { first ≤ length chart.old.kinds }
    requires count { length lists.old.items ≡ length chart.old.kinds + 1 }
    ensures same { chart.new ≡ chart.old }
    ensures grown { OnOk result (IsGrownBy (IsElement chart.old.normal chart.old.kinds symbol first) lists.old.items lists.new.items) }
    ensures all { OnOk result (ExpectsAll (IsElement chart.old.normal chart.old.kinds symbol first) lists.new.items) }
{
    let mut reached = vec![in alloc; first]?;
    chart.add_ends(Sym::Rule(rule), first, last, &mut reached)?;
    add_at_each(lists, symbol, &reached)?;
    Ok(())
}

/// Whether the symbol is a rule that has a place below `done`, which has it.
fn is_done(symbol: Sym, places: &[usize], symbols: &[Sym], done: usize) -> bool
    requires { done < length symbols.now }
    ensures { IsTrue result → Contains (take done symbols.now) symbol }
{
    let Sym::Rule(rule) = symbol else {
        return false;
    };
    let Some(place) = places.get(rule as usize).copied() else {
        return false;
    };
    if place >= done {
        return false;
    }
    is_same(symbols[place], symbol)
}

/// Gives a rule its place.
fn note_place(symbol: Sym, places: &mut Vec<usize>, done: usize) {
    if let Sym::Rule(rule) = symbol {
        if (rule as usize) < places.len() {
            places[rule as usize] = done;
        }
    }
}

/// Whether the symbol is a kind or a set, which the token between the positions is one of.
fn is_next(chart: &mut Chart<'_>, symbol: Sym, position: u32, end: u32) -> Result<bool, Memory>
    requires { end ≡ position + 1 }
    ensures same { chart.new ≡ chart.old }
    ensures yes { IfOk result (λ answer. IsTrue answer → DerivesSpan chart.old.normal chart.old.kinds symbol position (position + 1)) }
    ensures no { IfOk result (λ answer. answer ≡ false → is_token symbol ≡ true
        → ¬ DerivesSpan chart.old.normal chart.old.kinds symbol position (position + 1)) }
{
    if let Sym::Rule(_) = symbol {
        return Ok(false);
    }
    let answer = chart.reaches(symbol, position, end)?;
    Ok(answer)
}

impl PrefixSearch<'_> {
    /// The last position.
    fn last(&self) -> u32
        ensures { result ≡ length self.now.kinds.now }
    {
        self.kinds.len() as u32
    }

    /// Adds the symbols of an alternative, if each of its symbols derives something.
    fn add_productive(
        &self,
        chart: &mut Chart<'_>,
        symbols: &[Sym],
        first: u32,
        lists: &mut Vec<Vec<Sym>>,
    ) -> Result<(), Memory>
        requires chart { chart.old ≡ record { normal = self.now.normal.now; kinds = self.now.kinds.now } }
        requires productive { AreProductive self.now.normal.now self.now.productive.items }
        requires within { first ≤ length self.now.kinds.now }
        requires count { length lists.old.items ≡ length self.now.kinds.now + 1 }
        ensures same { chart.new ≡ chart.old }
        ensures grown { OnOk result (IsGrownBy (IsInProductive self.now.normal.now self.now.kinds.now symbols.now first) lists.old.items lists.new.items) }
        ensures all { OnOk result (ExpectsAll (IsInProductive self.now.normal.now self.now.kinds.now symbols.now first) lists.new.items) }
    {
        if !all_derive_some(symbols, self.normal, &self.productive) {
            return Ok(());
        }
        add_alternative(self.alloc, chart, symbols, first, self.last(), lists)?;
        Ok(())
    }

    /// Adds the symbols of the alternatives each of whose symbols derives something.
    fn add_alternatives(
        &self,
        chart: &mut Chart<'_>,
        alternatives: &[Vec<Sym>],
        first: u32,
        lists: &mut Vec<Vec<Sym>>,
    ) -> Result<(), Memory>
        requires chart { chart.old ≡ record { normal = self.now.normal.now; kinds = self.now.kinds.now } }
        requires productive { AreProductive self.now.normal.now self.now.productive.items }
        requires within { first ≤ length self.now.kinds.now }
        requires count { length lists.old.items ≡ length self.now.kinds.now + 1 }
        ensures same { chart.new ≡ chart.old }
        ensures grown { OnOk result (IsGrownBy (IsInAlternatives self.now.normal.now self.now.kinds.now (alts_form alternatives.now) first) lists.old.items
            lists.new.items) }
        ensures all { OnOk result (ExpectsAll (IsInAlternatives self.now.normal.now self.now.kinds.now (alts_form alternatives.now) first) lists.new.items) }
    {
        for symbols in alternatives {
            self.add_productive(chart, symbols, first, lists)?;
        }
        Ok(())
    }

    /// Adds what the rule at the position predicts.
    fn predict_rule(
        &self,
        chart: &mut Chart<'_>,
        rule: u32,
        first: u32,
        lists: &mut Vec<Vec<Sym>>,
    ) -> Result<(), Memory>
        requires chart { chart.old ≡ record { normal = self.now.normal.now; kinds = self.now.kinds.now } }
        requires productive { AreProductive self.now.normal.now self.now.productive.items }
        requires within { first ≤ length self.now.kinds.now }
        requires count { length lists.old.items ≡ length self.now.kinds.now + 1 }
        ensures same { chart.new ≡ chart.old }
        ensures grown { OnOk result (IsGrownBy (Predicts self.now.normal.now self.now.kinds.now (Sym.Rule rule) first) lists.old.items lists.new.items) }
        ensures all { OnOk result (ExpectsAll (Predicts self.now.normal.now self.now.kinds.now (Sym.Rule rule) first) lists.new.items) }
    {
        let rules = self.normal.rules();
        if rule as usize >= rules.len() {
            return Ok(());
        }
        let last = self.last();
        match &rules[rule as usize] {
            NormalRule::Regular(alternatives) => {
                self.add_alternatives(chart, alternatives, first, lists)?;
                Ok(())
            }
            NormalRule::Opt(symbol) => {
                add_at(lists, *symbol, first)?;
                Ok(())
            }
            NormalRule::Star(symbol) => {
                add_elements(self.alloc, chart, rule, *symbol, first, last, lists)?;
                Ok(())
            }
            NormalRule::Plus(symbol) => {
                add_elements(self.alloc, chart, rule, *symbol, first, last, lists)?;
                Ok(())
            }
        }
    }

    /// Adds what the symbol at the position predicts. A kind or a set predicts nothing.
    fn predict(
        &self,
        chart: &mut Chart<'_>,
        symbol: Sym,
        first: u32,
        lists: &mut Vec<Vec<Sym>>,
    ) -> Result<(), Memory>
        requires chart { chart.old ≡ record { normal = self.now.normal.now; kinds = self.now.kinds.now } }
        requires productive { AreProductive self.now.normal.now self.now.productive.items }
        requires within { first ≤ length self.now.kinds.now }
        requires count { length lists.old.items ≡ length self.now.kinds.now + 1 }
        ensures same { chart.new ≡ chart.old }
        ensures grown { OnOk result (IsGrownBy (Predicts self.now.normal.now self.now.kinds.now symbol first) lists.old.items lists.new.items) }
        ensures all { OnOk result (ExpectsAll (Predicts self.now.normal.now self.now.kinds.now symbol first) lists.new.items) }
    {
        let Sym::Rule(rule) = symbol else {
            return Ok(());
        };
        self.predict_rule(chart, rule, first, lists)?;
        Ok(())
    }

    /// Adds what the next symbol at the position predicts, unless it was done before. The answer is
    /// false where no symbol is left.
    fn predict_next(
        &self,
        chart: &mut Chart<'_>,
        position: u32,
        done: usize,
        places: &mut Vec<usize>,
        lists: &mut Vec<Vec<Sym>>,
    ) -> Result<bool, Memory>
        requires chart { chart.old ≡ record { normal = self.now.normal.now; kinds = self.now.kinds.now } }
        requires productive { AreProductive self.now.normal.now self.now.productive.items }
        requires within { position ≤ length self.now.kinds.now }
        requires walk { IsWalk self.now.normal.now self.now.kinds.now self.now.start position lists.old.items }
        requires closed { IsClosedTo self.now.normal.now self.now.kinds.now position done lists.old.items }
        ensures same { chart.new ≡ chart.old }
        ensures walk { OnOk result (IsWalk self.now.normal.now self.now.kinds.now self.now.start position lists.new.items) }
        ensures more { IfOk result (λ more. IsTrue more → IsClosedTo self.now.normal.now self.now.kinds.now position (done + 1) lists.new.items) }
        ensures small { IfOk result (λ more. IsTrue more → done + 1 < 2 ^ 64) }
        ensures all { IfOk result (λ more. more ≡ false → IsClosed self.now.normal.now self.now.kinds.now position lists.new.items) }
    {
        let symbols = lists[position as usize].as_slice();
        if done >= symbols.len() {
            return Ok(false);
        }
        let symbol = symbols[done];
        if is_done(symbol, places, symbols, done) {
            return Ok(true);
        }
        note_place(symbol, places, done);
        self.predict(chart, symbol, position, lists)?;
        Ok(true)
    }

    /// Adds all that symbols at the position predict.
    fn close(
        &self,
        chart: &mut Chart<'_>,
        position: u32,
        places: &mut Vec<usize>,
        lists: &mut Vec<Vec<Sym>>,
    ) -> Result<(), Memory>
        requires chart { chart.old ≡ record { normal = self.now.normal.now; kinds = self.now.kinds.now } }
        requires productive { AreProductive self.now.normal.now self.now.productive.items }
        requires within { position ≤ length self.now.kinds.now }
        requires walk { IsWalk self.now.normal.now self.now.kinds.now self.now.start position lists.old.items }
        ensures same { chart.new ≡ chart.old }
        ensures walk { OnOk result (IsWalk self.now.normal.now self.now.kinds.now self.now.start position lists.new.items) }
        ensures closed { OnOk result (IsClosed self.now.normal.now self.now.kinds.now position lists.new.items) }
    {
        let mut done = 0;
        while self.predict_next(chart, position, done, places, lists)? {
            done += 1;
        }
        Ok(())
    }

    /// Whether the kind at the position can come next there: the beginning with it is viable too.
    fn goes_on(
        &self,
        chart: &mut Chart<'_>,
        position: u32,
        lists: &[Vec<Sym>],
    ) -> Result<bool, Memory>
        requires chart { chart.old ≡ record { normal = self.now.normal.now; kinds = self.now.kinds.now } }
        requires within { position < length self.now.kinds.now }
        requires walk { IsWalk self.now.normal.now self.now.kinds.now self.now.start position lists.now }
        requires closed { IsClosed self.now.normal.now self.now.kinds.now position lists.now }
        ensures same { chart.new ≡ chart.old }
        ensures answer { IfOk result (λ answer. IsTrue answer ↔ IsViablePrefix self.now.normal.now self.now.start (take (position + 1) self.now.kinds.now)) }
    {
        let symbols = lists[position as usize].as_slice();
        let end = position + 1;
        for symbol in symbols {
            if is_next(chart, *symbol, position, end)? {
                return Ok(true);
            }
        }
        Ok(false)
    }

    /// The length of the longest viable beginning, with the symbols that can come next after it.
    pub(crate) fn longest(
        &self,
        chart: &mut Chart<'_>,
        places: &mut Vec<usize>,
        lists: &mut Vec<Vec<Sym>>,
    ) -> Result<u32, Memory>
        requires chart { chart.old ≡ record { normal = self.now.normal.now; kinds = self.now.kinds.now } }
        requires productive { AreProductive self.now.normal.now self.now.productive.items }
        requires walk { IsWalk self.now.normal.now self.now.kinds.now self.now.start 0 lists.old.items }
        requires viable { IsViablePrefix self.now.normal.now self.now.start [] }
        ensures same { chart.new ≡ chart.old }
        ensures longest { IfOk result (IsLongestViable self.now.normal.now self.now.start self.now.kinds.now) }
        ensures walk { IfOk result (λ n. IsWalk self.now.normal.now self.now.kinds.now self.now.start n lists.new.items) }
        ensures closed { IfOk result (λ n. IsClosed self.now.normal.now self.now.kinds.now n lists.new.items) }
    {
        let last = self.last();
        for position in 0..last {
            self.close(chart, position, places, lists)?;
            if !self.goes_on(chart, position, lists)? {
                return Ok(position);
            }
            clear_at(self.alloc, lists, position);
        }
        self.close(chart, last, places, lists)?;
        Ok(last)
    }
}
