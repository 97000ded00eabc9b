//! How an alternative is cut into its parts.

ghost use Rattle.std.specs.Prelude.{◌≡◌, ◌+◌, ◌<◌, ◌≤◌, [], false, length, IfOk, IsTrue, OnOk};
ghost use Rattle.std.specs.List.Sorted.{IsStrictlyIncreasing};
ghost use Rattle.normal_form.specs.Spans.{DerivesSpanSeq};
ghost use Rattle.chart_parser_ends.specs.Positions.{HasAll, HasExactly};
ghost use Rattle.chart_parser.specs.inner.GoingOn.{AreGoingOn, AreReached, EndsFrom, Meets};
ghost use Rattle.chart_parser.specs.inner.Parts.{AreParts, HasParts};

use crate::known::{add_known_parts, add_last_part, add_two_parts};
use crate::part::Part;
use chart_parser_ends::Chart;
use faults::Memory;
use normal_form::Sym;
use std::alloc::Global;

/// Where the symbol can end that begins at one of these positions, up to the position `end`.
fn next_positions(
    alloc: Global,
    chart: &mut Chart<'_>,
    symbol: Sym,
    positions: &[u32],
    end: u32,
) -> Result<Vec<u32>, Memory>
    ensures same { chart.new ≡ chart.old }
    ensures rising { IfOk result (λ next. IsStrictlyIncreasing next.items) }
    ensures all { IfOk result (λ next. HasAll (EndsFrom chart.old.normal chart.old.kinds symbol positions.now end) next.items) }
{
    let mut next = Vec::new(alloc);
    for position in positions {
        chart.add_ends(symbol, *position, end, &mut next)?;
    }
    Ok(next)
}

/// Where the first symbols can end, for each number of them from 0 on, but for all of them.
fn positions_reached(
    alloc: Global,
    chart: &mut Chart<'_>,
    symbols: &[Sym],
    part: Part,
) -> Result<Vec<Vec<u32>>, Memory>
    requires { 0 < length symbols.now }
    ensures same { chart.new ≡ chart.old }
    ensures count { IfOk result (λ sets. length sets.items ≡ length symbols.now) }
    ensures reached { IfOk result (λ sets. AreReached chart.old.normal chart.old.kinds symbols.now part.first part.end (length symbols.now) sets.items) }
{
    let mut sets = Vec::with_capacity(alloc, symbols.len() + 1)?;
    sets.push(vec![in alloc; part.first]?)?;
    for index in 0..symbols.len() - 1 {
        let next = next_positions(alloc, chart, symbols[index], &sets[index], part.end)?;
        sets.push(next)?;
    }
    Ok(sets)
}

/// Those of the positions from which the symbol can end at one of the later ones.
fn going_on(
    alloc: Global,
    chart: &mut Chart<'_>,
    symbol: Sym,
    positions: &[u32],
    later: &[u32],
) -> Result<Vec<u32>, Memory>
    requires rising { IsStrictlyIncreasing positions.now }
    requires rising_later { IsStrictlyIncreasing later.now }
    ensures same { chart.new ≡ chart.old }
    ensures kept { IfOk result (λ kept. HasExactly (Meets chart.old.normal chart.old.kinds symbol positions.now later.now) kept.items) }
{
    let mut kept = Vec::new(alloc);
    for position in positions {
        if chart.last_among(symbol, *position, later)?.is_some() {
            kept.push(*position)?;
        }
    }
    Ok(kept)
}

/// Adds the end of the part to the lists of positions, and leaves of each list but the first one
/// those from which the symbols after them go on to that end.
fn keep_going_on(
    alloc: Global,
    chart: &mut Chart<'_>,
    symbols: &[Sym],
    part: Part,
    sets: &mut Vec<Vec<u32>>,
) -> Result<(), Memory>
    requires count { length sets.old.items ≡ length symbols.now }
    requires reached { AreReached chart.old.normal chart.old.kinds symbols.now part.first part.end (length symbols.now) sets.old.items }
    requires within { part.end ≤ length chart.old.kinds }
    ensures same { chart.new ≡ chart.old }
    ensures count { OnOk result (length sets.new.items ≡ length symbols.now + 1) }
    ensures going_on { OnOk result (AreGoingOn chart.old.normal chart.old.kinds symbols.now part.first part.end 1 sets.new.items) }
{
    sets.push(vec![in alloc; part.end]?)?;
    for index in (1..symbols.len()).rev() {
        let kept = going_on(alloc, chart, symbols[index], &sets[index], &sets[index + 1])?;
        sets[index] = kept;
    }
    Ok(())
}

/// Adds the part of each symbol, each as long as the rest allows. The answer is false where the
/// symbols don't derive the span.
fn add_parts(
    chart: &mut Chart<'_>,
    symbols: &[Sym],
    sets: &[Vec<u32>],
    part: Part,
    parts: &mut Vec<Part>,
) -> Result<bool, Memory>
    requires some { 0 < length symbols.now }
    requires count { length sets.now ≡ length symbols.now + 1 }
    requires going_on { AreGoingOn chart.old.normal chart.old.kinds symbols.now part.first part.end 1 sets.now }
    requires none { parts.old.items ≡ [] }
    requires within { part.first ≤ length chart.old.kinds }
    ensures same { chart.new ≡ chart.old }
    ensures yes { IfOk result (λ answer. IsTrue answer → AreParts chart.old.normal chart.old.kinds symbols.now part.first part.end parts.new.items) }
    ensures no { IfOk result (λ answer. answer ≡ false → ¬ DerivesSpanSeq chart.old.normal chart.old.kinds symbols.now part.first part.end) }
{
    let mut position = part.first;
    for (index, symbol) in symbols.iter().enumerate() {
        let Some(end) = chart.last_among(*symbol, position, &sets[index + 1])? else {
            return Ok(false);
        };
        parts.push(Part {
            slot: *symbol,
            first: position,
            end,
        })?;
        position = end;
    }
    Ok(true)
}

/// Adds the parts of any symbols, by the lists of positions that these reach and from which they go on.
/// The answer is false where the symbols don't derive the span.
fn add_all_parts(
    alloc: Global,
    chart: &mut Chart<'_>,
    symbols: &[Sym],
    part: Part,
    parts: &mut Vec<Part>,
) -> Result<bool, Memory>
    requires some { 0 < length symbols.now }
    requires first { part.first ≤ length chart.old.kinds }
    requires end { part.end ≤ length chart.old.kinds }
    ensures same { chart.new ≡ chart.old }
    ensures yes { IfOk result (λ answer. IsTrue answer
        → HasParts chart.old.normal chart.old.kinds symbols.now part.first part.end parts.old.items parts.new.items) }
    ensures no { IfOk result (λ answer. answer ≡ false → ¬ DerivesSpanSeq chart.old.normal chart.old.kinds symbols.now part.first part.end) }
{
    let mut sets = positions_reached(alloc, chart, symbols, part)?;
    keep_going_on(alloc, chart, symbols, part, &mut sets)?;
    let mut more = Vec::new(alloc);
    let is_cut = add_parts(chart, symbols, &sets, part, &mut more)?;
    parts.extend_from_slice(&more)?;
    Ok(is_cut)
}

/// Adds the parts of the symbols that come after those of which the parts are known. The answer is false
/// where the symbols don't derive the span.
fn add_other_parts(
    alloc: Global,
    chart: &mut Chart<'_>,
    symbols: &[Sym],
    part: Part,
    parts: &mut Vec<Part>,
) -> Result<bool, Memory>
    requires first { part.first ≤ length chart.old.kinds }
    requires end { part.end ≤ length chart.old.kinds }
    ensures same { chart.new ≡ chart.old }
    ensures yes { IfOk result (λ answer. IsTrue answer
        → HasParts chart.old.normal chart.old.kinds symbols.now part.first part.end parts.old.items parts.new.items) }
    ensures no { IfOk result (λ answer. answer ≡ false → ¬ DerivesSpanSeq chart.old.normal chart.old.kinds symbols.now part.first part.end) }
{
    match symbols {
        [] => Ok(part.first == part.end),
        [symbol] => add_last_part(chart, *symbol, part, parts),
        [first, second] => add_two_parts(alloc, chart, *first, *second, part, parts),
        [_, _, _, ..] => add_all_parts(alloc, chart, symbols, part, parts),
    }
}

/// Cuts a span into the parts of the symbols, each as long as the rest allows. The answer is false
/// where the symbols don't derive the span.
///
/// Mostly each symbol but the last one has one end alone. Lists of positions are made only for three
/// symbols or more of which the first has several ends.
pub(crate) fn alternative_parts(
    alloc: Global,
    chart: &mut Chart<'_>,
    symbols: &[Sym],
    part: Part,
    parts: &mut Vec<Part>,
) -> Result<bool, Memory>
    requires first { part.first ≤ length chart.old.kinds }
    requires end { part.end ≤ length chart.old.kinds }
    ensures same { chart.new ≡ chart.old }
    ensures yes { IfOk result (λ answer. IsTrue answer → AreParts chart.old.normal chart.old.kinds symbols.now part.first part.end parts.new.items) }
    ensures no { IfOk result (λ answer. answer ≡ false → ¬ DerivesSpanSeq chart.old.normal chart.old.kinds symbols.now part.first part.end) }
{
    parts.clear();
    let Some(known) = add_known_parts(alloc, chart, symbols, part, parts)? else {
        return Ok(false);
    };
    let rest = Part {
        slot: part.slot,
        first: known.position,
        end: part.end,
    };
    add_other_parts(alloc, chart, &symbols[known.count..], rest, parts)
}
