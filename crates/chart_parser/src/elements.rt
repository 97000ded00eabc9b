//! How a star or plus is cut into its elements.

ghost use Rattle.std.specs.Prelude.{◌≡◌, ◌<◌, ◌≤◌, ℕ, [], drop, length, vec_len, IfOk, OnOk};
ghost use Rattle.std.specs.List.{Contains};
ghost use Rattle.std.specs.List.Sorted.{IsStrictlyIncreasing};
ghost use Rattle.normal_form.specs.Spans.{DerivesSpanMany};
ghost use Rattle.chart_parser_ends.specs.Positions.{HasExactly};
ghost use Rattle.chart_parser.specs.inner.GoingOn.{ElementsGoOn, HasEndsOfElements, IsClosedBefore, IsListOf, MovesOn};
ghost use Rattle.chart_parser.specs.inner.Parts.{AreElements};

use crate::part::Part;
use chart_parser_ends::Chart;
use faults::Memory;
use normal_form::Sym;
use std::alloc::Global;

/// Adds the position `end`, and moves those of the positions to the end of the list from which
/// elements go on to it. The answer is the index of the first of these.
fn keep_going_on(
    chart: &mut Chart<'_>,
    symbol: Sym,
    end: u32,
    positions: &mut Vec<u32>,
) -> Result<usize, Memory>
    requires rising { IsStrictlyIncreasing positions.old.items }
    requires before { (x : ℕ) → Contains positions.old.items x → x < end }
    requires closed { IsClosedBefore chart.old.normal chart.old.kinds symbol end positions.old.items }
    requires moves_on { MovesOn chart.old.normal chart.old.kinds symbol }
    requires within { end ≤ length chart.old.kinds }
    ensures same { chart.new ≡ chart.old }
    ensures within { IfOk result (λ from. from ≤ vec_len positions.new) }
    ensures going_on { IfOk result (λ from. HasExactly (ElementsGoOn chart.old.normal chart.old.kinds symbol end positions.old.items)
        (drop from positions.new.items)) }
{
    let count = positions.len();
    positions.push(end)?;
    let mut from = count;
    for index in (0..count).rev() {
        let position = positions[index];
        if chart
            .last_among(symbol, position, &positions[from..])?
            .is_some()
        {
            from -= 1;
            positions[from] = position;
        }
    }
    Ok(from)
}

/// Adds the elements, each as long as the rest allows. They end at these positions.
fn add_elements(
    chart: &mut Chart<'_>,
    symbol: Sym,
    ends: &[u32],
    part: Part,
    elements: &mut Vec<Part>,
) -> Result<(), Memory>
    requires ends { HasEndsOfElements chart.old.normal chart.old.kinds symbol part.first part.end ends.now }
    requires derived { DerivesSpanMany chart.old.normal chart.old.kinds symbol part.first part.end }
    requires moves_on { MovesOn chart.old.normal chart.old.kinds symbol }
    requires none { elements.old.items ≡ [] }
    ensures same { chart.new ≡ chart.old }
    ensures elements { OnOk result (AreElements chart.old.normal chart.old.kinds symbol part.first part.end elements.new.items) }
{
    let mut position = part.first;
    while position < part.end {
        let Some(end) = chart.last_among(symbol, position, ends)? else {
            unreachable!()
        };
        elements.push(Part {
            slot: symbol,
            first: position,
            end,
        })?;
        position = end;
    }
    Ok(())
}

/// Adds the elements of a list of the symbol, each as long as the rest allows. The part is that of
/// the list.
pub(crate) fn add_list(
    alloc: Global,
    chart: &mut Chart<'_>,
    symbol: Sym,
    part: Part,
    elements: &mut Vec<Part>,
) -> Result<(), Memory>
    requires list { IsListOf chart.old.normal chart.old.kinds part.slot symbol part.first }
    requires derived { DerivesSpanMany chart.old.normal chart.old.kinds symbol part.first part.end }
    requires moves_on { MovesOn chart.old.normal chart.old.kinds symbol }
    requires none { elements.old.items ≡ [] }
    ensures same { chart.new ≡ chart.old }
    ensures elements { OnOk result (AreElements chart.old.normal chart.old.kinds symbol part.first part.end elements.new.items) }
{
    if part.first == part.end {
        return Ok(());
    }
    if chart.reaches(symbol, part.first, part.end)? {
        elements.push(Part {
            slot: symbol,
            first: part.first,
            end: part.end,
        })?;
        return Ok(());
    }
    let mut positions = Vec::new(alloc);
    chart.add_ends(part.slot, part.first, part.end - 1, &mut positions)?;
    let from = keep_going_on(chart, symbol, part.end, &mut positions)?;
    add_elements(chart, symbol, &positions[from..], part, elements)
}
