//! Parts that are known without lists of positions: those of symbols that can end at one position alone, and
//! those of the last two symbols.

ghost use Rattle.std.specs.Prelude.{◌≡◌, ◌≤◌, ◌∷◌, [], false, length, IfOk, IsTrue, MatchOption};
ghost use Rattle.normal_form.specs.Spans.{DerivesSpanSeq};
ghost use Rattle.chart_parser.specs.inner.Parts.{HasParts, IsKnownTo};

use crate::part::Part;
use chart_parser_ends::Chart;
use faults::Memory;
use normal_form::Sym;
use std::alloc::Global;

/// How many symbols have their parts, and where the part after these begins.
#[derive(Clone, Copy)]
pub(crate) struct Known {
    pub(crate) count: usize,
    pub(crate) position: u32,
}

/// Adds the parts of the first symbols, but the last one at most, as long as each of them can end at one
/// position alone, up to the end of the part. None where one of them can't end there at all.
pub(crate) fn add_known_parts(
    alloc: Global,
    chart: &mut Chart<'_>,
    symbols: &[Sym],
    part: Part,
    parts: &mut Vec<Part>,
) -> Result<Option<Known>, Memory>
    requires none { parts.old.items ≡ [] }
    requires first { part.first ≤ length chart.old.kinds }
    ensures same { chart.new ≡ chart.old }
    ensures known { IfOk result (λ found. MatchOption found
        (¬ DerivesSpanSeq chart.old.normal chart.old.kinds symbols.now part.first part.end)
        (λ known. IsKnownTo chart.old.normal chart.old.kinds symbols.now part.first part.end known.count known.position parts.new.items)) }
{
    let mut ends = Vec::new(alloc);
    let mut position = part.first;
    for index in 0..symbols.len().saturating_sub(1) {
        ends.clear();
        chart.add_ends(symbols[index], position, part.end, &mut ends)?;
        match ends.as_slice() {
            [] => return Ok(None),
            [end] => {
                parts.push(Part {
                    slot: symbols[index],
                    first: position,
                    end: *end,
                })?;
                position = *end;
            }
            [_, _, ..] => {
                return Ok(Some(Known {
                    count: index,
                    position,
                }));
            }
        }
    }
    Ok(Some(Known {
        count: symbols.len().saturating_sub(1),
        position,
    }))
}

/// Adds the part of the last symbol. The answer is false where it doesn't derive the span.
pub(crate) fn add_last_part(
    chart: &mut Chart<'_>,
    symbol: Sym,
    part: Part,
    parts: &mut Vec<Part>,
) -> Result<bool, Memory>
    ensures same { chart.new ≡ chart.old }
    ensures yes { IfOk result (λ answer. IsTrue answer
        → HasParts chart.old.normal chart.old.kinds (symbol ∷ []) part.first part.end parts.old.items parts.new.items) }
    ensures no { IfOk result (λ answer. answer ≡ false → ¬ DerivesSpanSeq chart.old.normal chart.old.kinds (symbol ∷ []) part.first part.end) }
{
    if !chart.reaches(symbol, part.first, part.end)? {
        return Ok(false);
    }
    parts.push(Part {
        slot: symbol,
        first: part.first,
        end: part.end,
    })?;
    Ok(true)
}

/// Adds the parts of the last two symbols: the first one ends at the greatest position from which the second
/// one goes on to the end. The answer is false where they don't derive the span.
pub(crate) fn add_two_parts(
    alloc: Global,
    chart: &mut Chart<'_>,
    symbol: Sym,
    last: Sym,
    part: Part,
    parts: &mut Vec<Part>,
) -> Result<bool, Memory>
    ensures same { chart.new ≡ chart.old }
    ensures yes { IfOk result (λ answer. IsTrue answer
        → HasParts chart.old.normal chart.old.kinds (symbol ∷ last ∷ []) part.first part.end parts.old.items parts.new.items) }
    ensures no { IfOk result (λ answer. answer ≡ false → ¬ DerivesSpanSeq chart.old.normal chart.old.kinds (symbol ∷ last ∷ []) part.first part.end) }
{
    let mut ends = Vec::new(alloc);
    chart.add_ends(symbol, part.first, part.end, &mut ends)?;
    while let Some(end) = ends.pop() {
        if chart.reaches(last, end, part.end)? {
            parts.push(Part {
                slot: symbol,
                first: part.first,
                end,
            })?;
            parts.push(Part {
                slot: last,
                first: end,
                end: part.end,
            })?;
            return Ok(true);
        }
    }
    Ok(false)
}
