//! How the span of a rule is cut into those of its children.

ghost use Rattle.std.specs.Prelude.{◌≡◌, ◌⊎◌, ◌<◌, ◌≤◌, ◌^◌, ℕ, List, [], Some, length, slice_get, IfOk, OnOk};
ghost use Rattle.normal_form.specs.Spans.{DerivesSpan, DerivesSpanSeq};
ghost use Rattle.normal_form.specs.declared.normal.Sym;
ghost use Rattle.normal_form.specs.View.{alts_form};
ghost use Rattle.chart_parser.specs.inner.Parts.{AreOfLeast, AreOfRule, IsContent};

use crate::alternative::alternative_parts;
use crate::elements::add_list;
use crate::part::Part;
use chart_parser_ends::Chart;
use faults::Memory;
use normal_form::{Normal, NormalRule, Sym, elements_move_on, numbers_are_small, spans_by_form};
use std::alloc::Global;

/// The number of the first alternative that derives the span, with its parts.
fn first_alternative(
    alloc: Global,
    chart: &mut Chart<'_>,
    alternatives: &[Vec<Sym>],
    part: Part,
    parts: &mut Vec<Part>,
) -> Result<u32, Memory>
    requires few { length alternatives.now < 2 ^ 32 }
    requires first { part.first ≤ length chart.old.kinds }
    requires end { part.end ≤ length chart.old.kinds }
    requires derived { (a : ℕ) × (alt : List Sym) × (slice_get (alts_form alternatives.now) a ≡ Some alt)
        × DerivesSpanSeq chart.old.normal chart.old.kinds alt part.first part.end }
    ensures same { chart.new ≡ chart.old }
    ensures parts { IfOk result (λ a. AreOfLeast chart.old.normal chart.old.kinds (alts_form alternatives.now) a part.first part.end parts.new.items) }
{
    for (number, symbols) in alternatives.iter().enumerate() {
        if alternative_parts(alloc, chart, symbols, part, parts)? {
            return Ok(number as u32);
        }
    }
    unreachable!()
}

/// Adds the content of an optional, if its symbol derives the span.
fn add_content(
    chart: &mut Chart<'_>,
    symbol: Sym,
    part: Part,
    parts: &mut Vec<Part>,
) -> Result<(), Memory>
    requires derived { ((part.first ≡ part.end) × (part.first ≤ length chart.old.kinds))
        ⊎ DerivesSpan chart.old.normal chart.old.kinds symbol part.first part.end }
    requires none { parts.old.items ≡ [] }
    ensures same { chart.new ≡ chart.old }
    ensures content { OnOk result (IsContent chart.old.normal chart.old.kinds symbol part.first part.end parts.new.items) }
{
    if chart.reaches(symbol, part.first, part.end)? {
        parts.push(Part {
            slot: symbol,
            first: part.first,
            end: part.end,
        })?;
    }
    Ok(())
}

/// The number of the alternative that the rule takes, and 0 where it isn't regular. Afterwards the
/// parts are those of its children. The part is that of the rule.
pub(crate) fn rule_parts(
    alloc: Global,
    chart: &mut Chart<'_>,
    normal: &Normal,
    rule: u32,
    part: Part,
    parts: &mut Vec<Part>,
) -> Result<u32, Memory>
    requires form { chart.old.normal ≡ normal.now }
    requires slot { part.slot ≡ Sym.Rule rule }
    requires derived { DerivesSpan chart.old.normal chart.old.kinds part.slot part.first part.end }
    ensures same { chart.new ≡ chart.old }
    ensures parts { IfOk result (λ a. AreOfRule chart.old.normal chart.old.kinds rule a part.first part.end parts.new.items) }
{
    spans_by_form();
    elements_move_on();
    numbers_are_small();
    normal.is_normal();
    parts.clear();
    match &normal.rules()[rule as usize] {
        NormalRule::Regular(alternatives) => {
            first_alternative(alloc, chart, alternatives, part, parts)
        }
        NormalRule::Opt(symbol) => {
            add_content(chart, *symbol, part, parts)?;
            Ok(0)
        }
        NormalRule::Star(symbol) => {
            add_list(alloc, chart, *symbol, part, parts)?;
            Ok(0)
        }
        NormalRule::Plus(symbol) => {
            add_list(alloc, chart, *symbol, part, parts)?;
            Ok(0)
        }
    }
}
