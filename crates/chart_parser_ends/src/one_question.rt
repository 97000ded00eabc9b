//! One question about a list of kinds.

ghost use Rattle.std.specs.Prelude.{◌↔◌, ◌<◌, ◌^◌, length, IfOk, IsTrue};
ghost use Rattle.normal_form.specs.NormalDerives.{NormalDerives};
ghost use Rattle.normal_form.specs.Spans.{DerivesSpan};
ghost use Rattle.chart_parser_ends.specs.Positions.{HasExactly};

use crate::chart::Chart;
use faults::Memory;
use normal_form::{Normal, Sym};
use std::alloc::Global;

/// All positions where the symbol can end that begins at the position `first`, rising. It costs what
/// one question to a [`Chart`] costs.
pub fn ends(
    alloc: Global,
    normal: &Normal,
    symbol: Sym,
    kinds: &[u32],
    first: u32,
) -> Result<Vec<u32>, Memory>
    requires { length kinds.now < 2 ^ 32 }
    ensures { IfOk result (λ ends. HasExactly (DerivesSpan normal.now kinds.now symbol first) ends.items) }
{
    let mut ends = Vec::new(alloc);
    let mut chart = Chart::new(alloc, normal, kinds)?;
    chart.add_ends(symbol, first, kinds.len() as u32, &mut ends)?;
    Ok(ends)
}

/// Whether the symbol derives the list of kinds. It costs what [`ends`] costs.
pub fn derives(alloc: Global, normal: &Normal, symbol: Sym, kinds: &[u32]) -> Result<bool, Memory>
    requires { length kinds.now < 2 ^ 32 }
    ensures { IfOk result (λ answer. IsTrue answer ↔ NormalDerives normal.now symbol kinds.now) }
{
    let mut chart = Chart::new(alloc, normal, kinds)?;
    chart.reaches(symbol, 0, kinds.len() as u32)
}
