//! The parse of a list of kinds.

ghost use Rattle.std.specs.Prelude.{◌≡◌, ◌<◌, ◌^◌, length, IfOk, MatchOption};
ghost use Rattle.normal_form.specs.NormalDerives.{NormalDerives};
ghost use Rattle.normal_form.specs.Spans.{DerivesSpan};
ghost use Rattle.chart_parser.specs.Parse.{IsParse};

use crate::nodes::preferred_nodes;
use chart_parser_ends::Chart;
use faults::Memory;
use normal_form::{Normal, Sym};
use std::alloc::Global;
use syntax_tree::Tree;

/// The preferred tree of the kinds, which the start symbol derives.
fn preferred_tree(
    alloc: Global,
    chart: &mut Chart<'_>,
    normal: &Normal,
    start: Sym,
    kinds: &[u32],
) -> Result<Tree, Memory>
    requires form { chart.old.normal ≡ normal.now }
    requires kinds { chart.old.kinds ≡ kinds.now }
    requires few { length kinds.now < 2 ^ 32 }
    requires derived { DerivesSpan chart.old.normal chart.old.kinds start 0 (length kinds.now) }
    ensures { IfOk result (IsParse normal.now start kinds.now) }
{
    let nodes = preferred_nodes(alloc, chart, normal, start, kinds)?;
    let tree = Tree::new(alloc, normal.copy(alloc)?, start, nodes)?;
    Ok(tree)
}

/// The preferred tree of the kinds for the start symbol; None where that doesn't derive them. A tree
/// of 2^32 nodes or more is out of memory too.
///
/// Its time is that of the chart (see [`Chart`]), and for each node that of the ends of its parts.
pub fn parse(
    alloc: Global,
    normal: &Normal,
    start: Sym,
    kinds: &[u32],
) -> Result<Option<Tree>, Memory>
    requires { length kinds.now < 2 ^ 32 }
    ensures { IfOk result (λ answer. MatchOption answer (¬ NormalDerives normal.now start kinds.now) (IsParse normal.now start kinds.now)) }
{
    let mut chart = Chart::new(alloc, normal, kinds)?;
    if !chart.reaches(start, 0, kinds.len() as u32)? {
        return Ok(None);
    }
    let tree = preferred_tree(alloc, &mut chart, normal, start, kinds)?;
    Ok(Some(tree))
}
