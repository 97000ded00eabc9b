//! The parts that ddmin cuts a list into.

ghost use Rattle.std.specs.Prelude.{◌≡◌, ◌++◌, ◌*◌, ◌/◌, ◌<◌, ◌^◌, IfOk, drop, take};

use crate::nodes::LeftNode;
use faults::Memory;
use std::alloc::Global;

/// Where part i of n begins, in a list of so many elements.
pub(crate) fn part_start(count: usize, n: usize, i: usize) -> usize
    requires { 0 < n }
    ensures { i * count < 2 ^ 64 → result ≡ i * count / n }
{
    i.saturating_mul(count) / n
}

/// The nodes from one index up to another.
pub(crate) fn inside(
    alloc: Global,
    nodes: &[LeftNode],
    from: usize,
    to: usize,
) -> Result<Vec<LeftNode>, Memory>
    ensures { IfOk result (λ part. part.items ≡ drop from (take to nodes.now)) }
{
    Ok(nodes.iter().copied().take(to).skip(from).collect(alloc)?)
}

/// All other nodes.
pub(crate) fn outside(
    alloc: Global,
    nodes: &[LeftNode],
    from: usize,
    to: usize,
) -> Result<Vec<LeftNode>, Memory>
    ensures { IfOk result (λ rest. rest.items ≡ take from nodes.now ++ drop to nodes.now) }
{
    let end = nodes.iter().copied().skip(to);
    Ok(nodes.iter().copied().take(from).chain(end).collect(alloc)?)
}
