//! Lists of tokens, by their numbers, which rise.

ghost use Rattle.std.specs.Prelude.{◌≡◌, ◌+◌, ◌≤◌, ◌<◌, ◌++◌, Some, IfOk, length, slice_get, take, drop};
ghost use Rattle.std.specs.List.{range_with_len};
ghost use Rattle.std.specs.List.Sorted.{IsStrictlyIncreasing};
ghost use Rattle.syntax_tree_cut.specs.inner.Tokens.{IsSplitAt, before, from_on, within};

use faults::Memory;
use std::alloc::Global;
use syntax_tree::Node;

/// How many of the tokens are before the bound. It takes time logarithmic in the number of tokens.
pub(crate) fn count_before(tokens: &[u32], bound: u32) -> usize
    requires { IsStrictlyIncreasing tokens.now }
    ensures { IsSplitAt tokens.now bound result }
{
    tokens.partition_point(|token| *token < bound)
}

/// How many of the tokens are in the span of the node.
pub(crate) fn count_within(tokens: &[u32], node: &Node) -> usize
    requires rising { IsStrictlyIncreasing tokens.now }
    requires span { node.now.first ≤ node.now.end }
    ensures { result ≡ length (within node.now.first node.now.end tokens.now) }
{
    count_before(tokens, node.end) - count_before(tokens, node.first)
}

/// The first of the tokens in the span of the node.
pub(crate) fn first_within(tokens: &[u32], node: &Node) -> u32
    requires rising { IsStrictlyIncreasing tokens.now }
    requires span { node.now.first ≤ node.now.end }
    requires some { 0 < length (within node.now.first node.now.end tokens.now) }
    ensures { slice_get (within node.now.first node.now.end tokens.now) 0 ≡ Some result }
{
    tokens[count_before(tokens, node.first)]
}

/// A gap in a list of tokens that is gone through: those before the index `from` stay, those from the
/// index `to` on are still to be gone through, and those between are to be removed.
#[derive(Clone, Copy)]
pub(crate) struct Gap {
    pub(crate) from: usize,
    pub(crate) to: usize,
}

/// So many of the tokens after the gap stay: they are moved to where it begins. It takes time linear
/// in their number.
pub(crate) fn keep_next(tokens: &mut Vec<u32>, gap: Gap, count: usize) -> Gap
    requires from { gap.from ≤ gap.to }
    requires to { gap.to + count ≤ length tokens.old.items }
    ensures from { result.from ≡ gap.from + count }
    ensures to { result.to ≡ gap.to + count }
    ensures stay { take (gap.from + count) tokens.new.items ≡ take gap.from tokens.old.items ++ take count (drop gap.to tokens.old.items) }
    ensures next { drop (gap.to + count) tokens.new.items ≡ drop (gap.to + count) tokens.old.items }
    ensures len { length tokens.new.items ≡ length tokens.old.items }
{
    let end = gap.to + count;
    tokens.copy_within(gap.to..end, gap.from);
    Gap {
        from: gap.from + count,
        to: end,
    }
}

/// So many of the tokens after the gap are to be removed too.
pub(crate) fn skip_next(tokens: &[u32], gap: Gap, count: usize) -> Gap
    requires { gap.to + count ≤ length tokens.now }
    ensures from { result.from ≡ gap.from }
    ensures to { result.to ≡ gap.to + count }
{
    // The sum is at most this.
    let _len = tokens.len();
    Gap {
        from: gap.from,
        to: gap.to + count,
    }
}

/// Removes the tokens from the index `from` on and before the index `to`.
pub(crate) fn remove_between(tokens: &mut Vec<u32>, from: usize, to: usize)
    requires from { from ≤ to }
    requires to { to ≤ length tokens.old.items }
    ensures { tokens.new.items ≡ take from tokens.old.items ++ drop to tokens.old.items }
{
    let len = tokens.len();
    tokens.copy_within(to..len, from);
    tokens.truncate(from + (len - to));
}

/// Removes the tokens in the span of the node. It takes time linear in the number of tokens after
/// these.
pub(crate) fn remove_within(tokens: &mut Vec<u32>, node: &Node)
    requires rising { IsStrictlyIncreasing tokens.old.items }
    requires span { node.now.first ≤ node.now.end }
    ensures { tokens.new.items ≡ before node.now.first tokens.old.items ++ from_on node.now.end tokens.old.items }
{
    let from = count_before(tokens, node.first);
    let to = count_before(tokens, node.end);
    remove_between(tokens, from, to);
}

/// Removes the tokens in the span of the node `old`, all but those in the span of the node `new`,
/// which are no more. It takes time linear in the number of tokens from the first of these on.
pub(crate) fn keep_within(tokens: &mut Vec<u32>, old: &Node, new: &Node)
    requires rising { IsStrictlyIncreasing tokens.old.items }
    requires old_span { old.now.first ≤ old.now.end }
    requires new_span { new.now.first ≤ new.now.end }
    requires fewer { length (within new.now.first new.now.end tokens.old.items) ≤ length (within old.now.first old.now.end tokens.old.items) }
    ensures { tokens.new.items ≡ before old.now.first tokens.old.items ++ within new.now.first new.now.end tokens.old.items
        ++ from_on old.now.end tokens.old.items }
{
    let from = count_before(tokens, old.first);
    let to = count_before(tokens, old.end);
    let first = count_before(tokens, new.first);
    let end = count_before(tokens, new.end);
    tokens.copy_within(first..end, from);
    remove_between(tokens, from + (end - first), to);
}

/// The numbers from 0 on and below the bound.
pub(crate) fn numbers_below(alloc: Global, bound: u32) -> Result<Vec<u32>, Memory>
    ensures { IfOk result (λ numbers. numbers.items ≡ range_with_len 0 bound) }
{
    let mut numbers = Vec::with_capacity(alloc, bound as usize)?;
    for number in 0..bound {
        numbers.push(number)?;
    }
    Ok(numbers)
}
