//! Rising lists of positions.

ghost use Rattle.std.specs.Prelude.{◌≡◌, ℕ, ◌<◌, ◌≤◌, ◌↔◌, ◌+◌, ◌^◌, length, slice_index, slice_index_or, IfOk, OnOk, IsTrue};
ghost use Rattle.std.specs.List.{Contains};
ghost use Rattle.std.specs.List.Sorted.{IsStrictlyIncreasing};
ghost use Rattle.chart_parser_ends.specs.Positions.{HasAll, IsGrown, IsLastAmong};
ghost use Rattle.chart_parser_ends.specs.inner.Positions.{ArePositionsTo, IsUpTo, IsWith};

use faults::Memory;
use std::alloc::Global;

/// The positions of a list of this length.
pub(crate) fn positions_to(alloc: Global, length: usize) -> Result<Vec<u32>, Memory>
    requires { length < 2 ^ 32 }
    ensures { IfOk result (λ positions. ArePositionsTo length positions.items) }
{
    let mut positions = Vec::with_capacity(alloc, length + 1)?;
    for position in 0..length + 1 {
        positions.push(position as u32)?;
    }
    Ok(positions)
}

/// Whether the position is among them.
pub(crate) fn has(positions: &[u32], position: u32) -> bool
    requires { IsStrictlyIncreasing positions.now }
    ensures { IsTrue result ↔ Contains positions.now position }
{
    positions.binary_search(&position).is_ok()
}

/// How many of the positions are at most `last`.
fn count_to(positions: &[u32], last: u32) -> usize
    requires { IsStrictlyIncreasing positions.now }
    ensures bound { result ≤ length positions.now }
    ensures below { (k : ℕ) → k < result → slice_index positions.now k ≤ last }
    ensures above { (k : ℕ) → result ≤ k → k < length positions.now → last < slice_index positions.now k }
{
    match positions.binary_search(&last) {
        Ok(index) => index + 1,
        Err(index) => index,
    }
}

/// Those of the positions that are at most `last`.
pub(crate) fn up_to(positions: &[u32], last: u32) -> &[u32]
    requires { IsStrictlyIncreasing positions.now }
    ensures { (x : ℕ) → Contains result.now x ↔ IsUpTo positions.now last x }
{
    let count = count_to(positions, last);
    &positions[..count]
}

/// The greatest of the positions that are among the others too.
fn last_of(positions: &[u32], others: &[u32]) -> Option<u32>
    requires positions { IsStrictlyIncreasing positions.now }
    requires others { IsStrictlyIncreasing others.now }
    ensures { IsLastAmong (Contains others.now) positions.now result }
{
    for later in 0..positions.len() {
        let position = positions[positions.len() - 1 - later];
        if has(others, position) {
            return Some(position);
        }
    }
    None
}

/// The greatest position that is in both lists. The shorter one is gone through.
pub(crate) fn last_common(positions: &[u32], others: &[u32]) -> Option<u32>
    requires positions { IsStrictlyIncreasing positions.now }
    requires others { IsStrictlyIncreasing others.now }
    ensures { IsLastAmong (Contains positions.now) others.now result }
{
    if positions.len() < others.len() {
        last_of(positions, others)
    } else {
        last_of(others, positions)
    }
}

/// Whether the position is greater than all of them.
fn is_past(positions: &[u32], position: u32) -> bool
    requires { IsStrictlyIncreasing positions.now }
    ensures { IsTrue result → (k : ℕ) → k < length positions.now → slice_index_or positions.now k 0 < position }
{
    let count = positions.len();
    count == 0 || positions[count - 1] < position
}

/// Adds the position, unless it is among them. One that is greater than all of them takes no search.
pub(crate) fn add(positions: &mut Vec<u32>, position: u32) -> Result<(), Memory>
    requires { IsStrictlyIncreasing positions.old.items }
    ensures rising { OnOk result (IsStrictlyIncreasing positions.new.items) }
    ensures with { OnOk result (IsWith positions.old.items position positions.new.items) }
{
    if is_past(positions, position) {
        positions.push(position)?;
    } else if let Err(at) = positions.binary_search(&position) {
        positions.insert(at, position)?;
    }
    Ok(())
}

/// Adds each of these positions.
pub(crate) fn add_all(positions: &mut Vec<u32>, more: &[u32]) -> Result<(), Memory>
    requires { IsStrictlyIncreasing positions.old.items }
    ensures rising { OnOk result (IsStrictlyIncreasing positions.new.items) }
    ensures grown { OnOk result (IsGrown (Contains more.now) positions.old.items positions.new.items) }
    ensures all { OnOk result (HasAll (Contains more.now) positions.new.items) }
{
    for position in more {
        add(positions, *position)?;
    }
    Ok(())
}
