//! Positions in a list that are marked.

ghost use Rattle.std.specs.Prelude.{◌≡◌, ◌↔◌, ◌<◌, ◌≤◌, ◌&&◌, ◌||◌, ◌+◌, ℕ, IfOk, length, vec_len, slice_index_or, false, true};
ghost use Rattle.grammar_tree.specs.Chars.{has};
ghost use Rattle.cases_languages.specs.Positions.{IsIn};

use faults::Memory;
use std::alloc::Global;

/// So many positions, none of them marked.
pub fn none(alloc: Global, count: usize) -> Result<Vec<bool>, Memory>
    ensures len { IfOk result (λ marks. vec_len marks ≡ count) }
    ensures none { IfOk result (λ marks. (j : ℕ) → slice_index_or marks.items j false ≡ false) }
{
    Ok(vec![in alloc; false; count]?)
}

/// So many positions, of which this one is marked.
pub fn only(alloc: Global, count: usize, position: usize) -> Result<Vec<bool>, Memory>
    requires { position < count }
    ensures len { IfOk result (λ marks. vec_len marks ≡ count) }
    ensures only { IfOk result (λ marks. (j : ℕ) → IsIn marks.items j ↔ (j ≡ position)) }
{
    let mut marks = none(alloc, count)?;
    marks[position] = true;
    Ok(marks)
}

/// The same positions.
pub fn copy(alloc: Global, marks: &[bool]) -> Result<Vec<bool>, Memory>
    ensures { IfOk result (λ copy. copy.items ≡ marks.now) }
{
    Ok(Vec::from_slice(alloc, marks)?)
}

/// The positions that one of the two marks.
pub fn union(alloc: Global, left: &[bool], right: &[bool]) -> Result<Vec<bool>, Memory>
    requires { length left.now ≡ length right.now }
    ensures len { IfOk result (λ marks. vec_len marks ≡ length left.now) }
    ensures either { IfOk result (λ marks. (j : ℕ)
        → slice_index_or marks.items j false ≡ (slice_index_or left.now j false || slice_index_or right.now j false)) }
{
    let mut marks = Vec::new(alloc);
    for i in 0..left.len() {
        let marked = left[i] || right[i];
        marks.push(marked)?;
    }
    Ok(marks)
}

/// Whether the two mark the same positions.
pub fn are_same(left: &[bool], right: &[bool]) -> bool
    requires { length left.now ≡ length right.now }
    ensures same { result ≡ true → left.now ≡ right.now }
    ensures other { result ≡ false → ¬ (left.now ≡ right.now) }
{
    for i in 0..left.len() {
        if left[i] != right[i] {
            return false;
        }
    }
    true
}

/// Whether the number lies in one of the ranges, both ends included.
pub fn is_in_ranges(ranges: &[(u32, u32)], number: u32) -> bool
    ensures { result ≡ has ranges.now number }
{
    for range in ranges {
        if range.0 <= number && number <= range.1 {
            return true;
        }
    }
    false
}

/// The positions after an element in the ranges that is at a marked position.
pub fn steps(
    alloc: Global,
    ranges: &[(u32, u32)],
    list: &[u32],
    from: &[bool],
) -> Result<Vec<bool>, Memory>
    requires { length from.now ≡ length list.now + 1 }
    ensures len { IfOk result (λ to. vec_len to ≡ length from.now) }
    ensures first { IfOk result (λ to. slice_index_or to.items 0 false ≡ false) }
    ensures rest { IfOk result (λ to. (k : ℕ) → k < length list.now
        → slice_index_or to.items (k + 1) false ≡ (slice_index_or from.now k false && has ranges.now (slice_index_or list.now k 0))) }
{
    let mut to = Vec::new(alloc);
    to.push(false)?;
    for i in 0..list.len() {
        let marked = from[i] && is_in_ranges(ranges, list[i]);
        to.push(marked)?;
    }
    Ok(to)
}
