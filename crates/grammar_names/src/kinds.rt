//! Lists of numbers of kinds.

ghost use Rattle.std.specs.Prelude.{◌≡◌, ℕ, ◌<◌, ◌^◌, IfOk, filter, length, map};
ghost use Rattle.std.specs.List.Sorted.{IsNonDecreasing, IsStrictlyIncreasing};
ghost use Rattle.grammar_tree.specs.GrammarView.{kind_of};
ghost use Rattle.grammar_tree.specs.Kinds.{visible_from};
ghost use Rattle.grammar_names.specs.KindLists.{is_in, lacking};

use faults::Memory;
use grammar_tree::Kind;
use std::alloc::Global;

/// The numbers of the kinds that aren't gap kinds, rising.
pub fn visible_kinds(alloc: Global, kinds: &[Kind]) -> Result<Vec<u32>, Memory>
    requires { length kinds.now < 2 ^ 32 }
    ensures { IfOk result (λ numbers. numbers.items ≡ visible_from 0 (map kind_of kinds.now)) }
{
    let mut numbers = Vec::new(alloc);
    for (number, kind) in kinds.iter().enumerate() {
        if !kind.gap {
            numbers.push(number as u32)?;
        }
    }
    Ok(numbers)
}

/// Whether the number is among these, none of which is less than the one before. It takes time
/// logarithmic in how many they are.
pub fn is_among(numbers: &[u32], number: u32) -> bool
    requires { IsNonDecreasing numbers.now }
    ensures { result ≡ is_in numbers.now number }
{
    numbers.binary_search(&number).is_ok()
}

/// The kinds that aren't left out, in their order. It takes time near linear in the two lists.
pub fn without(alloc: Global, kinds: &[u32], left_out: &[u32]) -> Result<Vec<u32>, Memory>
    ensures { IfOk result (λ others. others.items ≡ lacking kinds.now left_out.now) }
{
    let mut ordered = Vec::from_slice(alloc, left_out)?;
    ordered.sort_unstable();
    let mut others = Vec::new(alloc);
    for kind in kinds {
        if !is_among(&ordered, *kind) {
            others.push(*kind)?;
        }
    }
    Ok(others)
}

/// The same numbers, each once and rising.
pub(crate) fn sorted(mut numbers: Vec<u32>) -> Vec<u32>
    ensures rising { IsStrictlyIncreasing result.items }
    ensures same { (k : ℕ) → is_in result.items k ≡ is_in numbers.items k }
{
    numbers.sort_unstable();
    numbers.dedup();
    numbers
}

/// The kinds that are among the numbers, rising. It takes time near linear in how many numbers there
/// are.
pub(crate) fn common(alloc: Global, kinds: &[u32], numbers: &[u32]) -> Result<Vec<u32>, Memory>
    requires kinds_rise { IsStrictlyIncreasing kinds.now }
    requires numbers_rise { IsStrictlyIncreasing numbers.now }
    ensures { IfOk result (λ both. both.items ≡ filter (is_in numbers.now) kinds.now) }
{
    let mut both = Vec::new(alloc);
    for number in numbers {
        if is_among(kinds, *number) {
            both.push(*number)?;
        }
    }
    Ok(both)
}
