//! Sets of characters.

ghost use Rattle.std.specs.Prelude.{◌≡◌, ◌||◌, ◌<◌, ◌≤◌, ℕ, false, true, not, length, IfOk, OnOk};
ghost use Rattle.grammar_tree.specs.Chars.{HasExactlyChars, IsCharSet, has, is_surrogate};
ghost use Rattle.regex_class.specs.Ranges.{HasExactly, StartsAtMost, in_range, in_ranges, range_at};

use faults::Memory;
use regex_class::{Class, ClassRange};
use std::alloc::Global;
use std::marker::Model;

/// A set of characters, which are the numbers from 0 to 0x10FFFF without the surrogates 0xD800 to
/// 0xDFFF.
///
/// Contracts see its ranges, both ends included. They rise, between two of them at least one number
/// is missing, and none runs over the surrogates; so two sets with the same characters are equal.
#[derive(Drop)]
pub struct CharSet {
    class: Class,
}

impl Model for CharSet {
    ghost use Rattle.std.specs.Prelude.{List, ℕ};
    ghost use Rattle.grammar_tree.specs.Chars.{IsCharSet};

    ghost Value = { List (ℕ × ℕ) };

    ghost view = { λ s. s.class.ranges.items };

    ghost invariant = { λ s. IsCharSet s.class.ranges.items };
}

impl CharSet {
    /// The characters that lie in one of the ranges, both ends included. A range whose first
    /// character is above its last adds nothing.
    pub fn new(alloc: Global, ranges: &[(char, char)]) -> Result<CharSet, Memory>
        ensures { IfOk result (λ set. HasExactlyChars set (has ranges.now)) }
    {
        let mut numbers = Vec::new(alloc);
        for range in ranges {
            numbers.push((u32::from(range.0), u32::from(range.1)))?;
        }
        chars_outside(&Class::new(numbers)?.negate(regex_class::MAX)?)
    }

    /// An equal set.
    pub fn copy(&self) -> Result<CharSet, Memory>
        ensures { IfOk result (λ set. set ≡ self.now) }
    {
        let class = self.class.clone()?;
        Ok(CharSet { class })
    }

    /// The ranges of the set, both ends included. They rise, and between two of them at least one
    /// number is missing.
    pub fn ranges(&self) -> &[ClassRange]
        ensures { result.now ≡ self.now }
    {
        self.class.ranges.as_slice()
    }

    /// The ranges are those of a set: a caller calls this so that its proof knows.
    pub fn is_char_set(&self)
        ensures { IsCharSet self.now }
    {
        let _ = &self.class;
    }

    /// Whether the character is in the set.
    pub fn contains(&self, c: char) -> bool
        ensures { result ≡ has self.now c }
    {
        self.class.contains(u32::from(c))
    }

    /// The characters that one of the two sets has.
    pub fn union(&self, other: &CharSet) -> Result<CharSet, Memory>
        ensures { IfOk result (λ set. HasExactlyChars set (λ c. has self.now c || has other.now c)) }
    {
        Ok(CharSet {
            class: merged(&self.class, &other.class)?,
        })
    }

    /// The characters that the set doesn't have.
    pub fn complement(&self) -> Result<CharSet, Memory>
        ensures { IfOk result (λ set. HasExactlyChars set (λ c. not (has self.now c))) }
    {
        let outside = chars_outside(&self.class)?;
        Ok(outside)
    }
}

/// The characters outside a class.
fn chars_outside(class: &Class) -> Result<CharSet, Memory>
    ensures { IfOk result (λ set. HasExactlyChars set (λ c. not (in_ranges class.now.ranges.items c))) }
{
    let surrogates = surrogates(*class.ranges.allocator())?;
    Ok(CharSet {
        class: merged(class, &surrogates)?.negate(regex_class::MAX)?,
    })
}

/// The numbers that are no characters.
fn surrogates(alloc: Global) -> Result<Class, Memory>
    ensures { IfOk result (λ s. HasExactly s.ranges.items is_surrogate) }
{
    Ok(Class::from_ranges(alloc, &[(0xD800, 0xDFFF)])?)
}

/// The numbers of both classes, in one pass over their ranges.
fn merged(left: &Class, right: &Class) -> Result<Class, Memory>
    ensures { IfOk result (λ all. (c : ℕ) → in_ranges all.ranges.items c ≡ (in_ranges left.now.ranges.items c || in_ranges right.now.ranges.items c)) }
{
    let mut all = Class::empty(*left.ranges.allocator());
    let mut i = 0;
    let mut j = 0;
    while i < left.ranges.len() || j < right.ranges.len() {
        if is_first(&left.ranges, i, &right.ranges, j) {
            add_range(&mut all, left.ranges[i])?;
            i += 1;
        } else {
            add_range(&mut all, right.ranges[j])?;
            j += 1;
        }
    }
    Ok(all)
}

/// Whether the next range of `left`, from `i` on, starts no later than that of `right`, from `j` on.
fn is_first(left: &[ClassRange], i: usize, right: &[ClassRange], j: usize) -> bool
    ensures left { result ≡ true → (i < length left.now) × (j < length right.now → (range_at left.now i).0 ≤ (range_at right.now j).0) }
    ensures right { result ≡ false → i < length left.now → (j < length right.now) × ((range_at right.now j).0 ≤ (range_at left.now i).0) }
{
    i < left.len() && (j >= right.len() || left[i].0 <= right[j].0)
}

/// Adds a range that starts no earlier than those already there.
fn add_range(class: &mut Class, range: ClassRange) -> Result<(), Memory>
    requires ordered { range.0 ≤ range.1 }
    requires bounded { range.1 ≤ 0x10FFFF }
    requires last { StartsAtMost class.old.ranges.items range.0 }
    ensures members { OnOk result ((c : ℕ) → in_ranges class.new.ranges.items c ≡ (in_ranges class.old.ranges.items c || in_range range c)) }
    ensures starts { OnOk result (StartsAtMost class.new.ranges.items range.0) }
{
    let len = class.ranges.len();
    if len > 0 {
        let last = class.ranges[len - 1];
        if range.0 <= last.1 + 1 {
            class.ranges[len - 1] = (last.0, last.1.max(range.1));
            return Ok(());
        }
    }
    class.ranges.push(range)?;
    Ok(())
}
