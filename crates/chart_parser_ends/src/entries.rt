//! The entries of a chart.

ghost use Rattle.std.specs.Prelude.{◌≡◌, ℕ, ◌++◌, ◌+◌, ◌-◌, ◌∷◌, ◌<◌, ◌≤◌, ◌^◌, [], IfNone, IfSome, OnErr, OnOk, Some};
ghost use Rattle.std.specs.Prelude.{length, min, slice_get, slice_index_or, vec_len};
ghost use Rattle.std.specs.List.{Contains};
ghost use Rattle.chart_parser_ends.specs.declared.entries.EndsRange.{EndsRange};
ghost use Rattle.chart_parser_ends.specs.inner.Entries.{HasEntry, entry};
ghost use Rattle.chart_parser_ends.specs.inner.Ranges.{AreLinked, IsAdded, IsApart, IsNumbered, IsRangeOf};

use faults::{Limit, Memory};
use std::alloc::Global;
use std::collections::HashMap;
use std::marker::Model;

/// How many ranges are in the chain of a position at most.
const CHAIN: u32 = 32;

/// Which of all ends are those of a rule that begins at the position `first`.
#[derive(Clone, Copy)]
pub(crate) struct EndsRange {
    rule: u32,
    first: u32,
    from: u32,
    count: u32,
    /// The link to the last range before it in the chain of its position.
    earlier: u32,
    /// How many ranges that chain has up to this one, and with it. One that is too many is in no chain.
    depth: u32,
}

/// For some rules and positions all positions where the rule can end that begins there, rising. To
/// contracts they are a list of entries, in the order in which they were stored.
///
/// The first `CHAIN` ranges at a position are its chain: a link to a range is one more than its number,
/// and 0 where there is none. The ranges after those are in a map, and few positions have any. So an
/// entry is found in at most `CHAIN` steps and one look-up in the map, however many there are.
#[derive(Drop)]
pub(crate) struct Entries {
    ranges: Vec<EndsRange>,
    /// The ends of all entries, one entry after another.
    ends: Vec<u32>,
    /// The link to the last range of the chain of each position, up to the greatest one that has a range.
    last: Vec<u32>,
    /// The numbers of the ranges that are in no chain.
    numbers: HashMap<(u32, u32), u32>,
}

impl Model for Entries {
    ghost use Rattle.std.specs.Prelude.{List};
    ghost use Rattle.chart_parser_ends.specs.inner.Entries.{Entry};

    ghost Value = { List Entry };

    ghost use Rattle.chart_parser_ends.specs.inner.Ranges.{AreLinked, AreWithin, IsNumbered, entries_in};

    ghost view = { λ e. entries_in e.ends.items e.ranges.items };

    ghost invariant = { λ e. record {
      within : AreWithin e.ends.items e.ranges.items;
      linked : AreLinked e.ranges.items e.last.items;
      numbered : IsNumbered e.ranges.items e.numbers;
    } };
}

/// The link to the last range of the chain of the position.
fn link_at(last: &[u32], first: u32) -> u32
    ensures { result ≡ slice_index_or last.now first 0 }
{
    match last.get(first as usize) {
        Some(link) => *link,
        None => 0,
    }
}

/// The depth of a range that comes after the one with this link.
fn depth_after(ranges: &[EndsRange], link: u32) -> u32
    requires { link ≤ length ranges.now }
    ensures none { link ≡ 0 → result ≡ 1 }
    ensures more { (i : ℕ) (r : EndsRange) → link ≡ i + 1 → slice_get ranges.now i ≡ Some r → result ≡ min (r.depth + 1) (2 ^ 32 - 1) }
{
    if link == 0 {
        return 1;
    }
    ranges[link as usize - 1].depth.saturating_add(1)
}

/// The range of the rule in the chain of the position.
fn chained(ranges: &[EndsRange], last: &[u32], rule: u32, first: u32) -> Option<EndsRange>
    requires { AreLinked ranges.now last.now }
    ensures found { IfSome result (Contains ranges.now) }
    ensures of { IfSome result (IsRangeOf rule first) }
    ensures none { IfNone result ((r : EndsRange) → Contains ranges.now r → IsRangeOf rule first r → IsApart r) }
{
    let mut link = link_at(last, first);
    while link > 0 {
        let range = ranges[link as usize - 1];
        if range.rule == rule {
            return Some(range);
        }
        link = range.earlier;
    }
    None
}

/// The range of the rule at the position, if the map has it.
fn numbered(
    ranges: &[EndsRange],
    numbers: &HashMap<(u32, u32), u32>,
    rule: u32,
    first: u32,
) -> Option<EndsRange>
    requires { IsNumbered ranges.now numbers.now }
    ensures found { IfSome result (Contains ranges.now) }
    ensures of { IfSome result (IsRangeOf rule first) }
    ensures none { IfNone result ((r : EndsRange) → Contains ranges.now r → IsRangeOf rule first r → ¬ IsApart r) }
{
    match numbers.get(&(rule, first)) {
        Some(number) => {
            let range = ranges[*number as usize];
            Some(range)
        }
        None => None,
    }
}

/// The range of the rule at the position.
fn range_of(
    ranges: &[EndsRange],
    last: &[u32],
    numbers: &HashMap<(u32, u32), u32>,
    rule: u32,
    first: u32,
) -> Option<EndsRange>
    requires linked { AreLinked ranges.now last.now }
    requires numbered { IsNumbered ranges.now numbers.now }
    ensures found { IfSome result (Contains ranges.now) }
    ensures of { IfSome result (IsRangeOf rule first) }
    ensures none { IfNone result ((r : EndsRange) → Contains ranges.now r → ¬ IsRangeOf rule first r) }
{
    match chained(ranges, last, rule, first) {
        Some(range) => Some(range),
        None => numbered(ranges, numbers, rule, first),
    }
}

/// There are links for all positions up to this one.
fn reach(last: &mut Vec<u32>, first: u32) -> Result<(), Memory>
    ensures len { OnOk result (first < vec_len last.new) }
    ensures same { (k : ℕ) → slice_index_or last.new.items k 0 ≡ slice_index_or last.old.items k 0 }
{
    if last.len() <= first as usize {
        last.resize(first as usize + 1, 0)?;
    }
    Ok(())
}

/// Adds a range to the chain of its position.
fn add_chained(
    ranges: &mut Vec<EndsRange>,
    last: &mut Vec<u32>,
    range: EndsRange,
) -> Result<(), Memory>
    requires few { length ranges.old.items + 1 < 2 ^ 32 }
    requires earlier { range.earlier ≡ slice_index_or last.old.items range.first 0 }
    ensures added { IsAdded ranges.old.items ranges.new.items range result }
    ensures linked { AreLinked ranges.old.items last.old.items → AreLinked ranges.new.items last.new.items }
{
    reach(last, range.first)?;
    ranges.push(range)?;
    last[range.first as usize] = ranges.len() as u32;
    Ok(())
}

/// Adds a range that is in no chain, with its number.
fn add_numbered(
    ranges: &mut Vec<EndsRange>,
    numbers: &mut HashMap<(u32, u32), u32>,
    range: EndsRange,
) -> Result<(), Memory>
    requires { length ranges.old.items < 2 ^ 32 }
    ensures added { IsAdded ranges.old.items ranges.new.items range result }
    ensures numbered { IsNumbered ranges.old.items numbers.old → IsNumbered ranges.new.items numbers.new }
{
    let number = ranges.len() as u32;
    ranges.reserve(1)?;
    numbers.insert((range.rule, range.first), number)?;
    ranges.push(range).unwrap();
    Ok(())
}

/// Adds a range, which has the link to the last one of the chain of its position.
fn add_range(
    ranges: &mut Vec<EndsRange>,
    last: &mut Vec<u32>,
    numbers: &mut HashMap<(u32, u32), u32>,
    range: EndsRange,
) -> Result<(), Memory>
    requires few { length ranges.old.items + 1 < 2 ^ 32 }
    requires earlier { range.earlier ≡ slice_index_or last.old.items range.first 0 }
    ensures added { IsAdded ranges.old.items ranges.new.items range result }
    ensures linked { AreLinked ranges.old.items last.old.items → AreLinked ranges.new.items last.new.items }
    ensures numbered { IsNumbered ranges.old.items numbers.old → IsNumbered ranges.new.items numbers.new }
{
    if range.depth > CHAIN {
        add_numbered(ranges, numbers, range)
    } else {
        add_chained(ranges, last, range)
    }
}

impl Entries {
    /// No entries.
    pub(crate) fn new(alloc: Global) -> Entries
        ensures { result ≡ [] }
    {
        let ranges = Vec::new(alloc);
        let last = Vec::new(alloc);
        let numbers = HashMap::new(alloc);
        Entries {
            ranges,
            ends: Vec::new(alloc),
            last,
            numbers,
        }
    }

    /// The ends of the rule at the position; none exactly where there is no entry for them.
    pub(crate) fn find(&self, rule: u32, first: u32) -> Option<&[u32]>
        ensures found { IfSome result (λ ends. Contains self.now (entry rule first ends.now)) }
        ensures none { IfNone result (¬ HasEntry self.now rule first) }
    {
        match range_of(&self.ranges, &self.last, &self.numbers, rule, first) {
            Some(range) => {
                let from = range.from as usize;
                Some(&self.ends[from..from + range.count as usize])
            }
            None => None,
        }
    }

    /// Adds an entry. There are at most 4,294,967,295, and as many ends in all.
    pub(crate) fn store(&mut self, rule: u32, first: u32, ends: &[u32]) -> Result<(), Memory>
        ensures ok { OnOk result (self.new ≡ self.old ++ entry rule first ends.now ∷ []) }
        ensures err { OnErr result (self.new ≡ self.old) }
        ensures few { OnOk result (length self.new < 2 ^ 32) }
    {
        let from = self.ends.len();
        Limit::Numbers.within(self.ranges.len() + 1)?;
        Limit::Numbers.within(from + ends.len())?;
        self.ends.extend_from_slice(ends)?;
        let earlier = link_at(&self.last, first);
        let range = EndsRange {
            rule,
            first,
            from: from as u32,
            count: ends.len() as u32,
            earlier,
            depth: depth_after(&self.ranges, earlier),
        };
        add_range(&mut self.ranges, &mut self.last, &mut self.numbers, range)
    }
}
