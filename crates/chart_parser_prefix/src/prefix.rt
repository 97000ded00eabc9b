//! The longest viable beginning.

ghost use Rattle.std.specs.Prelude.{◌≡◌, ℕ, ◌+◌, ◌<◌, ◌≤◌, ◌^◌, List, length, take, IfOk, MatchOption};
ghost use Rattle.normal_form.specs.NormalDerives.{NormalDerives};
ghost use Rattle.chart_parser_prefix.specs.Prefixes.{IsLongestPrefix};
ghost use Rattle.chart_parser_prefix.specs.inner.Productive.{AreProductive, DerivesSome};

use crate::expected::{add_at, empty_lists};
use crate::following::first_kinds;
use crate::productive::{derives_some, productive_rules};
use crate::search::PrefixSearch;
use chart_parser_ends::Chart;
use faults::Memory;
use normal_form::{Normal, Sym};
use std::alloc::Global;

/// The longest beginning of a list of kinds that some list of a symbol begins with, and what can
/// follow it.
#[derive(Drop)]
pub struct LongestPrefix {
    /// How many kinds it has. The kind of the list with this number, from 0, can't follow it; there is
    /// none where it is the whole list.
    pub length: u32,

    /// Whether it is itself a list of the symbol: nothing has to follow it.
    pub may_end: bool,

    /// The first eight kinds that can follow it, by their numbers, rising.
    pub next: Vec<u32>,

    /// Whether more kinds than these can follow it.
    pub has_more: bool,
}

/// The answer, where the symbol derives something.
fn found_prefix(search: &PrefixSearch<'_>) -> Result<LongestPrefix, Memory>
    requires productive { AreProductive search.now.normal.now search.now.productive.items }
    requires some { DerivesSome search.now.normal.now search.now.start }
    ensures { IfOk result (IsLongestPrefix search.now.normal.now search.now.start search.now.kinds.now) }
{
    let alloc = search.alloc;
    let rules = search.normal.rules();
    let mut chart = Chart::new(alloc, search.normal, search.kinds)?;
    let mut places = vec![in alloc; 0usize; rules.len()]?;
    let mut lists = empty_lists(alloc, search.kinds.len())?;
    add_at(&mut lists, search.start, 0)?;
    let length = search.longest(&mut chart, &mut places, &mut lists)?;
    let may_end = chart.reaches(search.start, 0, length)?;
    let found = first_kinds(alloc, search.normal, &lists[length as usize])?;
    Ok(LongestPrefix {
        length,
        may_end,
        next: found.kinds,
        has_more: found.has_more,
    })
}

/// The longest beginning of the kinds that some list of the start symbol begins with, and what can
/// follow it; None where that symbol derives nothing at all. It is meant for kinds that don't parse; of
/// those that do it is the whole list.
///
/// What comes after the answer is not looked at. Beside the time of the chart (see [`Chart`]), which
/// finds where rules end, it takes at each position up to the answer the time to go through the rules
/// that can begin there, once each.
pub fn longest_prefix(
    alloc: Global,
    normal: &Normal,
    start: Sym,
    kinds: &[u32],
) -> Result<Option<LongestPrefix>, Memory>
    requires { length kinds.now < 2 ^ 32 }
    ensures { IfOk result (λ answer. MatchOption answer ((w : List ℕ) → ¬ NormalDerives normal.now start w) (IsLongestPrefix normal.now start kinds.now)) }
{
    let productive = productive_rules(alloc, normal)?;
    if !derives_some(start, normal, &productive) {
        return Ok(None);
    }
    let search = PrefixSearch {
        alloc,
        normal,
        kinds,
        start,
        productive,
    };
    let found = found_prefix(&search)?;
    Ok(Some(found))
}
