//! The kinds that symbols stand for.

ghost use Rattle.std.specs.Prelude.{◌↔◌, ◌<◌, length, IfOk, IsTrue, OnOk};
ghost use Rattle.std.specs.List.{Contains};
ghost use Rattle.chart_parser_ends.specs.inner.Exact.{IsTokenOf};
ghost use Rattle.chart_parser_ends.specs.Positions.{HasExactly};
ghost use Rattle.chart_parser_prefix.specs.Following.{AreFirst};
ghost use Rattle.chart_parser_prefix.specs.inner.Following.{AddsKinds, IsTokenOfOne};

use faults::Memory;
use normal_form::{Normal, Sym};
use std::alloc::Global;

/// How many kinds are named at most.
const MOST: usize = 8;

/// Adds the kinds of which a token is what the symbol is. A rule has none.
fn add_kinds(
    alloc: Global,
    normal: &Normal,
    symbol: Sym,
    kinds: &mut Vec<u32>,
) -> Result<(), Memory>
    ensures { OnOk result (AddsKinds (IsTokenOf normal.now symbol) kinds.old.items kinds.new.items) }
{
    match symbol {
        Sym::Kind(kind) => {
            kinds.push(kind)?;
            Ok(())
        }
        Sym::Set(set) => {
            let more = normal.sets().kinds(alloc, set)?;
            kinds.extend_from_slice(&more)?;
            Ok(())
        }
        Sym::Rule(_) => Ok(()),
    }
}

/// The kinds, each once and rising.
fn rising(mut kinds: Vec<u32>) -> Vec<u32>
    ensures { HasExactly (Contains kinds.items) result.items }
{
    kinds.sort_unstable();
    kinds.dedup();
    kinds
}

/// All kinds of which a token is what one of the symbols is, rising.
fn kinds_of(alloc: Global, normal: &Normal, symbols: &[Sym]) -> Result<Vec<u32>, Memory>
    ensures { IfOk result (λ kinds. HasExactly (IsTokenOfOne normal.now symbols.now) kinds.items) }
{
    let mut kinds = Vec::new(alloc);
    for symbol in symbols {
        add_kinds(alloc, normal, *symbol, &mut kinds)?;
    }
    Ok(rising(kinds))
}

/// Whether the list has more kinds than that.
fn is_longer(kinds: &[u32], most: usize) -> bool
    ensures { IsTrue result ↔ (most < length kinds.now) }
{
    kinds.len() > most
}

/// The first of some kinds, by their numbers, and whether there are more.
#[derive(Drop)]
pub(crate) struct FirstKinds {
    pub(crate) kinds: Vec<u32>,
    pub(crate) has_more: bool,
}

/// The first eight kinds of which a token is what one of the symbols is, rising.
pub(crate) fn first_kinds(
    alloc: Global,
    normal: &Normal,
    symbols: &[Sym],
) -> Result<FirstKinds, Memory>
    ensures { IfOk result (λ found. AreFirst (IsTokenOfOne normal.now symbols.now) found.kinds.items found.has_more) }
{
    let mut kinds = kinds_of(alloc, normal, symbols)?;
    let has_more = is_longer(&kinds, MOST);
    kinds.truncate(MOST);
    Ok(FirstKinds { kinds, has_more })
}
