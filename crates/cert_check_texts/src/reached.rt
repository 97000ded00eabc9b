//! What is reached along a print: an offset of a text, and the last token before it.

ghost use Rattle.std.specs.Prelude.{◌≡◌, ◌≤◌, ◌∷◌, ◌++◌, ◌↔◌, [], List, IfOk, IsTrue, OnOk};
ghost use Rattle.std.specs.List.{Contains};
ghost use Rattle.cert_check_texts.specs.inner.Reached.{AreAmong, AreFirst, AreOfBoth, AreSorted, HasFirst};
ghost use Rattle.cert_check_texts.specs.declared.reached.Reached.{Reached as SomeReached};

use faults::Memory;
use std::alloc::Global;

/// How many pairs are gone on from at first, and how many later tokens are tried then.
pub(crate) const FEW: usize = 8;

/// What is reached in a text that is printed of tokens: an offset in the text, in bytes from 0, and the number
/// of the last token before it, from 0. The order is that of the offsets, and at one offset that of the tokens.
#[derive(Clone, Copy, PartialEq, Eq, PartialOrd, Ord)]
pub(crate) struct Reached {
    pub(crate) offset: usize,
    pub(crate) last: u32,
}

/// Whether the pairs have one offset, and the token of the first one is no later.
fn stands_for(first: Reached, pair: Reached) -> bool
    ensures { IsTrue result → (first.offset ≡ pair.offset) × (first.last ≤ pair.last) }
{
    first.offset == pair.offset && first.last <= pair.last
}

/// Whether the last one of these stands for the pair.
fn has_first(firsts: &[Reached], pair: Reached) -> bool
    ensures { IsTrue result → HasFirst firsts.now pair }
{
    if firsts.is_empty() {
        return false;
    }
    stands_for(firsts[firsts.len() - 1], pair)
}

/// Takes one more pair into the first ones at each offset.
fn add_first(firsts: &mut Vec<Reached>, pair: Reached) -> Result<(), Memory>
    ensures { OnOk result ((pairs : List SomeReached) → AreFirst pairs firsts.old.items → AreFirst (pairs ++ pair ∷ []) firsts.new.items) }
{
    if has_first(firsts, pair) {
        return Ok(());
    }
    firsts.push(pair)?;
    Ok(())
}

/// The first of these pairs at each offset, where they are sorted. It takes time linear in them.
pub(crate) fn first_pairs(alloc: Global, pairs: &[Reached]) -> Result<Vec<Reached>, Memory>
    ensures { IfOk result (λ firsts. AreFirst pairs.now firsts.items) }
{
    let mut firsts = Vec::new(alloc);
    for pair in pairs {
        add_first(&mut firsts, *pair)?;
    }
    Ok(firsts)
}

/// The same pairs, sorted, and each once. It takes time in proportion to them, times a logarithm.
fn sorted(mut pairs: Vec<Reached>) -> Vec<Reached>
    ensures same { (pair : SomeReached) → Contains result.items pair ↔ Contains pairs.items pair }
    ensures sorted { AreSorted result.items }
{
    pairs.sort_unstable();
    pairs.dedup();
    pairs
}

/// The pairs of both lists, sorted, and each once. It takes time in proportion to them, times a logarithm.
pub(crate) fn united(mut pairs: Vec<Reached>, others: &[Reached]) -> Result<Vec<Reached>, Memory>
    ensures both { IfOk result (λ all. AreOfBoth pairs.items others.now all.items) }
    ensures sorted { IfOk result (λ all. AreSorted all.items) }
{
    pairs.extend_from_slice(others)?;
    Ok(sorted(pairs))
}

/// The first few of these pairs, sorted, and each once. It takes time in proportion to them, times a logarithm.
pub(crate) fn first_few(pairs: Vec<Reached>) -> Vec<Reached>
    ensures { AreAmong result.items pairs.items }
{
    let mut few = sorted(pairs);
    few.truncate(FEW);
    few
}
