//! For each position a list of the symbols that can come next there.

ghost use Rattle.std.specs.Prelude.{◌≡◌, ◌↔◌, ℕ, ◌+◌, ◌<◌, ◌^◌, [], ◌∷◌, length, IfOk, IsTrue, OnOk};
ghost use Rattle.std.specs.List.{Contains};
ghost use Rattle.chart_parser_prefix.specs.inner.Walk.{ExpectsAll, HasOneMore, IsAtOneOf, IsGrownBy, IsWithout, symbols_at};

use faults::Memory;
use normal_form::Sym;
use std::alloc::Global;

/// As many lists as there are positions of so many kinds, each empty.
pub(crate) fn empty_lists(alloc: Global, kinds: usize) -> Result<Vec<Vec<Sym>>, Memory>
    requires { kinds + 1 < 2 ^ 64 }
    ensures count { IfOk result (λ lists. length lists.items ≡ kinds + 1) }
    ensures empty { IfOk result (λ lists. (m : ℕ) → symbols_at lists.items m ≡ []) }
{
    let mut lists = Vec::new(alloc);
    for _ in 0..kinds + 1 {
        lists.push(Vec::new(alloc))?;
    }
    Ok(lists)
}

/// Whether the symbols are the same.
pub(crate) fn is_same(symbol: Sym, other: Sym) -> bool
    ensures { IsTrue result ↔ (symbol ≡ other) }
{
    symbol == other
}

/// Whether the last one of the symbols is this one.
fn is_last(symbols: &[Sym], symbol: Sym) -> bool
    ensures { IsTrue result → Contains symbols.now symbol }
{
    let count = symbols.len();
    if count == 0 {
        return false;
    }
    is_same(symbols[count - 1], symbol)
}

/// Adds the symbol. Where many rules make the same symbol come next, it mostly is the last one.
fn add(symbols: &mut Vec<Sym>, symbol: Sym) -> Result<(), Memory>
    ensures { OnOk result (HasOneMore symbols.old.items symbol symbols.new.items) }
{
    if is_last(symbols, symbol) {
        return Ok(());
    }
    symbols.push(symbol)?;
    Ok(())
}

/// Adds the symbol at the position.
pub(crate) fn add_at(lists: &mut Vec<Vec<Sym>>, symbol: Sym, position: u32) -> Result<(), Memory>
    requires { position < length lists.old.items }
    ensures grown { OnOk result (IsGrownBy (IsAtOneOf symbol (position ∷ [])) lists.old.items lists.new.items) }
    ensures all { OnOk result (ExpectsAll (IsAtOneOf symbol (position ∷ [])) lists.new.items) }
{
    add(&mut lists[position as usize], symbol)?;
    Ok(())
}

/// Adds the symbol at each of the positions.
pub(crate) fn add_at_each(
    lists: &mut Vec<Vec<Sym>>,
    symbol: Sym,
    positions: &[u32],
) -> Result<(), Memory>
    requires { (m : ℕ) → Contains positions.now m → m < length lists.old.items }
    ensures grown { OnOk result (IsGrownBy (IsAtOneOf symbol positions.now) lists.old.items lists.new.items) }
    ensures all { OnOk result (ExpectsAll (IsAtOneOf symbol positions.now) lists.new.items) }
{
    for position in positions {
        add_at(lists, symbol, *position)?;
    }
    Ok(())
}

/// Lets go of the list of a position.
pub(crate) fn clear_at(alloc: Global, lists: &mut Vec<Vec<Sym>>, position: u32)
    requires { position < length lists.old.items }
    ensures { IsWithout position lists.old.items lists.new.items }
{
    lists[position as usize] = Vec::new(alloc);
}
