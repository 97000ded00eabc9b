//! Searches along the symbols that can be alone in an alternative, and those of pluses.

ghost use Rattle.std.specs.Prelude.{◌≡◌, ◌+◌, ◌<◌, ◌≤◌, ◌^◌, [], ◌∷◌, ◌++◌, IfOk, OnOk, length, map, nat_eq};
ghost use Rattle.std.specs.List.{All, flat_map};
ghost use Rattle.grammar_check_nodes.specs.Flags.{flag};
ghost use Rattle.normal_form.specs.View.{alts_form, rule_form};
ghost use Rattle.compat_table.specs.inner.Rows.{IsRowOf, lone_symbols, need as need_of, needed as needed_of, next_symbols, size, size_of_all};
ghost use Rattle.compat_table.specs.inner.View.{edges_of, symbols_of};
ghost use Rattle.compat_table.specs.inner.Table.{AreRowsOf, IsClosed, IsSortedRow};

use crate::nullable::is_nullable;
use crate::row::Row;
use faults::Memory;
use normal_form::{NormalRule, Sym};
use std::alloc::Global;

/// 0 for a symbol that derives the empty list, where the table says which rules do, and 1 for others.
fn need(symbol: Sym, flags: &[bool]) -> usize
    ensures { result ≡ need_of (flag flags.now) symbol }
{
    if is_nullable(symbol, flags) { 0 } else { 1 }
}

/// How many of the symbols don't derive the empty list.
fn count_needed(symbols: &[Sym], flags: &[bool]) -> usize
    ensures { result ≡ needed_of (flag flags.now) symbols.now }
{
    let mut count = 0;
    for symbol in symbols {
        count += need(*symbol, flags);
    }
    count
}

/// Whether the symbol can be alone in an alternative of which so many symbols don't derive the empty list.
fn is_lone(symbol: Sym, flags: &[bool], needed: usize) -> bool
    ensures { result ≡ nat_eq (need_of (flag flags.now) symbol) needed }
{
    need(symbol, flags) == needed
}

/// Adds the symbols that can be alone in an alternative. It takes time linear in the alternative.
fn push_lone(symbols: &mut Vec<Sym>, alt: &[Sym], flags: &[bool]) -> Result<(), Memory>
    ensures { OnOk result (symbols.new.items ≡ symbols.old.items ++ lone_symbols (flag flags.now) alt.now) }
{
    let needed = count_needed(alt, flags);
    for symbol in alt {
        if is_lone(*symbol, flags, needed) {
            symbols.push(*symbol)?;
        }
    }
    Ok(())
}

/// The symbols that can be alone in one of the alternatives.
fn lone_among(alloc: Global, alts: &[Vec<Sym>], flags: &[bool]) -> Result<Vec<Sym>, Memory>
    ensures { IfOk result (λ symbols. symbols.items ≡ flat_map (lone_symbols (flag flags.now)) (alts_form alts.now)) }
{
    let mut symbols = Vec::new(alloc);
    for alt in alts {
        push_lone(&mut symbols, alt, flags)?;
    }
    Ok(symbols)
}

/// One symbol alone.
fn only(alloc: Global, symbol: Sym) -> Result<Vec<Sym>, Memory>
    ensures { IfOk result (λ symbols. symbols.items ≡ symbol ∷ []) }
{
    let mut symbols = Vec::new(alloc);
    symbols.push(symbol)?;
    Ok(symbols)
}

/// The symbols for which what fits them fits the rule.
fn next_of(alloc: Global, rule: &NormalRule, flags: &[bool]) -> Result<Vec<Sym>, Memory>
    ensures { IfOk result (λ symbols. symbols.items ≡ next_symbols (flag flags.now) (rule_form rule.now)) }
{
    match rule {
        NormalRule::Regular(alts) => lone_among(alloc, alts, flags),
        NormalRule::Plus(symbol) => only(alloc, *symbol),
        _ => Ok(Vec::new(alloc)),
    }
}

/// For each rule the symbols for which what fits them fits the rule. It takes time linear in the
/// rules' size.
pub(crate) fn edges(
    alloc: Global,
    rules: &[NormalRule],
    flags: &[bool],
) -> Result<Vec<Vec<Sym>>, Memory>
    ensures { IfOk result (λ edges. edges_of edges.items ≡ map (next_symbols (flag flags.now)) (map rule_form rules.now)) }
{
    let mut edges = Vec::new(alloc);
    for rule in rules {
        edges.push(next_of(alloc, rule, flags)?)?;
    }
    Ok(edges)
}

/// The symbols that the rule leads to; `found` grows by how many were found, each as often as it was, and is
/// at most 16,777,216. It takes time near linear in the edges of the rules that it leads to.
fn row_of(
    alloc: Global,
    edges: &[Vec<Sym>],
    rule: u32,
    marks: &mut [u32],
    found: &mut usize,
) -> Result<Row, Memory>
    requires rule { rule < length edges.now }
    requires closed { IsClosed (edges_of edges.now) }
    requires few { length edges.now < 2 ^ 32 }
    requires marks_len { length marks.old ≡ length edges.now }
    requires marks { All (λ m. m < rule + 1) marks.old }
    requires few_found { found.old ≤ 2 ^ 24 }
    ensures few_found { OnOk result (found.new ≤ 2 ^ 24) }
    ensures found { IfOk result (λ row. found.old + size (symbols_of row) ≤ found.new) }
    ensures row { IfOk result (λ row. IsRowOf (edges_of edges.now) rule (symbols_of row)) }
    ensures sorted { IfOk result (λ row. IsSortedRow (symbols_of row)) }
    ensures marks { All (λ m. m < rule + 2) marks.new }
{
    let mut row = Row::new(alloc);
    row.add(&edges[rule as usize], marks, rule + 1, found)?;
    let mut done = 0;
    while done < row.rules.len() {
        let next = row.rules[done];
        row.add(&edges[next as usize], marks, rule + 1, found)?;
        done += 1;
    }
    Ok(row.sorted())
}

/// For each rule the symbols that it leads to. It is out of memory where more than 16,777,216 symbols
/// are found, each as often as it is, so that a long chain of rules ends soon.
pub(crate) fn rows(alloc: Global, edges: &[Vec<Sym>]) -> Result<Vec<Row>, Memory>
    requires closed { IsClosed (edges_of edges.now) }
    requires few { length edges.now < 2 ^ 32 }
    ensures rows { IfOk result (λ rows. AreRowsOf (edges_of edges.now) (map symbols_of rows.items)) }
    ensures few { IfOk result (λ rows. size_of_all (map symbols_of rows.items) ≤ 2 ^ 24) }
{
    let mut table = vec![in alloc; 0u32; edges.len()]?;
    let marks = table.as_mut_slice();
    let mut rows = Vec::new(alloc);
    let mut found = 0;
    for rule in 0..edges.len() as u32 {
        let row = row_of(alloc, edges, rule, marks, &mut found)?;
        rows.push(row)?;
    }
    Ok(rows)
}
