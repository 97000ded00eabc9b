//! Cycles of graphs whose nodes are numbers from 0.

ghost use Rattle.std.specs.Prelude.{◌≡◌, ℕ, ◌<◌, ◌^◌, ◌↔◌, List, IfOk, OnOk, IsTrue, false, length, map, slice_index, slice_index_or, true, vec_len};
ghost use Rattle.std.specs.List.{All, Contains};
ghost use Rattle.grammar_check_nodes.specs.First.{IsFirstOrNone};
ghost use Rattle.grammar_check_nodes.specs.Graph.{IsClosed, IsOnCycle, Reaches};
ghost use Rattle.grammar_check_nodes.specs.inner.Graph.{NeverRises};

use crate::graph::{Search, Walk, callees_first, size_of};
use faults::Memory;
use std::alloc::Global;

/// For each node whether a path of at least one edge leads to it from this one. It takes time linear
/// in the graph's size.
pub fn reached_from(alloc: Global, edges: &[Vec<u32>], node: usize) -> Result<Vec<bool>, Memory>
    requires node { node < length edges.now }
    requires closed { IsClosed (map (λ row. row.items) edges.now) }
    ensures len { IfOk result (λ flags. vec_len flags ≡ length edges.now) }
    ensures reached { IfOk result (λ flags. (j : ℕ) → (slice_index_or flags.items j false ≡ true) ↔ Reaches (map (λ row. row.items) edges.now) node j) }
{
    let mut search = Search::new(alloc, edges.len())?;
    search.add(&edges[node])?;
    let mut done = 0;
    while done < search.found.len() {
        let next = search.found[done];
        search.add(&edges[next as usize])?;
        done += 1;
    }
    Ok(search.reached)
}

/// Whether a path leads from the node back to it. It takes time linear in the graph's size.
fn leads_back(alloc: Global, edges: &[Vec<u32>], node: usize) -> Result<bool, Memory>
    requires node { node < length edges.now }
    requires closed { IsClosed (map (λ row. row.items) edges.now) }
    ensures { IfOk result (λ b. IsTrue b ↔ IsOnCycle (map (λ row. row.items) edges.now) node) }
{
    let reached = reached_from(alloc, edges, node)?;
    Ok(reached[node])
}

/// As many rows as there are nodes, each empty.
fn empty_rows(alloc: Global, nodes: usize) -> Result<Vec<Vec<u32>>, Memory>
    ensures len { IfOk result (λ rows. vec_len rows ≡ nodes) }
    ensures within { IfOk result (λ rows. All (λ row. All (λ j. j < nodes) row.items) rows.items) }
{
    let mut rows = Vec::new(alloc);
    for _ in 0..nodes {
        rows.push(Vec::new(alloc))?;
    }
    Ok(rows)
}

/// Adds a node to the row of another one.
fn add_to_row(rows: &mut Vec<Vec<u32>>, place: usize, node: u32) -> Result<(), Memory>
    requires place { place < vec_len rows.old }
    ensures len { vec_len rows.new ≡ vec_len rows.old }
    ensures within { (n : ℕ) → node < n → All (λ row. All (λ j. j < n) row.items) rows.old.items
        → OnOk result (All (λ row. All (λ j. j < n) row.items) rows.new.items) }
{
    rows[place].push(node)?;
    Ok(())
}

/// Adds a node to the rows of those that it leads to.
fn add_reversed(rows: &mut Vec<Vec<u32>>, row: &[u32], node: u32) -> Result<(), Memory>
    requires row { All (λ j. j < vec_len rows.old) row.now }
    ensures len { vec_len rows.new ≡ vec_len rows.old }
    ensures within { (n : ℕ) → node < n → All (λ row. All (λ j. j < n) row.items) rows.old.items → OnOk result
        (All (λ row. All (λ j. j < n) row.items) rows.new.items) }
{
    for target in row {
        add_to_row(rows, *target as usize, node)?;
    }
    Ok(())
}

/// The graph with each edge reversed.
fn reversed(alloc: Global, edges: &[Vec<u32>]) -> Result<Vec<Vec<u32>>, Memory>
    requires small { length edges.now < 2 ^ 32 }
    requires closed { IsClosed (map (λ row. row.items) edges.now) }
    ensures len { IfOk result (λ rows. vec_len rows ≡ length edges.now) }
    ensures within { IfOk result (λ rows. All (λ row. All (λ j. j < length edges.now) row.items) rows.items) }
{
    let mut rows = empty_rows(alloc, edges.len())?;
    for (node, row) in edges.iter().enumerate() {
        add_reversed(&mut rows, row, node as u32)?;
    }
    Ok(rows)
}

/// Gives a number to the nodes from a place on.
fn number_from(nodes: &[u32], from: usize, number: u32, numbers: &mut Vec<u32>)
    requires { All (λ j. j < vec_len numbers.old) nodes.now }
    ensures { vec_len numbers.new ≡ vec_len numbers.old }
{
    for i in from..nodes.len() {
        numbers[nodes[i] as usize] = number;
    }
}

/// For each node the number of its strong component, after Kosaraju and Sharir: the nodes that a
/// walk finds from the last of the order, from the one before it, and so on, where the order is
/// that in which a walk over the reversed edges leaves them. So no edge leads to a greater number.
fn components(alloc: Global, edges: &[Vec<u32>], order: &[u32]) -> Result<Vec<u32>, Memory>
    requires order { All (λ j. j < length edges.now) order.now }
    requires closed { IsClosed (map (λ row. row.items) edges.now) }
    ensures { IfOk result (λ numbers. vec_len numbers ≡ length edges.now) }
{
    let steps = size_of(edges);
    let mut walk = Walk::new(alloc, edges.len())?;
    let mut numbers = vec![in alloc; 0u32; edges.len()]?;
    let mut number = 0u32;
    for i in 0..order.len() {
        let known = walk.finished.len();
        walk.visit(edges, order[order.len() - 1 - i], steps)?;
        number_from(&walk.finished, known, number, &mut numbers);
        number = number.saturating_add(1);
    }
    Ok(numbers)
}

/// Whether all nodes of a row have numbers below the limit.
fn all_below(row: &[u32], numbers: &[u32], limit: u64) -> bool
    ensures { result ≡ true → (j : ℕ) → Contains row.now j → slice_index numbers.now j < limit }
{
    for node in row {
        match numbers.get(*node as usize) {
            Some(number) if (*number as u64) < limit => {}
            _ => return false,
        }
    }
    true
}

/// Whether no edge leads to a node with a greater number.
fn never_rise(edges: &[Vec<u32>], numbers: &[u32]) -> bool
    requires { length numbers.now ≡ length edges.now }
    ensures { result ≡ true → NeverRises (map (λ row. row.items) edges.now) numbers.now }
{
    for (node, row) in edges.iter().enumerate() {
        if !all_below(row, numbers, numbers[node] as u64 + 1) {
            return false;
        }
    }
    true
}

/// Whether the node is on a cycle. Where the numbers never rise along edges, and fall along each
/// edge of this node, no path leads back to it.
fn is_on_cycle(
    alloc: Global,
    edges: &[Vec<u32>],
    numbers: &[u32],
    never_rise: bool,
    node: usize,
) -> Result<bool, Memory>
    requires node { node < length edges.now }
    requires closed { IsClosed (map (λ row. row.items) edges.now) }
    requires numbers { length numbers.now ≡ length edges.now }
    requires never { never_rise ≡ true → NeverRises (map (λ row. row.items) edges.now) numbers.now }
    ensures { IfOk result (λ b. IsTrue b ↔ IsOnCycle (map (λ row. row.items) edges.now) node) }
{
    if never_rise && all_below(&edges[node], numbers, numbers[node] as u64) {
        return Ok(false);
    }
    leads_back(alloc, edges, node)
}

/// The first node from which a path leads back to it. It takes time linear in the graph's size:
/// only from a node whose strong component has a cycle does it search.
pub fn first_on_cycle(alloc: Global, edges: &[Vec<u32>]) -> Result<Option<usize>, Memory>
    requires small { length edges.now < 2 ^ 32 }
    requires closed { IsClosed (map (λ row. row.items) edges.now) }
    ensures { IfOk result (IsFirstOrNone (IsOnCycle (map (λ row. row.items) edges.now))) }
{
    let back = reversed(alloc, edges)?;
    let order = callees_first(alloc, &back)?;
    let numbers = components(alloc, edges, &order)?;
    let never_rise = never_rise(edges, &numbers);
    for node in 0..edges.len() {
        if is_on_cycle(alloc, edges, &numbers, never_rise, node)? {
            return Ok(Some(node));
        }
    }
    Ok(None)
}
