//! Searches and walks over graphs whose nodes are numbers from 0.

ghost use Rattle.std.specs.Prelude.{◌≡◌, ℕ, ◌+◌, ◌<◌, ◌^◌, List, [], IfOk, OnOk, count_by, length, map, not, slice_index_or, vec_len, false};
ghost use Rattle.std.specs.List.{All};
ghost use Rattle.grammar_check_nodes.specs.Graph.{AreTargets, IsClosed};
ghost use Rattle.grammar_check_nodes.specs.inner.Graph.{is_among, with_row};

use faults::Memory;
use std::alloc::Global;

/// The nodes that a search has found, in their order, each once.
#[derive(Drop)]
pub(crate) struct Search {
    pub(crate) reached: Vec<bool>,
    pub(crate) found: Vec<u32>,
    ghost agree: { (j : ℕ) → j < vec_len reached → slice_index_or reached.items j false ≡ is_among found.items j },
    ghost counted: { vec_len found + count_by not reached.items ≡ vec_len reached },
}

impl Search {
    /// Nothing is found yet, of this many nodes.
    pub(crate) fn new(alloc: Global, nodes: usize) -> Result<Search, Memory>
        ensures { IfOk result (λ s. (vec_len s.reached ≡ nodes) × (s.found.items ≡ [])) }
    {
        Ok(Search {
            reached: vec![in alloc; false; nodes]?,
            found: Vec::new(alloc),
        })
    }

    /// Adds the nodes of a row.
    pub(crate) fn add(&mut self, row: &[u32]) -> Result<(), Memory>
        requires { All (λ j. j < vec_len self.old.reached) row.now }
        ensures nodes { vec_len self.new.reached ≡ vec_len self.old.reached }
        ensures found { OnOk result (self.new.found.items ≡ with_row self.old.found.items row.now) }
    {
        for node in row {
            let node = *node;
            if !self.reached[node as usize] {
                self.found.push(node)?;
                self.reached[node as usize] = true;
            }
        }
        Ok(())
    }
}

/// A walk in depth over a graph. It enters each node once, and leaves it when all that the node
/// leads to was entered.
#[derive(Drop)]
pub(crate) struct Walk {
    pub(crate) entered: Vec<bool>,

    /// The nodes that it is in, each with the place of the next edge to look at.
    path: Vec<(u32, usize)>,
    pub(crate) finished: Vec<u32>,
    ghost path_within: { All (λ p. p.0 < vec_len entered) path.items },
    ghost finished_within: { All (λ j. j < vec_len entered) finished.items },
}

impl Walk {
    pub(crate) fn new(alloc: Global, nodes: usize) -> Result<Walk, Memory>
        ensures { IfOk result (λ w. vec_len w.entered ≡ nodes) }
    {
        Ok(Walk {
            entered: vec![in alloc; false; nodes]?,
            path: Vec::new(alloc),
            finished: Vec::new(alloc),
        })
    }

    fn enter(&mut self, node: u32) -> Result<(), Memory>
        requires { node < vec_len self.old.entered }
        ensures { vec_len self.new.entered ≡ vec_len self.old.entered }
    {
        if !self.entered[node as usize] {
            self.entered[node as usize] = true;
            self.path.push((node, 0))?;
        }
        Ok(())
    }

    /// Goes over one edge, or leaves one node. False says that it is in no node any more.
    fn step(&mut self, edges: &[Vec<u32>]) -> Result<bool, Memory>
        requires nodes { vec_len self.old.entered ≡ length edges.now }
        requires closed { IsClosed (map (λ row. row.items) edges.now) }
        ensures { vec_len self.new.entered ≡ vec_len self.old.entered }
    {
        let Some((node, next)) = self.path.pop() else {
            return Ok(false);
        };
        let row = edges[node as usize].as_slice();
        if next < row.len() {
            self.path.push((node, next + 1))?;
            self.enter(row[next])?;
        } else {
            self.finished.push(node)?;
        }
        Ok(true)
    }

    /// Enters the node and goes on until it is left.
    pub(crate) fn visit(
        &mut self,
        edges: &[Vec<u32>],
        node: u32,
        steps: usize,
    ) -> Result<(), Memory>
        requires node { node < length edges.now }
        requires nodes { vec_len self.old.entered ≡ length edges.now }
        requires closed { IsClosed (map (λ row. row.items) edges.now) }
        ensures { vec_len self.new.entered ≡ vec_len self.old.entered }
    {
        self.enter(node)?;
        for _ in 0..steps {
            if !self.step(edges)? {
                break;
            }
        }
        Ok(())
    }
}

/// How many edges and nodes there are, which is at most how many steps a walk makes.
pub(crate) fn size_of(edges: &[Vec<u32>]) -> usize {
    let mut size = edges.len();
    for row in edges {
        size = size.saturating_add(row.len());
    }
    size
}

/// Nodes in the order in which a walk in depth leaves them. Where there is no cycle, each comes
/// after all that it leads to.
pub(crate) fn callees_first(alloc: Global, edges: &[Vec<u32>]) -> Result<Vec<u32>, Memory>
    requires small { length edges.now < 2 ^ 32 }
    requires closed { IsClosed (map (λ row. row.items) edges.now) }
    ensures { IfOk result (λ order. All (λ j. j < length edges.now) order.items) }
{
    let steps = size_of(edges);
    let mut walk = Walk::new(alloc, edges.len())?;
    for node in 0..edges.len() as u32 {
        walk.visit(edges, node, steps)?;
    }
    Ok(walk.finished)
}

/// Which nodes some edge leads to.
pub fn targets(alloc: Global, edges: &[Vec<u32>]) -> Result<Vec<bool>, Memory>
    requires { IsClosed (map (λ row. row.items) edges.now) }
    ensures { IfOk result (λ flags. AreTargets (map (λ row. row.items) edges.now) flags.items) }
{
    let mut search = Search::new(alloc, edges.len())?;
    for row in edges {
        search.add(row)?;
    }
    let Search { reached, found: _ } = search;
    Ok(reached)
}
