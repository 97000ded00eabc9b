//! A plain, slow parser: it makes all trees, and takes the preferred one of them. For short lists.
//!
//! Each function counts down how deep it may still go.

use anyhow::{Result, bail};
use normal_form::{Normal, NormalRule, Sym};
use std::alloc::Global;

/// A node, in the form in which the trees of both parsers are compared.
#[derive(Clone, Copy, PartialEq)]
pub(crate) struct PlainNode {
    pub(crate) sym: Sym,
    pub(crate) slot: Sym,

    /// The number of its alternative; of an optional 0 where it is present, and 1 where it is absent.
    pub(crate) choice: u32,

    pub(crate) children: u32,
    pub(crate) first: usize,
    pub(crate) end: usize,
}

/// Trees one after another: how many there are, and their nodes, each before those below it, from
/// left to right.
#[derive(Drop)]
pub(crate) struct Forest {
    trees: u32,
    pub(crate) nodes: Vec<PlainNode>,
}

/// The trees of the first forest and then those of the second one.
fn joined(alloc: Global, first: &Forest, second: &Forest) -> Result<Forest> {
    let mut nodes = Vec::new(alloc);
    nodes.extend_from_slice(&first.nodes)?;
    nodes.extend_from_slice(&second.nodes)?;
    Ok(Forest {
        trees: first.trees.saturating_add(second.trees),
        nodes,
    })
}

/// Adds the forest with each of the others after it.
fn add_each(alloc: Global, all: &mut Vec<Forest>, first: &Forest, later: &[Forest]) -> Result<()> {
    for second in later {
        all.push(joined(alloc, first, second)?)?;
    }
    Ok(())
}

/// Adds each of the first forests with each of the later ones after it.
fn add_pairs(
    alloc: Global,
    all: &mut Vec<Forest>,
    first: &[Forest],
    later: &[Forest],
) -> Result<()> {
    for forest in first {
        add_each(alloc, all, forest, later)?;
    }
    Ok(())
}

/// The tree with this root over the trees of the forest.
fn below(alloc: Global, root: PlainNode, forest: &Forest) -> Result<Forest> {
    let mut nodes = Vec::new(alloc);
    nodes.push(PlainNode {
        sym: root.sym,
        slot: root.slot,
        choice: root.choice,
        children: forest.trees,
        first: root.first,
        end: root.end,
    })?;
    nodes.extend_from_slice(&forest.nodes)?;
    Ok(Forest { trees: 1, nodes })
}

/// Adds the tree with this root over each of the forests.
fn add_below(
    alloc: Global,
    all: &mut Vec<Forest>,
    root: PlainNode,
    forests: &[Forest],
) -> Result<()> {
    for forest in forests {
        all.push(below(alloc, root, forest)?)?;
    }
    Ok(())
}

/// A forest without trees.
fn no_trees(alloc: Global) -> Result<Vec<Forest>> {
    let mut forests = Vec::new(alloc);
    forests.push(Forest {
        trees: 0,
        nodes: Vec::new(alloc),
    })?;
    Ok(forests)
}

/// A normal form and a list of kinds.
#[derive(Clone, Copy)]
pub(crate) struct Plain<'a> {
    pub(crate) alloc: Global,
    pub(crate) normal: &'a Normal,
    pub(crate) kinds: &'a [u32],
}

impl Plain<'_> {
    /// The leaf of the token at i, if it is the whole span and one of the symbol, which is a kind or a
    /// set.
    fn leaves(&self, slot: Sym, i: usize, j: usize) -> Result<Vec<Forest>> {
        let mut leaves = Vec::new(self.alloc);
        let Some(kind) = self.kinds.get(i) else {
            return Ok(leaves);
        };
        let is_token = match slot {
            Sym::Kind(own) => own == *kind,
            Sym::Set(set) => self.normal.sets().contains(set, *kind),
            Sym::Rule(_) => false,
        };
        if is_token && i < j && j - i == 1 {
            let leaf = PlainNode {
                sym: Sym::Kind(*kind),
                slot,
                choice: 0,
                children: 0,
                first: i,
                end: j,
            };
            add_below(self.alloc, &mut leaves, leaf, &no_trees(self.alloc)?)?;
        }
        Ok(leaves)
    }

    /// All trees of the symbol over the kinds from i up to but not including j.
    #[cycle(plain)]
    pub(crate) fn trees(&self, depth: u32, slot: Sym, i: usize, j: usize) -> Result<Vec<Forest>> {
        if depth == 0 {
            bail!("too deep");
        }
        let Sym::Rule(rule) = slot else {
            return self.leaves(slot, i, j);
        };
        let Some(rule) = self.normal.rules().get(rule as usize) else {
            bail!("no rule");
        };
        let root = PlainNode {
            sym: slot,
            slot,
            choice: 0,
            children: 0,
            first: i,
            end: j,
        };
        self.trees_of(depth - 1, rule, root)
    }

    /// All trees of a rule with this root, but for its choice and number of children.
    #[cycle(plain)]
    fn trees_of(&self, depth: u32, rule: &NormalRule, root: PlainNode) -> Result<Vec<Forest>> {
        if depth == 0 {
            bail!("too deep");
        }
        match rule {
            NormalRule::Regular(alternatives) => self.regular(depth - 1, alternatives, root),
            NormalRule::Opt(symbol) => self.optional(depth - 1, *symbol, root),
            NormalRule::Star(symbol) => self.list(depth - 1, *symbol, root),
            NormalRule::Plus(symbol) => {
                if root.first == root.end {
                    return Ok(Vec::new(self.alloc));
                }
                self.list(depth - 1, *symbol, root)
            }
        }
    }

    /// The same of a rule with alternatives.
    #[cycle(plain)]
    fn regular(
        &self,
        depth: u32,
        alternatives: &[Vec<Sym>],
        root: PlainNode,
    ) -> Result<Vec<Forest>> {
        if depth == 0 {
            bail!("too deep");
        }
        let mut root = root;
        let mut all = Vec::new(self.alloc);
        for symbols in alternatives {
            let children = self.sequences(depth - 1, symbols, root.first, root.end)?;
            add_below(self.alloc, &mut all, root, &children)?;
            root.choice = root.choice.saturating_add(1);
        }
        Ok(all)
    }

    /// The same of an optional.
    #[cycle(plain)]
    fn optional(&self, depth: u32, symbol: Sym, root: PlainNode) -> Result<Vec<Forest>> {
        if depth == 0 {
            bail!("too deep");
        }
        let mut root = root;
        let mut all = Vec::new(self.alloc);
        let present = self.trees(depth - 1, symbol, root.first, root.end)?;
        add_below(self.alloc, &mut all, root, &present)?;
        if root.first == root.end {
            root.choice = 1;
            add_below(self.alloc, &mut all, root, &no_trees(self.alloc)?)?;
        }
        Ok(all)
    }

    /// The same of a star or plus.
    #[cycle(plain)]
    fn list(&self, depth: u32, symbol: Sym, root: PlainNode) -> Result<Vec<Forest>> {
        if depth == 0 {
            bail!("too deep");
        }
        let mut all = Vec::new(self.alloc);
        let elements = self.elements(depth - 1, symbol, root.first, root.end)?;
        add_below(self.alloc, &mut all, root, &elements)?;
        Ok(all)
    }

    /// All trees of the symbols, one after another.
    #[cycle(plain)]
    fn sequences(&self, depth: u32, symbols: &[Sym], i: usize, j: usize) -> Result<Vec<Forest>> {
        let mut all = Vec::new(self.alloc);
        let Some((symbol, others)) = symbols.split_first() else {
            return if i == j {
                no_trees(self.alloc)
            } else {
                Ok(all)
            };
        };
        if depth == 0 {
            bail!("too deep");
        }
        for m in i..=j {
            let first = self.trees(depth - 1, *symbol, i, m)?;
            if !first.is_empty() {
                let later = self.sequences(depth - 1, others, m, j)?;
                add_pairs(self.alloc, &mut all, &first, &later)?;
            }
        }
        Ok(all)
    }

    /// All trees of the symbol any number of times, each over at least one kind.
    #[cycle(plain)]
    fn elements(&self, depth: u32, symbol: Sym, i: usize, j: usize) -> Result<Vec<Forest>> {
        if i == j {
            return no_trees(self.alloc);
        }
        if depth == 0 {
            bail!("too deep");
        }
        let mut all = Vec::new(self.alloc);
        for last in i..j {
            let first = self.trees(depth - 1, symbol, i, last + 1)?;
            if !first.is_empty() {
                let later = self.elements(depth - 1, symbol, last + 1, j)?;
                add_pairs(self.alloc, &mut all, &first, &later)?;
            }
        }
        Ok(all)
    }
}

/// Whether the first tree is preferred to the second one, of the same symbol over the same kinds. The
/// first node in which they differ decides: it has more kinds, or as many and a lesser choice.
fn is_preferred(first: &[PlainNode], second: &[PlainNode]) -> bool {
    for (one, other) in first.iter().zip(second.iter()) {
        if one.end != other.end {
            return one.end > other.end;
        }
        if one.choice != other.choice {
            return one.choice < other.choice;
        }
    }
    false
}

/// The number of the preferred one of the trees; 0 where there are none.
pub(crate) fn preferred(trees: &[Forest]) -> usize {
    let mut best = 0;
    for number in 0..trees.len() {
        if best < trees.len() && is_preferred(&trees[number].nodes, &trees[best].nodes) {
            best = number;
        }
    }
    best
}
