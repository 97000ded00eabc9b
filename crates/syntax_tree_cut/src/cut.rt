//! Cuts of trees.

ghost use Rattle.std.specs.Prelude.{◌≡◌, ◌↔◌, ℕ, ◌+◌, ◌^◌, ◌<◌, ◌≤◌, ◌++◌, Some, IfOk, IsSome, IsTrue, OnOk, drop, length};
ghost use Rattle.std.specs.Prelude.{option_map, option_to_list, replicate, slice_get, slice_set, take};
ghost use Rattle.std.specs.Option.{option_and_then};
ghost use Rattle.std.specs.List.{Contains, range_with_len};
ghost use Rattle.std.specs.List.Sorted.{IsStrictlyIncreasing};
ghost use Rattle.syntax_tree.specs.declared.node.Node.{Node as NodeEntry};
ghost use Rattle.syntax_tree.specs.Trees.{PlainTree, PlainTrees, children_of, count, leaves, symbol_of, weight};
ghost use Rattle.syntax_tree.specs.Left.{selected_trees};
ghost use Rattle.syntax_tree.specs.Numbered.{number_of, roots, subtree, with_subtree};
ghost use Rattle.syntax_tree.specs.Valid.{slot_at};
ghost use Rattle.syntax_tree.specs.Nodes.{whole};
ghost use Rattle.syntax_tree_cut.specs.Cuts.{CanDelete, CanEmpty, CanReplace, CanSelect, HasChildren, IsCutOf, IsOccupant, cut_tree, without};
ghost use Rattle.syntax_tree_cut.specs.inner.Cuts.{HasBelow, HasFitting, ReplacementsRise};
ghost use Rattle.syntax_tree_cut.specs.inner.Children.{HasSeen};
ghost use Rattle.syntax_tree_cut.specs.Shapes.{shape_of};
ghost use Rattle.syntax_tree_cut.specs.inner.Steps.{HasDeleted, HasReplaced};
ghost use Rattle.syntax_tree_cut.specs.inner.Keeping.{CanPass, CanPassTokens, HasPassed, HasPassedTokens};
ghost use Rattle.syntax_tree_cut.specs.inner.Tokens.{IsSplitAt, within};
ghost use Rattle.syntax_tree_cut.specs.WithoutNodes.{CanDrop, dropped, without_nodes};
ghost use Rattle.syntax_tree_cut.specs.inner.Dropping.{CanDropNext, HasDroppedNext};
ghost use Rattle.syntax_tree_cut.specs.declared.mark.Mark.TheVariants.{Deleted};

use crate::children::{Seen, with_occupant};
use crate::laws::tree_laws;
use crate::mark::{Mark, kept_marks};
use crate::occupant::{occupant, push_occupant};
use crate::progress::Progress;
use crate::shape::{Shape, fewest_elements, is_optional, is_regular, symbol_shape};
use crate::tokens::{
    Gap, count_before, count_within, first_within, keep_next, keep_within, numbers_below,
    remove_between, remove_within, skip_next,
};
use crate::way::leads_to;
use compat_table::Compat;
use faults::Memory;
use normal_form::Sym;
use std::alloc::Global;
use std::marker::Model;
use syntax_tree::Tree;

/// What is left of a tree after edits. A node keeps its number as long as it is left. A cut has 12
/// bytes for each node of the tree, and 4 for each token that is left.
#[derive(Drop)]
pub struct Cut {
    marks: Vec<Mark>,

    /// For each node that is left the number of the node whose position it is at.
    positions: Vec<u32>,

    /// The tokens that are left, rising.
    kept: Vec<u32>,
}

impl Model for Cut {
    ghost use Rattle.syntax_tree_cut.specs.Cuts.{CutForm};

    ghost Value = { CutForm };

    ghost view = { λ c. record { marks = c.marks.items; positions = c.positions.items; kept = c.kept.items } };
}

/// How many of the tokens after the gap are in the span of the node.
fn count_after(tree: &Tree, tokens: &[u32], node: u32, gap: Gap) -> usize
    requires node { node < length tree.now.nodes }
    requires gap { gap.to ≤ length tokens.now }
    requires rising { IsStrictlyIncreasing (drop gap.to tokens.now) }
    requires span { (x : NodeEntry) → slice_get tree.now.nodes node ≡ Some x → x.first ≤ x.end }
    ensures { (x : NodeEntry) → slice_get tree.now.nodes node ≡ Some x → result ≡ length (within x.first x.end (drop gap.to tokens.now)) }
{
    let entry = tree.nodes()[node as usize];
    count_within(&tokens[gap.to..], &entry)
}

impl Cut {
    /// The whole tree. It takes time and memory linear in the number of nodes.
    pub fn new(alloc: Global, tree: &Tree) -> Result<Cut, Memory>
        ensures of { IfOk result (λ c. IsCutOf tree.now c) }
        ensures whole { IfOk result (λ c. cut_tree tree.now c ≡ whole tree.now) }
    {
        tree_laws();
        let nodes = tree.nodes();
        let tokens = nodes[0].end;
        let marks = kept_marks(alloc, nodes.len())?;
        let positions = numbers_below(alloc, nodes.len() as u32)?;
        let kept = numbers_below(alloc, tokens)?;
        Ok(Cut {
            marks,
            positions,
            kept,
        })
    }

    /// An equal cut. It takes time and memory linear in the number of nodes of the tree.
    pub fn copy(&self) -> Result<Cut, Memory>
        ensures { IfOk result (λ c. c ≡ self.now) }
    {
        let alloc = *self.marks.allocator();
        Ok(Cut {
            marks: Vec::from_slice(alloc, self.marks.as_slice())?,
            positions: Vec::from_slice(alloc, self.positions.as_slice())?,
            kept: Vec::from_slice(alloc, self.kept.as_slice())?,
        })
    }

    /// Whether the node is left; a number that no node has isn't. It takes no memory. Its time is
    /// linear in the number of nodes that are above it, or come before it or one of these among the
    /// children of another of these, and of replacements.
    pub fn is_left(&self, tree: &Tree, node: u32) -> bool
        requires { IsCutOf tree.now self.now }
        ensures { IsTrue result ↔ IsSome (subtree node (cut_tree tree.now self.now)) }
    {
        tree_laws();
        let nodes = tree.nodes();
        if node as usize >= nodes.len() {
            return false;
        }
        leads_to(tree, self.marks.as_slice(), 0, node)
    }

    /// The root of what is left: the node that is at the position of the parsed tree's root. It takes
    /// time linear in the number of replacements, one after another, at that position.
    pub fn root(&self, tree: &Tree) -> u32
        requires { IsCutOf tree.now self.now }
        ensures { result ≡ number_of (cut_tree tree.now self.now) }
    {
        tree_laws();
        let _nodes = tree.nodes();
        match occupant(self.marks.as_slice(), 0) {
            Some(root) => root,
            None => unreachable!(),
        }
    }

    /// What a node that is left is by its rule. It takes constant time.
    pub fn shape(&self, tree: &Tree, node: u32) -> Shape
        requires of { IsCutOf tree.now self.now }
        requires left { IsSome (subtree node (cut_tree tree.now self.now)) }
        ensures { option_and_then (shape_of tree.now.form) (subtree node (cut_tree tree.now self.now)) ≡ Some result }
    {
        tree_laws();
        let _nodes = tree.nodes();
        symbol_shape(tree.normal(), self.symbol(tree, node))
    }

    /// Whether `delete_element` can be called: whether the node `list` is a star or plus that is
    /// left, and `element` one of its children, of which a plus has at least two. It takes no memory,
    /// and the time of `is_left` and `children`.
    pub fn can_delete(&self, tree: &Tree, list: u32, element: u32) -> bool
        requires { IsCutOf tree.now self.now }
        ensures { IsTrue result ↔ CanDelete tree.now.form (cut_tree tree.now self.now) list element }
    {
        tree_laws();
        let _nodes = tree.nodes();
        match fewest_elements(self.shape_if_left(tree, list)) {
            Some(fewest) => self.has_element(tree, list, element, fewest),
            None => false,
        }
    }

    /// Whether `delete_optional` can be called: whether the node is left, and a present optional. It
    /// takes no memory, and the time of `is_left`.
    pub fn can_empty(&self, tree: &Tree, node: u32) -> bool
        requires { IsCutOf tree.now self.now }
        ensures { IsTrue result ↔ CanEmpty tree.now.form (cut_tree tree.now self.now) node }
    {
        tree_laws();
        let _nodes = tree.nodes();
        if !is_optional(self.shape_if_left(tree, node)) {
            return false;
        }
        self.count_children(tree, node, node).count > 0
    }

    /// Whether `replace` can be called: whether the node is left, and regular, and `by` is below it
    /// and fits its slot. It takes no memory, and the time of `is_left` for each of the two.
    pub fn can_replace(&self, tree: &Tree, compat: &Compat, node: u32, by: u32) -> bool
        requires of { IsCutOf tree.now self.now }
        requires compat { compat.now ≡ tree.now.form }
        ensures { IsTrue result ↔ CanReplace tree.now.form tree.now.start (cut_tree tree.now self.now) node by }
    {
        tree_laws();
        let _nodes = tree.nodes();
        if !is_regular(self.shape_if_left(tree, node)) {
            return false;
        }
        self.has_fitting(tree, compat, node, by)
    }

    /// How many tokens below a node that is left are left. It takes no memory, and time logarithmic
    /// in the number of tokens that are left.
    pub fn weight(&self, tree: &Tree, node: u32) -> u32
        requires of { IsCutOf tree.now self.now }
        requires left { IsSome (subtree node (cut_tree tree.now self.now)) }
        ensures { option_map weight (subtree node (cut_tree tree.now self.now)) ≡ Some result }
    {
        tree_laws();
        let _nodes = tree.nodes();
        self.count_tokens(tree, node) as u32
    }

    /// The first of the tokens that are left below a node that is left, where there is one. It takes
    /// no memory, and time logarithmic in the number of tokens that are left.
    pub fn first_token(&self, tree: &Tree, node: u32) -> u32
        requires of { IsCutOf tree.now self.now }
        requires left { IsSome (subtree node (cut_tree tree.now self.now)) }
        requires some { (u : PlainTree) → subtree node (cut_tree tree.now self.now) ≡ Some u → 0 < weight u }
        ensures { option_and_then (λ t. slice_get (leaves t) 0) (subtree node (cut_tree tree.now self.now)) ≡ Some result }
    {
        tree_laws();
        let nodes = tree.nodes();
        first_within(self.kept.as_slice(), &nodes[node as usize])
    }

    /// The slot that a node that is left is in: that of the position that it is at.
    pub fn slot(&self, tree: &Tree, node: u32) -> Sym
        requires of { IsCutOf tree.now self.now }
        requires left { IsSome (subtree node (cut_tree tree.now self.now)) }
        ensures { slot_at tree.now.form tree.now.start node (cut_tree tree.now self.now) ≡ Some result }
    {
        tree_laws();
        let nodes = tree.nodes();
        let position = self.positions[node as usize];
        nodes[position as usize].slot
    }

    /// The children of a node that is left, from left to right. It takes time linear in the number
    /// of children that the node has in the parsed tree, and of the replacements at their positions.
    pub fn children(&self, alloc: Global, tree: &Tree, node: u32) -> Result<Vec<u32>, Memory>
        requires of { IsCutOf tree.now self.now }
        requires left { IsSome (subtree node (cut_tree tree.now self.now)) }
        ensures { IfOk result (λ children. option_map (λ t. roots (children_of t)) (subtree node (cut_tree tree.now self.now)) ≡ Some children.items) }
    {
        let mut children = Vec::new(alloc);
        self.push_children(tree, node, &mut children)?;
        Ok(children)
    }

    /// Adds the children of a node that is left, from left to right. It takes the time of `children`.
    pub fn push_children(&self, tree: &Tree, node: u32, into: &mut Vec<u32>) -> Result<(), Memory>
        requires of { IsCutOf tree.now self.now }
        requires left { IsSome (subtree node (cut_tree tree.now self.now)) }
        ensures { OnOk result ((u : PlainTree) → subtree node (cut_tree tree.now self.now) ≡ Some u
            → into.new.items ≡ into.old.items ++ roots (children_of u)) }
    {
        tree_laws();
        let nodes = tree.nodes();
        let mut remaining = nodes[node as usize].children;
        let mut position = node + 1;
        while remaining > 0 {
            push_occupant(self.marks.as_slice(), position, into)?;
            position = tree.after(position);
            remaining -= 1;
        }
        Ok(())
    }

    /// The tokens that are left, by their numbers, which rise. It takes time and memory linear in
    /// their number.
    pub fn kept_tokens(&self, alloc: Global, tree: &Tree) -> Result<Vec<u32>, Memory>
        requires { IsCutOf tree.now self.now }
        ensures tokens { IfOk result (λ tokens. tokens.items ≡ leaves (cut_tree tree.now self.now)) }
        ensures rising { IfOk result (λ tokens. IsStrictlyIncreasing tokens.items) }
    {
        let _ = tree;
        let tokens = Vec::from_slice(alloc, self.kept.as_slice())?;
        Ok(tokens)
    }

    /// The tokens that `keep_elements` would leave, by their numbers, which rise. It takes memory linear in the
    /// number of tokens that are left, and the time of `keep_elements`.
    pub fn tokens_of_elements(
        &self,
        alloc: Global,
        tree: &Tree,
        list: u32,
        keep: &[bool],
    ) -> Result<Vec<u32>, Memory>
        requires of { IsCutOf tree.now self.now }
        requires can { CanSelect tree.now.form (cut_tree tree.now self.now) list keep.now }
        ensures tokens { IfOk result (λ tokens. (t : PlainTree) × HasChildren list (selected_trees keep.now) (cut_tree tree.now self.now) t
            × (tokens.items ≡ leaves t)) }
        ensures rising { IfOk result (λ tokens. IsStrictlyIncreasing tokens.items) }
    {
        tree_laws();
        let nodes = tree.nodes();
        let mut tokens = Vec::from_slice(alloc, self.kept.as_slice())?;
        let mut remaining = nodes[list as usize].children;
        let mut progress = self.before_children(tree, list);
        while remaining > 0 {
            progress = self.pass_tokens(tree, keep, &mut tokens, progress);
            remaining -= 1;
        }
        remove_between(&mut tokens, progress.gap.from, progress.gap.to);
        Ok(tokens)
    }

    /// The tokens that `delete_optional` would leave, by their numbers, which rise. It takes time and memory
    /// linear in the number of tokens that are left.
    pub fn tokens_without_content(
        &self,
        alloc: Global,
        tree: &Tree,
        node: u32,
    ) -> Result<Vec<u32>, Memory>
        requires of { IsCutOf tree.now self.now }
        requires can { CanEmpty tree.now.form (cut_tree tree.now self.now) node }
        ensures tokens { IfOk result (λ tokens. (t : PlainTree) × HasChildren node (λ ts. PlainTrees.none) (cut_tree tree.now self.now) t
            × (tokens.items ≡ leaves t)) }
        ensures rising { IfOk result (λ tokens. IsStrictlyIncreasing tokens.items) }
    {
        tree_laws();
        let nodes = tree.nodes();
        match occupant(self.marks.as_slice(), node + 1) {
            Some(content) => {
                let gone = nodes[content as usize];
                let mut tokens = Vec::from_slice(alloc, self.kept.as_slice())?;
                remove_within(&mut tokens, &gone);
                Ok(tokens)
            }
            None => unreachable!(),
        }
    }

    /// The tokens that `replace` would leave, by their numbers, which rise. It takes time and memory linear in
    /// the number of tokens that are left.
    pub fn tokens_of_replacement(
        &self,
        alloc: Global,
        tree: &Tree,
        compat: &Compat,
        node: u32,
        by: u32,
    ) -> Result<Vec<u32>, Memory>
        requires of { IsCutOf tree.now self.now }
        requires compat { compat.now ≡ tree.now.form }
        requires can { CanReplace tree.now.form tree.now.start (cut_tree tree.now self.now) node by }
        ensures tokens { IfOk result (λ tokens. (t : PlainTree)
            × ((u : PlainTree) → subtree by (cut_tree tree.now self.now) ≡ Some u → t ≡ with_subtree node u (cut_tree tree.now self.now))
            × (tokens.items ≡ leaves t)) }
        ensures rising { IfOk result (λ tokens. IsStrictlyIncreasing tokens.items) }
    {
        tree_laws();
        let nodes = tree.nodes();
        let _ = compat;
        let old = nodes[node as usize];
        let new = nodes[by as usize];
        let mut tokens = Vec::from_slice(alloc, self.kept.as_slice())?;
        keep_within(&mut tokens, &old, &new);
        Ok(tokens)
    }

    /// Deletes one element of a star or plus. It takes no memory, and time linear in the number of
    /// tokens that are left after the element.
    pub fn delete_element(&mut self, tree: &Tree, list: u32, element: u32)
        requires of { IsCutOf tree.now self.old }
        requires can { CanDelete tree.now.form (cut_tree tree.now self.old) list element }
        ensures tree { HasChildren list (without element) (cut_tree tree.now self.old) (cut_tree tree.now self.new) }
        ensures of { IsCutOf tree.now self.new }
    {
        tree_laws();
        let _nodes = tree.nodes();
        let _ = list;
        self.delete(tree, element);
    }

    /// Deletes the content of a present optional. It takes no memory, and time linear in the number
    /// of tokens that are left after it.
    pub fn delete_optional(&mut self, tree: &Tree, node: u32)
        requires of { IsCutOf tree.now self.old }
        requires can { CanEmpty tree.now.form (cut_tree tree.now self.old) node }
        ensures tree { HasChildren node (λ ts. PlainTrees.none) (cut_tree tree.now self.old) (cut_tree tree.now self.new) }
        ensures of { IsCutOf tree.now self.new }
    {
        tree_laws();
        let _nodes = tree.nodes();
        match occupant(self.marks.as_slice(), node + 1) {
            Some(content) => self.delete(tree, content),
            None => unreachable!(),
        }
    }

    /// Keeps those elements of a star or plus that are marked by true, and deletes the others. It
    /// takes no memory. Its time is linear in the number of children that the list has in the parsed
    /// tree, of the replacements at their positions, and of the tokens that are left, but for two
    /// searches in these for each element.
    pub fn keep_elements(&mut self, tree: &Tree, list: u32, keep: &[bool])
        requires of { IsCutOf tree.now self.old }
        requires can { CanSelect tree.now.form (cut_tree tree.now self.old) list keep.now }
        ensures tree { HasChildren list (selected_trees keep.now) (cut_tree tree.now self.old) (cut_tree tree.now self.new) }
        ensures of { IsCutOf tree.now self.new }
    {
        tree_laws();
        let nodes = tree.nodes();
        let mut remaining = nodes[list as usize].children;
        let mut progress = self.before_children(tree, list);
        while remaining > 0 {
            progress = self.pass(tree, keep, progress);
            remaining -= 1;
        }
        self.close(progress.gap);
    }

    /// Keeps those of the nodes that are marked by true, and deletes the others, each with all that is
    /// below it. The nodes come from left to right. It takes no memory, and time linear in the number
    /// of nodes and of tokens that are left, but for two searches in these for each node that is
    /// deleted.
    pub fn keep_nodes(&mut self, tree: &Tree, nodes: &[u32], keep: &[bool])
        requires of { IsCutOf tree.now self.old }
        requires each { length keep.now ≡ length nodes.now }
        requires can { CanDrop tree.now.form tree.now.start (cut_tree tree.now self.old) (dropped nodes.now keep.now) }
        ensures tree { cut_tree tree.now self.new ≡ without_nodes (dropped nodes.now keep.now) (cut_tree tree.now self.old) }
        ensures of { IsCutOf tree.now self.new }
    {
        tree_laws();
        let _entries = tree.nodes();
        let mut gap = Gap { from: 0, to: 0 };
        for index in 0..nodes.len() {
            if !keep[index] {
                gap = self.drop_node(tree, nodes[index], gap);
            }
        }
        self.close(gap);
    }

    /// Replaces a regular node by one below it that fits its slot. It takes no memory, and time
    /// linear in the number of tokens that are left from the first one of the node on.
    pub fn replace(&mut self, tree: &Tree, compat: &Compat, node: u32, by: u32)
        requires of { IsCutOf tree.now self.old }
        requires compat { compat.now ≡ tree.now.form }
        requires can { CanReplace tree.now.form tree.now.start (cut_tree tree.now self.old) node by }
        ensures tree { (u : PlainTree) → subtree by (cut_tree tree.now self.old) ≡ Some u
            → cut_tree tree.now self.new ≡ with_subtree node u (cut_tree tree.now self.old) }
        ensures of { IsCutOf tree.now self.new }
    {
        tree_laws();
        let _nodes = tree.nodes();
        let _ = compat;
        self.exchange(tree, node, by);
    }

    /// What the node is by its rule; None where it isn't left.
    fn shape_if_left(&self, tree: &Tree, node: u32) -> Option<Shape>
        requires { IsCutOf tree.now self.now }
        ensures { result ≡ option_and_then (shape_of tree.now.form) (subtree node (cut_tree tree.now self.now)) }
    {
        if !self.is_left(tree, node) {
            return None;
        }
        Some(self.shape(tree, node))
    }

    /// Goes through the children of a node that is left, and looks for one with a certain number.
    fn count_children(&self, tree: &Tree, node: u32, child: u32) -> Seen
        requires of { IsCutOf tree.now self.now }
        requires left { IsSome (subtree node (cut_tree tree.now self.now)) }
        ensures { (u : PlainTree) → subtree node (cut_tree tree.now self.now) ≡ Some u → HasSeen (roots (children_of u)) child result }
    {
        tree_laws();
        let nodes = tree.nodes();
        let mut remaining = nodes[node as usize].children;
        let mut position = node + 1;
        let mut seen = Seen {
            count: 0,
            found: false,
        };
        while remaining > 0 {
            seen = with_occupant(seen, occupant(self.marks.as_slice(), position), child);
            position = tree.after(position);
            remaining -= 1;
        }
        seen
    }

    /// Whether a node that is left has this child, and has at least so many children.
    fn has_element(&self, tree: &Tree, node: u32, child: u32, fewest: u32) -> bool
        requires of { IsCutOf tree.now self.now }
        requires left { IsSome (subtree node (cut_tree tree.now self.now)) }
        ensures { (u : PlainTree) → subtree node (cut_tree tree.now self.now) ≡ Some u → IsTrue result
            ↔ (Contains (roots (children_of u)) child × (fewest ≤ count (children_of u))) }
    {
        let seen = self.count_children(tree, node, child);
        seen.found && seen.count >= fewest
    }

    /// Whether the node `by` is below a node that is left.
    fn has_below(&self, tree: &Tree, node: u32, by: u32) -> bool
        requires of { IsCutOf tree.now self.now }
        requires left { IsSome (subtree node (cut_tree tree.now self.now)) }
        ensures { IsTrue result ↔ HasBelow (cut_tree tree.now self.now) node by }
    {
        tree_laws();
        let _nodes = tree.nodes();
        if by == node {
            return false;
        }
        leads_to(tree, self.marks.as_slice(), node, by)
    }

    /// Whether the node `by` is below a node that is left, and fits its slot.
    fn has_fitting(&self, tree: &Tree, compat: &Compat, node: u32, by: u32) -> bool
        requires of { IsCutOf tree.now self.now }
        requires left { IsSome (subtree node (cut_tree tree.now self.now)) }
        requires compat { compat.now ≡ tree.now.form }
        ensures { IsTrue result ↔ HasFitting tree.now.form tree.now.start (cut_tree tree.now self.now) node by }
    {
        if !self.has_below(tree, node, by) {
            return false;
        }
        compat.fits(self.symbol(tree, by), self.slot(tree, node))
    }

    /// The symbol that a node that is left is itself.
    fn symbol(&self, tree: &Tree, node: u32) -> Sym
        requires of { IsCutOf tree.now self.now }
        requires left { IsSome (subtree node (cut_tree tree.now self.now)) }
        ensures { option_map symbol_of (subtree node (cut_tree tree.now self.now)) ≡ Some result }
    {
        tree_laws();
        let nodes = tree.nodes();
        nodes[node as usize].sym
    }

    /// How many of the tokens that are left are in the span of the node.
    fn count_tokens(&self, tree: &Tree, node: u32) -> usize
        requires node { node < length tree.now.nodes }
        requires rising { IsStrictlyIncreasing self.now.kept }
        requires span { (x : NodeEntry) → slice_get tree.now.nodes node ≡ Some x → x.first ≤ x.end }
        ensures { (x : NodeEntry) → slice_get tree.now.nodes node ≡ Some x → result ≡ length (within x.first x.end self.now.kept) }
    {
        let entry = tree.nodes()[node as usize];
        count_within(self.kept.as_slice(), &entry)
    }

    /// No child of the node is gone through.
    fn before_children(&self, tree: &Tree, node: u32) -> Progress
        requires node { node + 1 < 2 ^ 32 }
        requires entry { node < length tree.now.nodes }
        requires rising { IsStrictlyIncreasing self.now.kept }
        ensures position { result.position ≡ node + 1 }
        ensures elements { result.elements ≡ 0 }
        ensures gap { result.gap.to ≡ result.gap.from }
        ensures split { (x : NodeEntry) → slice_get tree.now.nodes node ≡ Some x → IsSplitAt self.now.kept x.first result.gap.from }
    {
        let entry = tree.nodes()[node as usize];
        let from = count_before(self.kept.as_slice(), entry.first);
        Progress {
            position: node + 1,
            elements: 0,
            gap: Gap { from, to: from },
        }
    }

    /// Goes through the next child of a list: an element that is at its position is kept or deleted.
    fn pass(&mut self, tree: &Tree, keep: &[bool], progress: Progress) -> Progress
        requires { CanPass tree.now keep.now self.old progress }
        ensures { HasPassed tree.now keep.now self.old progress self.new result }
    {
        tree_laws();
        let _nodes = tree.nodes();
        let position = tree.after(progress.position);
        let node = match self.occupant_at(progress.position) {
            Some(node) => node,
            None => {
                return Progress {
                    position,
                    elements: progress.elements,
                    gap: progress.gap,
                };
            }
        };
        let count = self.count_next(tree, node, progress.gap);
        let elements = progress.elements + 1;
        if keep[progress.elements] {
            let gap = self.keep_tokens(progress.gap, count);
            return Progress {
                position,
                elements,
                gap,
            };
        }
        let gap = self.skip_tokens(progress.gap, count);
        self.mark_deleted(node);
        Progress {
            position,
            elements,
            gap,
        }
    }

    /// Goes through the next child of a list as `pass` does, but changes these tokens alone.
    fn pass_tokens(
        &self,
        tree: &Tree,
        keep: &[bool],
        tokens: &mut Vec<u32>,
        progress: Progress,
    ) -> Progress
        requires of { IsCutOf tree.now self.now }
        requires can { CanPassTokens tree.now self.now keep.now tokens.old.items progress }
        ensures { HasPassedTokens tree.now self.now keep.now tokens.old.items progress tokens.new.items result }
    {
        tree_laws();
        let _nodes = tree.nodes();
        let position = tree.after(progress.position);
        let node = match self.occupant_at(progress.position) {
            Some(node) => node,
            None => {
                return Progress {
                    position,
                    elements: progress.elements,
                    gap: progress.gap,
                };
            }
        };
        let count = count_after(tree, tokens, node, progress.gap);
        let elements = progress.elements + 1;
        if keep[progress.elements] {
            let gap = keep_next(tokens, progress.gap, count);
            return Progress {
                position,
                elements,
                gap,
            };
        }
        let gap = skip_next(tokens, progress.gap, count);
        Progress {
            position,
            elements,
            gap,
        }
    }

    /// The node that is at a position.
    fn occupant_at(&self, position: u32) -> Option<u32>
        requires position { position < length self.now.marks }
        requires rise { ReplacementsRise self.now.marks }
        ensures { IsOccupant self.now.marks position result }
    {
        occupant(self.marks.as_slice(), position)
    }

    /// How many of the tokens after the gap are in the span of the node.
    fn count_next(&self, tree: &Tree, node: u32, gap: Gap) -> usize
        requires node { node < length tree.now.nodes }
        requires gap { gap.to ≤ length self.now.kept }
        requires rising { IsStrictlyIncreasing (drop gap.to self.now.kept) }
        requires span { (x : NodeEntry) → slice_get tree.now.nodes node ≡ Some x → x.first ≤ x.end }
        ensures { (x : NodeEntry) → slice_get tree.now.nodes node ≡ Some x → result ≡ length (within x.first x.end (drop gap.to self.now.kept)) }
    {
        count_after(tree, self.kept.as_slice(), node, gap)
    }

    /// So many of the tokens after the gap stay.
    fn keep_tokens(&mut self, gap: Gap, count: usize) -> Gap
        requires from { gap.from ≤ gap.to }
        requires to { gap.to + count ≤ length self.old.kept }
        ensures marks { self.new.marks ≡ self.old.marks }
        ensures positions { self.new.positions ≡ self.old.positions }
        ensures from { result.from ≡ gap.from + count }
        ensures to { result.to ≡ gap.to + count }
        ensures stay { take (gap.from + count) self.new.kept ≡ take gap.from self.old.kept ++ take count (drop gap.to self.old.kept) }
        ensures next { drop (gap.to + count) self.new.kept ≡ drop (gap.to + count) self.old.kept }
        ensures len { length self.new.kept ≡ length self.old.kept }
    {
        keep_next(&mut self.kept, gap, count)
    }

    /// So many of the tokens after the gap are to be removed too.
    fn skip_tokens(&self, gap: Gap, count: usize) -> Gap
        requires { gap.to + count ≤ length self.now.kept }
        ensures from { result.from ≡ gap.from }
        ensures to { result.to ≡ gap.to + count }
    {
        skip_next(self.kept.as_slice(), gap, count)
    }

    /// Deletes the next of several nodes: the tokens that are between the gap and the node's stay, and
    /// the node's are to be removed.
    fn drop_node(&mut self, tree: &Tree, node: u32, gap: Gap) -> Gap
        requires { CanDropNext tree.now node self.old gap }
        ensures { HasDroppedNext tree.now node self.old gap self.new result }
    {
        tree_laws();
        let entry = tree.nodes()[node as usize];
        let before = self.count_until(entry.first, gap);
        let end = self.count_until(entry.end, gap);
        let kept = self.keep_tokens(gap, before);
        self.mark_deleted(node);
        self.skip_tokens(kept, end - before)
    }

    /// How many of the tokens after the gap are before the bound.
    fn count_until(&self, bound: u32, gap: Gap) -> usize
        requires gap { gap.to ≤ length self.now.kept }
        requires rising { IsStrictlyIncreasing (drop gap.to self.now.kept) }
        ensures { IsSplitAt (drop gap.to self.now.kept) bound result }
    {
        count_before(&self.kept[gap.to..], bound)
    }

    /// Marks the node as deleted; its tokens are still there.
    fn mark_deleted(&mut self, node: u32)
        requires { node < length self.old.marks }
        ensures marks { self.new.marks ≡ slice_set self.old.marks node Deleted }
        ensures positions { self.new.positions ≡ self.old.positions }
        ensures kept { self.new.kept ≡ self.old.kept }
    {
        self.marks[node as usize] = Mark::Deleted;
    }

    /// Removes the tokens in the gap.
    fn close(&mut self, gap: Gap)
        requires from { gap.from ≤ gap.to }
        requires to { gap.to ≤ length self.old.kept }
        ensures marks { self.new.marks ≡ self.old.marks }
        ensures positions { self.new.positions ≡ self.old.positions }
        ensures kept { self.new.kept ≡ take gap.from self.old.kept ++ drop gap.to self.old.kept }
    {
        remove_between(&mut self.kept, gap.from, gap.to);
    }

    /// Lets the node `by`, which is below the other one, have its position.
    fn exchange(&mut self, tree: &Tree, node: u32, by: u32)
        requires mark { node < length self.old.marks }
        requires position { node < length self.old.positions }
        requires by_position { by < length self.old.positions }
        requires node { node < length tree.now.nodes }
        requires by_node { by < length tree.now.nodes }
        requires rising { IsStrictlyIncreasing self.old.kept }
        requires span { (x : NodeEntry) → slice_get tree.now.nodes node ≡ Some x → x.first ≤ x.end }
        requires by_span { (y : NodeEntry) → slice_get tree.now.nodes by ≡ Some y → y.first ≤ y.end }
        requires fewer { (x y : NodeEntry) → slice_get tree.now.nodes node ≡ Some x → slice_get tree.now.nodes by ≡ Some y
            → length (within y.first y.end self.old.kept) ≤ length (within x.first x.end self.old.kept) }
        ensures { HasReplaced tree.now self.old self.new node by }
    {
        let old = tree.nodes()[node as usize];
        let new = tree.nodes()[by as usize];
        let position = self.positions[node as usize];
        self.marks[node as usize] = Mark::Replaced(by);
        self.positions[by as usize] = position;
        keep_within(&mut self.kept, &old, &new);
    }

    /// Deletes the node, with all that is below it.
    fn delete(&mut self, tree: &Tree, node: u32)
        requires mark { node < length self.old.marks }
        requires node { node < length tree.now.nodes }
        requires rising { IsStrictlyIncreasing self.old.kept }
        requires span { (x : NodeEntry) → slice_get tree.now.nodes node ≡ Some x → x.first ≤ x.end }
        ensures { HasDeleted tree.now self.old self.new node }
    {
        let gone = tree.nodes()[node as usize];
        self.mark_deleted(node);
        remove_within(&mut self.kept, &gone);
    }
}
