//! What is below a node that is left, level by level.

ghost use Rattle.std.specs.Prelude.{◌≡◌, ◌≢◌, ◌↔◌, ◌<◌, Bool, Some, IfOk, IsSome, IsTrue, map};
ghost use Rattle.normal_form.specs.declared.normal.Sym.{Sym as Symbol};
ghost use Rattle.compat_table.specs.Fits.{Fits};
ghost use Rattle.syntax_tree.specs.Trees.{PlainTree, symbol_of, weight};
ghost use Rattle.syntax_tree.specs.Numbered.{number_of, subtree};
ghost use Rattle.syntax_tree.specs.Valid.{slot_at};
ghost use Rattle.syntax_tree.specs.Levels.{below_in_level_order};
ghost use Rattle.syntax_tree_cut.specs.Cuts.{IsCutOf, cut_tree};
ghost use Rattle.descend_replace.specs.Compatible.{DecidesFits, compatible as compatible_trees};

use compat_table::Compat;
use faults::Memory;
use normal_form::Sym;
use std::alloc::Global;
use syntax_tree::Tree;
use syntax_tree_cut::Cut;

/// The descendants of a node that is left which can take its position: those that are left, whose
/// symbol fits the node's slot, and that have fewer tokens. They come level by level, each level from
/// left to right. It takes memory linear in the number of nodes and leaves below the node, and beside
/// the time for their children, for each of them the time of a look into the table of what fits and
/// of its weight. Callers replace regular nodes alone; of others it gives the same list.
pub fn compatible(
    alloc: Global,
    tree: &Tree,
    cut: &Cut,
    compat: &Compat,
    node: u32,
) -> Result<Vec<u32>, Memory>
    requires of { IsCutOf tree.now cut.now }
    requires compat { compat.now ≡ tree.now.form }
    requires left { IsSome (subtree node (cut_tree tree.now cut.now)) }
    ensures { IfOk result (λ found. (fits : Symbol → Symbol → Bool) (s : Symbol) (v : PlainTree) → DecidesFits tree.now.form fits
        → slot_at tree.now.form tree.now.start node (cut_tree tree.now cut.now) ≡ Some s → subtree node (cut_tree tree.now cut.now) ≡ Some v
        → found.items ≡ map number_of (compatible_trees fits s v)) }
{
    let _nodes = tree.nodes();
    let slot = cut.slot(tree, node);
    let weight = cut.weight(tree, node);
    let below = level_order(alloc, tree, cut, node)?;
    let mut found = Vec::new(alloc);
    for number in &below {
        if can_take(tree, cut, compat, slot, weight, *number) {
            found.push(*number)?;
        }
    }
    Ok(found)
}

/// All that is below a node that is left, level by level, each level from left to right. It takes
/// time and memory linear in the number of nodes and leaves below the node, beside the time for their
/// children.
pub fn level_order(alloc: Global, tree: &Tree, cut: &Cut, node: u32) -> Result<Vec<u32>, Memory>
    requires of { IsCutOf tree.now cut.now }
    requires left { IsSome (subtree node (cut_tree tree.now cut.now)) }
    ensures { IfOk result (λ found. (v : PlainTree) → subtree node (cut_tree tree.now cut.now) ≡ Some v
        → found.items ≡ map number_of (below_in_level_order v)) }
{
    let _nodes = tree.nodes();
    let mut found = cut.children(alloc, tree, node)?;
    let mut next = 0;
    while next < found.len() {
        let parent = found[next];
        cut.push_children(tree, parent, &mut found)?;
        next += 1;
    }
    Ok(found)
}

/// Whether the node, which is left, fits the slot and has fewer tokens than `tokens`.
fn can_take(tree: &Tree, cut: &Cut, compat: &Compat, slot: Sym, tokens: u32, node: u32) -> bool
    requires of { IsCutOf tree.now cut.now }
    requires compat { compat.now ≡ tree.now.form }
    requires left { IsSome (subtree node (cut_tree tree.now cut.now)) }
    ensures { (u : PlainTree) → subtree node (cut_tree tree.now cut.now) ≡ Some u → IsTrue result
        ↔ (Fits tree.now.form (symbol_of u) slot × (weight u < tokens)) }
{
    let symbol = tree.nodes()[node as usize].sym;
    compat.fits(symbol, slot) && cut.weight(tree, node) < tokens
}
