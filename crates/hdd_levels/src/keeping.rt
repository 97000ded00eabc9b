//! Nodes of one level that are deleted at once.

ghost use Rattle.std.specs.Prelude.{◌≡◌, ℕ, if◌then◌else◌, false, Some, None, length};
ghost use Rattle.std.specs.List.{All, list_all, list_any};
ghost use Rattle.syntax_tree_cut.specs.Cuts.{IsCutOf, cut_tree};
ghost use Rattle.hdd_levels.specs.LevelForms.{IsLevelAt};
ghost use Rattle.hdd_levels.specs.inner.LevelForms.{IsWithin, keeps_element};
ghost use Rattle.hdd_levels.specs.Levels.{fills_pluses, kept_only, kept_tree};

use crate::level_nodes::{Elements, LevelNodes};
use syntax_tree::Tree;
use syntax_tree_cut::Cut;

/// Deletes those nodes of the level that are marked by false, and answers true; or false, where a plus
/// would be empty, and then nothing changes. It takes no memory, and time linear in the number of nodes
/// of the level and of tokens that are left, but for two searches in these for each node that is
/// deleted.
pub fn keep_only(cut: &mut Cut, tree: &Tree, level: &LevelNodes, keep: &[bool]) -> bool
    requires of { IsCutOf tree.now cut.old }
    requires level { (d : ℕ) × IsLevelAt tree.now.form (cut_tree tree.now cut.old) d level.now }
    requires each { length keep.now ≡ length level.now.nodes }
    ensures kept { kept_only tree.now.form level.now.nodes keep.now (cut_tree tree.now cut.old) ≡ (if result then Some (cut_tree tree.now cut.new) else None) }
    ensures refused { result ≡ false → cut.new ≡ cut.old }
    ensures of { IsCutOf tree.now cut.new }
{
    let _nodes = tree.nodes();
    if !can_keep(cut, tree, level, keep) {
        return false;
    }
    cut.keep_nodes(tree, level.nodes(), keep);
    true
}

/// Whether no plus would be empty if those nodes of the level that are marked by false were deleted. It
/// takes no memory, and time linear in the number of nodes of the level.
pub fn can_keep(cut: &Cut, tree: &Tree, level: &LevelNodes, keep: &[bool]) -> bool
    requires of { IsCutOf tree.now cut.now }
    requires level { (d : ℕ) × IsLevelAt tree.now.form (cut_tree tree.now cut.now) d level.now }
    requires each { length keep.now ≡ length level.now.nodes }
    ensures { result ≡ fills_pluses tree.now.form (kept_tree level.now.nodes keep.now (cut_tree tree.now cut.now)) }
{
    let _nodes = tree.nodes();
    let _ = cut;
    keeps_elements(level.pluses(), keep)
}

/// Whether of the elements of each plus at least one is kept.
fn keeps_elements(pluses: &[Elements], keep: &[bool]) -> bool
    requires { All (IsWithin (length keep.now)) pluses.now }
    ensures { result ≡ list_all (keeps_element keep.now) pluses.now }
{
    for plus in pluses {
        if !keeps_one(&keep[plus.from..plus.end]) {
            return false;
        }
    }
    true
}

/// Whether one of the flags is true.
fn keeps_one(keep: &[bool]) -> bool
    ensures { result ≡ list_any (λ b. b) keep.now }
{
    keep.contains(&true)
}
