//! Edits of cuts that any numbers may be given to: each is asked first whether it can be, and where it
//! can't nothing is changed.

ghost use Rattle.std.specs.Prelude.{◌≡◌, ◌↔◌, Bool, true, false, IsTrue};
ghost use Rattle.syntax_tree.specs.Trees.{PlainTrees};
ghost use Rattle.syntax_tree_cut.specs.Cuts.{CanDelete, CanEmpty, CanReplace, IsCutOf, cut_tree};
ghost use Rattle.cases_cuts.specs.Edits.{CanMake, Makes, MakesIf};
ghost use Rattle.cases_cuts.specs.declared.edit.Edit.TheVariants.{Delete, Empty, Replace};

use compat_table::Compat;
use syntax_tree::Tree;
use syntax_tree_cut::Cut;

/// An edit, which names nodes by their numbers.
#[derive(Clone, Copy, Debug, PartialEq, Eq)]
pub(crate) enum Edit {
    /// Deletes an element of a list.
    Delete { list: u32, element: u32 },

    /// Deletes the content of an optional.
    Empty { node: u32 },

    /// Lets a node have the position of one that it is below.
    Replace { node: u32, by: u32 },
}

/// Deletes an element, where that can be. The answer is whether it could.
fn delete(tree: &Tree, cut: &mut Cut, list: u32, element: u32) -> bool
    requires { IsCutOf tree.now cut.old }
    ensures can { IsTrue result ↔ CanMake tree.now (cut_tree tree.now cut.old) (Delete list element) }
    ensures edit { MakesIf result tree.now (Delete list element) cut.old cut.new }
    ensures of { IsCutOf tree.now cut.new }
{
    if !cut.can_delete(tree, list, element) {
        return false;
    }
    cut.delete_element(tree, list, element);
    true
}

/// Deletes the content of an optional, where that can be.
fn empty(tree: &Tree, cut: &mut Cut, node: u32) -> bool
    requires { IsCutOf tree.now cut.old }
    ensures can { IsTrue result ↔ CanMake tree.now (cut_tree tree.now cut.old) (Empty node) }
    ensures edit { MakesIf result tree.now (Empty node) cut.old cut.new }
    ensures of { IsCutOf tree.now cut.new }
{
    if !cut.can_empty(tree, node) {
        return false;
    }
    cut.delete_optional(tree, node);
    true
}

/// Replaces a node, where that can be.
fn replace(tree: &Tree, cut: &mut Cut, compat: &Compat, node: u32, by: u32) -> bool
    requires of { IsCutOf tree.now cut.old }
    requires compat { compat.now ≡ tree.now.form }
    ensures can { IsTrue result ↔ CanMake tree.now (cut_tree tree.now cut.old) (Replace node by) }
    ensures edit { MakesIf result tree.now (Replace node by) cut.old cut.new }
    ensures of { IsCutOf tree.now cut.new }
{
    if !cut.can_replace(tree, compat, node, by) {
        return false;
    }
    cut.replace(tree, compat, node, by);
    true
}

/// Makes the edit, where it can be made; else the cut stays as it was. The answer is whether it could.
/// Its time is that of the edit and of asking for it (see [`Cut`]).
pub(crate) fn make(tree: &Tree, cut: &mut Cut, compat: &Compat, edit: Edit) -> bool
    requires of { IsCutOf tree.now cut.old }
    requires compat { compat.now ≡ tree.now.form }
    ensures can { IsTrue result ↔ CanMake tree.now (cut_tree tree.now cut.old) edit }
    ensures edit { MakesIf result tree.now edit cut.old cut.new }
    ensures of { IsCutOf tree.now cut.new }
{
    match edit {
        Edit::Delete { list, element } => delete(tree, cut, list, element),
        Edit::Empty { node } => empty(tree, cut, node),
        Edit::Replace { node, by } => replace(tree, cut, compat, node, by),
    }
}
