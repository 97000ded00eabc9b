//! What a cut says of one node.

ghost use Rattle.std.specs.Prelude.{◌≡◌, IfOk, replicate};
ghost use Rattle.syntax_tree_cut.specs.declared.mark.Mark.TheVariants.{Kept};

use faults::Memory;
use std::alloc::Global;

/// What a cut says of one node of the parsed tree. It has 8 bytes.
#[derive(Clone, Copy, Debug, PartialEq, Eq)]
pub enum Mark {
    /// It is left, as long as what it is in is left.
    Kept,

    /// It is deleted, with all that is below it.
    Deleted,

    /// The node with this number, which is below it, has its position.
    Replaced(u32),
}

/// So many marks that are all `Kept`.
pub(crate) fn kept_marks(alloc: Global, count: usize) -> Result<Vec<Mark>, Memory>
    ensures { IfOk result (λ marks. marks.items ≡ replicate count Kept) }
{
    let marks = vec![in alloc; Mark::Kept; count]?;
    Ok(marks)
}
