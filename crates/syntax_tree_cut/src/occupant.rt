//! Which nodes are at the positions of others.

ghost use Rattle.std.specs.Prelude.{◌≡◌, ℕ, Option, ◌<◌, ◌++◌, OnOk, length, option_to_list};
ghost use Rattle.syntax_tree_cut.specs.Cuts.{IsOccupant};
ghost use Rattle.syntax_tree_cut.specs.inner.Cuts.{ReplacementsRise};

use crate::mark::Mark;
use faults::Memory;

/// The node that is at the position of this one: the node itself, the one that replaces it, or none
/// where it is deleted. It takes time linear in the number of replacements, one after another, at
/// this position.
pub(crate) fn occupant(marks: &[Mark], node: u32) -> Option<u32>
    requires node { node < length marks.now }
    requires rise { ReplacementsRise marks.now }
    ensures { IsOccupant marks.now node result }
{
    let mut node = node;
    'position: loop {
        match marks[node as usize] {
            Mark::Kept => return Some(node),
            Mark::Deleted => return None,
            Mark::Replaced(by) => node = by,
        }
    }
}

/// Adds the node that is at the position of this one, where there is one.
pub(crate) fn push_occupant(marks: &[Mark], node: u32, into: &mut Vec<u32>) -> Result<(), Memory>
    requires node { node < length marks.now }
    requires rise { ReplacementsRise marks.now }
    ensures { OnOk result ((o : Option ℕ) × IsOccupant marks.now node o × (into.new.items ≡ into.old.items ++ option_to_list o)) }
{
    if let Some(occupant) = occupant(marks, node) {
        into.push(occupant)?;
    }
    Ok(())
}
