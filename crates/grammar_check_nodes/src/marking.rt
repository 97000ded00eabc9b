//! The least table that is closed under a test of nodes: nodes are marked one after another, each
//! because it passes by those marked before it, until none more does.

ghost use Rattle.std.specs.Prelude.{◌≡◌, ℕ, ◌<◌, List, IfOk, count_by, false, length, not, true, vec_len};
ghost use Rattle.std.specs.List.{All};
ghost use Rattle.grammar_check_nodes.specs.Marking.{IsClosedAt, IsMarked};

use crate::horn::{Condition, order_of};
use faults::Memory;
use std::alloc::Global;

/// A test of nodes that are numbered from 0, by a table of nodes.
///
/// A node passes where one of its alternatives holds, and an alternative where all of its terms do.
/// No contract says that the alternatives are those of the test: only the time that [`least_table`]
/// takes depends on them.
pub trait Test {
    ghost use Rattle.std.specs.Prelude.{◌≡◌, ◌<◌, ℕ, Bool, List};

    /// An alternative of a node, or of a block in one.
    type Alternative;

    /// A term of an alternative.
    type Term;

    /// How many nodes there are.
    ghost nodes: { Self → ℕ };

    /// Whether a node passes by a table.
    ghost test: { Self → List Bool → ℕ → Bool };

    /// How many nodes there are.
    fn count(&self) -> usize
        ensures { result ≡ nodes self.now };

    /// Whether the node with this number, from 0, passes by the table.
    fn passes(&self, flags: &[bool], node: usize) -> bool
        requires { node < nodes self.now }
        ensures { result ≡ test self.now flags.now node };

    /// The alternatives of a node.
    fn alternatives(&self, node: usize) -> &[Self::Alternative]
        requires { node < nodes self.now };

    /// The terms of an alternative.
    fn terms(alternative: &Self::Alternative) -> &[Self::Term];

    /// Where a term holds.
    fn condition<'t>(&self, term: &'t Self::Term) -> Condition<'t, Self::Alternative>;
}

/// Marks the node, where it passes by what is marked so far. The answer is whether it wasn't marked
/// before.
fn mark<T: Test>(test: &T, flags: &mut Vec<bool>, node: usize) -> bool
    requires node { node < T.nodes test.now }
    requires table { vec_len flags.old ≡ T.nodes test.now }
    ensures table { vec_len flags.new ≡ vec_len flags.old }
    ensures marked { IsMarked (T.test test.now) flags.old.items → IsMarked (T.test test.now) flags.new.items }
    ensures fewer { result ≡ true → count_by not flags.new.items < count_by not flags.old.items }
    ensures same { result ≡ false → flags.new.items ≡ flags.old.items }
    ensures closed { result ≡ false → IsClosedAt (T.test test.now) flags.old.items node }
{
    if flags[node] {
        return false;
    }
    if !test.passes(flags, node) {
        return false;
    }
    flags[node] = true;
    true
}

/// Marks nodes, in this order, as long as each passes by what is marked before it.
fn mark_in_order<T: Test>(test: &T, flags: &mut Vec<bool>, order: &[usize])
    requires order { All (λ node. node < T.nodes test.now) order.now }
    requires table { vec_len flags.old ≡ T.nodes test.now }
    ensures table { vec_len flags.new ≡ vec_len flags.old }
    ensures marked { IsMarked (T.test test.now) flags.old.items → IsMarked (T.test test.now) flags.new.items }
{
    for node in order {
        let _ = mark(test, flags, *node);
    }
}

/// Marks all nodes that pass by what is marked so far. The answer is whether one wasn't marked
/// before.
fn mark_all<T: Test>(test: &T, flags: &mut Vec<bool>) -> bool
    requires table { vec_len flags.old ≡ T.nodes test.now }
    ensures table { vec_len flags.new ≡ vec_len flags.old }
    ensures marked { IsMarked (T.test test.now) flags.old.items → IsMarked (T.test test.now) flags.new.items }
    ensures fewer { result ≡ true → count_by not flags.new.items < count_by not flags.old.items }
    ensures closed { result ≡ false → (node : ℕ) → node < T.nodes test.now → IsClosedAt (T.test test.now) flags.new.items node }
{
    let mut changed = false;
    for node in 0..test.count() {
        if mark(test, flags, node) {
            changed = true;
        }
    }
    changed
}

/// The least table that is closed under the test. The nodes are looked at in the order in which
/// their conditions find them, and then in that of their numbers until nothing changes. So it takes
/// time linear in the terms, where the conditions are those of the test.
pub fn least_table<T: Test>(alloc: Global, test: &T) -> Result<Vec<bool>, Memory>
    ensures table { IfOk result (λ flags. vec_len flags ≡ T.nodes test.now) }
    ensures marked { IfOk result (λ flags. IsMarked (T.test test.now) flags.items) }
    ensures closed { IfOk result (λ flags. (node : ℕ) → node < T.nodes test.now → IsClosedAt (T.test test.now) flags.items node) }
{
    let order = order_of(alloc, test)?;
    let mut flags = vec![in alloc; false; test.count()]?;
    mark_in_order(test, &mut flags, &order);
    while mark_all(test, &mut flags) {}
    Ok(flags)
}
