//! What holds of a queue's nodes, for the proofs of callers.

ghost use Rattle.node_queue.specs.Laws.{HasOneMore, NextIsHeaviest, StaysInOrder};

/// With one node more, a queue has this node and those that it had.
pub fn has_one_more()
    ensures { HasOneMore }
{}

/// A queue in order stays so with one node more.
pub fn stays_in_order()
    ensures { StaysInOrder }
{}

/// In order, the next node is the heaviest, and of several such it is one whose first token is the
/// first.
pub fn next_is_heaviest()
    ensures { NextIsHeaviest }
{}
