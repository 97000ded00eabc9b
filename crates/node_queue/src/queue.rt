//! Nodes that wait, heaviest first.

ghost use Rattle.std.specs.Prelude.{◌≡◌, ◌↔◌, [], IsTrue, IfOk, OnOk, OnErr, option_map, slice_get, drop};
ghost use Rattle.node_queue.specs.Waiting.{IsInOrder, with_node};

use faults::Memory;
use std::alloc::Global;
use std::cmp::Reverse;
use std::collections::BinaryHeap;
use std::marker::Model;

/// A node that waits. The greatest entry is taken out first, so its fields are compared in this
/// order, and of two the smaller first token and number is the greater one.
#[derive(Clone, Copy, Debug, PartialEq, Eq, PartialOrd, Ord)]
struct Entry {
    weight: u32,
    first: Reverse<u32>,
    node: Reverse<u32>,
}

/// Nodes of a tree that wait, heaviest first.
///
/// A contract sees the list of the nodes in the order in which they are taken out. A node is here
/// what it was pushed with: its number, its weight in tokens, and the position of its first token,
/// counted from 0. It may be pushed more than once, and is then taken out as often.
#[derive(Drop)]
pub struct Queue {
    alloc: Global,
    heap: BinaryHeap<Entry>,
}

impl Model for Queue {
    ghost use Rattle.std.specs.Prelude.{List};
    ghost use Rattle.std.specs.BinaryHeap.{IsHeap, heap_items};
    ghost use Rattle.node_queue.specs.Waiting.{Waiting};

    ghost Value = { List Waiting };

    ghost use Rattle.node_queue.specs.inner.Heap.{entry_cmp, in_order};

    ghost view = { λ queue. in_order (heap_items queue.heap) };

    ghost invariant = { λ queue. IsHeap entry_cmp (heap_items queue.heap) };
}

impl Queue {
    /// A queue in which no node waits. It takes no memory.
    pub fn new(alloc: Global) -> Queue
        ensures { result ≡ [] }
    {
        Queue {
            alloc,
            heap: BinaryHeap::new(alloc),
        }
    }

    /// Whether no node waits.
    pub fn is_empty(&self) -> bool
        ensures { IsTrue result ↔ (self.now ≡ []) }
    {
        self.heap.is_empty()
    }

    /// Adds a node with its weight and its first token. It takes time logarithmic in the number of
    /// nodes that wait, beside what a greater buffer costs now and then.
    pub fn push(&mut self, node: u32, weight: u32, first: u32) -> Result<(), Memory>
        ensures ok { OnOk result (self.new ≡ with_node (record { node = node; weight = weight; first = first }) self.old) }
        ensures err { OnErr result (self.new ≡ self.old) }
    {
        let entry = Entry {
            weight,
            first: Reverse(first),
            node: Reverse(node),
        };
        self.heap.push(entry)?;
        Ok(())
    }

    /// Takes out the heaviest node, and of several such the one whose first token is the first.
    /// None where no node waits. It takes no memory, and time logarithmic in the number of nodes
    /// that wait.
    pub fn pop_heaviest(&mut self) -> Option<u32>
        ensures next { result ≡ option_map (λ waiting. waiting.node) (slice_get self.old 0) }
        ensures later { self.new ≡ drop 1 self.old }
        ensures order { IsInOrder self.old }
    {
        let Entry { node, .. } = self.heap.pop()?;
        Some(node.0)
    }

    /// An equal queue. It takes time and memory linear in the number of nodes that wait.
    pub fn copy(&self) -> Result<Queue, Memory>
        ensures { IfOk result (λ queue. queue ≡ self.now) }
    {
        let entries = Vec::from_slice(self.alloc, self.heap.as_slice())?;
        Ok(Queue {
            alloc: self.alloc,
            heap: BinaryHeap::from(entries),
        })
    }
}
